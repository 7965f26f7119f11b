//! What each worker gets one more of.
ghost use Rattle.std.specs.Prelude.{◌≡◌, ◌≢◌, IfOk};
ghost use Rattle.std.specs.Arc.{arc_value};
ghost use Rattle.std.specs.Option.{option_map};
ghost use Rattle.shared_machine.specs.Passes.{IsPassOf};

use mos_fields::{NoMemory, pair_ok};
use port_events::{PortAnswer, PortEvent};
use port_jobs::Names;
use port_session::Port;
use shared_machine::{Hub, Machine, Pass, StepRelation};
use std::sync::Arc;

/// The port again, in memory of its own.
pub(crate) fn copy_port(port: &Port) -> Result<Port, NoMemory>
    ensures { IfOk result (λ p. p ≡ port.now) }
{
    let (mos, ncs) = pair_ok(port.mos.try_clone(), port.ncs.try_clone())?;
    Ok(Port {
        side: port.side,
        device: port.device,
        link: port.link,
        mos,
        ncs,
    })
}

/// The names again, shared.
pub(crate) fn share_names(names: &Option<Arc<Names>>) -> Result<Option<Arc<Names>>, NoMemory>
    ensures { IfOk result (λ n. option_map arc_value n ≡ option_map arc_value names.now) }
{
    match names {
        Some(names) => Ok(Some(Arc::try_clone(names)?)),
        None => Ok(None),
    }
}

/// The hub again, shared, and one more pass. It has seen what the other one has, and stands for a caller of its own.
pub(crate) fn share_hub<
    M: StepRelation<Event = PortEvent, Answer = PortAnswer> + Machine<D>,
    D: Drop,
>(hub: &Arc<Hub<M, D>>, pass: &mut Pass<M, D>) -> Result<(Arc<Hub<M, D>>, Pass<M, D>), NoMemory>
    requires { IsPassOf (arc_value hub.now) pass.old }
    ensures same { pass.new ≡ pass.old }
    ensures hub { IfOk result (λ s. arc_value s.0 ≡ arc_value hub.now) }
    ensures pass { IfOk result (λ s. IsPassOf (arc_value s.0) s.1) }
    ensures caller { IfOk result (λ s. (s.1.seen ≡ pass.old.seen) × (s.1.caller ≢ pass.old.caller)) }
{
    let Ok(theirs) = Arc::try_clone(hub) else {
        return Err(NoMemory);
    };
    let Ok(own) = hub.split(pass) else {
        return Err(NoMemory);
    };
    Ok((theirs, own))
}
