//! One event of a connection.
ghost use Rattle.std.specs.Prelude.{◌≡◌, ℕ, List, [], ◌∷◌, IfOk, IfErr};
ghost use Rattle.shared_machine.specs.Passes.{IsPassOf};
ghost use Rattle.port_session.specs.Calls.{Gained};
ghost use Rattle.port_session.specs.Events.{device_of as device_in, event};

use crate::port::Port;
use port_events::{PortAnswer, PortEvent, What};
use shared_machine::{Hub, Machine, NoMemory, Pass, StepRelation};
use std::sync::Wait;

// The device of an event, 0 where the port has none.
fn device_of(port: &Port) -> u32
    ensures { result ≡ device_in port.now.device }
{
    port.device.unwrap_or(0)
}

/// Tells the hub what happens on the connection.
pub(crate) fn tell<
    M: StepRelation<Event = PortEvent, Answer = PortAnswer> + Machine<D>,
    D: Drop,
    R: Wait,
>(
    rt: &R,
    hub: &Hub<M, D>,
    pass: &mut Pass<M, D>,
    port: &Port,
    what: What,
) -> Result<PortAnswer, NoMemory>
    requires { IsPassOf hub.now pass.old }
    ensures pass { IsPassOf hub.now pass.new × (pass.new.caller ≡ pass.old.caller) }
    ensures ok { IfOk result (λ a. Gained M.steps M.refusal M.decks_left hub.now.start.0 pass.old.caller pass.old.seen pass.new.seen ((event port.now what, a) ∷ [])) }
    ensures err { IfErr result (λ _. pass.new ≡ pass.old) }
{
    hub.call(
        rt,
        pass,
        PortEvent {
            side: port.side,
            device: device_of(port),
            link: port.link,
            what,
        },
    )
}
