//! Single orders of a gateway's table.
ghost use Rattle.std.specs.Prelude.{◌≡◌, OnOk, OnErr, IsSome};
ghost use Rattle.std.specs.Option.{option_copied};
ghost use Rattle.mos_machines.specs.Tables.{KnownOrder, unknown_order, look, put_row};
ghost use Rattle.order_table.specs.Rows.{find_row};
ghost use Rattle.mos_machines.specs.Device.{is_in, got_phase};
ghost use Rattle.gateway_core.specs.Gots.{got_known};
ghost use Rattle.gateway_core.specs.Parts.{phase_of, wanted_order, first_wanted_row};

use crate::known::{Known, Phase, is_wanted};
use mos_fields::{Id, NoMemory, let_go};
use order_table::OrderTable;
use running_order::Order;

// How an order stands.
pub fn phase_in(orders: &OrderTable<Known>, ro: &Id) -> Phase
    ensures { phase_of result ≡ (look unknown_order orders.now ro.now).phase }
{
    match orders.find(ro) {
        Some(known) => known.phase,
        None => Phase::Out,
    }
}

// Whether it is to be asked for.
pub fn is_wanted_in(orders: &OrderTable<Known>, ro: &Id) -> bool
    ensures { result ≡ (look unknown_order orders.now ro.now).wanted }
{
    match orders.find(ro) {
        Some(known) => known.wanted,
        None => false,
    }
}

// The order that is held, or that there is none.
pub fn held_in<'a>(orders: &'a OrderTable<Known>, ro: &Id) -> Option<&'a Order>
    ensures { option_copied result ≡ (look unknown_order orders.now ro.now).held }
{
    match orders.find(ro) {
        Some(known) => known.held.as_ref(),
        None => None,
    }
}

// Gives an order a row, where it has none. Only that takes memory.
pub fn know(orders: &mut OrderTable<Known>, ro: &Id) -> Result<(), NoMemory>
    ensures there { OnOk result (IsSome (find_row ro.now orders.new)) }
    ensures value { OnOk result (look unknown_order orders.new ro.now ≡ look unknown_order orders.old ro.now) }
    ensures row { OnOk result ((v : KnownOrder) → put_row ro.now v orders.new ≡ put_row ro.now v orders.old) }
    ensures err { OnErr result (orders.new ≡ orders.old) }
{
    match orders.find(ro) {
        Some(_) => Ok(()),
        None => orders.put(ro, Known::unknown()),
    }
}

// Says how an order stands that has a row, and whether it is wanted. What is held stays.
pub fn mark(orders: &mut OrderTable<Known>, ro: &Id, phase: Phase, wanted: bool)
    requires { IsSome (find_row ro.now orders.old) }
    ensures { orders.new ≡ put_row ro.now (record (look unknown_order orders.old ro.now) { phase = phase_of phase; wanted = wanted }) orders.old }
{
    let mut known = Known::unknown();
    orders.exchange(ro, &mut known);
    known.phase = phase;
    known.wanted = wanted;
    orders.exchange(ro, &mut known);
    let_go(known);
}

// Wants an order, unless it is asked for; one that is in step is out of step from then on. Only a new row takes memory.
pub fn want_in(orders: &mut OrderTable<Known>, ro: &Id) -> Result<(), NoMemory>
    ensures ok { OnOk result (orders.new ≡ put_row ro.now (wanted_order (look unknown_order orders.old ro.now)) orders.old) }
    ensures err { OnErr result (orders.new ≡ orders.old) }
{
    let phase = phase_in(orders, ro).once_wanted();
    let wanted = phase.is_out() || is_wanted_in(orders, ro);
    know(orders, ro)?;
    mark(orders, ro, phase, wanted);
    Ok(())
}

// The least roID that is to be asked for.
pub fn first_wanted(rows: &[(Id, Known)]) -> Option<&Id>
    ensures { option_copied result ≡ first_wanted_row rows.now }
{
    'rows: for row in rows {
        if is_wanted(&row.1) {
            return Some(&row.0);
        }
    }
    None
}

// Holds what came for an order that has a row; says whether the order is in step then. Without that it is wanted again.
pub fn hold(orders: &mut OrderTable<Known>, ro: &Id, held: Option<Order>) -> bool
    requires { IsSome (find_row ro.now orders.old) }
    ensures row { orders.new ≡ put_row ro.now (got_known (look unknown_order orders.old ro.now) held) orders.old }
    ensures in_step { result ≡ is_in (got_phase (look unknown_order orders.old ro.now).phase) }
{
    let phase = phase_in(orders, ro).once_listed();
    let in_step = phase.is_in();
    let mut known = Known {
        held,
        phase,
        wanted: !in_step,
    };
    orders.exchange(ro, &mut known);
    let_go(known);
    in_step
}
