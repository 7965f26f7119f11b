//! How a hub's table is made, and how the machine comes out of it again.
ghost use Rattle.std.specs.Prelude.{◌≡◌, [], IfOk};
ghost use Rattle.shared_machine.specs.Turns.{opening_view, ClosesWith};
ghost use Rattle.shared_machine.specs.declared.turn_state.TurnState.TheVariants.{Idle, HasTurn};

use crate::bells::Bells;
use crate::machine::{Machine, NoMemory};
use crate::rule::{HubSeat, HubTable};
use crate::slot_value::SlotValue;
use crate::ticket::wait_for_turn;
use atomic_table::Table;
use std::alloc::Global;
use std::snapshot::Snapshot;
use std::sync::Wait;

/// A table with the machine in its slot, and its first seat.
pub(crate) fn open_table<M: Machine<D>, D: Drop>(
    alloc: Global,
    machine: (M, D),
) -> Result<(HubTable<M, D>, HubSeat<M, D>), NoMemory>
    ensures { IfOk result (λ r. (r.0.shared.table_id.words ≡ 3) × (r.0.shared.table_id.slots ≡ 1) × (r.0.shared.key.value ≡ machine) × (r.1.table_id ≡ r.0.shared.table_id) × (r.1.me ≡ (opening_view machine, []))) }
{
    let about = Snapshot::of(&machine);
    let mut slots = Vec::new(alloc);
    let Ok(()) = slots.push(SlotValue {
        machine,
        last_call: None,
    }) else {
        return Err(NoMemory);
    };
    let Ok(made) = Table::new(alloc, &[0, 0, 0], slots, &about) else {
        return Err(NoMemory);
    };
    Ok(made)
}

// The machine, out of the table, by the holder of the turn, who finds it in the slot.
fn take_out<M: Machine<D>, D: Drop>(
    table: HubTable<M, D>,
    seat: HubSeat<M, D>,
    ticket: u64,
) -> (M, D)
    requires { (seat.table_id ≡ table.shared.table_id) × (table.shared.table_id.slots ≡ 1) × (seat.me.0.turn ≡ HasTurn ticket) }
    ensures { ClosesWith (λ x e a y. M.steps x.0 e a y.0) (λ x y. M.refusal x.0 y.0) (λ x. M.decks_left x.0) seat.me.0.start seat.me.0.caller seat.me.0.seen result }
{
    let mut closed = table.close_with(seat);
    let slot = closed.take(0);
    closed.free();
    slot.machine
}

/// The machine, out of a table that no other thread can reach any more. It takes a turn, so that the slot is at home.
pub(crate) fn close_table<M: Machine<D>, D: Drop, R: Wait>(
    rt: &R,
    table: HubTable<M, D>,
    bells: &Bells,
    mut seat: HubSeat<M, D>,
) -> (M, D)
    requires { (seat.table_id ≡ table.shared.table_id) × (table.shared.table_id.words ≡ 3) × (table.shared.table_id.slots ≡ 1) × (seat.me.0.turn ≡ Idle) }
    ensures { ClosesWith (λ x e a y. M.steps x.0 e a y.0) (λ x y. M.refusal x.0 y.0) (λ x. M.decks_left x.0) seat.me.0.start seat.me.0.caller seat.me.0.seen result }
{
    let ticket = wait_for_turn(rt, &table.shared, bells, &mut seat);
    take_out(table, seat, ticket)
}
