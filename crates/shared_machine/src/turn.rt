//! What a caller does while it holds the turn.
ghost use Rattle.std.specs.Prelude.{◌≡◌, ℕ, List, [], ◌∷◌, false, Bool, IfOk, IfErr};
ghost use Rattle.shared_machine.specs.Turns.{with_turn, idle_with_seen, HasLastCall, AddsCall};
ghost use Rattle.shared_machine.specs.declared.entry.Entry.{Entry};
ghost use Rattle.shared_machine.specs.declared.slot_value.SlotValue.{SlotValue};
ghost use Rattle.shared_machine.specs.declared.turn_state.TurnState.TheVariants.{Idle, HasTurn, HoldsMachine};

use crate::bells::Bells;
use crate::machine::{Machine, NoMemory};
use crate::rule::{COUNT, HubSeat, HubSteps, SERVING};
use crate::slot_value::SlotValue;
use crate::steps::{PassTurn, RaiseCount, TakeMachine};
use std::snapshot::Snapshot;

// One step of the machine, whose event and answer are then noted beside it.
fn step_machine<M: Machine<D>, D: Drop>(
    slot: &mut SlotValue<(M, D), M::Event, M::Answer>,
    event: M::Event,
) -> Result<M::Answer, NoMemory>
    ensures ok { IfOk result (λ a. M.steps slot.old.machine.0 event a slot.new.machine.0 × HasLastCall slot.new event a) }
    ensures err { IfErr result (λ _. M.refusal slot.old.machine.0 slot.new.machine.0) }
{
    let answer = slot.machine.0.step(&mut slot.machine.1, &event)?;
    let call = (event, answer);
    slot.last_call = Some(Snapshot::of(&call));
    Ok(call.1)
}

// Takes the slot out of the table. The holder of the turn finds it there.
fn take_machine<M: Machine<D>, D: Drop>(top: &HubSteps<M, D>, seat: &mut HubSeat<M, D>, ticket: u64)
    requires { (seat.old.table_id ≡ top.now.table_id) × (top.now.table_id.words ≡ 3) × (seat.old.me.0.turn ≡ HasTurn ticket) × (seat.old.me.1 ≡ []) }
    ensures { (seat.new.table_id ≡ seat.old.table_id) × (seat.new.id ≡ seat.old.id) × ((b : SlotValue (M × D) M.Event M.Answer) × (seat.new.me ≡ (with_turn seat.old.me.0 (HoldsMachine ticket b.machine false), (0, b) ∷ []))) }
{
    top.load::<TakeMachine>(seat, COUNT);
}

// One step of the machine in the slot that the seat holds.
fn step_in_slot<M: Machine<D>, D: Drop>(
    top: &HubSteps<M, D>,
    seat: &mut HubSeat<M, D>,
    event: M::Event,
) -> Result<M::Answer, NoMemory>
    requires { (seat.old.table_id ≡ top.now.table_id) × ((b : SlotValue (M × D) M.Event M.Answer) × (seat.old.me.1 ≡ (0, b) ∷ [])) }
    ensures seat { (seat.new.table_id ≡ seat.old.table_id) × (seat.new.id ≡ seat.old.id) × (seat.new.me.0 ≡ seat.old.me.0) }
    ensures ok { IfOk result (λ a. (b : SlotValue (M × D) M.Event M.Answer) → seat.old.me.1 ≡ (0, b) ∷ [] → (c : SlotValue (M × D) M.Event M.Answer) × (seat.new.me.1 ≡ (0, c) ∷ []) × M.steps b.machine.0 event a c.machine.0 × HasLastCall c event a) }
    ensures err { IfErr result (λ _. (b : SlotValue (M × D) M.Event M.Answer) → seat.old.me.1 ≡ (0, b) ∷ [] → (c : SlotValue (M × D) M.Event M.Answer) × (seat.new.me.1 ≡ (0, c) ∷ []) × M.refusal b.machine.0 c.machine.0) }
{
    let slot = seat.slot_mut(top, 0);
    step_machine(slot, event)
}

// Puts the slot back, passes the turn on, and wakes the caller that has the next ticket.
fn pass_turn<M: Machine<D>, D: Drop>(top: &HubSteps<M, D>, bells: &Bells, seat: &mut HubSeat<M, D>)
    requires seat { (seat.old.table_id ≡ top.now.table_id) × (top.now.table_id.words ≡ 3) }
    requires held { (t : ℕ) × (x : M × D) × (r : Bool) × (b : SlotValue (M × D) M.Event M.Answer) × (seat.old.me.0.turn ≡ HoldsMachine t x r) × (seat.old.me.1 ≡ (0, b) ∷ []) × M.refusal x.0 b.machine.0 }
    ensures { (seat.new.table_id ≡ seat.old.table_id) × (seat.new.id ≡ seat.old.id) × (seat.new.me ≡ (with_turn seat.old.me.0 Idle, [])) }
{
    let served = top.fetch_add::<PassTurn>(seat, SERVING, 1);
    bells.ring(served.wrapping_add(1));
}

/// One call by the holder of the turn: a step of the machine, entered into the history where the machine answered. The
/// turn is then passed on. A step that was refused is no entry.
pub(crate) fn call_in_turn<M: Machine<D>, D: Drop>(
    top: &HubSteps<M, D>,
    bells: &Bells,
    seat: &mut HubSeat<M, D>,
    ticket: u64,
    event: M::Event,
) -> Result<M::Answer, NoMemory>
    requires { (seat.old.table_id ≡ top.now.table_id) × (top.now.table_id.words ≡ 3) × (seat.old.me.0.turn ≡ HasTurn ticket) × (seat.old.me.1 ≡ []) }
    ensures seat { (seat.new.table_id ≡ seat.old.table_id) × (seat.new.id ≡ seat.old.id) }
    ensures ok { IfOk result (λ a. (later : List (Entry M.Event M.Answer)) × (n : ℕ) × (seat.new.me ≡ (idle_with_seen seat.old.me.0 later, [])) × AddsCall (λ x e a y. M.steps x.0 e a y.0) (λ x y. M.refusal x.0 y.0) (λ x. M.decks_left x.0) seat.old.me.0.start seat.old.me.0.caller seat.old.me.0.seen event a n later) }
    ensures err { IfErr result (λ _. seat.new.me ≡ (with_turn seat.old.me.0 Idle, [])) }
{
    take_machine(top, seat, ticket);
    match step_in_slot(top, seat, event) {
        Ok(answer) => {
            top.fetch_add::<RaiseCount<M>>(seat, COUNT, 1);
            pass_turn(top, bells, seat);
            Ok(answer)
        }
        Err(none) => {
            pass_turn(top, bells, seat);
            Err(none)
        }
    }
}
