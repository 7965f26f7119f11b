//! The ticket lock: how a caller gets the turn.
ghost use Rattle.std.specs.Prelude.{◌≡◌, ◌+◌, ◌<◌, ◌^◌};
ghost use Rattle.shared_machine.specs.Turns.{with_turn};
ghost use Rattle.shared_machine.specs.declared.turn_state.TurnState.TheVariants.{Idle, Waiting, HasTurn};

use crate::bells::Bells;
use crate::machine::Machine;
use crate::rule::{HubSeat, HubSteps, SERVING, TICKET};
use crate::steps::{LookAtServing, TakeTicket};
use std::sync::Wait;
use std::thread;

/// How often a caller looks for a free turn before it takes a ticket all the same.
const LOOKS: u32 = 50;

// Looks a few times whether the ticket that would be drawn next is served already. Nothing is known afterwards, and
// nothing rests on it. But a caller that takes a ticket while another has the turn sleeps, and all after it wait until
// its thread runs again; where turns are short, giving way a few times is much cheaper.
fn look_for_free_turn<M: Machine<D>, D: Drop>(top: &HubSteps<M, D>)
    requires { top.now.table_id.words ≡ 3 }
{
    for _ in 0..LOOKS {
        if top.peek(TICKET) == top.peek(SERVING) {
            return;
        }
        thread::yield_now();
    }
}

// Takes a ticket. After the last one, 2^64 - 2, there is none, and the call waits for good: no word ever wraps.
fn take_ticket<M: Machine<D>, D: Drop, R: Wait>(
    rt: &R,
    top: &HubSteps<M, D>,
    seat: &mut HubSeat<M, D>,
) -> u64
    requires { (seat.old.table_id ≡ top.now.table_id) × (top.now.table_id.words ≡ 3) × (seat.old.me.0.turn ≡ Idle) }
    ensures { (seat.new.table_id ≡ seat.old.table_id) × (seat.new.id ≡ seat.old.id) × (seat.new.me ≡ (with_turn seat.old.me.0 (Waiting result), seat.old.me.1)) }
{
    for _ in rt.forever() {
        look_for_free_turn(top);
        let next = top.peek(TICKET);
        if next < u64::MAX {
            let found = top.compare_exchange::<TakeTicket>(seat, TICKET, next, next + 1);
            if found == next {
                return found;
            }
        } else {
            thread::yield_now();
        }
    }
    unreachable!()
}

/// Takes a ticket, and waits until it is served. The caller then holds the turn. While another ticket is served the
/// thread sleeps; the end of the turn before its own wakes it.
pub(crate) fn wait_for_turn<M: Machine<D>, D: Drop, R: Wait>(
    rt: &R,
    top: &HubSteps<M, D>,
    bells: &Bells,
    seat: &mut HubSeat<M, D>,
) -> u64
    requires { (seat.old.table_id ≡ top.now.table_id) × (top.now.table_id.words ≡ 3) × (seat.old.me.0.turn ≡ Idle) }
    ensures { (seat.new.table_id ≡ seat.old.table_id) × (seat.new.id ≡ seat.old.id) × (seat.new.me ≡ (with_turn seat.old.me.0 (HasTurn result), seat.old.me.1)) }
{
    let ticket = take_ticket(rt, top, seat);
    for _ in rt.forever() {
        let seen = bells.rung(ticket);
        let serving = top.load::<LookAtServing>(seat, SERVING);
        if serving == ticket {
            return ticket;
        }
        bells.sleep(rt, ticket, seen);
    }
    unreachable!()
}
