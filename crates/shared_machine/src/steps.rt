//! The kinds of atomic step, each with what it tells its caller.
ghost use Rattle.shared_machine.specs.Turns.{ticket_taken, serving_seen, machine_taken, count_raised, turn_passed, caller_numbered, history_learned, history_adopted, unnumbered_view, with_received, spent_view};

use crate::machine::StepRelation;
use crate::seat_view::SeatView;
use crate::slot_value::SlotValue;
use atomic_table::{Join, Play, Split};
use std::marker::PhantomData;

/// Takes a ticket, where the word is still what was read.
pub(crate) struct TakeTicket;

impl<M, E, A> Play<SlotValue<M, E, A>, SeatView<M, E, A>> for TakeTicket {
    ghost then = { ticket_taken };
}

/// Looks which ticket is served. Where it is the caller's, it holds the turn.
pub(crate) struct LookAtServing;

impl<M, E, A> Play<SlotValue<M, E, A>, SeatView<M, E, A>> for LookAtServing {
    ghost then = { serving_seen };
}

/// Takes the slot with the machine out of the table.
pub(crate) struct TakeMachine;

impl<M, E, A> Play<SlotValue<M, E, A>, SeatView<M, E, A>> for TakeMachine {
    ghost then = { machine_taken };
}

/// Raises the count, which enters the last call into the history.
pub(crate) struct RaiseCount<M> {
    machine: PhantomData<M>,
}

impl<M: StepRelation, D> Play<
    SlotValue<(M, D), M::Event, M::Answer>,
    SeatView<(M, D), M::Event, M::Answer>,
> for RaiseCount<M> {
    ghost then = { count_raised (λ x e a y. M.steps x.0 e a y.0) (λ x y. M.refusal x.0 y.0) (λ x. M.decks_left x.0) };
}

/// Puts the slot back, and passes the turn on.
pub(crate) struct PassTurn;

impl<M, E, A> Play<SlotValue<M, E, A>, SeatView<M, E, A>> for PassTurn {
    ghost then = { turn_passed };
}

/// Gives a seat that was split off its caller's number.
pub(crate) struct NumberCaller;

impl<M, E, A> Play<SlotValue<M, E, A>, SeatView<M, E, A>> for NumberCaller {
    ghost then = { caller_numbered };
}

/// Looks at the count: the caller has then seen the history so far.
pub(crate) struct LearnHistory<M> {
    machine: PhantomData<M>,
}

impl<M: StepRelation, D> Play<
    SlotValue<(M, D), M::Event, M::Answer>,
    SeatView<(M, D), M::Event, M::Answer>,
> for LearnHistory<M> {
    ghost then = { history_learned (λ x e a y. M.steps x.0 e a y.0) (λ x y. M.refusal x.0 y.0) (λ x. M.decks_left x.0) };
}

/// Looks at the count: the caller has then seen just what it received.
pub(crate) struct AdoptHistory;

impl<M, E, A> Play<SlotValue<M, E, A>, SeatView<M, E, A>> for AdoptHistory {
    ghost then = { history_adopted };
}

/// Splits a seat off with what the old one had seen, and joins a seat in, whose history is then received.
pub(crate) struct ShareHistory;

impl<M, E, A> Split<SeatView<M, E, A>> for ShareHistory {
    ghost left = { λ v. v };

    ghost right = { unnumbered_view };
}

impl<M, E, A> Join<SeatView<M, E, A>> for ShareHistory {
    ghost both = { with_received };

    ghost spent = { spent_view };
}
