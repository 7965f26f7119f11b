//! The table of a hub: its words, its slot, and the rule that holds between any two steps.
use crate::machine::StepRelation;
use crate::seat_view::SeatView;
use crate::slot_value::SlotValue;
use atomic_table::{Seat, Shared, Table, TableRule};
use std::alloc::Global;
use std::marker::PhantomData;
use std::snapshot::Snapshot;

/// The word with the number of entries in the history.
pub(crate) const COUNT: usize = 0;

/// The word with the next ticket to be taken.
pub(crate) const TICKET: usize = 1;

/// The word with the ticket that is served.
pub(crate) const SERVING: usize = 2;

/// A seat of a hub's table, by which one caller takes its steps.
pub(crate) type HubSeat<M, D> = Seat<
    SlotValue<(M, D), <M as StepRelation>::Event, <M as StepRelation>::Answer>,
    SeatView<(M, D), <M as StepRelation>::Event, <M as StepRelation>::Answer>,
>;

/// What all callers of a hub share: three words and the slot with the machine. Its key is the machine as it was made.
pub(crate) type HubSteps<M, D> = Shared<
    SlotValue<(M, D), <M as StepRelation>::Event, <M as StepRelation>::Answer>,
    SeatView<(M, D), <M as StepRelation>::Event, <M as StepRelation>::Answer>,
    Snapshot<(M, D)>,
    TurnRule<M>,
>;

/// The same with what owns it.
pub(crate) type HubTable<M, D> = Table<
    SlotValue<(M, D), <M as StepRelation>::Event, <M as StepRelation>::Answer>,
    SeatView<(M, D), <M as StepRelation>::Event, <M as StepRelation>::Answer>,
    Snapshot<(M, D)>,
    TurnRule<M>,
    Global,
>;

/// The rule of the table: tickets are served in turn, and the count is the length of one legal history, which ends at
/// the machine in the slot.
pub(crate) struct TurnRule<M> {
    machine: PhantomData<M>,
}

impl<M: StepRelation, D> TableRule<
    SlotValue<(M, D), M::Event, M::Answer>,
    SeatView<(M, D), M::Event, M::Answer>,
    Snapshot<(M, D)>,
> for TurnRule<M> {
    ghost use Rattle.shared_machine.specs.Turns.{RuleHolds, opening_view};

    ghost holds = { λ key. RuleHolds (λ x e a y. M.steps x.0 e a y.0) (λ x y. M.refusal x.0 y.0) (λ x. M.decks_left x.0) key.value };

    ghost first = { λ key. opening_view key.value };
}
