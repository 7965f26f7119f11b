//! The right to call a hub.
use crate::machine::StepRelation;
use crate::rule::HubSeat;
use std::marker::Model;

/// A right to call one hub. It stands for a caller, with a number of its own and with the history that this caller has
/// seen; both exist in proofs alone, and a pass has no bytes. It may go to another thread, and calls are made through
/// a `&mut`, so one pass makes one call at a time.
#[derive(Drop)]
pub struct Pass<M: StepRelation, D = ()> {
    pub(crate) seat: HubSeat<M, D>,
}

impl<M: StepRelation, D> Model for Pass<M, D> {
    ghost use Rattle.shared_machine.specs.Passes.{Known};
    ghost use Rattle.shared_machine.specs.Turns.{IsReady};

    ghost Value = { Known (M × D) M.Event M.Answer };

    ghost view = { λ p. record { hub = p.seat.table_id; start = p.seat.me.0.start; caller = p.seat.me.0.caller; seen = p.seat.me.0.seen } };

    ghost invariant = { λ p. IsReady p.seat.me };
}
