//! What lies in the table's slot.
use std::snapshot::Snapshot;

/// The machine, and beside it, in proofs alone, the event and the answer of its last step.
#[derive(Drop)]
pub struct SlotValue<M, E, A> {
    pub machine: M,

    // The step that raises the count sees no arguments, so it finds here which call it enters into the history.
    pub last_call: Option<Snapshot<(E, A)>>,
}
