//! What a seat of the table knows.
use crate::entry::Entry;
use crate::turn_state::TurnState;
use std::collections::LinkedList;

/// What the holder of a seat knows of the hub. It exists in proofs alone.
pub struct SeatView<M, E, A> {
    /// The number under which its calls stand in the history.
    pub caller: u64,

    /// The machine that the hub began with.
    pub start: Option<M>,

    /// The history as far as this caller has seen it.
    pub seen: LinkedList<Entry<E, A>>,

    /// The history as far as another caller had seen it, where it was joined in since the last look at the count.
    pub received: LinkedList<Entry<E, A>>,

    pub turn: TurnState<M>,
}
