//! The entries of a history.

/// One call in the history of a hub. Histories stand in contracts alone: no value of this type is ever made.
pub struct Entry<E, A> {
    /// The number of the caller that made the call. Each pass has one.
    pub caller: u64,

    /// What the machine was given.
    pub event: E,

    /// What the machine answered.
    pub answer: A,

    /// The decks that the machine had left after the call; 0 for a machine without decks.
    pub decks_left: u64,
}
