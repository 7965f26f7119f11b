//! Where a caller stands in its turn.

/// How far a seat has come in a turn of the ticket lock. It exists in proofs alone.
pub enum TurnState<M> {
    /// Between two calls.
    Idle,
    /// Split off, and without a caller's number yet.
    Unnumbered,
    /// It has this ticket, and waits.
    Waiting(u64),
    /// Its ticket is served: it holds the turn.
    HasTurn(u64),
    /// It holds the turn and has taken the slot, where the machine was this one when it took it. The last part says
    /// whether it has raised the count since.
    HoldsMachine(u64, M, bool),
    /// It was joined into another seat, and does nothing more.
    Spent,
}
