//! Answers of the machines.
use mos_fields::Id;
use mos_values::Message;

/// What became of an answer, or of an end, that came on a connection.
#[derive(Clone, Copy, Debug, PartialEq, Eq)]
pub enum Step {
    /// The machine took it.
    Taken,
    /// The connection isn't the current one; nothing changed.
    Stale,
    /// Nothing was asked for that it answers; the connection counts as ended.
    Unasked,
}

/// What is said to a message that came.
#[derive(Drop)]
pub enum Heard {
    /// The connection isn't the current one; nothing changed.
    Stale,
    /// This message is the answer.
    Say(Message),
}

/// What a message that is sent is about.
#[derive(Drop)]
pub enum Tag {
    /// Entry `k` of an order's journal, from 0.
    Edit { ro: Id, k: u64 },
    /// The READY before entry `m` of an order's journal, sent again.
    Again { ro: Id, m: u64 },
    /// The script of entry `k` of an order's journal, sent again after a list of `m` entries.
    Script { ro: Id, k: u64, m: u64 },
    /// A request of an order.
    Ask { ro: Id },
    /// A request of the list of all orders.
    AskAll,
    /// A heartbeat.
    Beat,
}

/// What is sent next.
#[derive(Drop)]
pub enum Sent {
    /// The connection isn't the current one; nothing changed.
    Stale,
    /// Nothing is due, or an answer is awaited.
    Nothing,
    /// This message is sent.
    Out { message: Message, tag: Tag },
}
