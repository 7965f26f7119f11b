//! What came of events.
ghost use Rattle.std.specs.Prelude.{◌≡◌, ◌++◌, OnOk, OnErr, string_bytes};
ghost use Rattle.world_scripts.specs.Lines.{outcome_text};
ghost use Rattle.world_scripts.specs.Outcomes.{outcome_of};

use crate::texts::{
    push_named, push_named_and_numbered, push_named_and_numbered_twice, push_named_twice,
    push_numbered, push_text, push_word,
};
use mos_fields::{Id, NoMemory, OptId, Text};
use std::alloc::Global;

/// What came of an event.
#[derive(Drop)]
pub enum Outcome {
    /// It wasn't possible, and nothing changed.
    Impossible,
    /// It happened.
    Done,
    /// Connection `c` was opened.
    Connection { c: u64 },
    /// Nothing was due, and nothing was written.
    Nothing,
    /// An answer was taken.
    Taken,
    /// An answer came that nothing had asked for.
    Unasked,
    /// A heartbeat was written.
    Heartbeat,
    /// Entry `k` of the order `ro` was written, from 0.
    Edit { ro: Id, k: u64 },
    /// The READY before entry `m` of the order `ro` was written again.
    Again { ro: Id, m: u64 },
    /// The script of entry `k` of the order `ro` was written again, behind a list of `m` entries.
    Script { ro: Id, k: u64, m: u64 },
    /// A request of the list of all orders was written.
    AskAll,
    /// A request of the order `ro` was written.
    Ask { ro: Id },
    /// A list of `n` orders was written.
    ListAll { n: u64 },
    /// The order `ro` after `m` entries was written.
    List { ro: Id, m: u64 },
    /// A roAck was written, with this roID and this status.
    Ack { ro: OptId, text: Text },
    /// A command was answered by this text.
    Command { text: Text },
}

impl Outcome {
    /// Appends the text of the outcome in a listing, in UTF-8. The only error is that memory runs out; nothing is appended
    /// then.
    pub fn push_to(&self, alloc: Global, out: &mut Vec<u8>) -> Result<(), NoMemory>
        ensures ok { OnOk result (out.new.items ≡ out.old.items ++ outcome_text (outcome_of self.now)) }
        ensures err { OnErr result (out.new.items ≡ out.old.items) }
    {
        let mut line = String::new(alloc);
        self.push_line(alloc, &mut line)?;
        out.extend_from_slice(line.as_bytes())?;
        Ok(())
    }

    /// Appends the text to a line.
    fn push_line(&self, alloc: Global, line: &mut String) -> Result<(), NoMemory>
        ensures { OnOk result (string_bytes line.new ≡ string_bytes line.old ++ outcome_text (outcome_of self.now)) }
    {
        match self {
            Outcome::Impossible => push_word(line, "-"),
            Outcome::Done => push_word(line, "done"),
            Outcome::Connection { c } => push_numbered(alloc, line, "connection", *c),
            Outcome::Nothing => push_word(line, "nothing"),
            Outcome::Taken => push_word(line, "taken"),
            Outcome::Unasked => push_word(line, "unasked"),
            Outcome::Heartbeat => push_word(line, "heartbeat"),
            Outcome::Edit { ro, k } => push_named_and_numbered(alloc, line, "edit", ro.text(), *k),
            Outcome::Again { ro, m } => {
                push_named_and_numbered(alloc, line, "again", ro.text(), *m)
            }
            Outcome::Script { ro, k, m } => {
                push_named_and_numbered_twice(alloc, line, "script", ro.text(), *k, *m)
            }
            Outcome::AskAll => push_word(line, "roReqAll"),
            Outcome::Ask { ro } => push_named(alloc, line, "roReq", ro.text()),
            Outcome::ListAll { n } => push_numbered(alloc, line, "roListAll", *n),
            Outcome::List { ro, m } => {
                push_named_and_numbered(alloc, line, "roList", ro.text(), *m)
            }
            Outcome::Ack { ro, text } => push_named_twice(alloc, line, "roAck", ro.text(), text),
            Outcome::Command { text } => push_text(alloc, line, text),
        }
    }
}
