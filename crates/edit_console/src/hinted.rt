//! A sink that looks for an answer of which a hint is given.
ghost use Rattle.std.specs.Prelude.{◌≡◌, ◌≤◌};

use mos_io::{Sink, SinkFault};

/// How the line ends that is told of an answer from a server with another ID.
const NOT_FOR_ME: &[u8] = b": NOT FOR ME\n";

/// A sink that passes each piece on to another one. Behind the first piece that tells of an answer `NOT FOR ME` it prints a hint
/// on standard error. What was written to it, and its faults, are those of the other one.
#[derive(Drop)]
pub struct Hinted<K: Sink, R: Eprint> {
    inner: K,
    rt: R,
    hint: String,
    told: bool,
}

impl<K: Sink, R: Eprint> Hinted<K, R> {
    /// A sink over `inner`, with this line as its hint.
    pub fn new(inner: K, rt: R, hint: String) -> Self {
        Hinted {
            inner,
            rt,
            hint,
            told: false,
        }
    }

    // Prints the hint, the first time that a piece calls for it. One that can't be written is lost.
    fn look_at(&self, piece: &[u8]) -> bool {
        if self.told || !piece.ends_with(NOT_FOR_ME) {
            return self.told;
        }
        let _ = self.rt.eprint(self.hint.as_str());
        true
    }
}

impl<K: Sink, R: Eprint> Sink for Hinted<K, R> {
    ghost written = { λ s. K.written s.inner };

    ghost faults = { λ s. K.faults s.inner };

    fn write_piece(&mut self, piece: &[u8]) -> Result<(), SinkFault> {
        let wrote = self.inner.write_piece(piece);
        self.told = self.look_at(piece);
        wrote
    }
}
