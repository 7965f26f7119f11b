//! What a stream looks like by its first two bytes.
use input_looks::{Look, look_of};

/// The first bytes of a stream, until there are two.
#[derive(Clone, Copy)]
pub(crate) enum First {
    /// None came so far.
    Nothing,
    /// This one came.
    One(u8),
    /// Two came, and were looked at.
    Seen,
}

impl First {
    // These two came.
    fn see(&mut self, a: u8, b: u8) -> Option<Look> {
        *self = First::Seen;
        look_of(&[a, b])
    }

    /// The next piece came: what the stream looks like, with the piece that has its second byte, where it looks like none of
    /// messages.
    pub(crate) fn look(&mut self, piece: &[u8]) -> Option<Look> {
        match (*self, piece) {
            (First::Nothing, [a, b, ..]) => self.see(*a, *b),
            (First::Nothing, [a]) => {
                *self = First::One(*a);
                None
            }
            (First::One(a), [b, ..]) => self.see(a, *b),
            _ => None,
        }
    }
}
