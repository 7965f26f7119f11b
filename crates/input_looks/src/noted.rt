//! A source whose first bytes are kept.
ghost use Rattle.std.specs.Prelude.{◌≡◌, ◌≤◌, length};
ghost use Rattle.input_looks.specs.Looks.{noted_inner};

use mos_io::{Failed, Source};

// So many bytes are kept at most.
const MOST: usize = 16;

/// Reads from another source, and keeps a copy of the first 16 bytes that it gave.
#[derive(Drop)]
pub struct Noted<S: Source> {
    inner: S,
    first: [u8; MOST],
    count: usize,
}

impl<S: Source> Noted<S> {
    /// The source, of which nothing was read so far.
    pub fn new(inner: S) -> Self
        ensures { noted_inner result ≡ inner }
    {
        Noted {
            inner,
            first: [0; MOST],
            count: 0,
        }
    }

    /// The first bytes that were read, 16 at most.
    pub fn first(&self) -> &[u8] {
        match self.first.get(..self.count) {
            Some(first) => first,
            None => &self.first,
        }
    }
}

// Keeps bytes behind so many, where there is room.
fn note(first: &mut [u8; MOST], count: &mut usize, bytes: &[u8]) {
    for byte in bytes {
        match first.get_mut(*count) {
            Some(place) => {
                *place = *byte;
                *count = count.saturating_add(1);
            }
            None => return,
        }
    }
}

impl<S: Source> Source for Noted<S> {
    ghost left = { λ n. S.left n.inner };

    ghost bound = { λ n. S.bound n.inner };

    ghost faults = { λ n. S.faults n.inner };

    fn read(&mut self, buf: &mut [u8]) -> Result<usize, Failed> {
        match self.inner.read(buf) {
            Ok(count) => {
                note(&mut self.first, &mut self.count, &buf[..count]);
                Ok(count)
            }
            Err(fault) => Err(fault),
        }
    }
}
