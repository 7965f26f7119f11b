//! A source with bytes in front of it.
ghost use Rattle.std.specs.Prelude.{◌≡◌, ℕ, ◌<◌, ◌≤◌, ◌++◌, IfOk, OnErr, length, take};
ghost use Rattle.mos_io.specs.Bytes.{Falls, IsAtEnd, Takes};
ghost use Rattle.mos_io.specs.Counts.{Rose};
ghost use Rattle.port_fronts.specs.Fronts.{before, bound_before};

use mos_io::{Failed, Source};
use std::alloc::Global;
use std::marker::Model;

/// Gives bytes that were read of a source once more, and then reads on from it.
#[derive(Drop)]
pub struct Fronted<S: Source + Drop> {
    alloc: Global,
    front: Vec<u8>,
    at: usize,
    source: S,
}

impl<S: Source + Drop> Model for Fronted<S> {
    ghost use Rattle.std.specs.Prelude.{◌≤◌, drop, vec_len};
    ghost use Rattle.port_fronts.specs.Fronts.{Before};

    ghost Value = { Before S };

    ghost view = { λ f. record { bytes = drop f.at f.front.items; source = f.source } };

    ghost invariant = { λ f. f.at ≤ vec_len f.front };
}

impl<S: Source + Drop> Fronted<S> {
    /// The source, with these bytes in front.
    pub fn new(alloc: Global, front: Vec<u8>, source: S) -> Self
        ensures { result ≡ record { bytes = front.items; source = source } }
    {
        Fronted {
            alloc,
            front,
            at: 0,
            source,
        }
    }

    /// The source, which goes on behind the bytes. Those that weren't given are let go. It takes no memory.
    pub fn into_source(self) -> S
        ensures { result ≡ self.source }
    {
        self.source
    }

    // The next bytes of the front, which has some left.
    fn give(&mut self, buf: &mut [u8]) -> usize
        requires room { 0 < length buf.old }
        requires some { 0 < length self.old.bytes }
        ensures within { result ≤ length buf.old }
        ensures some { 0 < result }
        ensures taken { self.old.bytes ≡ take result buf.new ++ self.new.bytes }
        ensures source { self.new.source ≡ self.old.source }
    {
        let left = &self.front[self.at..];
        let count = left.len().min(buf.len());
        buf[..count].copy_from_slice(&left[..count]);
        self.at += count;
        count
    }

    // Gives the memory of the front back, once all of it was given.
    fn shed(&mut self)
        ensures { self.new ≡ self.old }
    {
        if self.at == self.front.len() {
            self.front = Vec::new(self.alloc);
            self.at = 0;
        }
    }
}

impl<S: Source + Drop> Source for Fronted<S> {
    ghost use Rattle.std.specs.Prelude.{length};
    ghost use Rattle.port_fronts.specs.Fronts.{before, bound_before};

    ghost left = { λ f. before f.bytes (S.left f.source) };

    ghost bound = { λ f. bound_before (length f.bytes) (S.bound f.source) };

    ghost faults = { λ f. S.faults f.source };

    fn read(&mut self, buf: &mut [u8]) -> Result<usize, Failed> {
        if self.at < self.front.len() {
            let count = self.give(buf);
            self.shed();
            return Ok(count);
        }
        self.source.read(buf)
    }
}
