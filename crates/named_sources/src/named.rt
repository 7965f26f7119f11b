//! A source that listens to what is read of it.
ghost use Rattle.std.specs.Prelude.{◌≡◌, ℕ, ◌<◌, ◌≤◌, IfOk, OnErr, length, take};
ghost use Rattle.mos_io.specs.Bytes.{Falls, IsAtEnd, Takes};
ghost use Rattle.mos_io.specs.Counts.{Rose};

use crate::naming::Naming;
use mos_io::{Failed, Source};
use std::time::Clock;

/// Gives what another source gives, and listens to it: whose the connection is, as the first message says, is said on standard
/// error, and that nothing came, where a read failed for it.
#[derive(Drop)]
pub struct NamedSource<S: Source + Drop, R: Eprint + Clock + Copy + Drop> {
    inner: S,
    naming: Naming<R>,
}

impl<S: Source + Drop, R: Eprint + Clock + Copy + Drop> NamedSource<S, R> {
    /// This source, of whose connection so much is known.
    pub fn new(inner: S, naming: Naming<R>) -> Self
        ensures { result.inner ≡ inner }
    {
        NamedSource { inner, naming }
    }

    /// What is known of the connection.
    pub fn naming(&self) -> &Naming<R> {
        &self.naming
    }
}

impl<S: Source + Drop, R: Eprint + Clock + Copy + Drop> Source for NamedSource<S, R> {
    ghost left = { λ s. S.left s.inner };

    ghost bound = { λ s. S.bound s.inner };

    ghost faults = { λ s. S.faults s.inner };

    fn read(&mut self, buf: &mut [u8]) -> Result<usize, Failed>
        requires { 0 < length buf.old }
        ensures within { IfOk result (λ n. n ≤ length buf.old) }
        ensures taken { IfOk result (λ n. Takes (S.left self.old.inner) (S.left self.new.inner) (take n buf.new)) }
        ensures ended { IfOk result (λ n. n ≡ 0 → IsAtEnd (S.left self.old.inner)) }
        ensures bounded { IfOk result (λ n. Falls (S.bound self.old.inner) (S.bound self.new.inner) n) }
        ensures rises { S.faults self.old.inner ≤ S.faults self.new.inner }
        ensures failed { OnErr result (Rose (S.faults self.old.inner) (S.faults self.new.inner)) }
        ensures kept { OnErr result ((S.left self.new.inner ≡ S.left self.old.inner) × (S.bound self.new.inner ≡ S.bound self.old.inner)) }
    {
        let begun = self.naming.now();
        match self.inner.read(buf) {
            Ok(count) => {
                self.naming.hear(&buf[..count]);
                Ok(count)
            }
            Err(failed) => {
                self.naming.note_failed(begun);
                Err(failed)
            }
        }
    }
}
