//! Reading a journal's bytes.
ghost use Rattle.std.specs.Prelude.{◌≡◌, ◌+◌, ◌<◌, ◌^◌, ◌++◌, ℕ, List, [], Err, OnOk, length};
ghost use Rattle.mos_reader.specs.Answers.{fed};
ghost use Rattle.journal_bytes.specs.Journals.{HasRead, IsDamaged, ReaderState, rest_of};

use crate::fault::JournalFault;
use crate::reading::feed_entries;
use mos_codec::Decoder;
use rundown_log::{Entries, Entry};
use std::alloc::Global;
use std::marker::Model;

/// Reads the entries of a journal, whose bytes come in pieces.
#[derive(Drop)]
pub struct JournalReader {
    decoder: Decoder,
    entries: Vec<Entry>,
}

impl Model for JournalReader {
    ghost Value = { ReaderState };

    ghost view = { λ r. record { decoder = r.decoder; entries = r.entries.items } };
}

impl JournalReader {
    /// A reader to which nothing was fed.
    pub fn new(alloc: Global) -> Self
        ensures nothing { HasRead result [] }
        ensures units { fed (result.decoder).bytes.stream ≡ 0 }
    {
        JournalReader {
            decoder: Decoder::new(alloc),
            entries: Vec::new(alloc),
        }
    }

    /// How many whole code units were fed.
    pub fn place(&self) -> usize
        ensures { result ≡ fed (self.now).decoder.bytes.stream }
    {
        self.decoder.place()
    }

    /// How many of the bytes fed stand in a message that isn't whole; 2^64 - 1 where that is smaller.
    pub fn rest(&self) -> usize
        ensures { result ≡ rest_of (self.now).decoder.bytes }
    {
        if self.decoder.is_empty() {
            return 0;
        }
        self.decoder.behind()
    }

    /// The entries of the messages that are whole.
    pub fn into_entries(self) -> Entries
        ensures { result ≡ self.entries }
    {
        Entries::from_vec(self.entries)
    }

    /// Feeds more bytes.
    ///
    /// `Damaged` comes exactly where all bytes fed are rejected, or one of their whole messages carries no edit, and there
    /// is memory to find it. After an error nothing more is to be fed.
    pub fn feed(&mut self, piece: &[u8]) -> Result<(), JournalFault>
        requires taken { (self.old).decoder.ready ≡ [] }
        requires room { fed (self.old).decoder.bytes.stream + length piece.now < 2 ^ 64 }
        ensures read { (bytes : List ℕ) → HasRead self.old bytes → OnOk result (HasRead self.new (bytes ++ piece.now)) }
        ensures emptied { OnOk result ((self.new).decoder.ready ≡ []) }
        ensures damaged { (bytes : List ℕ) → HasRead self.old bytes → result ≡ Err JournalFault.Damaged → IsDamaged (bytes ++ piece.now) }
    {
        feed_entries(&mut self.decoder, &mut self.entries, piece)
    }
}
