//! Listing and counting messages.
ghost use Rattle.std.specs.Prelude.{◌≡◌, IfOk};
ghost use Rattle.mos_decoder.specs.Bytes.{found_of};
ghost use Rattle.stream_commands.specs.Lines.{count_line as count_line_of, refused_line as refused_line_of, shown_line as shown_line_of};

use crate::lines::{count_line, shown_line};
use crate::teller::Teller;
use line_texts::refused_line;
use mos_fields::NoMemory;
use mos_lexer::Kind;
use mos_reader::Found;
use std::alloc::Global;

/// Lists messages: of each it tells one line in UTF-8, the code unit that its `<mos` begins with, its name, mosID, ncsID,
/// and its roID or objID, or `-` where it has none or an empty one. Of a rejection it tells the line `REFUSED`, place and
/// kind.
#[derive(Clone, Copy, Debug, PartialEq, Eq)]
pub struct Lister;

/// Counts messages: behind the last one it tells how many there are, and how many code units. Of a rejection it tells the
/// line `REFUSED`, place and kind.
#[derive(Clone, Copy, Debug, PartialEq, Eq)]
pub struct Counter;

/// The bytes of the line of a message.
fn shown(alloc: Global, found: Found) -> Result<Vec<u8>, NoMemory>
    ensures { IfOk result (λ bytes. bytes.items ≡ shown_line_of (found_of found)) }
{
    let line = shown_line(alloc, found)?;
    Ok(line.into_bytes())
}

/// The bytes of the line of a rejection.
fn refused(alloc: Global, place: usize, kind: Kind) -> Result<Vec<u8>, NoMemory>
    ensures { IfOk result (λ bytes. bytes.items ≡ refused_line_of place kind) }
{
    let line = refused_line(alloc, place, kind)?;
    Ok(line.into_bytes())
}

/// The bytes of the line of so many messages and code units.
fn counted(alloc: Global, messages: usize, units: usize) -> Result<Vec<u8>, NoMemory>
    ensures { IfOk result (λ bytes. bytes.items ≡ count_line_of messages units) }
{
    let line = count_line(alloc, messages, units)?;
    Ok(line.into_bytes())
}

impl Teller for Lister {
    ghost use Rattle.stream_commands.specs.Lines.{refused_line as refused_line_of};
    ghost use Rattle.stream_commands.specs.Listings.{IsListed, no_last};

    ghost told = { λ l. IsListed };

    ghost last = { λ l. no_last };

    ghost refusal = { λ l. refused_line_of };

    fn tell(&mut self, alloc: Global, found: Found) -> Result<Vec<u8>, NoMemory> {
        shown(alloc, found)
    }

    fn tell_last(
        &self,
        alloc: Global,
        _messages: usize,
        _units: usize,
    ) -> Result<Vec<u8>, NoMemory> {
        Ok(Vec::new(alloc))
    }

    fn tell_refusal(&self, alloc: Global, place: usize, kind: Kind) -> Result<Vec<u8>, NoMemory> {
        refused(alloc, place, kind)
    }
}

impl Teller for Counter {
    ghost use Rattle.stream_commands.specs.Lines.{count_line as count_line_of, refused_line as refused_line_of};
    ghost use Rattle.stream_commands.specs.Listings.{IsCounted};

    ghost told = { λ c. IsCounted };

    ghost last = { λ c. count_line_of };

    ghost refusal = { λ c. refused_line_of };

    fn tell(&mut self, alloc: Global, _found: Found) -> Result<Vec<u8>, NoMemory> {
        Ok(Vec::new(alloc))
    }

    fn tell_last(&self, alloc: Global, messages: usize, units: usize) -> Result<Vec<u8>, NoMemory> {
        counted(alloc, messages, units)
    }

    fn tell_refusal(&self, alloc: Global, place: usize, kind: Kind) -> Result<Vec<u8>, NoMemory> {
        refused(alloc, place, kind)
    }
}
