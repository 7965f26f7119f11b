//! Where a line ends, and what is held of one.
ghost use Rattle.std.specs.Prelude.{◌≡◌, ◌≤◌, ◌<◌, ◌++◌, IfOk, OnOk, take, length, vec_len};
ghost use Rattle.line_reader.specs.Lines.{IsEnd};

use mos_fields::NoMemory;
use std::alloc::Global;

/// So many bytes are read at once.
const PIECE: usize = 65_536;

/// Room for a piece of the input.
pub fn room(alloc: Global) -> Result<Vec<u8>, NoMemory>
    ensures { IfOk result (λ piece. 0 < vec_len piece) }
{
    Ok(vec![in alloc; 0u8; PIECE]?)
}

/// The place of the first line feed.
pub fn line_end(bytes: &[u8]) -> Option<usize>
    ensures { IsEnd bytes.now result }
{
    bytes.iter().position(|b| *b == b'\n')
}

/// Adds bytes to a line, of which no more than so many are held.
pub fn hold(line: &mut Vec<u8>, bytes: &[u8], most: usize) -> Result<(), NoMemory>
    requires { vec_len line.old ≤ most }
    ensures held { OnOk result (line.new.items ≡ take most (line.old.items ++ bytes.now)) }
    ensures short { vec_len line.new ≤ most }
{
    let count = bytes.len().min(most - line.len());
    line.extend_from_slice(&bytes[..count])?;
    Ok(())
}
