//! Zeros at the end of a file, as a crash may leave where a file became longer and what was written didn't come to the disk.
ghost use Rattle.std.specs.Prelude.{◌≡◌, ◌≤◌, ◌+◌, ◌%◌, IfOk, length, min};
ghost use Rattle.file_keeper.specs.Zeros.{IsContent};

use std::io;
use std::io::{Read, Seek, SeekFrom};

/// How many bytes of a piece stand before the zeros at its end.
fn before_zeros(piece: &[u8]) -> usize
    ensures { IsContent piece.now result }
{
    let mut count = piece.len();
    while count > 0 && piece[count - 1] == 0 {
        count -= 1;
    }
    count
}

/// So many bytes, and one more where they end in the middle of a code unit and the file goes on.
fn whole_units(count: u64, size: u64) -> u64
    requires { count ≤ 1099511627776 }
    ensures { result ≡ min (count + count % 2) size }
{
    (count + count % 2).min(size)
}

/// How many bytes of a part of the file, which begins at this byte, stand before the zeros at its end.
fn before_zeros_at<F: Read + Seek>(file: &mut F, start: u64, part: &mut [u8]) -> io::Result<usize>
    ensures { IfOk result (λ n. n ≤ length part.old) }
{
    file.seek(SeekFrom::Start(start))?;
    file.read_exact(part)?;
    Ok(before_zeros(part))
}

/// How many bytes of a file of this size stand before the zeros at its end, with the other half of a code unit. It is read
/// from its end, in pieces.
pub(crate) fn content_of<F: Read + Seek>(
    file: &mut F,
    size: u64,
    piece: &mut [u8],
) -> io::Result<u64>
    requires room { length piece.old ≡ 65536 }
    requires most { size ≤ 1099511627776 }
    ensures { IfOk result (λ n. n ≤ size) }
{
    let mut end = size;
    'piece: while end > 0 {
        let start = end.saturating_sub(piece.len() as u64);
        let count = before_zeros_at(file, start, &mut piece[..(end - start) as usize])?;
        if count > 0 {
            return Ok(whole_units(start + count as u64, size));
        }
        end = start;
    }
    Ok(0)
}
