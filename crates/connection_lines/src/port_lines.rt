//! The lines of ports and of threads.
ghost use Rattle.std.specs.Prelude.{◌≡◌, IfOk, string_bytes};
ghost use Rattle.connection_lines.specs.Lines.{full_line as full_line_of, shut_line as shut_line_of, stalled_line as stalled_line_of, threads_line, waits_line as waits_line_of, works_line as works_line_of};

use crate::parts::push_side;
use line_texts::{push_number, push_word};
use mos_fields::NoMemory;
use port_events::Side;
use std::alloc::Global;

/// The line of a port at which connections can't be accepted, and the word of the cause.
pub fn stalled_line(alloc: Global, side: Side, cause: &str) -> Result<String, NoMemory>
    ensures { IfOk result (λ line. string_bytes line ≡ stalled_line_of side cause.now) }
{
    let mut line = String::new(alloc);
    push_word(&mut line, "port ")?;
    push_side(&mut line, side)?;
    push_word(&mut line, " can't take connections: ")?;
    push_word(&mut line, cause)?;
    push_word(&mut line, "\n")?;
    Ok(line)
}

/// The line of a port at which connections are accepted again.
pub fn works_line(alloc: Global, side: Side) -> Result<String, NoMemory>
    ensures { IfOk result (λ line. string_bytes line ≡ works_line_of side) }
{
    let mut line = String::new(alloc);
    push_word(&mut line, "port ")?;
    push_side(&mut line, side)?;
    push_word(&mut line, " takes connections again\n")?;
    Ok(line)
}

/// The line of a port that has so many connections and takes no more.
pub fn full_line(alloc: Global, side: Side, count: u64) -> Result<String, NoMemory>
    ensures { IfOk result (λ line. string_bytes line ≡ full_line_of side count) }
{
    let mut line = String::new(alloc);
    push_word(&mut line, "port ")?;
    push_side(&mut line, side)?;
    push_word(&mut line, " has ")?;
    push_number(alloc, &mut line, count)?;
    push_word(&mut line, " connections and takes no more\n")?;
    Ok(line)
}

/// The line of a port that ended since a connection couldn't be served.
pub fn shut_line(alloc: Global, side: Side) -> Result<String, NoMemory>
    ensures { IfOk result (λ line. string_bytes line ≡ shut_line_of side) }
{
    let mut line = String::new(alloc);
    push_word(&mut line, "port ")?;
    push_side(&mut line, side)?;
    push_word(
        &mut line,
        " ended, with no memory or thread for a connection; the program ends\n",
    )?;
    Ok(line)
}

// A line of this text.
fn line_of(alloc: Global, text: &str) -> Result<String, NoMemory>
    ensures { IfOk result (λ line. string_bytes line ≡ text.now) }
{
    let mut line = String::new(alloc);
    push_word(&mut line, text)?;
    Ok(line)
}

/// The line of the first connection or dialing worker that waits for a thread.
pub fn waits_line(alloc: Global) -> Result<String, NoMemory>
    ensures { IfOk result (λ line. string_bytes line ≡ waits_line_of) }
{
    line_of(alloc, "no thread can be made for a connection; it waits\n")
}

/// The line of threads that can be made again.
pub fn threads_again_line(alloc: Global) -> Result<String, NoMemory>
    ensures { IfOk result (λ line. string_bytes line ≡ threads_line) }
{
    line_of(alloc, "threads can be made again\n")
}
