//! The lines that are written.
ghost use Rattle.std.specs.Prelude.{◌≡◌, ◌++◌, ◌∷◌, [], OnOk, IfOk, codes};
ghost use Rattle.std.specs.Fmt.{decimal};
ghost use Rattle.world_scripts.specs.Outcomes.{outcome_of};
ghost use Rattle.world_scripts.specs.Results.{counted as counted_of, event_line};
ghost use Rattle.script_plays.specs.Played.{refused_line as refused_line_of};

use mos_fields::NoMemory;
use std::alloc::Global;
use world_scripts::Outcome;

/// Appends the decimal digits of a number.
fn push_digits(alloc: Global, out: &mut Vec<u8>, number: u64) -> Result<(), NoMemory>
    ensures { OnOk result (out.new.items ≡ out.old.items ++ decimal number) }
{
    let digits = number.to_string(alloc)?;
    out.extend_from_slice(digits.as_bytes())?;
    Ok(())
}

/// Appends the line of event `number`, from 1.
pub fn push_event_line(
    alloc: Global,
    out: &mut Vec<u8>,
    number: u64,
    outcome: &Outcome,
) -> Result<(), NoMemory>
    ensures { OnOk result (out.new.items ≡ out.old.items ++ event_line number (outcome_of outcome.now)) }
{
    push_digits(alloc, out, number)?;
    out.push(b' ')?;
    outcome.push_to(alloc, out)?;
    out.push(b'\n')?;
    Ok(())
}

/// Appends the line of a count.
pub fn push_count(alloc: Global, out: &mut Vec<u8>, word: &str, number: u64) -> Result<(), NoMemory>
    ensures { OnOk result (out.new.items ≡ out.old.items ++ counted_of word.now number) }
{
    out.extend_from_slice(word.as_bytes())?;
    out.push(b' ')?;
    push_digits(alloc, out, number)?;
    out.push(b'\n')?;
    Ok(())
}

/// The line of a script that is refused at line `number`, from 1.
pub fn refused_line(alloc: Global, number: u64) -> Result<Vec<u8>, NoMemory>
    ensures { IfOk result (λ out. out.items ≡ refused_line_of number) }
{
    let mut out = Vec::new(alloc);
    out.extend_from_slice(b"REFUSED line ")?;
    push_digits(alloc, &mut out, number)?;
    out.push(b'\n')?;
    Ok(out)
}
