//! ASCII texts in UCS-2.
ghost use Rattle.std.specs.Prelude.{◌≡◌, ◌++◌, ◌∷◌, [], IfOk, OnOk};
ghost use Rattle.device_answers.specs.Taking.{wide as wide_of};

use mos_fields::NoMemory;
use std::alloc::Global;

/// Appends a byte as a code unit, high byte first.
fn push_unit(out: &mut Vec<u8>, byte: u8) -> Result<(), NoMemory>
    ensures { OnOk result (out.new.items ≡ out.old.items ++ 0 ∷ byte ∷ []) }
{
    out.extend_from_slice(&[0, byte])?;
    Ok(())
}

/// Appends bytes, each as a code unit, high byte first.
fn push_wide(out: &mut Vec<u8>, bytes: &[u8]) -> Result<(), NoMemory>
    ensures { OnOk result (out.new.items ≡ out.old.items ++ wide_of bytes.now) }
{
    for byte in bytes {
        push_unit(out, *byte)?;
    }
    Ok(())
}

/// The bytes of an ASCII text in UCS-2, high byte first.
pub fn wide(alloc: Global, text: &str) -> Result<Vec<u8>, NoMemory>
    ensures { IfOk result (λ bytes. bytes.items ≡ wide_of text.now) }
{
    let mut out = Vec::new(alloc);
    push_wide(&mut out, text.as_bytes())?;
    Ok(out)
}
