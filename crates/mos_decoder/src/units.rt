//! Bytes to code units.
ghost use Rattle.std.specs.Prelude.{◌≡◌, ◌≤◌, ◌+◌, ◌*◌, ◌++◌, [], ◌∷◌, OnOk, IfOk, drop, length, slice_index};
ghost use Rattle.mos_fields.specs.Characters.{units_in};
ghost use Rattle.mos_decoder.specs.Bytes.{AreTurned, behind_odd, odd_in, turned_round};

use mos_fields::NoMemory;
use std::alloc::Global;

/// Appends a code unit, of its high byte and its low one.
fn push_unit(high: u8, low: u8, units: &mut Vec<u16>) -> Result<(), NoMemory>
    ensures { OnOk result (units.new.items ≡ units.old.items ++ (high * 256 + low) ∷ []) }
{
    units.push(u16::from(high) * 256 + u16::from(low))?;
    Ok(())
}

/// A code unit whose bytes have to be turned round, of the high byte and the low one of that which then comes of it.
fn turned(high: u8, low: u8) -> u16
    ensures { turned_round result ≡ high * 256 + low }
{
    u16::from(low) * 256 + u16::from(high)
}

/// The same of two bytes. They are cut out first, so that LLVM reads them at once.
fn turned_pair(bytes: &[u8], at: usize) -> u16
    requires { at + 2 ≤ length bytes.now }
    ensures { turned_round result ≡ slice_index bytes.now at * 256 + slice_index bytes.now (at + 1) }
{
    let pair = &bytes[at..at + 2];
    turned(pair[0], pair[1])
}

/// 64 bytes as code units whose bytes have to be turned round.
fn turned_block(bytes: &[u8], at: usize) -> [u16; 32]
    requires { at + 64 ≤ length bytes.now }
    ensures length { length result ≡ 32 }
    ensures turned { AreTurned bytes.now at result 0 }
{
    let mut units = [0u16; 32];
    for k in 0..32usize {
        units[k] = turned_pair(bytes, at + 2 * k);
    }
    units
}

/// Turns the bytes of a code unit round.
fn turn(unit: u16) -> u16
    ensures { result ≡ turned_round unit }
{
    unit % 256 * 256 + unit / 256
}

/// The code units of 64 bytes, in loops with no branch, of which LLVM makes vectors.
fn block_units(bytes: &[u8], at: usize) -> [u16; 32]
    requires { at + 64 ≤ length bytes.now }
    ensures { result ++ units_in (drop (at + 64) bytes.now) ≡ units_in (drop at bytes.now) }
{
    let mut units = turned_block(bytes, at);
    for k in 0..32usize {
        units[k] = turn(units[k]);
    }
    units
}

/// Appends the code units of 64 bytes.
fn push_block(bytes: &[u8], at: usize, units: &mut Vec<u16>) -> Result<(), NoMemory>
    requires { at + 64 ≤ length bytes.now }
    ensures { OnOk result (units.new.items ++ units_in (drop (at + 64) bytes.now) ≡ units.old.items ++ units_in (drop at bytes.now)) }
{
    let block = block_units(bytes, at);
    units.extend_from_slice(&block)?;
    Ok(())
}

/// Appends the code units of blocks of 64 bytes, as many as there are, and returns how many bytes they are.
fn push_blocks(bytes: &[u8], units: &mut Vec<u16>) -> Result<usize, NoMemory>
    ensures within { IfOk result (λ at. at ≤ length bytes.now) }
    ensures odd { IfOk result (λ at. odd_in (drop at bytes.now) ≡ odd_in bytes.now) }
    ensures units { IfOk result (λ at. units.new.items ++ units_in (drop at bytes.now) ≡ units.old.items ++ units_in bytes.now) }
{
    let mut at = 0;
    'block: while bytes.len() - at >= 64 {
        push_block(bytes, at, units)?;
        at += 64;
    }
    Ok(at)
}

/// Appends the code units of pairs of bytes one by one, and returns the odd byte behind them.
fn push_single_pairs(bytes: &[u8], units: &mut Vec<u16>) -> Result<Option<u8>, NoMemory>
    ensures odd { IfOk result (λ odd. odd ≡ odd_in bytes.now) }
    ensures units { IfOk result (λ odd. units.new.items ≡ units.old.items ++ units_in bytes.now) }
{
    let mut at = 0;
    'pair: while bytes.len() - at >= 2 {
        push_unit(bytes[at], bytes[at + 1], units)?;
        at += 2;
    }
    if at < bytes.len() {
        Ok(Some(bytes[at]))
    } else {
        Ok(None)
    }
}

/// What stands behind so many bytes.
fn behind(bytes: &[u8], at: usize) -> &[u8]
    requires { at ≤ length bytes.now }
    ensures { result.now ≡ drop at bytes.now }
{
    &bytes[at..]
}

/// Appends the code units of pairs of bytes, and returns the odd byte behind them.
fn push_pairs(bytes: &[u8], units: &mut Vec<u16>) -> Result<Option<u8>, NoMemory>
    ensures odd { IfOk result (λ odd. odd ≡ odd_in bytes.now) }
    ensures units { IfOk result (λ odd. units.new.items ≡ units.old.items ++ units_in bytes.now) }
{
    let at = push_blocks(bytes, units)?;
    push_single_pairs(behind(bytes, at), units)
}

/// The code units of bytes behind an odd one, and the odd byte behind them.
fn units_behind_byte(
    alloc: Global,
    high: u8,
    bytes: &[u8],
) -> Result<(Vec<u16>, Option<u8>), NoMemory>
    ensures units { IfOk result (λ r. r.0.items ≡ units_in (high ∷ bytes.now)) }
    ensures odd { IfOk result (λ r. r.1 ≡ odd_in (high ∷ bytes.now)) }
{
    let mut units = Vec::new(alloc);
    match bytes {
        [] => Ok((units, Some(high))),
        [low, more @ ..] => {
            push_unit(high, *low, &mut units)?;
            let odd = push_pairs(more, &mut units)?;
            Ok((units, odd))
        }
    }
}

/// The code units of bytes behind an odd one or none, and the odd byte behind them.
pub fn units_behind(
    alloc: Global,
    odd: Option<u8>,
    bytes: &[u8],
) -> Result<(Vec<u16>, Option<u8>), NoMemory>
    ensures units { IfOk result (λ r. r.0.items ≡ units_in (behind_odd odd bytes.now)) }
    ensures odd { IfOk result (λ r. r.1 ≡ odd_in (behind_odd odd bytes.now)) }
{
    match odd {
        Some(high) => units_behind_byte(alloc, high, bytes),
        None => {
            let mut units = Vec::with_capacity(alloc, bytes.len() / 2)?;
            let odd = push_pairs(bytes, &mut units)?;
            Ok((units, odd))
        }
    }
}
