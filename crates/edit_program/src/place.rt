//! Where the server's port is.
ghost use Rattle.std.specs.Prelude.{◌≡◌, None, Some, IfOk, IfErr};
ghost use Rattle.std.specs.Str.{chars};
ghost use Rattle.edit_program.specs.Ends.{AreNoPlace, IsNoPlace, IsNoValue, fault_status};
ghost use Rattle.edit_program.specs.Words.{ArePlace, IsPlace, bare as bare_of, has_brackets as has_brackets_of, host_fault, port_in as port_in_of, port_of as port_of_number};

use edit_runs::EditStatus;
use mos_fields::{FieldFault, NoMemory, Text};
use port_links::Place;
use script_edits::number;
use std::alloc::Global;

/// The greatest port.
const PORT_LIMIT: u32 = 65_535;

// The port that a number is.
fn port_of(number: Option<u32>) -> Option<u16>
    ensures { result ≡ port_of_number number }
{
    match number {
        None => None,
        Some(number) => {
            if number <= PORT_LIMIT {
                Some(number as u16)
            } else {
                None
            }
        }
    }
}

// The port that digits are: a number from 1 to 65,535, whose first digit isn't 0.
fn port_in(digits: &[u8]) -> Option<u16>
    ensures { result ≡ port_in_of digits.now }
{
    match digits {
        [] => None,
        [first, ..] => {
            if *first == b'0' {
                None
            } else {
                port_of(number(digits))
            }
        }
    }
}

// Whether brackets stand round it, as round an address of IPv6.
fn has_brackets(letters: &[char]) -> bool
    ensures { result ≡ has_brackets_of letters.now }
{
    letters.len() >= 2 && letters[0] == '[' && letters[letters.len() - 1] == ']'
}

// A host without the brackets round it.
fn bare(letters: &[char]) -> &[char]
    ensures { result.now ≡ bare_of letters.now }
{
    if has_brackets(letters) {
        &letters[1..letters.len() - 1]
    } else {
        letters
    }
}

/// The characters of a word.
pub(crate) fn letters_of(alloc: Global, word: &str) -> Result<Vec<char>, NoMemory>
    ensures { IfOk result (λ letters. letters.items ≡ chars word.now) }
{
    word.chars().collect(alloc)
}

/// The status of a word that has this fault.
pub(crate) fn status_of(fault: FieldFault) -> EditStatus
    ensures { result ≡ fault_status fault }
{
    match fault {
        FieldFault::NoMemory => EditStatus::NoMemory,
        _ => EditStatus::Usage,
    }
}

// The host that characters are.
fn host_of(alloc: Global, letters: &[char]) -> Result<Text, EditStatus>
    ensures ok { IfOk result (λ host. (host ≡ letters.now) × (host_fault letters.now ≡ None)) }
    ensures fault { IfErr result (IsNoValue (host_fault letters.now)) }
{
    match letters {
        [] => Err(EditStatus::Usage),
        _ => match Text::try_new(alloc, letters) {
            Ok(host) => Ok(host),
            Err(fault) => Err(status_of(fault)),
        },
    }
}

// The host that a word is.
fn host_in(alloc: Global, word: &str) -> Result<Text, EditStatus>
    ensures ok { IfOk result (λ host. (host ≡ bare_of (chars word.now)) × (host_fault (bare_of (chars word.now)) ≡ None)) }
    ensures fault { IfErr result (IsNoValue (host_fault (bare_of (chars word.now)))) }
{
    match letters_of(alloc, word) {
        Ok(letters) => host_of(alloc, bare(&letters)),
        Err(_) => Err(EditStatus::NoMemory),
    }
}

// The place of a host and a port.
fn place_at(alloc: Global, host: &str, digits: &[u8]) -> Result<Place, EditStatus>
    ensures ok { IfOk result (ArePlace (Some (host.now, digits.now))) }
    ensures fault { IfErr result (AreNoPlace (Some (host.now, digits.now))) }
{
    match port_in(digits) {
        None => Err(EditStatus::Usage),
        Some(port) => match host_in(alloc, host) {
            Ok(host) => Ok(Place { host, port }),
            Err(status) => Err(status),
        },
    }
}

/// The place that a word is: its host is what stands before the last colon, without the brackets that may stand round an address, and
/// its port the number behind it, from 1 to 65,535.
///
/// `Usage` comes only where the word is no place: where it has no colon, where the host is empty or has a character that XML 1.0
/// forbids, or where what stands behind the colon is no such number or begins with 0. The only other error is `NoMemory`. Whether there is
/// such a host the system says.
pub fn place_in(alloc: Global, word: &str) -> Result<Place, EditStatus>
    ensures ok { IfOk result (IsPlace word.now) }
    ensures fault { IfErr result (IsNoPlace word.now) }
{
    match word.rsplit_once(':') {
        Some((host, digits)) => place_at(alloc, host, digits.as_bytes()),
        None => Err(EditStatus::Usage),
    }
}
