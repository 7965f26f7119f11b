//! Numbers of a script.
ghost use Rattle.std.specs.Prelude.{◌≡◌, ◌≤◌, ◌+◌, ◌-◌, ◌*◌, ◌^◌, length, true};
ghost use Rattle.std.specs.List.{list_all};
ghost use Rattle.script_edits.specs.Words.{is_digit as is_digit_of, is_number as is_number_of, number_of, value_after as value_after_of};

fn is_digit(c: u8) -> bool
    ensures { result ≡ is_digit_of c }
{
    c >= b'0' && c <= b'9'
}

fn are_digits(word: &[u8]) -> bool
    ensures { result ≡ list_all is_digit_of word.now }
{
    match word {
        [] => true,
        [c, more @ ..] => is_digit(*c) && are_digits(more),
    }
}

/// Whether a word is a number: 1 to 9 digits, of which the first may be zeros.
#[tactic(auto, unfolding(crate::specs::Words::is_number))]
fn is_number(word: &[u8]) -> bool
    ensures { result ≡ is_number_of word.now }
{
    word.len() >= 1 && word.len() <= 9 && are_digits(word)
}

/// The value of a digit.
fn digit_value(c: u8) -> u32
    requires { is_digit_of c ≡ true }
    ensures value { result ≡ c - 48 }
    ensures bound { result ≤ 9 }
{
    u32::from(c - b'0')
}

/// The number that digits write behind one that was read. All together are at most nine digits.
#[tactic(auto, using(crate::proofs::NumberLemmas::more_digits, crate::proofs::NumberLemmas::more_room))]
fn value_after(n: u32, digits: &[u8]) -> u32
    requires digits { list_all is_digit_of digits.now ≡ true }
    requires room { (n + 1) * 10 ^ length digits.now ≤ 10 ^ 9 }
    ensures { result ≡ value_after_of n digits.now }
{
    match digits {
        [] => n,
        [c, more @ ..] => value_after(n * 10 + digit_value(*c), more),
    }
}

/// The number that a word is: 1 to 9 digits, of which the first may be zeros. `None` comes exactly where it is none.
#[tactic(auto, using(crate::proofs::NumberLemmas::number_digits, crate::proofs::NumberLemmas::number_room))]
pub fn number(word: &[u8]) -> Option<u32>
    ensures { result ≡ number_of word.now }
{
    if is_number(word) {
        Some(value_after(0, word))
    } else {
        None
    }
}
