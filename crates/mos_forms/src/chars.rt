//! Characters of texts: white space, words, leading zeros.
ghost use Rattle.std.specs.Prelude.{◌≡◌, true};
ghost use Rattle.mos_fields.specs.Characters.{are_allowed};
ghost use Rattle.mos_fields.specs.Fields.{same};
ghost use Rattle.mos_fields.specs.Forms.{behind_white as behind, before_white as before, is_space as space, trimmed as inner, shortest_digits as shortest};

/// Whether the character is white space: space, tab, line feed or carriage return.
fn is_space(c: char) -> bool
    ensures { result ≡ space c }
{
    matches!(c, ' ' | '\t' | '\n' | '\r')
}

/// The characters without the white space at their front.
fn behind_white(chars: &[char]) -> &[char]
    ensures { result.now ≡ behind chars.now }
{
    let mut rest = chars;
    while let [c, tail @ ..] = rest {
        if !is_space(*c) {
            break;
        }
        rest = tail;
    }
    rest
}

/// The characters without the white space at their end.
fn before_white(chars: &[char]) -> &[char]
    ensures { result.now ≡ before chars.now }
{
    let mut rest = chars;
    while let [front @ .., c] = rest {
        if !is_space(*c) {
            break;
        }
        rest = front;
    }
    rest
}

/// The characters without the white space round them.
#[tactic(auto, using(crate::proofs::AllowedLemmas::trimmed_allowed))]
pub(crate) fn trimmed(chars: &[char]) -> &[char]
    ensures value { result.now ≡ inner chars.now }
    ensures allowed { are_allowed chars.now ≡ true → are_allowed result.now ≡ true }
{
    before_white(behind_white(chars))
}

/// Whether the characters are those of a word of ASCII.
pub(crate) fn is_word(chars: &[char], word: &[u8]) -> bool
    ensures { result ≡ same chars.now word.now }
{
    match chars {
        [] => word.is_empty(),
        [c, more_chars @ ..] => match word {
            [] => false,
            [byte, more @ ..] => *c == char::from(*byte) && is_word(more_chars, more),
        },
    }
}

fn without_zeros(chars: &[char]) -> &[char]
    ensures { result.now ≡ shortest chars.now }
{
    let mut rest = chars;
    while let [c, tail @ ..] = rest {
        if *c != '0' || tail.is_empty() {
            break;
        }
        rest = tail;
    }
    rest
}

/// Digits without leading zeros.
#[tactic(auto, using(crate::proofs::AllowedLemmas::shortest_allowed))]
pub(crate) fn shortest_digits(chars: &[char]) -> &[char]
    ensures value { result.now ≡ shortest chars.now }
    ensures allowed { are_allowed chars.now ≡ true → are_allowed result.now ≡ true }
{
    without_zeros(chars)
}
