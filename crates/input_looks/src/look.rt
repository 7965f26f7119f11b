//! Looks.
ghost use Rattle.std.specs.Prelude.{◌≡◌};
ghost use Rattle.input_looks.specs.Looks.{begins as begins_of, has_return as has_return_of, look_of as look_of_bytes};

/// What an input looks like.
#[derive(Clone, Copy, Debug, PartialEq, Eq)]
pub enum Look {
    /// Text in UTF-8.
    Utf8,
    /// Text in UTF-16 with the low byte first.
    LowByteFirst,
}

impl Look {
    /// What to say of it: what the input looks like, and the command that makes UTF-16 with the high byte first of it.
    pub fn hint(self) -> &'static str {
        match self {
            Look::Utf8 => {
                "the bytes look like UTF-8, and messages are UCS-2 with the high byte first: iconv -f UTF-8 -t UTF-16BE"
            }
            Look::LowByteFirst => {
                "the bytes look like UTF-16 with the low byte first, and messages have the high byte first: iconv -f UTF-16 -t UTF-16BE"
            }
        }
    }
}

// Whether a message may begin with this character, or with white space before it.
fn begins(byte: u8) -> bool
    ensures { result ≡ begins_of byte }
{
    byte == b'<' || byte == b' ' || byte == b'\t' || byte == b'\n' || byte == b'\r'
}

/// What an input looks like whose first bytes are these. None where they may begin a stream of messages, and where they are
/// neither.
pub fn look_of(first: &[u8]) -> Option<Look>
    ensures { result ≡ look_of_bytes first.now }
{
    match first {
        [a, b, ..] => {
            if *a == 239 && *b == 187 {
                Some(Look::Utf8)
            } else if *a == 255 && *b == 254 {
                Some(Look::LowByteFirst)
            } else if begins(*a) {
                if *b == 0 {
                    Some(Look::LowByteFirst)
                } else if *b < 128 {
                    Some(Look::Utf8)
                } else {
                    None
                }
            } else {
                None
            }
        }
        _ => None,
    }
}

/// Whether one of these bytes is a carriage return with a line feed after it.
pub fn has_return(first: &[u8]) -> bool
    ensures { result ≡ has_return_of first.now }
{
    match first {
        [a, rest @ ..] => match rest {
            [b, ..] => (*a == b'\r' && *b == b'\n') || has_return(rest),
            _ => false,
        },
        _ => false,
    }
}
