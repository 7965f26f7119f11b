//! What one character does.

/// Which token is whole.
#[derive(Clone, Copy)]
pub enum Kind {
    /// a start tag
    OpenTag,
    /// an empty tag
    EmptyTag,
    /// an end tag
    CloseTag,
    /// the rest of a raw element
    Tail,
    /// U+FEFF before a message
    Mark,
    /// the XML declaration
    Declaration,
}

/// What one character does.
#[derive(Clone, Copy)]
pub enum Scanned {
    /// the token goes on
    More,
    /// the token is whole with this character
    Token(Kind),
    /// a text is whole before this character, which begins a tag
    TextBefore,
    /// a text is whole before this character, which is the token U+FEFF
    TextBeforeMark,
    /// what was read with this character is no beginning of a token
    NoToken,
    /// no reference begins so: its `&` stands so many characters before this one
    NoReference(usize),
}
