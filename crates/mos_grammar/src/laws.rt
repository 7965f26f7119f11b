//! Laws of messages as tokens, for the crates above: each function does nothing, and its clause is the law.
ghost use Rattle.mos_grammar.specs.Laws.{MessagesAreRead, BeginningsAreRead, RejectedBeginsNone, MessagesAreApart};
ghost use Rattle.mos_grammar.specs.TokenKinds.{FaultsAreFirst};

/// The tokens of a message, and no others, are read to its end, as its value.
pub fn messages_are_read()
    ensures { MessagesAreRead }
{}

/// Tokens are read where they begin a message, and nowhere else.
pub fn beginnings_are_read()
    ensures { BeginningsAreRead }
{}

/// A token that is rejected begins no message behind the tokens before it.
pub fn rejected_begins_none()
    ensures { RejectedBeginsNone }
{}

/// No message begins another one, and no tokens are messages of two values.
pub fn messages_are_apart()
    ensures { MessagesAreApart }
{}

/// The fault of a token is the first kind of what it shows; where it shows none, it fits.
pub fn faults_are_first()
    ensures { FaultsAreFirst }
{}
