//! Canonical encodings are encodings.
ghost use Rattle.encoding_laws.specs.Laws.{ReadIsReadAgain, ValuesAreMessages, ValuesAreEncoded, AllowedTextsAreEncoded};

/// What was read is read again: the canonical encoding of a message's value is an encoding of it.
///
/// Two things have to hold of the encoding: XML allows its characters, of which `allowed_texts_are_encoded` speaks, and it
/// has no more code units than a message may have. With `mos_lexer::encodings_are_read` a reader that gets it comes to the
/// same value.
pub fn read_is_read_again()
    ensures { ReadIsReadAgain }
{}

/// The events of an envelope are the value of a message, one that the grammar accepts.
///
/// The envelope's message has to be sound, with distinct storyIDs and itemIDs in whole orders and stories, and each text
/// has to be in the canonical form of its field.
pub fn values_are_messages()
    ensures { ValuesAreMessages }
{}

/// Values are encoded: the canonical encoding of such an envelope is an encoding of it.
///
/// The encoding's characters and its size are as in `read_is_read_again`.
pub fn values_are_encoded()
    ensures { ValuesAreEncoded }
{}

/// Where XML allows the characters of each text and of each raw element of a message's value, it allows those of the
/// canonical encoding.
pub fn allowed_texts_are_encoded()
    ensures { AllowedTextsAreEncoded }
{}
