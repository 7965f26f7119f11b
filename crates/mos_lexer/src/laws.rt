//! Laws of encodings, for the crates above: each function does nothing, and its clause is the law.
ghost use Rattle.mos_lexer.specs.Laws.{EncodingsAreApart, EncodingsAreRead, OnlyEncodingsAreRead, PiecesAreOne, StreamPiecesAreOne, HandedOutIsBehind};

/// No encoding of a message begins another one, and none encodes two values.
pub fn encodings_are_apart()
    ensures { EncodingsAreApart }
{}

/// An encoding is read to its end and not beyond, as the value that it encodes.
pub fn encodings_are_read()
    ensures { EncodingsAreRead }
{}

/// What is read to the end of a message is an encoding of it.
pub fn only_encodings_are_read()
    ensures { OnlyEncodingsAreRead }
{}

/// In whichever pieces code units come, they come to the same.
pub fn pieces_are_one()
    ensures { PiecesAreOne }
{}

/// In whichever pieces a stream comes, it comes to the same.
pub fn stream_pieces_are_one()
    ensures { StreamPiecesAreOne }
{}

/// Messages that were handed out do not matter for what is read behind them.
pub fn handed_out_is_behind()
    ensures { HandedOutIsBehind }
{}
