//! Laws of inputs, for the crates above: each function does nothing, and its clause is the law.
ghost use Rattle.input_laws.specs.Laws.{EndsAreTold, InputsAreExact, RefusalsAreShown, RejectionsAreTold, RejectionsStay, RestsAreBlank, StreamsAreTaken, StreamsGoOn};

use mos_rejections::laws::{open_is_read, stream_rejections_are_read, streams_are_exact};

/// Code units that begin a message rest exactly where they are white space and U+FEFF.
pub fn rests_are_blank()
    ensures { RestsAreBlank }
{}

/// Bytes that are taken for a whole stream are one, of the messages that were found; those that are refused are rejected
/// behind these messages, at that place and as that.
pub fn inputs_are_exact()
    ensures { InputsAreExact }
{
    streams_are_exact();
    open_is_read();
}

/// A whole stream is taken for one, of just its messages.
pub fn streams_are_taken()
    ensures { StreamsAreTaken }
{
    open_is_read();
}

/// Bytes that show a rejection are refused so.
pub fn rejections_are_told()
    ensures { RejectionsAreTold }
{
    stream_rejections_are_read();
}

/// Bytes that end inside a message are refused as that.
pub fn ends_are_told()
    ensures { EndsAreTold }
{
    open_is_read();
}

/// A rejection is shown whatever follows.
pub fn rejections_stay()
    ensures { RejectionsStay }
{}

/// Code units that are refused show the rejection behind the messages that were read.
pub fn refusals_are_shown()
    ensures { RefusalsAreShown }
{
    streams_are_exact();
}

/// Code units that are read on from are encodings of the messages that were read, and begin one more.
pub fn streams_go_on()
    ensures { StreamsGoOn }
{
    streams_are_exact();
    open_is_read();
}
