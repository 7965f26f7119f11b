//! Laws of rejections, for the crates above: each function does nothing, and its clause is the law.
ghost use Rattle.mos_rejections.specs.Laws.{RunsAreExact, StreamsAreExact, OpenIsRead, RejectionsAreRead, RejectionsAreOne, RejectionsAreApart, StreamRejectionsAreRead};

/// The reading of a message goes on while the code units begin one, comes to its end, or comes to the first that shows
/// a fault, with the place and the kind of that fault.
pub fn runs_are_exact()
    ensures { RunsAreExact }
{}

/// The same of a stream of messages, with places from its beginning.
pub fn streams_are_exact()
    ensures { StreamsAreExact }
{}

/// Code units that begin a message, as far as they go, are read on.
pub fn open_is_read()
    ensures { OpenIsRead }
{}

/// Code units that show a rejection are read as it, whatever follows.
pub fn rejections_are_read()
    ensures { RejectionsAreRead }
{}

/// Of the fronts of code units one at most shows a rejection, at one place and of one kind.
pub fn rejections_are_one()
    ensures { RejectionsAreOne }
{}

/// What shows a rejection begins no message, and no message stands at its front.
pub fn rejections_are_apart()
    ensures { RejectionsAreApart }
{}

/// Behind messages, code units that show a rejection are read as it, with its place from the beginning of the stream.
pub fn stream_rejections_are_read()
    ensures { StreamRejectionsAreRead }
{}
