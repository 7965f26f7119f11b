//! What the grammar says of the events that are read here.
ghost use Rattle.mos_message_reading.specs.Values.{EncodedValuesAreMessages, ReadValuesAreMessages};

/// The events that code units encode are the value of a message.
pub fn encoded_message()
    ensures { EncodedValuesAreMessages }
{}

/// The events that are read from code units, to the end of a message, are the value of a message.
pub fn read_message()
    ensures { ReadValuesAreMessages }
{}
