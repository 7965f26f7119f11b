//! The laws.
ghost use Rattle.value_laws.specs.SoundLaws.{EncodedMessagesAreSound, ReadMessagesAreSound};

use mos_message_reading::encoded_message;

/// An envelope whose events are the value of a message is sound, where the name of a message that is kept as it was written
/// is that of its element.
pub fn read_messages_are_sound()
    ensures { ReadMessagesAreSound }
{}

/// The same of an envelope that code units encode, in whichever encoding.
pub fn encoded_messages_are_sound()
    ensures { EncodedMessagesAreSound }
{
    encoded_message();
    read_messages_are_sound();
}
