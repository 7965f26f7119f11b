//! Messages that have an encoding.
ghost use Rattle.std.specs.Prelude.{◌≡◌};
ghost use Rattle.mos_values.specs.Sound.{IsSound};

use mos_values::Message;
use std::marker::Model;

/// A message that has an encoding: whoever makes the value shows that. Contracts see the message.
#[derive(Drop)]
pub struct SoundMessage {
    message: Message,
}

impl Model for SoundMessage {
    ghost use Rattle.mos_values.specs.Sound.{IsSound};
    ghost use Rattle.mos_values.specs.declared.message.Message.{Message as Carried};

    ghost Value = { Carried };

    ghost view = { λ s. s.message };

    ghost invariant = { λ s. IsSound s.message };
}

impl SoundMessage {
    /// A message that is known to have an encoding.
    pub fn new(message: Message) -> Self
        requires { IsSound message }
        ensures { result ≡ message }
    {
        SoundMessage { message }
    }

    /// The message.
    pub fn message(&self) -> &Message
        ensures value { result.now ≡ self.now }
        ensures sound { IsSound self.now }
    {
        &self.message
    }

    /// The message, out of the value.
    pub fn into_message(self) -> Message
        ensures value { result ≡ self }
        ensures sound { IsSound self }
    {
        self.message
    }
}
