//! A device that answers.
ghost use Rattle.std.specs.Prelude.{◌≡◌, ◌≢◌, [], IfOk};
ghost use Rattle.machine_answers.specs.declared.answers.Heard.TheVariants as Answer;
ghost use Rattle.mos_machines.specs.Device.{gate_read};
ghost use Rattle.mos_machines.specs.Tables.{gate_of};
ghost use Rattle.mos_machines.specs.Values.{seen, message_of};
ghost use Rattle.mos_values.specs.declared.message.Message.{Message as Carried};
ghost use Rattle.device_answers.specs.Taking.{IsAnswered, answer_to, device_after, encoding, no_decks, with_message};

use crate::wide::wide;
use gateway_core::{DeckState, Gate};
use line_texts::refused_line;
use machine_answers::Heard;
use mos_fields::{NoMemory, let_go};
use mos_lexer::Kind;
use mos_message_reading::{envelope_of, read_message};
use mos_messages::encode_with;
use mos_reader::Found;
use mos_values::{Envelope, Message};
use std::alloc::Global;
use std::marker::Model;
use stream_commands::Teller;
use value_laws::ranges::message_is_in_range;

/// The connection that the device accepted.
const LINK: u64 = 1;

/// No decks were handed in.
const NO_DECKS: DeckState = DeckState {
    handed: false,
    left: 0,
};

/// A device without decks that accepted one connection. It tells its answers to the messages that come there, each in its
/// canonical encoding, and of a rejection the line `REFUSED`, place and kind, in UCS-2, high byte first.
#[derive(Drop)]
pub struct Device {
    gate: Gate,
}

impl Model for Device {
    ghost use Rattle.std.specs.Prelude.{◌≡◌, Some};
    ghost use Rattle.mos_machines.specs.Tables.{GateTables, gate_of};

    ghost Value = { GateTables };

    ghost view = { λ d. d.gate };

    ghost invariant = { λ d. (gate_of d.gate).upper ≡ Some 1 };
}

/// The encoding of an answer, with the names and the messageID of the message's envelope.
fn encode_heard(alloc: Global, envelope: &Envelope, heard: &Heard) -> Result<Vec<u8>, NoMemory>
    requires { heard.now ≢ Answer.Stale }
    ensures { (m : Carried) → heard.now ≡ Answer.Say m → IfOk result (λ bytes. bytes.items ≡ encoding (with_message envelope.now m)) }
{
    match heard {
        Heard::Say(answer) => encode_with(alloc, envelope, answer),
        Heard::Stale => unreachable!(),
    }
}

impl Device {
    /// A device to which nothing was sent yet. It takes no memory; what it keeps grows in this allocator.
    pub fn new(alloc: Global) -> Self
        ensures { IsAnswered (gate_of result) [] [] }
    {
        let mut gate = Gate::new(alloc);
        gate.upper_accepted(LINK);
        Device { gate }
    }

    /// Reads a message, and says what answers it.
    fn hear(&mut self, message: &Message) -> Result<Heard, NoMemory>
        ensures { IfOk result (λ h. (h ≡ Answer.Say (message_of (gate_read (gate_of self.old) no_decks (seen message.now)).1)) × (gate_of self.new ≡ (gate_read (gate_of self.old) no_decks (seen message.now)).0)) }
    {
        match self.gate.read_upper(LINK, message, NO_DECKS) {
            Ok(heard) => Ok(heard),
            Err(_) => Err(NoMemory),
        }
    }

    /// The encoding of the answer to a message, with the names and the messageID of its envelope.
    fn answer_encoded(&mut self, alloc: Global, envelope: &Envelope) -> Result<Vec<u8>, NoMemory>
        ensures { IfOk result (λ bytes. (bytes.items ≡ encoding (answer_to (gate_of self.old) envelope.now)) × (gate_of self.new ≡ device_after (gate_of self.old) envelope.now)) }
    {
        let heard = self.hear(&envelope.message)?;
        let text = encode_heard(alloc, envelope, &heard);
        let_go(heard);
        text
    }
}

/// Lets a device go. Who hands its device to this call drops none of its parts by itself, which would be proved once more.
pub fn close_device(device: Device) {
    let_go(device);
}

impl Teller for Device {
    ghost use Rattle.std.specs.Prelude.{[]};
    ghost use Rattle.mos_machines.specs.Tables.{gate_of};
    ghost use Rattle.device_answers.specs.Taking.{IsAnswered, refused_text};

    ghost told = { λ d. IsAnswered (gate_of d) };

    ghost last = { λ d messages units. [] };

    ghost refusal = { λ d. refused_text };

    fn tell(&mut self, alloc: Global, found: Found) -> Result<Vec<u8>, NoMemory> {
        read_message();
        let envelope = envelope_of(alloc, found.value)?;
        message_is_in_range(&envelope.message);
        let text = self.answer_encoded(alloc, &envelope);
        let_go(envelope);
        text
    }

    fn tell_last(
        &self,
        alloc: Global,
        _messages: usize,
        _units: usize,
    ) -> Result<Vec<u8>, NoMemory> {
        Ok(Vec::new(alloc))
    }

    fn tell_refusal(&self, alloc: Global, place: usize, kind: Kind) -> Result<Vec<u8>, NoMemory> {
        let line = refused_line(alloc, place, kind)?;
        wide(alloc, line.as_str())
    }
}
