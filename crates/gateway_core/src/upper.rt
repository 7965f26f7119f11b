//! What the gateway hears on the connection of the server.
ghost use Rattle.std.specs.Prelude.{◌≡◌, ◌&&◌, OnOk, OnErr, IfOk, IsOk};
ghost use Rattle.mos_machines.specs.Device.{would_arm as would_arm_of, is_in, is_some_order};
ghost use Rattle.mos_machines.specs.Tables.{gate_of};
ghost use Rattle.mos_machines.specs.Steps.{DeviceEvent, device_step};
ghost use Rattle.mos_machines.specs.Values.{seen};
ghost use Rattle.machine_answers.specs.Answers.{heard_of};
ghost use Rattle.machine_answers.specs.declared.answers.Heard.TheVariants as heard;
ghost use Rattle.mos_values.specs.declared.message.Message.TheVariants as carried;
ghost use Rattle.gateway_core.specs.Parts.{decks_of};
ghost use Rattle.gateway_core.specs.Reads.{read_rows, read_ack, IsHeartbeat};

use crate::gate::{Gate, is_link};
use crate::known::DeckState;
use crate::reading::read_message;
use machine_answers::Heard;
use mos_fields::{Air, Id, NoMemory};
use mos_values::Message;

impl Gate {
    /// Reads a message of the server, and says what answers it.
    ///
    /// A heartbeat is answered by itself, and takes no memory. A whole order is held in step, a change of an order in step
    /// is applied, and NOT READY changes nothing: each is answered `OK`, but READY `NO DECK` where decks were handed in and
    /// none is left. The changes are roElementAction, roMetadataReplace, roStorySend and READY. One that doesn't apply is
    /// answered with its fault, `MISSING` or `ALREADY THERE` and the ID; the order is held as before, out of step. A change of
    /// an order that is out of step, and each edit of one that is asked for, is answered `NOT IN STEP`. Any other message is
    /// answered `NOT SUPPORTED`.
    ///
    /// The only error is that memory runs out; the gateway then stays as it was.
    pub fn read_upper(
        &mut self,
        link: u64,
        m: &Message,
        decks: DeckState,
    ) -> Result<Heard, NoMemory>
        ensures answer { IfOk result (λ h. h ≡ heard_of (device_step (gate_of self.old) (DeviceEvent.ReadUpper link (seen m.now) (decks_of decks))).0) }
        ensures step { OnOk result (gate_of self.new ≡ (device_step (gate_of self.old) (DeviceEvent.ReadUpper link (seen m.now) (decks_of decks))).1) }
        ensures err { OnErr result (self.new ≡ self.old) }
        ensures heartbeat { IsHeartbeat m.now → IsOk result }
    {
        if !is_link(self.upper, link) {
            return Ok(Heard::Stale);
        }
        match m {
            Message::Heartbeat(time) => Ok(Heard::Say(Message::Heartbeat(*time))),
            _ => self.read_other(m, decks),
        }
    }

    fn read_other(&mut self, m: &Message, decks: DeckState) -> Result<Heard, NoMemory>
        ensures answer { IfOk result (λ h. h ≡ heard.Say (carried.RoAck (read_ack self.old.orders (decks_of decks) (seen m.now)))) }
        ensures step { OnOk result (self.new ≡ record self.old { orders = read_rows self.old.orders (decks_of decks) (seen m.now) }) }
        ensures err { OnErr result (self.new ≡ self.old) }
    {
        let ack = read_message(self.orders.allocator(), &mut self.orders, m, decks)?;
        Ok(Heard::Say(Message::RoAck(ack)))
    }

    /// Whether this message, read on this connection, is a READY of an order that is in step and held. It takes no memory.
    pub fn would_arm(&self, link: u64, m: &Message) -> bool
        ensures { result ≡ would_arm_of (gate_of self.now) link (seen m.now) }
    {
        match m {
            Message::RoReadyToAir {
                ro,
                air: Air::Ready,
            } => is_link(self.upper, link) && self.is_held_in_step(ro),
            _ => false,
        }
    }

    fn is_held_in_step(&self, ro: &Id) -> bool
        ensures { result ≡ (is_in ((gate_of self.now).phase ro.now) && is_some_order ((gate_of self.now).held ro.now)) }
    {
        self.is_in_step(ro) && self.order(ro).is_some()
    }
}
