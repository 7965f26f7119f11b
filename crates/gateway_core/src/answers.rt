//! What the server answers on the connection that the gateway opened.
ghost use Rattle.std.specs.Prelude.{◌≡◌, ◌||◌, ◌&&◌, false, Some, None, OnOk, OnErr, IfOk, IsSome};
ghost use Rattle.mos_machines.specs.Device.{gate_dropped, gate_got, got_by, got_order, got_refusal, is_all as is_all_of, is_known, wants_out};
ghost use Rattle.mos_machines.specs.Device.GateOut.{NotAsking, AsksAll, AsksBeat};
ghost use Rattle.mos_machines.specs.Messages.Message.{RoList as list, RoListAll as lists, RoAck as ack};
ghost use Rattle.mos_machines.specs.Messages.{read_status};
ghost use Rattle.mos_machines.specs.Messages.Step.{Taken, Unasked};
ghost use Rattle.mos_machines.specs.Tables.{gate_of};
ghost use Rattle.mos_machines.specs.Steps.{DeviceEvent, device_step};
ghost use Rattle.mos_machines.specs.Values.{seen};
ghost use Rattle.order_table.specs.Rows.{find_row};
ghost use Rattle.machine_answers.specs.Answers.{step_of, stepped};
ghost use Rattle.gateway_core.specs.Gots.{got_asked, refused_asked, is_beat};

use crate::asking::Asking;
use crate::changes::{WantingOut, is_for};
use crate::gate::{Gate, is_link};
use crate::known::Phase;
use crate::listing::list_in;
use crate::orders::{hold, mark};
use crate::statuses::{is_for_any, says_no_order};
use machine_answers::Step;
use mos_fields::{Id, NoMemory};
use mos_values::{Headers, Message, OrderBody, RoAck};
use running_order::Order;
use std::mem::replace;

// No order was asked for that this is.
fn drop_order(_held: Option<Order>) {}

impl Gate {
    // Nothing was asked for that this answers; the connection counts as ended.
    fn unasked(&mut self) -> Step
        ensures answer { result ≡ stepped Unasked }
        ensures step { gate_of self.new ≡ gate_dropped (gate_of self.old) }
    {
        self.drop_link();
        Step::Unasked
    }

    // The answer to a heartbeat.
    fn take_beat(&mut self, m: &Message) -> Step
        ensures answer { result ≡ stepped (got_by (gate_of self.old) AsksBeat (seen m.now)).1 }
        ensures step { gate_of self.new ≡ (got_by (gate_of self.old) AsksBeat (seen m.now)).0 }
    {
        match m {
            Message::Heartbeat(_) => {
                self.out = Asking::Nothing;
                self.confirm.answered();
                Step::Taken
            }
            _ => self.unasked(),
        }
    }

    // The list of all orders was refused: each order that is out of step is wanted.
    fn want_out(&mut self)
        ensures { gate_of self.new ≡ record (gate_of self.old) { out = NotAsking; wanted = λ r. (gate_of self.old).wanted r || (is_known r (gate_of self.old).known && wants_out ((gate_of self.old).phase r)) } }
    {
        self.out = Asking::Nothing;
        self.orders.change_all(&WantingOut);
    }

    // What came for the order that was asked for, where one was.
    fn take_held(&mut self, held: Option<Order>)
        ensures { gate_of self.new ≡ got_asked (gate_of self.old) self.old.out held }
    {
        match replace(&mut self.out, Asking::Nothing) {
            Asking::Order(ro) => self.take_for(ro, held),
            _ => drop_order(held),
        }
    }

    // What came for an order.
    fn take_for(&mut self, ro: Id, held: Option<Order>)
        requires there { IsSome (find_row ro self.old.orders) }
        requires free { self.old.out ≡ NotAsking }
        ensures { gate_of self.new ≡ got_order (gate_of self.old) ro held }
    {
        let in_step = hold(&mut self.orders, &ro, held);
        self.confirm.list(in_step, ro);
    }

    // The order that was asked for wasn't given.
    fn take_refusal(&mut self)
        ensures { gate_of self.new ≡ refused_asked (gate_of self.old) self.old.out }
    {
        self.orders.has_ascending_ids();
        match replace(&mut self.out, Asking::Nothing) {
            Asking::Order(ro) => mark(&mut self.orders, &ro, Phase::Out, true),
            _ => {}
        }
    }

    // A roList, where no list of all orders was asked for.
    fn take_list(&mut self, body: &OrderBody) -> Result<Step, NoMemory>
        ensures answer { IfOk result (λ s. s ≡ stepped (got_by (gate_of self.old) self.old.out (list body.now.header.ro body.now)).1) }
        ensures step { OnOk result (gate_of self.new ≡ (got_by (gate_of self.old) self.old.out (list body.now.header.ro body.now)).0) }
        ensures err { OnErr result (self.new ≡ self.old) }
    {
        if !is_for(&body.header.ro, &self.out) {
            return Ok(self.unasked());
        }
        let held = Order::from_body(self.orders.allocator(), body)?;
        self.take_held(Some(held));
        Ok(Step::Taken)
    }

    // A roAck, where no list of all orders was asked for.
    fn take_ack(&mut self, answer: &RoAck) -> Step
        requires { is_all_of self.old.out ≡ false }
        ensures answer { result ≡ stepped (got_by (gate_of self.old) self.old.out (ack answer.now.ro (read_status answer.now.status))).1 }
        ensures step { gate_of self.new ≡ (got_by (gate_of self.old) self.old.out (ack answer.now.ro (read_status answer.now.status))).0 }
    {
        if !is_for_any(&answer.ro, &self.out) {
            return self.unasked();
        }
        if says_no_order(&answer.status) {
            self.take_held(None);
        } else {
            self.take_refusal();
        }
        Step::Taken
    }

    // The list of all orders.
    fn take_headers(&mut self, headers: &Headers) -> Result<Step, NoMemory>
        ensures answer { IfOk result (λ s. s ≡ stepped Taken) }
        ensures step { OnOk result (gate_of self.new ≡ (got_by (gate_of self.old) AsksAll (lists headers.now)).0) }
        ensures err { OnErr result (self.new ≡ self.old) }
    {
        self.orders.has_ascending_ids();
        list_in(&mut self.orders, headers.as_slice())?;
        self.out = Asking::Nothing;
        Ok(Step::Taken)
    }

    // The answer to a request of all orders.
    fn take_all(&mut self, m: &Message) -> Result<Step, NoMemory>
        ensures answer { IfOk result (λ s. s ≡ stepped (got_by (gate_of self.old) AsksAll (seen m.now)).1) }
        ensures step { OnOk result (gate_of self.new ≡ (got_by (gate_of self.old) AsksAll (seen m.now)).0) }
        ensures err { OnErr result (self.new ≡ self.old) }
    {
        match m {
            Message::RoListAll(headers) => self.take_headers(headers),
            Message::RoAck(_) => {
                self.want_out();
                Ok(Step::Taken)
            }
            _ => Ok(self.unasked()),
        }
    }

    // The answer to a request of one order, or to none.
    fn take_order(&mut self, m: &Message) -> Result<Step, NoMemory>
        requires all { is_all_of self.old.out ≡ false }
        requires beat { is_beat self.old.out ≡ false }
        ensures answer { IfOk result (λ s. s ≡ stepped (got_by (gate_of self.old) self.old.out (seen m.now)).1) }
        ensures step { OnOk result (gate_of self.new ≡ (got_by (gate_of self.old) self.old.out (seen m.now)).0) }
        ensures err { OnErr result (self.new ≡ self.old) }
    {
        match m {
            Message::RoList(body) => self.take_list(body.as_ref()),
            Message::RoAck(answer) => Ok(self.take_ack(answer)),
            _ => Ok(self.unasked()),
        }
    }

    fn take(&mut self, m: &Message) -> Result<Step, NoMemory>
        ensures answer { IfOk result (λ s. s ≡ stepped (gate_got (gate_of self.old) (seen m.now)).1) }
        ensures step { OnOk result (gate_of self.new ≡ (gate_got (gate_of self.old) (seen m.now)).0) }
        ensures err { OnErr result (self.new ≡ self.old) }
    {
        match self.out {
            Asking::Beat => Ok(self.take_beat(m)),
            Asking::All => self.take_all(m),
            _ => self.take_order(m),
        }
    }

    /// Takes an answer that came on the connection that the device opened.
    ///
    /// A roList of the order that was asked for is held, and a roAck `NO RUNNING ORDER` says that there is none: where no
    /// edit crossed it, the order is in step then, and a heartbeat is to confirm that. With any other roAck the order is out
    /// of step and wanted. Of a roListAll each order that isn't in step is wanted. `Unasked` comes exactly where nothing was
    /// asked for that this answers; the connection counts as ended then.
    ///
    /// The only error is that memory runs out; the gateway then stays as it was.
    pub fn read_answer(&mut self, link: u64, m: &Message) -> Result<Step, NoMemory>
        ensures answer { IfOk result (λ s. s ≡ step_of (device_step (gate_of self.old) (DeviceEvent.ReadAnswer link (seen m.now))).0) }
        ensures step { OnOk result (gate_of self.new ≡ (device_step (gate_of self.old) (DeviceEvent.ReadAnswer link (seen m.now))).1) }
        ensures err { OnErr result (self.new ≡ self.old) }
    {
        if !is_link(self.link, link) {
            return Ok(Step::Stale);
        }
        self.take(m)
    }
}
