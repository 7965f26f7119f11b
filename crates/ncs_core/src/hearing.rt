//! What a device says and asks on the connection that it opened.
ghost use Rattle.std.specs.Prelude.{◌≡◌, ◌<◌, false, get_or, OnOk, OnErr, IfOk, IsOk, IsSome};
ghost use Rattle.std.specs.Option.{option_copied};
ghost use Rattle.mos_edits.specs.Entries.{entry_count, in_force, order_now};
ghost use Rattle.mos_machines.specs.Messages.{Message as Said, message_ro};
ghost use Rattle.mos_machines.specs.Messages.Status.{NotNow};
ghost use Rattle.mos_machines.specs.Server.{peer_hear, peer_settled};
ghost use Rattle.mos_machines.specs.Steps.{ServerEvent, server_step, with_peer};
ghost use Rattle.mos_machines.specs.Tables.{no_peer_tables};
ghost use Rattle.mos_machines.specs.Values.{seen, message_of};
ghost use Rattle.order_table.specs.Rows.{find_row};
ghost use Rattle.machine_answers.specs.Answers.{heard_of};
ghost use Rattle.machine_answers.specs.declared.answers.Heard.TheVariants as heard;
ghost use Rattle.mos_values.specs.declared.message.Message.TheVariants as carried;
ghost use Rattle.ncs_core.specs.Answers.{acked, other_status, list_said, peer_listed, IsHeartbeat};
ghost use Rattle.ncs_core.specs.State.{ncs_of, devices_of, LeavesRest};

use crate::looks::look_if_settled;
use crate::ncs::Ncs;
use crate::reading::{ack_with, other_ack};
use machine_answers::{Heard, Status};
use mos_fields::{Id, NoMemory, pair_ok};
use mos_values::{Boxed, Message};
use rundown_log::Keeper;
use running_order::Order;
use script_numbers::numbers_are_entries;
use std::alloc::Global;

// The order that was asked for, or that there is none.
fn said_list(alloc: Global, order: Option<&Order>, ro: &Id) -> Result<Heard, NoMemory>
    ensures { IfOk result (λ h. h ≡ heard.Say (list_said ro.now (option_copied order.entry))) }
{
    match order {
        Some(order) => Ok(Heard::Say(Message::RoList(Boxed::new(alloc, order.to_body()?)?))),
        None => Ok(Heard::Say(Message::RoAck(ack_with(alloc, ro, Status::NoRunningOrder)?))),
    }
}

impl<K: Keeper> Ncs<K> {
    // The list of all orders.
    fn hear_all(&mut self, d: u32) -> Result<Heard, NoMemory>
        requires { d < devices_of self.old }
        ensures answer { IfOk result (λ h. h ≡ heard.Say (message_of (peer_hear self.old.server.journal ((ncs_of self.old).peers d) Said.RoReqAll).1.message)) }
        ensures step { OnOk result (ncs_of self.new ≡ with_peer (ncs_of self.old) d (peer_hear self.old.server.journal ((ncs_of self.old).peers d) Said.RoReqAll).0) }
        ensures rest { LeavesRest self.old self.new }
        ensures err { OnErr result (ncs_of self.new ≡ ncs_of self.old) }
    {
        let headers = self.headers()?;
        self.peers[d as usize].settle(&self.journal, false);
        Ok(Heard::Say(Message::RoListAll(headers)))
    }

    // An order is asked for while an edit of it is in flight, or before the server's connection is open.
    fn put_off(&mut self, d: u32, ro: &Id) -> Result<Heard, NoMemory>
        requires { d < devices_of self.old }
        ensures answer { IfOk result (λ h. h ≡ heard.Say (message_of (Said.RoAck ro.now NotNow))) }
        ensures step { OnOk result (ncs_of self.new ≡ with_peer (ncs_of self.old) d (peer_settled self.old.server.journal false ((ncs_of self.old).peers d))) }
        ensures rest { LeavesRest self.old self.new }
        ensures err { OnErr result (ncs_of self.new ≡ ncs_of self.old) }
    {
        let answer = ack_with(self.allocator(), ro, Status::NotNow)?;
        self.peers[d as usize].settle(&self.journal, false);
        Ok(Heard::Say(Message::RoAck(answer)))
    }

    // Makes room for the view of an order. Nothing else changes, also without memory for it.
    fn reserve_view(&mut self, d: u32, ro: &Id) -> Result<(), NoMemory>
        requires { d < devices_of self.old }
        ensures there { OnOk result (IsSome (find_row ro.now (get_or self.new.server.peers d no_peer_tables).views)) }
        ensures same { ncs_of self.new ≡ ncs_of self.old }
        ensures rest { LeavesRest self.old self.new }
    {
        self.peers[d as usize].reserve(ro)
    }

    // The numbers of the entries whose scripts stand in an order, in the order of its stories.
    fn scripts_in_force(&self, ro: &Id) -> Result<Vec<u64>, NoMemory>
        ensures { IfOk result (λ ks. ks.items ≡ in_force self.now.server.journal ro.now (entry_count self.now.server.journal ro.now)) }
    {
        let alloc = self.allocator();
        match self.orders.order(ro) {
            Some(order) => self.scripts.in_order(alloc, ro, order),
            None => Ok(Vec::new(alloc)),
        }
    }

    // All entries of an order are on their way to a device, and the scripts in force are due behind them.
    fn set_listed(&mut self, d: u32, ro: &Id, scripts: Vec<u64>)
        requires within { d < devices_of self.old }
        requires scripts { scripts.items ≡ in_force self.old.server.journal ro.now (entry_count self.old.server.journal ro.now) }
        requires there { IsSome (find_row ro.now (get_or self.old.server.peers d no_peer_tables).views) }
        ensures step { ncs_of self.new ≡ with_peer (ncs_of self.old) d (peer_listed self.old.server.journal ro.now ((ncs_of self.old).peers d)) }
        ensures rest { LeavesRest self.old self.new }
    {
        numbers_are_entries();
        self.peers[d as usize].listed(&self.journal, ro, scripts);
    }

    // The order that is asked for, or that there is none.
    fn say_list(&self, ro: &Id) -> Result<Heard, NoMemory>
        ensures { IfOk result (λ h. h ≡ heard.Say (list_said ro.now (order_now self.now.server.journal ro.now))) }
    {
        said_list(self.allocator(), self.order(ro), ro)
    }

    // An order is asked for, and is given.
    fn give_list(&mut self, d: u32, ro: &Id) -> Result<Heard, NoMemory>
        requires { d < devices_of self.old }
        ensures answer { IfOk result (λ h. h ≡ heard.Say (list_said ro.now (order_now self.old.server.journal ro.now))) }
        ensures step { OnOk result (ncs_of self.new ≡ with_peer (ncs_of self.old) d (peer_listed self.old.server.journal ro.now ((ncs_of self.old).peers d))) }
        ensures rest { LeavesRest self.old self.new }
        ensures err { OnErr result (ncs_of self.new ≡ ncs_of self.old) }
    {
        self.reserve_view(d, ro)?;
        let (said, scripts) = pair_ok(self.say_list(ro), self.scripts_in_force(ro))?;
        self.set_listed(d, ro, scripts);
        Ok(said)
    }

    // An order is asked for.
    fn hear_request(&mut self, d: u32, ro: &Id) -> Result<Heard, NoMemory>
        requires { d < devices_of self.old }
        ensures answer { IfOk result (λ h. h ≡ heard.Say (message_of (peer_hear self.old.server.journal ((ncs_of self.old).peers d) (Said.RoReq ro.now)).1.message)) }
        ensures step { OnOk result (ncs_of self.new ≡ with_peer (ncs_of self.old) d (peer_hear self.old.server.journal ((ncs_of self.old).peers d) (Said.RoReq ro.now)).0) }
        ensures rest { LeavesRest self.old self.new }
        ensures err { OnErr result (ncs_of self.new ≡ ncs_of self.old) }
    {
        if self.peers[d as usize].is_busy(ro) {
            self.put_off(d, ro)
        } else {
            self.give_list(d, ro)
        }
    }

    // Any other message.
    fn hear_other(&mut self, d: u32, m: &Message) -> Result<Heard, NoMemory>
        requires { d < devices_of self.old }
        ensures answer { IfOk result (λ h. h ≡ heard.Say (carried.RoAck (acked (message_ro (seen m.now)) (other_status (seen m.now))))) }
        ensures step { OnOk result (ncs_of self.new ≡ with_peer (ncs_of self.old) d (peer_settled self.old.server.journal false ((ncs_of self.old).peers d))) }
        ensures rest { LeavesRest self.old self.new }
        ensures err { OnErr result (ncs_of self.new ≡ ncs_of self.old) }
    {
        let answer = other_ack(self.allocator(), m)?;
        self.peers[d as usize].settle(&self.journal, false);
        Ok(Heard::Say(Message::RoAck(answer)))
    }

    // A message on the current connection.
    fn hear_current(&mut self, d: u32, m: &Message) -> Result<Heard, NoMemory>
        requires { d < devices_of self.old }
        ensures answer { IfOk result (λ h. h ≡ heard.Say (message_of (peer_hear self.old.server.journal ((ncs_of self.old).peers d) (seen m.now)).1.message)) }
        ensures step { OnOk result (ncs_of self.new ≡ with_peer (ncs_of self.old) d (peer_hear self.old.server.journal ((ncs_of self.old).peers d) (seen m.now)).0) }
        ensures rest { LeavesRest self.old self.new }
        ensures err { OnErr result (ncs_of self.new ≡ ncs_of self.old) }
        ensures heartbeat { IsHeartbeat m.now → IsOk result }
    {
        match m {
            Message::Heartbeat(time) => {
                look_if_settled(&mut self.looks, &self.peers, &self.journal, d as usize);
                self.peers[d as usize].settle(&self.journal, true);
                Ok(Heard::Say(Message::Heartbeat(*time)))
            }
            Message::RoReqAll => self.hear_all(d),
            Message::RoReq(ro) => self.hear_request(d, ro),
            _ => self.hear_other(d, m),
        }
    }

    /// Hears a message of a device, and says what answers it.
    ///
    /// A heartbeat is answered by itself, takes no memory, and says that the device took each list that was on its way to
    /// it; any other message says that it may not have. roReqAll is answered by the roListAll of the orders that are there;
    /// roReq by `NOT NOW` exactly where the server's connection isn't open or an entry of the order is in flight, else by
    /// the roList, or by `NO RUNNING ORDER` where there is no such order; roElementStat by `OK`; any other message by `NOT
    /// SUPPORTED`.
    ///
    /// The only error is that memory runs out; the server's state is then as it was.
    pub fn hear(&mut self, d: u32, link: u64, m: &Message) -> Result<Heard, NoMemory>
        requires { d < devices_of self.old }
        ensures answer { IfOk result (λ h. h ≡ heard_of (server_step false (ncs_of self.old) (ServerEvent.Hear d link (seen m.now))).0) }
        ensures step { OnOk result (ncs_of self.new ≡ (server_step false (ncs_of self.old) (ServerEvent.Hear d link (seen m.now))).1) }
        ensures rest { LeavesRest self.old self.new }
        ensures err { OnErr result (ncs_of self.new ≡ ncs_of self.old) }
        ensures heartbeat { IsHeartbeat m.now → IsOk result }
    {
        if !self.peers[d as usize].is_lower(link) {
            return Ok(Heard::Stale);
        }
        self.hear_current(d, m)
    }
}
