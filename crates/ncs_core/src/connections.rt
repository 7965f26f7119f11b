//! The connections of the devices.
ghost use Rattle.std.specs.Prelude.{◌≡◌, ◌<◌, false, OnOk, OnErr, IfOk};
ghost use Rattle.mos_machines.specs.Steps.{ServerEvent, server_step};
ghost use Rattle.mos_machines.specs.Values.{seen};
ghost use Rattle.machine_answers.specs.Answers.{step_of};
ghost use Rattle.ncs_core.specs.State.{ncs_of, devices_of, LeavesRest, sent_by};

use crate::looks::{look_if_answered, look_on};
use crate::ncs::Ncs;
use machine_answers::{Sent, Step};
use mos_fields::{MosTime, NoMemory};
use mos_values::Message;
use rundown_log::Keeper;

impl<K: Keeper> Ncs<K> {
    /// The server opened this connection to a device, and greets on it. Nothing is known of the device's orders from then
    /// on. It takes no memory.
    pub fn upper_opened(&mut self, d: u32, link: u64)
        requires { d < devices_of self.old }
        ensures step { ncs_of self.new ≡ (server_step false (ncs_of self.old) (ServerEvent.UpperOpened d link)).1 }
        ensures rest { LeavesRest self.old self.new }
    {
        self.peers[d as usize].upper_opened(link);
    }

    /// The server's connection to a device ended. It takes no memory.
    pub fn upper_cut(&mut self, d: u32, link: u64) -> Step
        requires { d < devices_of self.old }
        ensures answer { result ≡ step_of (server_step false (ncs_of self.old) (ServerEvent.UpperCut d link)).0 }
        ensures step { ncs_of self.new ≡ (server_step false (ncs_of self.old) (ServerEvent.UpperCut d link)).1 }
        ensures rest { LeavesRest self.old self.new }
    {
        if !self.peers[d as usize].is_upper(link) {
            return Step::Stale;
        }
        self.peers[d as usize].upper_cut();
        Step::Taken
    }

    /// A device answered on the server's connection.
    ///
    /// A heartbeat answers a heartbeat, and the first one opens the connection. A roAck of the order answers an entry: with
    /// `OK`, and `NO DECK` to a READY, the device holds the order after that entry; with any other text nothing is known of
    /// it. `Unasked` comes exactly where nothing is in flight that this answers; the connection counts as ended then. It
    /// takes no memory.
    pub fn upper_answer(&mut self, d: u32, link: u64, m: &Message) -> Step
        requires { d < devices_of self.old }
        ensures answer { result ≡ step_of (server_step false (ncs_of self.old) (ServerEvent.UpperAnswer d link (seen m.now))).0 }
        ensures step { ncs_of self.new ≡ (server_step false (ncs_of self.old) (ServerEvent.UpperAnswer d link (seen m.now))).1 }
        ensures rest { LeavesRest self.old self.new }
    {
        if !self.peers[d as usize].is_upper(link) {
            return Step::Stale;
        }
        look_if_answered(&mut self.looks, &self.peers, &self.journal, d as usize);
        self.peers[d as usize].answered(&self.journal, m)
    }

    /// Asks for a heartbeat to a device, where the server's connection to it is open. It takes no memory.
    pub fn beat(&mut self, d: u32)
        requires { d < devices_of self.old }
        ensures step { ncs_of self.new ≡ (server_step false (ncs_of self.old) (ServerEvent.Beat d)).1 }
        ensures rest { LeavesRest self.old self.new }
    {
        self.peers[d as usize].beat();
    }

    /// A device opened this connection; a former one is heard no more, and a list that was on its way there may be lost. It
    /// takes no memory.
    pub fn device_accepted(&mut self, d: u32, link: u64)
        requires { d < devices_of self.old }
        ensures step { ncs_of self.new ≡ (server_step false (ncs_of self.old) (ServerEvent.DeviceAccepted d link)).1 }
        ensures rest { LeavesRest self.old self.new }
    {
        self.peers[d as usize].linked(Some(link));
    }

    /// The connection of a device ended; a list that was on its way there may be lost. It takes no memory.
    pub fn device_dropped(&mut self, d: u32, link: u64) -> Step
        requires { d < devices_of self.old }
        ensures answer { result ≡ step_of (server_step false (ncs_of self.old) (ServerEvent.DeviceDropped d link)).0 }
        ensures step { ncs_of self.new ≡ (server_step false (ncs_of self.old) (ServerEvent.DeviceDropped d link)).1 }
        ensures rest { LeavesRest self.old self.new }
    {
        if !self.peers[d as usize].is_lower(link) {
            return Step::Stale;
        }
        self.peers[d as usize].linked(None);
        Step::Taken
    }

    /// What is sent next on the server's connection to a device: of the entries that are due there, the one that stands
    /// first in the journal; or else a heartbeat that was asked for.
    ///
    /// `Nothing` comes exactly where the connection isn't open, an answer is awaited, or none of these is due. The only
    /// error is that memory runs out; the server then stays as it was.
    pub fn next_send(&mut self, d: u32, link: u64, now: &MosTime) -> Result<Sent, NoMemory>
        requires { d < devices_of self.old }
        ensures answer { IfOk result (λ a. a ≡ sent_by (server_step false (ncs_of self.old) (ServerEvent.NextSend d link now.now)).0) }
        ensures step { OnOk result (ncs_of self.new ≡ (server_step false (ncs_of self.old) (ServerEvent.NextSend d link now.now)).1) }
        ensures rest { LeavesRest self.old self.new }
        ensures err { OnErr result (self.new ≡ self.old) }
    {
        if !self.peers[d as usize].is_upper(link) {
            return Ok(Sent::Stale);
        }
        let from = look_on(&mut self.looks, &self.peers, &self.journal, d as usize);
        self.peers[d as usize].next_send_from(&self.journal, now, from)
    }
}
