//! The server with the objects of its devices, behind a hub.
ghost use Rattle.std.specs.Prelude.{◌≡◌, length, IfOk, OnOk, OnErr, refl};
ghost use Rattle.std.proofs.Common.{◌∙◌};
ghost use Rattle.ncs_core.specs.State.{devices_of};
ghost use Rattle.port_nodes.specs.ServerNodes.{AreNewSides, IsNcsNodeRefusal, IsNcsNodeStep, lower_ports};

use crate::server_ports::{at_port, new_ports};
use lower_port::ServerPort;
use mos_fields::{NoMemory, triple_ok};
use mos_values::MachInfo;
use ncs_core::Ncs;
use port_events::{PortAnswer, PortEvent, Side};
use port_machines::ServerMachine;
use rundown_log::Keeper;
use shared_machine::{Machine, StepRelation};
use std::alloc::Global;
use std::marker::Model;

/// The server's machine with the objects of its devices, which come at the lower ports, one table for each device.
#[derive(Drop)]
pub struct NcsNode<K: Keeper> {
    machine: ServerMachine<K>,
    ports: Vec<ServerPort>,
    info: MachInfo,
    alloc: Global,
}

impl<K: Keeper> Model for NcsNode<K> {
    ghost use Rattle.std.specs.Prelude.{◌≡◌, length};
    ghost use Rattle.ncs_core.specs.State.{devices_of};
    ghost use Rattle.port_nodes.specs.ServerNodes.{NcsNodeTables};

    ghost Value = { NcsNodeTables K };

    ghost view = { λ n. record { ncs = n.machine; ports = n.ports.items; info = n.info } };

    ghost invariant = { λ n. length n.ports.items ≡ devices_of n.machine };
}

impl<K: Keeper + Drop> NcsNode<K> {
    /// The machine round a server that says this of itself. No device has objects yet. The only error is that memory runs
    /// out; the server is let go then. Answers are made in this allocator.
    pub fn new(alloc: Global, ncs: Ncs<K>, info: MachInfo) -> Result<Self, NoMemory>
        ensures server { IfOk result (λ n. n.ncs ≡ ncs) }
        ensures devices { IfOk result (λ n. length n.ports ≡ devices_of ncs) }
        ensures new { IfOk result (λ n. AreNewSides n.ports) }
        ensures info { IfOk result (λ n. n.info ≡ info) }
    {
        let devices = ncs.devices();
        let (ports, machine, info) = triple_ok(
            new_ports(alloc, devices),
            Ok(ServerMachine::new(alloc, ncs)),
            Ok(info),
        )?;
        Ok(NcsNode {
            machine,
            ports,
            info,
            alloc,
        })
    }
}

impl<K: Keeper> NcsNode<K> {
    /// The server.
    pub fn ncs(&self) -> &Ncs<K>
        ensures { result.now ≡ self.now.ncs }
    {
        self.machine.ncs()
    }

    /// The server, out of the machine. The objects are let go.
    pub fn into_ncs(self) -> Ncs<K>
        ensures { result ≡ self.ncs }
    {
        self.machine.into_ncs()
    }

    // What an event at a lower port is answered.
    fn lower(&mut self, event: &PortEvent) -> Result<PortAnswer, NoMemory>
        ensures answer { IfOk result (λ a. a ≡ (lower_ports self.old.info (devices_of self.old.ncs) self.old.ports event.now).0) }
        ensures step { OnOk result (self.new ≡ record { ncs = self.old.ncs; ports = (lower_ports self.old.info (devices_of self.old.ncs) self.old.ports event.now).1; info = self.old.info }) }
        ensures err { OnErr result (self.new ≡ self.old) }
    {
        if event.device < self.machine.ncs().devices() {
            at_port(self.alloc, &self.info, &mut self.ports, event)
        } else {
            Ok(PortAnswer::Stale)
        }
    }

    /// What an event at a port is answered: at the lower port of a device by its part here, at the others by the server.
    ///
    /// The only error is that memory runs out; the server's state, what its keeper keeps, and the objects are then as they
    /// were.
    pub fn take(&mut self, event: &PortEvent) -> Result<PortAnswer, NoMemory>
        ensures ok { IfOk result (λ a. IsNcsNodeStep self.old event.now a self.new) }
        ensures err { OnErr result (IsNcsNodeRefusal self.old self.new) }
    {
        match event.side {
            Side::Upper => self.machine.take(event),
            Side::Editor => self.machine.take(event),
            Side::Lower => self.lower(event),
        }
    }
}

impl<K: Keeper + Drop> StepRelation for NcsNode<K> {
    type Event = PortEvent;

    type Answer = PortAnswer;

    ghost steps = { λ m event answer n. IsNcsNodeStep m event answer n };

    ghost refusal = { λ m n. IsNcsNodeRefusal m n };

    ghost decks_left = { λ _. 0 };
}

impl<K: Keeper + Drop> Machine<()> for NcsNode<K> {
    fn step(
        &mut self,
        _rest: &mut (),
        event: &PortEvent,
    ) -> Result<PortAnswer, shared_machine::NoMemory> {
        match self.take(event) {
            Ok(answer) => Ok(answer),
            Err(_) => Err(shared_machine::NoMemory),
        }
    }

    ghost refusal_reflexive = { λ x. record { server = record { state = refl; kept = refl; devices = refl }; ports = refl; info = refl } };

    ghost refusal_transitive = { λ x y z p q. record { server = record { state = q.server.state ∙ p.server.state; kept = q.server.kept ∙ p.server.kept; devices = q.server.devices ∙ p.server.devices }; ports = q.ports ∙ p.ports; info = q.info ∙ p.info } };
}
