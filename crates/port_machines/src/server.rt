//! The server's machine behind a hub.
ghost use Rattle.std.specs.Prelude.{◌≡◌, OnErr, IfOk, refl};
ghost use Rattle.std.proofs.Common.{◌∙◌};
ghost use Rattle.port_machines.specs.Steps.{IsServerStep, IsServerRefusal};

use crate::device_port::device_port;
use crate::editor_port::editor_port;
use crate::idle::idle_answer;
use mos_fields::NoMemory;
use ncs_core::Ncs;
use port_events::{PortAnswer, PortEvent, Side};
use rundown_log::Keeper;
use shared_machine::{Machine, StepRelation};
use std::alloc::Global;
use std::marker::Model;

/// The server's machine. Contracts see the server.
#[derive(Drop)]
pub struct ServerMachine<K: Keeper> {
    ncs: Ncs<K>,
    alloc: Global,
}

impl<K: Keeper> Model for ServerMachine<K> {
    ghost use Rattle.ncs_core.specs.State.{NcsTables};

    ghost Value = { NcsTables K };

    ghost view = { λ m. m.ncs };
}

impl<K: Keeper> ServerMachine<K> {
    /// The machine round a server. It takes no memory; its answers are made in this allocator.
    pub fn new(alloc: Global, ncs: Ncs<K>) -> Self
        ensures { result ≡ ncs }
    {
        ServerMachine { ncs, alloc }
    }

    /// The server.
    pub fn ncs(&self) -> &Ncs<K>
        ensures { result.now ≡ self.now }
    {
        &self.ncs
    }

    /// The server, out of the machine.
    pub fn into_ncs(self) -> Ncs<K>
        ensures { result ≡ self }
    {
        self.ncs
    }

    /// What an event at a port is answered.
    ///
    /// The only error is that memory runs out; the server's state, and what its keeper keeps, are then as they were.
    pub fn take(&mut self, event: &PortEvent) -> Result<PortAnswer, NoMemory>
        ensures ok { IfOk result (λ a. IsServerStep self.old event.now a self.new) }
        ensures err { OnErr result (IsServerRefusal self.old self.new) }
    {
        match event.side {
            Side::Upper if event.device < self.ncs.devices() => {
                device_port(&mut self.ncs, event.device, event.link, &event.what)
            }
            Side::Upper => Ok(PortAnswer::Stale),
            Side::Lower => idle_answer(self.alloc, &event.what),
            Side::Editor => editor_port(self.alloc, &mut self.ncs, &event.what),
        }
    }
}

impl<K: Keeper + Drop> StepRelation for ServerMachine<K> {
    type Event = PortEvent;

    type Answer = PortAnswer;

    ghost steps = { λ m event answer n. IsServerStep m event answer n };

    ghost refusal = { λ m n. IsServerRefusal m n };

    ghost decks_left = { λ _. 0 };
}

impl<K: Keeper + Drop> Machine<()> for ServerMachine<K> {
    fn step(
        &mut self,
        _rest: &mut (),
        event: &PortEvent,
    ) -> Result<PortAnswer, shared_machine::NoMemory> {
        match self.take(event) {
            Ok(answer) => Ok(answer),
            Err(_) => Err(shared_machine::NoMemory),
        }
    }

    ghost refusal_reflexive = { λ x. record { state = refl; kept = refl; devices = refl } };

    ghost refusal_transitive = { λ x y z p q. record { state = q.state ∙ p.state; kept = q.kept ∙ p.kept; devices = q.devices ∙ p.devices } };
}
