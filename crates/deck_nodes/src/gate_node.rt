//! The gateway with its objects and its decks, behind a hub.
ghost use Rattle.std.specs.Prelude.{◌≡◌, length, IfOk, IfErr, OnOk, OnErr, refl};
ghost use Rattle.std.proofs.Common.{◌∙◌, le_refl, le_trans};
ghost use Rattle.mos_edits.specs.Texts.{Text};
ghost use Rattle.mos_machines.specs.Tables.{gate_of};
ghost use Rattle.lower_port.specs.Connections.{unopened};
ghost use Rattle.lower_port.specs.Gateways.{gate_lower};
ghost use Rattle.deck_nodes.specs.ExactDecks.{AllTell, AreStocked, HoldsNone, IsReadyAnswer, IsReadyOf, TellsNothing};
ghost use Rattle.deck_nodes.specs.GatewayNodes.{IsGateNodeRefusal, IsGateNodeStep};
ghost use Rattle.deck_nodes.specs.NodeSteps.{IsNodeRefusal, IsNodeStep, IsPortRefusal, IsPortStep};
ghost use Rattle.deck_nodes.specs.Telling.{IsUpperRefusal, IsUpperStep};

use crate::answering::at_upper;
use crate::calls::left_in;
use crate::editor::at_editor;
use deck_rack::{Deck, Rack};
use gateway_core::{DeckState, Gate};
use lower_port::{OwnConnection, gateway_port};
use mos_fields::NoMemory;
use mos_values::MachInfo;
use object_table::ObjectTable;
use port_events::{PortAnswer, PortEvent, Side};
use shared_machine::{Machine, StepRelation};
use std::alloc::Global;
use std::marker::Model;

/// The gateway's machine with its objects, which it tells at the lower port, and with how many of its decks are left. The
/// decks themselves go with it in their rack.
#[derive(Drop)]
pub struct GateNode {
    gate: Gate,
    decks: DeckState,
    objects: ObjectTable,
    own: OwnConnection,
    info: MachInfo,
    alloc: Global,
}

impl Model for GateNode {
    ghost use Rattle.gateway_core.specs.Parts.{decks_of};
    ghost use Rattle.deck_nodes.specs.GatewayNodes.{GateNodeTables};

    ghost Value = { GateNodeTables };

    ghost view = { λ n. record { gate = n.gate; decks = decks_of n.decks; objects = n.objects; own = n.own; info = n.info } };
}

impl GateNode {
    /// The machine round a gate whose decks are in this rack, with these objects, that says this of itself. It takes no
    /// memory; its answers are made in this allocator.
    ///
    /// The decks then have the playlists of what the gate holds, where it holds no order and they tell no lists but empty
    /// ones.
    pub fn new<D: Deck>(
        alloc: Global,
        gate: Gate,
        rack: &Rack<D>,
        objects: ObjectTable,
        info: MachInfo,
    ) -> Self
        ensures value { result ≡ record { gate = gate; decks = record { handed = rack.now.handed; left = length rack.now.decks.items }; objects = objects; own = unopened; info = info } }
        ensures stocked { HoldsNone (gate_of gate) → AllTell D.view TellsNothing rack.now.decks.items → AreStocked D.view rack.now.mos result rack.now.handed rack.now.decks.items }
    {
        GateNode {
            gate,
            decks: rack.state(),
            objects,
            own: OwnConnection::new(),
            info,
            alloc,
        }
    }

    /// The gate.
    pub fn gate(&self) -> &Gate
        ensures { result.now ≡ self.now.gate }
    {
        &self.gate
    }

    /// The gate, out of the machine. The objects are let go.
    pub fn into_gate(self) -> Gate
        ensures { result ≡ self.gate }
    {
        self.gate
    }

    // What an event at the lower port is answered.
    fn lower(&mut self, event: &PortEvent) -> Result<PortAnswer, NoMemory>
        ensures answer { IfOk result (λ a. a ≡ (gate_lower self.old.info self.old.objects event.now.link event.now.what self.old.own).0) }
        ensures step { OnOk result (self.new ≡ record self.old { own = (gate_lower self.old.info self.old.objects event.now.link event.now.what self.old.own).1 }) }
        ensures err { OnErr result (self.new ≡ self.old) }
    {
        gateway_port(
            self.alloc,
            &self.info,
            &self.objects,
            &mut self.own,
            event.link,
            &event.what,
        )
    }

    // What an event at the port to the server is answered.
    fn upper<D: Deck>(
        &mut self,
        rack: &mut Rack<D>,
        event: &PortEvent,
    ) -> Result<PortAnswer, NoMemory>
        ensures ok { IfOk result (λ a. IsUpperStep D.view rack.old.mos self.old.decks (gate_of self.old.gate) event.now.link event.now.what a (gate_of self.new.gate) rack.old.decks.items rack.new.decks.items) }
        ensures err { OnErr result (IsUpperRefusal D.view rack.old.mos self.old.decks (gate_of self.old.gate) event.now.link event.now.what rack.old.decks.items rack.new.decks.items) }
        ensures same { OnErr result (self.new.gate ≡ self.old.gate) }
        ensures others { self.new ≡ record self.old { gate = self.new.gate } }
        ensures mos { rack.new.mos ≡ rack.old.mos }
        ensures handed { rack.new.handed ≡ rack.old.handed }
    {
        at_upper(&mut self.gate, rack, self.decks, event.link, &event.what)
    }

    // What an event at a port is answered, before it is known how many decks are left.
    fn at_port<D: Deck>(
        &mut self,
        rack: &mut Rack<D>,
        event: &PortEvent,
    ) -> Result<PortAnswer, NoMemory>
        ensures ok { IfOk result (λ a. IsPortStep D.view rack.old.mos self.old event.now a self.new rack.old.decks.items rack.new.decks.items) }
        ensures err { OnErr result (IsPortRefusal D.view rack.old.mos self.old event.now self.new rack.old.decks.items rack.new.decks.items) }
        ensures mos { rack.new.mos ≡ rack.old.mos }
        ensures handed { rack.new.handed ≡ rack.old.handed }
    {
        match event.side {
            Side::Upper => self.upper(rack, event),
            Side::Lower => self.lower(event),
            Side::Editor => at_editor(self.alloc, &event.what),
        }
    }

    /// What an event at a port is answered: at the lower port of the objects, at the others by the gate, which is told how
    /// many decks are left.
    ///
    /// The decks are armed before a READY of an order that is in step and held is answered, loaded with the playlist of the
    /// order held after each edit, list or `NO RUNNING ORDER` that set it, and disarmed after a NOT READY that is answered
    /// `OK`. No other event calls them. A deck is dropped exactly where it fails. So a READY is answered `OK` only where
    /// each deck that is left is armed with the playlist of the order held.
    ///
    /// The only error is that memory runs out; the gateway then stays as it was, but that decks may have been armed or
    /// dropped for a READY.
    pub fn take<D: Deck>(
        &mut self,
        rack: &mut Rack<D>,
        event: &PortEvent,
    ) -> Result<PortAnswer, NoMemory>
        ensures ok { IfOk result (λ a. IsNodeStep D.view rack.old.mos self.old event.now a self.new rack.old.decks.items rack.new.decks.items) }
        ensures err { OnErr result (IsNodeRefusal D.view rack.old.mos self.old event.now self.new rack.old.decks.items rack.new.decks.items) }
        ensures mos { rack.new.mos ≡ rack.old.mos }
        ensures handed { rack.new.handed ≡ rack.old.handed }
        ensures stocked { AreStocked D.view rack.old.mos self.old rack.old.handed rack.old.decks.items → AreStocked D.view rack.new.mos self.new rack.new.handed rack.new.decks.items }
        ensures ready { AreStocked D.view rack.old.mos self.old rack.old.handed rack.old.decks.items → IfOk result (λ a. (ro : Text) → IsReadyOf event.now ro → IsReadyAnswer D.view rack.new.mos self.old event.now a self.new ro rack.new.handed rack.new.decks.items) }
    {
        let answer = self.at_port(rack, event);
        self.decks = left_in(self.decks, rack);
        answer
    }
}

impl StepRelation for GateNode {
    type Event = PortEvent;

    type Answer = PortAnswer;

    ghost steps = { λ m event answer n. IsGateNodeStep m event answer n };

    ghost refusal = { λ m n. IsGateNodeRefusal m n };

    ghost decks_left = { λ n. n.decks.left };
}

impl<D: Deck> Machine<Rack<D>> for GateNode {
    fn step(
        &mut self,
        rack: &mut Rack<D>,
        event: &PortEvent,
    ) -> Result<PortAnswer, shared_machine::NoMemory>
        ensures ok { IfOk result (λ a. IsGateNodeStep self.old event.now a self.new) }
        ensures err { IfErr result (λ _. IsGateNodeRefusal self.old self.new) }
        ensures whole { IfOk result (λ a. IsNodeStep D.view rack.old.mos self.old event.now a self.new rack.old.decks.items rack.new.decks.items) }
        ensures refused { OnErr result (IsNodeRefusal D.view rack.old.mos self.old event.now self.new rack.old.decks.items rack.new.decks.items) }
        ensures mos { rack.new.mos ≡ rack.old.mos }
        ensures handed { rack.new.handed ≡ rack.old.handed }
        ensures stocked { AreStocked D.view rack.old.mos self.old rack.old.handed rack.old.decks.items → AreStocked D.view rack.new.mos self.new rack.new.handed rack.new.decks.items }
        ensures ready { AreStocked D.view rack.old.mos self.old rack.old.handed rack.old.decks.items → IfOk result (λ a. (ro : Text) → IsReadyOf event.now ro → IsReadyAnswer D.view rack.new.mos self.old event.now a self.new ro rack.new.handed rack.new.decks.items) }
    {
        match self.take(rack, event) {
            Ok(answer) => Ok(answer),
            Err(_) => Err(shared_machine::NoMemory),
        }
    }

    ghost refusal_reflexive = { λ x. record { gate = refl; decks = record { handed = refl; fewer = le_refl x.decks.left }; own = refl; objects = refl; info = refl } };

    ghost refusal_transitive = { λ x y z p q. record { gate = q.gate ∙ p.gate; decks = record { handed = q.decks.handed ∙ p.decks.handed; fewer = le_trans q.decks.fewer p.decks.fewer }; own = q.own ∙ p.own; objects = q.objects ∙ p.objects; info = q.info ∙ p.info } };
}
