//! What a gateway knows of one order.
ghost use Rattle.std.specs.Prelude.{◌≡◌};
ghost use Rattle.mos_machines.specs.Tables.{unknown_order};
ghost use Rattle.mos_machines.specs.Device.{is_in as is_in_of, wants_out as wants_out_of, wanted_phase, got_phase};
ghost use Rattle.gateway_core.specs.Parts.{phase_of};

use running_order::Order;
use std::marker::Model;

/// How an order stands with the server.
#[derive(Clone, Copy, Debug, PartialEq, Eq)]
pub enum Phase {
    /// In step: each edit is taken.
    In,
    /// Out of step: only a whole order is taken.
    Out,
    /// The order was asked for.
    Asked,
    /// It was asked for, and an edit came since.
    Crossed,
}

/// Whether decks were handed in, and how many are left.
#[derive(Clone, Copy, Debug, PartialEq, Eq)]
pub struct DeckState {
    /// Whether decks were handed in.
    pub handed: bool,
    /// How many are left.
    pub left: u32,
}

/// What a gateway knows of one order: what it holds, how the order stands, and whether it is to be asked for.
#[derive(Drop)]
pub struct Known {
    /// The order, or that there is none.
    pub held: Option<Order>,
    /// How it stands.
    pub phase: Phase,
    /// Whether it is to be asked for.
    pub wanted: bool,
}

impl Model for Known {
    ghost use Rattle.mos_machines.specs.Tables.{KnownOrder};
    ghost use Rattle.gateway_core.specs.Parts.{phase_of};

    ghost Value = { KnownOrder };

    ghost view = { λ k. record { held = k.held; phase = phase_of k.phase; wanted = k.wanted } };
}

impl Known {
    /// An order that the gateway doesn't know. It takes no memory.
    pub fn unknown() -> Self
        ensures { result ≡ unknown_order }
    {
        Known {
            held: None,
            phase: Phase::Out,
            wanted: false,
        }
    }
}

// Whether an order is to be asked for.
pub fn is_wanted(known: &Known) -> bool
    ensures { result ≡ known.now.wanted }
{
    known.wanted
}

impl Phase {
    // How an order stands once its list came.
    pub fn once_listed(self) -> Phase
        ensures { phase_of result ≡ got_phase (phase_of self) }
    {
        match self {
            Phase::Asked => Phase::In,
            _ => Phase::Out,
        }
    }

    // How an order stands that is wanted from now on.
    pub fn once_wanted(self) -> Phase
        ensures { phase_of result ≡ wanted_phase (phase_of self) }
    {
        match self {
            Phase::In => Phase::Out,
            phase => phase,
        }
    }

    /// Whether the order is in step.
    pub fn is_in(self) -> bool
        ensures { result ≡ is_in_of (phase_of self) }
    {
        match self {
            Phase::In => true,
            _ => false,
        }
    }

    /// Whether the order is out of step, and not asked for.
    pub fn is_out(self) -> bool
        ensures { result ≡ wants_out_of (phase_of self) }
    {
        match self {
            Phase::Out => true,
            _ => false,
        }
    }
}
