//! A gateway of a world.
ghost use Rattle.std.specs.Prelude.{◌≡◌};
ghost use Rattle.world_laws.specs.World.{no_pairing};
ghost use Rattle.world_parts.specs.Matching.{MatchesGateway};

use gateway_core::{DeckState, Gate};
use order_table::OrderTable;
use std::alloc::Global;

/// A gateway: its machine, its decks, and of each order how many entries it has applied.
#[derive(Drop)]
pub struct Gateway {
    pub gate: Gate,
    pub decks: DeckState,
    pub applied: OrderTable<u64>,
}

impl Gateway {
    /// A gateway without connections and decks that knows no order. It takes no memory.
    pub fn new(alloc: Global) -> Self
        ensures { MatchesGateway result no_pairing }
    {
        Gateway {
            gate: Gate::new(alloc),
            decks: DeckState {
                handed: false,
                left: 0,
            },
            applied: OrderTable::new(alloc),
        }
    }
}
