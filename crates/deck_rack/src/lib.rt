//! Decks: what plays a device's items, and is told each order's playlist and when to be armed for it.
//!
//! A rack has decks of any types, and lets each go at its first call that fails.
#![tactic(auto)]

mod deck;
mod line_deck;
mod lines;
mod lists;
mod mem_deck;
mod plays;
mod rack;
mod state;

pub use deck::{Deck, DeckFault};
pub use line_deck::LineDeck;
pub use mem_deck::MemDeck;
pub use plays::{PlayItem, playlist};
pub use rack::Rack;
