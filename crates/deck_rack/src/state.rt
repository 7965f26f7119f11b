//! What a gateway's machine is told of its decks.
ghost use Rattle.std.specs.Prelude.{◌≡◌, length};

use crate::rack::Rack;
use gateway_core::DeckState;

impl<D> Rack<D> {
    /// Whether decks were handed in, and how many are left.
    pub fn state(&self) -> DeckState
        ensures handed { result.handed ≡ self.now.handed }
        ensures left { result.left ≡ length self.now.decks.items }
    {
        DeckState {
            handed: self.handed,
            left: self.decks.len() as u32,
        }
    }
}
