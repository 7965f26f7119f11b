//! What a deck is.
ghost use Rattle.std.specs.Prelude.{true, false};
ghost use Rattle.std.specs.Option.{option_copied};
ghost use Rattle.deck_rack.specs.Decks.{Answers, DeckView, loaded, marked};
ghost use Rattle.deck_rack.specs.Playlists.{playlist_of};

use mos_fields::Id;
use running_order::Order;

/// Why a call of a deck failed.
#[derive(Clone, Copy, Debug, Drop, PartialEq, Eq)]
pub enum DeckFault {
    /// The deck failed, and counted that.
    Failed,
    /// Out of memory. The deck counted that.
    NoMemory,
}

/// What plays a device's items: it holds a playlist for each roID, and is armed for it or isn't.
///
/// A deck may tell what it holds: its ghost state `view` has then, for each roID, the playlist and the mark. It also has the
/// counts of the calls that failed and of those that found no memory, which never fall. A call answers `Failed` or `NoMemory`
/// only where that count rose in it, and nothing is said of what the deck holds from then on.
pub trait Deck: Drop {
    ghost view: { Self → DeckView };

    /// Makes the playlist of an order for the device `mos` that of `ro`, which is empty where there is no order. The deck is
    /// not armed for `ro` from then on.
    fn load(&mut self, ro: &Id, order: Option<&Order>, mos: &Id) -> Result<(), DeckFault>
        ensures { Answers (view self.old) (view self.new) (loaded (playlist_of (option_copied order.entry) mos.now)) ro.now result };

    /// Arms the deck for `ro`.
    fn arm(&mut self, ro: &Id) -> Result<(), DeckFault>
        ensures { Answers (view self.old) (view self.new) (marked true) ro.now result };

    /// Takes the mark off that the deck is armed for `ro`.
    fn disarm(&mut self, ro: &Id) -> Result<(), DeckFault>
        ensures { Answers (view self.old) (view self.new) (marked false) ro.now result };
}

/// A deck in a box is a deck: each call goes to the one inside.
impl Deck for Box<dyn Deck + Send> {
    ghost view = { λ b. (Deck-box b).view b.value };

    fn load(&mut self, ro: &Id, order: Option<&Order>, mos: &Id) -> Result<(), DeckFault> {
        (**self).load(ro, order, mos)
    }

    fn arm(&mut self, ro: &Id) -> Result<(), DeckFault> {
        (**self).arm(ro)
    }

    fn disarm(&mut self, ro: &Id) -> Result<(), DeckFault> {
        (**self).disarm(ro)
    }
}
