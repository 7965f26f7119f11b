//! The decks of a gateway.
ghost use Rattle.std.specs.Prelude.{◌≡◌, ◌<◌, ◌≤◌, ◌^◌, true, false, length, nat_lt, is_ok};
ghost use Rattle.std.specs.Option.{option_copied};
ghost use Rattle.deck_rack.specs.Decks.{AreCalled, IsCalled, IsCalledAt, loaded, marked};
ghost use Rattle.deck_rack.specs.Playlists.{playlist_of};

use crate::deck::Deck;
use mos_fields::{Id, let_go};
use running_order::Order;

/// The decks of a gateway that didn't fail yet, and the mosID of the device whose items they play.
///
/// Each call goes to every deck once, and drops exactly the decks that answer `Failed` or `NoMemory`. The rack itself takes no
/// memory.
#[derive(Drop)]
pub struct Rack<D> {
    /// The decks that are left, in the order in which they were handed in.
    pub decks: Vec<D>,
    /// The mosID of the device.
    pub mos: Id,
    /// Whether decks were handed in at all.
    pub handed: bool,
    ghost few: { length decks.items < 2 ^ 32 },
}

impl<D: Deck> Rack<D> {
    /// A rack of these decks, fewer than 2^32, for the items of the device `mos`.
    pub fn new(decks: Vec<D>, mos: Id) -> Self
        requires { length decks.items < 2 ^ 32 }
        ensures decks { result.decks.items ≡ decks.items }
        ensures mos { result.mos ≡ mos }
        ensures handed { result.handed ≡ nat_lt 0 (length decks.items) }
    {
        let handed = decks.len() > 0;
        Rack { decks, mos, handed }
    }

    /// Makes the playlist of an order, or of none, that of `ro` in every deck.
    pub fn load(&mut self, ro: &Id, order: Option<&Order>)
        ensures called { AreCalled D.view (loaded (playlist_of (option_copied order.entry) self.old.mos)) ro.now self.old.decks.items self.new.decks.items }
        ensures mos { self.new.mos ≡ self.old.mos }
        ensures handed { self.new.handed ≡ self.old.handed }
    {
        load_each(&mut self.decks, ro, order, &self.mos);
    }

    /// Arms every deck for `ro`.
    pub fn arm(&mut self, ro: &Id)
        ensures called { AreCalled D.view (marked true) ro.now self.old.decks.items self.new.decks.items }
        ensures mos { self.new.mos ≡ self.old.mos }
        ensures handed { self.new.handed ≡ self.old.handed }
    {
        mark_each(&mut self.decks, ro, true);
    }

    /// Takes the mark off in every deck that it is armed for `ro`.
    pub fn disarm(&mut self, ro: &Id)
        ensures called { AreCalled D.view (marked false) ro.now self.old.decks.items self.new.decks.items }
        ensures mos { self.new.mos ≡ self.old.mos }
        ensures handed { self.new.handed ≡ self.old.handed }
    {
        mark_each(&mut self.decks, ro, false);
    }
}

// Makes the playlist of an order that of `ro` in a deck, and says whether that was done.
fn load_one<D: Deck>(deck: &mut D, ro: &Id, order: Option<&Order>, mos: &Id) -> bool
    ensures { IsCalled D.view (loaded (playlist_of (option_copied order.entry) mos.now)) ro.now deck.old deck.new result }
{
    deck.load(ro, order, mos).is_ok()
}

// The same in the deck at a place, which is dropped where it wasn't done.
fn load_at<D: Deck>(
    decks: &mut Vec<D>,
    place: usize,
    ro: &Id,
    order: Option<&Order>,
    mos: &Id,
) -> bool
    requires { place < length decks.old.items }
    ensures { IsCalledAt D.view (loaded (playlist_of (option_copied order.entry) mos.now)) ro.now decks.old.items place decks.new.items result }
{
    let done = load_one(&mut decks[place], ro, order, mos);
    if !done {
        let_go(decks.remove(place));
    }
    done
}

// The same in each deck.
fn load_each<D: Deck>(decks: &mut Vec<D>, ro: &Id, order: Option<&Order>, mos: &Id)
    ensures called { AreCalled D.view (loaded (playlist_of (option_copied order.entry) mos.now)) ro.now decks.old.items decks.new.items }
    ensures fewer { length decks.new.items ≤ length decks.old.items }
{
    let mut place = 0;
    'decks: while place < decks.len() {
        if load_at(decks, place, ro, order, mos) {
            place += 1;
        }
    }
}

// Marks an order in a deck or takes the mark off, and says whether that was done.
fn mark_one<D: Deck>(deck: &mut D, ro: &Id, armed: bool) -> bool
    ensures { IsCalled D.view (marked armed) ro.now deck.old deck.new result }
{
    if armed {
        deck.arm(ro).is_ok()
    } else {
        deck.disarm(ro).is_ok()
    }
}

// The same in the deck at a place, which is dropped where it wasn't done.
fn mark_at<D: Deck>(decks: &mut Vec<D>, place: usize, ro: &Id, armed: bool) -> bool
    requires { place < length decks.old.items }
    ensures { IsCalledAt D.view (marked armed) ro.now decks.old.items place decks.new.items result }
{
    let done = mark_one(&mut decks[place], ro, armed);
    if !done {
        let_go(decks.remove(place));
    }
    done
}

// The same in each deck.
fn mark_each<D: Deck>(decks: &mut Vec<D>, ro: &Id, armed: bool)
    ensures called { AreCalled D.view (marked armed) ro.now decks.old.items decks.new.items }
    ensures fewer { length decks.new.items ≤ length decks.old.items }
{
    let mut place = 0;
    'decks: while place < decks.len() {
        if mark_at(decks, place, ro, armed) {
            place += 1;
        }
    }
}
