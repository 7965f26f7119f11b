//! A deck in a box whose lists the test sees.
ghost use Rattle.std.specs.Prelude.{◌≡◌, None};
ghost use Rattle.mos_edits.specs.Texts.{Text};
ghost use Rattle.deck_rack.specs.Decks.{Answers, DeckView, Row};

use deck_rack::{Deck, DeckFault, MemDeck};
use mos_fields::Id;
use running_order::Order;
use std::sync::{Arc, Mutex};

/// Passes each call on to a deck in memory that it shares with the test. It doesn't tell what that holds.
#[derive(Drop)]
pub struct SharedDeck {
    deck: Arc<Mutex<MemDeck>>,
    faults: u64,
    wants: u64,
}

impl SharedDeck {
    pub fn new(deck: Arc<Mutex<MemDeck>>) -> Self {
        SharedDeck {
            deck,
            faults: 0,
            wants: 0,
        }
    }
}

// Counts an answer that isn't Ok.
#[tactic(auto, using(deck_rack::proofs::Views::count_rose))]
fn counted(
    faults: &mut u64,
    wants: &mut u64,
    answer: Result<(), DeckFault>,
) -> Result<(), DeckFault>
    ensures { (change : Row → Row) (ro : Text) → Answers (record { told = None; faults = faults.old; wants = wants.old }) (record { told = None; faults = faults.new; wants = wants.new }) change ro result }
{
    match answer {
        Ok(()) => Ok(()),
        Err(DeckFault::Failed) => {
            *faults = faults.saturating_add(1);
            Err(DeckFault::Failed)
        }
        Err(DeckFault::NoMemory) => {
            *wants = wants.saturating_add(1);
            Err(DeckFault::NoMemory)
        }
    }
}

fn load_inner(
    deck: &Mutex<MemDeck>,
    ro: &Id,
    order: Option<&Order>,
    mos: &Id,
) -> Result<(), DeckFault> {
    match deck.try_lock() {
        Some(mut deck) => deck.load(ro, order, mos),
        None => Err(DeckFault::Failed),
    }
}

fn arm_inner(deck: &Mutex<MemDeck>, ro: &Id) -> Result<(), DeckFault> {
    match deck.try_lock() {
        Some(mut deck) => deck.arm(ro),
        None => Err(DeckFault::Failed),
    }
}

fn disarm_inner(deck: &Mutex<MemDeck>, ro: &Id) -> Result<(), DeckFault> {
    match deck.try_lock() {
        Some(mut deck) => deck.disarm(ro),
        None => Err(DeckFault::Failed),
    }
}

impl Deck for SharedDeck {
    ghost view = { λ d. record { told = None; faults = d.faults; wants = d.wants } };

    fn load(&mut self, ro: &Id, order: Option<&Order>, mos: &Id) -> Result<(), DeckFault> {
        let answer = load_inner(&self.deck, ro, order, mos);
        counted(&mut self.faults, &mut self.wants, answer)
    }

    fn arm(&mut self, ro: &Id) -> Result<(), DeckFault> {
        let answer = arm_inner(&self.deck, ro);
        counted(&mut self.faults, &mut self.wants, answer)
    }

    fn disarm(&mut self, ro: &Id) -> Result<(), DeckFault> {
        let answer = disarm_inner(&self.deck, ro);
        counted(&mut self.faults, &mut self.wants, answer)
    }
}
