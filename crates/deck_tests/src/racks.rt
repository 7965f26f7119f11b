//! Racks of decks that fail at chosen calls.

use crate::messages::id;
use crate::orders::order;
use crate::shared_deck::SharedDeck;
use deck_rack::{Deck, MemDeck, Rack};
use mos_fields::let_go;
use std::alloc::Global;
use std::sync::{Arc, Mutex};
use std::test::Fail;

type Shared = Arc<Mutex<MemDeck>>;

type Boxes = Rack<Box<dyn Deck + Send>>;

// A deck in memory that fails at one call.
fn failing(alloc: Global, call: u64) -> Result<MemDeck, Fail> {
    Ok(MemDeck::new(alloc, Vec::from_slice(alloc, &[call])?))
}

fn shared(alloc: Global, call: u64) -> Result<Shared, Fail> {
    Ok(Arc::new(alloc, Mutex::new(failing(alloc, call)?))?)
}

// A rack of two decks, for the items of dev1.
fn rack_of(
    alloc: Global,
    first: Box<dyn Deck + Send>,
    second: Box<dyn Deck + Send>,
) -> Result<Boxes, Fail> {
    let mos = id(alloc, "dev1")?;
    let mut decks = Vec::new(alloc);
    decks.push(first)?;
    decks.push(second)?;
    Ok(Rack::new(decks, mos))
}

fn load<D: Deck>(rack: &mut Rack<D>, alloc: Global, numbers: &str) -> Result<(), Fail> {
    let ro = id(alloc, "R1")?;
    let order = order(alloc, numbers)?;
    rack.load(&ro, Some(&order));
    let_go(order);
    Ok(())
}

fn arm<D: Deck>(rack: &mut Rack<D>, alloc: Global) -> Result<(), Fail> {
    rack.arm(&id(alloc, "R1")?);
    Ok(())
}

fn disarm<D: Deck>(rack: &mut Rack<D>, alloc: Global) -> Result<(), Fail> {
    rack.disarm(&id(alloc, "R1")?);
    Ok(())
}

// Notes the itemIDs of the playlist of R1, each with an `=` and its objID behind it and a space before it; a `!` where the deck is
// armed; and a semicolon.
fn note(alloc: Global, deck: &Shared, notes: &mut Vec<char>) -> Result<(), Fail> {
    if let Some(deck) = deck.try_lock() {
        note_list(alloc, &deck, notes)?;
    }
    notes.push(';')?;
    Ok(())
}

fn note_list(alloc: Global, deck: &MemDeck, notes: &mut Vec<char>) -> Result<(), Fail> {
    let ro = id(alloc, "R1")?;
    for play in deck.list(&ro) {
        notes.push(' ')?;
        play.item.push_to(notes)?;
        notes.push('=')?;
        play.obj.push_to(notes)?;
    }
    if deck.is_armed(&ro) {
        notes.push('!')?;
    }
    Ok(())
}

// Loads twice, arms and takes the mark off. Notes the decks after each call, and says how many are left after each load.
fn play<D: Deck>(
    alloc: Global,
    rack: &mut Rack<D>,
    decks: &[Shared; 2],
    notes: &mut Vec<char>,
) -> Result<(u32, u32), Fail> {
    let [first, second] = decks;
    load(rack, alloc, "1 2")?;
    note(alloc, first, notes)?;
    note(alloc, second, notes)?;
    let before = rack.state().left;
    load(rack, alloc, "2 1")?;
    note(alloc, first, notes)?;
    note(alloc, second, notes)?;
    let after = rack.state().left;
    arm(rack, alloc)?;
    note(alloc, first, notes)?;
    disarm(rack, alloc)?;
    note(alloc, first, notes)?;
    Ok((before, after))
}

// The rack of two decks that are shared with the test.
fn rack_of_shared(alloc: Global, decks: &[Shared; 2]) -> Result<Boxes, Fail> {
    let [first, second] = decks;
    let first = Box::new(alloc, SharedDeck::new(first.clone()?))?;
    let second = Box::new(alloc, SharedDeck::new(second.clone()?))?;
    rack_of(alloc, first, second)
}

#[test]
fn a_deck_that_fails_its_second_load_is_dropped(rt: HostRuntime) -> Result<(), Fail> {
    let alloc = rt.alloc();
    let decks = [shared(alloc, 9)?, shared(alloc, 1)?];
    let mut rack = rack_of_shared(alloc, &decks)?;
    let mut notes = Vec::new(alloc);
    let left = play(alloc, &mut rack, &decks, &mut notes);
    let_go(rack);
    let_go(decks);
    assert_eq!(rt; left?, (2, 1));
    let notes = notes.iter().collect::<String>(alloc)?;
    assert_eq!(rt;
        notes.as_str(),
        " 1=O1 2=O2; 1=O1 2=O2; 2=O2 1=O1; 1=O1 2=O2; 2=O2 1=O1!; 2=O2 1=O1;"
    );
    Ok(())
}

// The call of this number: a load, an arming, a taking off, and again.
fn call<D: Deck>(rack: &mut Rack<D>, alloc: Global, number: u64) -> Result<(), Fail> {
    match number % 3 {
        0 => load(rack, alloc, "1"),
        1 => arm(rack, alloc),
        _ => disarm(rack, alloc),
    }
}

// How many decks are left after the call of this number, of one that fails at call `i` and one that fails at call `j`.
fn left_after(number: u64, i: u64, j: u64) -> u32 {
    match (number < i, number < j) {
        (true, true) => 2,
        (false, false) => 0,
        _ => 1,
    }
}

// Whether a rack of two such decks has so many left after each of five calls.
fn falls_as_listed<D: Deck>(
    alloc: Global,
    rack: &mut Rack<D>,
    i: u64,
    j: u64,
) -> Result<bool, Fail> {
    for number in 0..5 {
        call(rack, alloc, number)?;
        if rack.state().left != left_after(number, i, j) {
            return Ok(false);
        }
    }
    Ok(true)
}

fn rack_of_failing(alloc: Global, i: u64, j: u64) -> Result<Boxes, Fail> {
    let first = Box::new(alloc, failing(alloc, i)?)?;
    let second = Box::new(alloc, failing(alloc, j)?)?;
    rack_of(alloc, first, second)
}

#[test]
fn a_deck_is_gone_exactly_after_its_failing_call(rt: HostRuntime) -> Result<(), Fail> {
    let alloc = rt.alloc();
    for i in 0..5 {
        for j in 0..5 {
            let mut rack = rack_of_failing(alloc, i, j)?;
            let falls = falls_as_listed(alloc, &mut rack, i, j);
            let_go(rack);
            assert!(rt; falls?, "{i} {j}");
        }
    }
    Ok(())
}

#[test]
fn no_decks_are_none_left(rt: HostRuntime) -> Result<(), Fail> {
    let alloc = rt.alloc();
    let mut rack: Boxes = Rack::new(Vec::new(alloc), id(alloc, "dev1")?);
    let armed = arm(&mut rack, alloc);
    let state = rack.state();
    let_go(rack);
    armed?;
    assert!(rt; !state.handed);
    assert_eq!(rt; state.left, 0);
    Ok(())
}
