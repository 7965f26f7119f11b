//! The lines of a deck that writes what it is told.

use crate::messages::id;
use crate::orders::order;
use deck_rack::{Deck, DeckFault, LineDeck};
use mos_fields::{Id, let_go};
use mos_io::MemSink;
use running_order::Order;
use std::alloc::Global;
use std::test::Fail;

// Loads an order, arms for it, takes the mark off, and loads none.
fn play(deck: &mut LineDeck<MemSink>, ro: &Id, order: &Order, mos: &Id) -> Result<(), DeckFault> {
    deck.load(ro, Some(order), mos)?;
    deck.arm(ro)?;
    deck.disarm(ro)?;
    deck.load(ro, None, mos)
}

// What a deck for a device writes of these calls.
fn written(alloc: Global, mos: &str, out: &mut Vec<u8>) -> Result<(), Fail> {
    let ro = id(alloc, "R1")?;
    let mos = id(alloc, mos)?;
    let order = order(alloc, "1")?;
    let mut deck = LineDeck::new(alloc, MemSink::new(alloc, Vec::new(alloc)));
    let played = play(&mut deck, &ro, &order, &mos);
    let kept = out.extend_from_slice(deck.sink().bytes());
    let_go(deck);
    let_go(order);
    played?;
    Ok(kept?)
}

#[test]
fn writes_its_own_items(rt: HostRuntime) -> Result<(), Fail> {
    let alloc = rt.alloc();
    let mut out = Vec::new(alloc);
    written(alloc, "dev1", &mut out)?;
    assert_eq!(rt;
        out.as_slice(),
        b"load R1 1=O1\narm R1\ndisarm R1\nload R1\n".as_slice()
    );
    Ok(())
}

#[test]
fn leaves_out_items_of_others(rt: HostRuntime) -> Result<(), Fail> {
    let alloc = rt.alloc();
    let mut out = Vec::new(alloc);
    written(alloc, "dev2", &mut out)?;
    assert_eq!(rt;
        out.as_slice(),
        b"load R1\narm R1\ndisarm R1\nload R1\n".as_slice()
    );
    Ok(())
}

// Arms and takes the mark off, and keeps what the deck has written.
fn mark_twice(
    deck: &mut LineDeck<MemSink>,
    ro: &Id,
    out: &mut Vec<u8>,
) -> Result<[Result<(), DeckFault>; 2], Fail> {
    let armed = deck.arm(ro);
    let disarmed = deck.disarm(ro);
    out.extend_from_slice(deck.sink().bytes())?;
    Ok([armed, disarmed])
}

#[test]
fn fails_where_its_sink_does(rt: HostRuntime) -> Result<(), Fail> {
    let alloc = rt.alloc();
    let ro = id(alloc, "R1")?;
    let mut out = Vec::new(alloc);
    let sink = MemSink::new(alloc, Vec::from_slice(alloc, &[1u64])?);
    let mut deck = LineDeck::new(alloc, sink);
    let answers = mark_twice(&mut deck, &ro, &mut out);
    let_go(deck);
    assert_eq!(rt; answers?, [Ok(()), Err(DeckFault::Failed)]);
    assert_eq!(rt; out.as_slice(), b"arm R1\n".as_slice());
    Ok(())
}
