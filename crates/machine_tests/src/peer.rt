//! A device that is sent the entries of two orders in their order in the journal.
use crate::journal::keep_ready;
use crate::letters::id;
use machine_answers::{Sent, Step, Tag};
use mos_fields::{Id, MosTime, OptId, Slug, let_go};
use mos_values::{AckGroups, Message, RoAck};
use rundown_log::{Journal, MemKeeper};
use server_peer::{Peer, View};
use std::alloc::Global;
use std::process::Abort;
use std::test::Fail;

fn noon() -> Result<MosTime, Fail> {
    let text = [
        '2', '0', '0', '9', '-', '0', '4', '-', '1', '1', 'T', '1', '2', ':', '0', '0', ':', '0',
        '0', 'Z',
    ];
    Ok(MosTime::try_new(&text)?)
}

fn okay(alloc: Global, name: char) -> Result<Message, Fail> {
    Ok(Message::RoAck(RoAck {
        ro: OptId::from_id(id(alloc, name)?),
        status: Slug::try_new(alloc, &['O', 'K'])?,
        groups: AckGroups::new(alloc),
    }))
}

// The number of the entry that is sent of an order, or of the one after a READY that is sent again.
fn number(sent: &Sent, name: &Id) -> Option<u64> {
    match sent {
        Sent::Out {
            message: _,
            tag: Tag::Edit { ro, k },
        } if ro.is(name) => Some(*k),
        Sent::Out {
            message: _,
            tag: Tag::Again { ro, m },
        } if ro.is(name) => Some(*m),
        _ => None,
    }
}

// What an answer of the device does.
fn answer(peer: &mut Peer, journal: &Journal, message: Message) -> Step {
    let step = peer.answered(journal, &message);
    let_go(message);
    step
}

// The number of the entry that is sent next, if it is one of this order.
fn next_number(peer: &mut Peer, journal: &Journal, name: &Id) -> Result<Option<u64>, Fail> {
    let sent = peer.next_send(journal, &noon()?)?;
    let number = number(&sent, name);
    let_go(sent);
    Ok(number)
}

// A connection is opened, and the second one in its place takes the answer.
fn open(rt: &impl Abort, peer: &mut Peer, journal: &Journal) -> Result<(), Fail> {
    peer.upper_opened(1);
    assert!(rt; answer(peer, journal, Message::RoReqAll) == Step::Unasked);
    peer.upper_opened(2);
    assert!(rt; answer(peer, journal, Message::Heartbeat(noon()?)) == Step::Taken);
    Ok(())
}

// An order that has no entries is listed.
fn list(alloc: Global, peer: &mut Peer, journal: &Journal, name: char) -> Result<(), Fail> {
    let ro = id(alloc, name)?;
    peer.reserve(&ro)?;
    peer.listed(journal, &ro, Vec::new(alloc));
    peer.settle(journal, true);
    Ok(())
}

// Both orders are listed, and then have entries.
fn enter(
    rt: &impl Abort,
    alloc: Global,
    peer: &mut Peer,
    journal: &mut Journal,
    keeper: &mut MemKeeper,
) -> Result<(), Fail> {
    open(rt, peer, journal)?;
    list(alloc, peer, journal, 'S')?;
    list(alloc, peer, journal, 'R')?;
    for name in ['S', 'R', 'S'] {
        assert_eq!(rt; keep_ready(alloc, journal, keeper, name)?, Ok(()));
    }
    Ok(())
}

// The first order's entry is sent and acknowledged, and then the second one's; no other roAck was asked for.
fn send(rt: &impl Abort, alloc: Global, peer: &mut Peer, journal: &Journal) -> Result<(), Fail> {
    let (first, second) = (id(alloc, 'S')?, id(alloc, 'R')?);
    assert_eq!(rt; next_number(peer, journal, &first)?, Some(0));
    assert!(rt; peer.is_busy(&first));
    assert!(rt; !peer.is_busy(&second));
    assert!(rt; answer(peer, journal, okay(alloc, 'S')?) == Step::Taken);
    assert_eq!(rt;
        peer.view(&first),
        View::In {
            n: 1,
            again: false,
            scripts: 0
        }
    );
    assert_eq!(rt; next_number(peer, journal, &second)?, Some(0));
    assert!(rt; answer(peer, journal, okay(alloc, 'S')?) == Step::Unasked);
    assert_eq!(rt; peer.view(&first), View::Out);
    Ok(())
}

fn enter_and_send(
    rt: &impl Abort,
    alloc: Global,
    peer: &mut Peer,
    journal: &mut Journal,
    keeper: &mut MemKeeper,
) -> Result<(), Fail> {
    enter(rt, alloc, peer, journal, keeper)?;
    send(rt, alloc, peer, journal)
}

#[test]
fn the_first_due_entry_is_sent(rt: HostRuntime) -> Result<(), Fail> {
    let alloc = rt.alloc();
    let mut keeper = MemKeeper::new(alloc, Vec::new(alloc), false);
    let mut journal = Journal::new(alloc);
    let mut peer = Peer::new(alloc);
    let sent = enter_and_send(&rt, alloc, &mut peer, &mut journal, &mut keeper);
    let_go(peer);
    let_go(journal);
    let_go(keeper);
    sent
}
