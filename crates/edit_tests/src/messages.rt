//! Whole messages of a file, with their answers, and how runs of them end.
use crate::giving::{Given, Giving, gives, unfailing};
use crate::lines::{BARE, NO_ORDERS};
use edit_runs::EditStatus;
use message_runs::MessageEnd;
use mos_lexer::Kind;
use std::test::Fail;

/// The messages of a file, in their canonical encodings.
const CREATE: &str =
    "<mos><mosID>desk</mosID><ncsID>ncs1</ncsID><messageID>70</messageID><roCreate><roID>EVENING</roID><roSlug>The evening</roSlug><story><storyID>A</storyID></story><story><storyID>B</storyID></story></roCreate></mos>";

const SWAP: &str =
    "<mos><mosID>desk</mosID><ncsID>ncs1</ncsID><messageID>7</messageID><roElementAction operation=\"SWAP\"><roID>EVENING</roID><element_source><storyID>A</storyID><storyID>B</storyID></element_source></roElementAction></mos>";

const REQUEST: &str =
    "<mos><mosID>other</mosID><ncsID>ncs1</ncsID><roReq><roID>EVENING</roID></roReq></mos>";

const ALL: &str = "<mos><mosID>desk</mosID><ncsID>ncs1</ncsID><roReqAll></roReqAll></mos>";

const HEARTBEAT: &str =
    "<mos><mosID>desk</mosID><ncsID>ncs1</ncsID><heartbeat><time>2026-01-01T00:00:00Z</time></heartbeat></mos>";

const UNKNOWN: &str =
    "<mos><mosID>desk</mosID><ncsID>ncs1</ncsID><roClose><roID>EVENING</roID></roClose></mos>";

/// The same request in another encoding.
const SPACED_REQUEST: &str =
    "<mos changeDate=\"1 May\"> <mosID>other</mosID>\n<ncsID>ncs1</ncsID> <roReq><roID>E&#86;ENING</roID></roReq>\n</mos>";

/// The front of a message.
const CUT: &str = "<mos><mosID>desk</mosID><ncsID>ncs1</ncsID><messageID>7</messageID><roEl";

/// Their answers.
const OKAY: &str =
    "<mos><mosID>desk</mosID><ncsID>ncs1</ncsID><messageID>70</messageID><roAck><roID>EVENING</roID><roStatus>OK</roStatus></roAck></mos>";

const OKAY_7: &str =
    "<mos><mosID>desk</mosID><ncsID>ncs1</ncsID><messageID>7</messageID><roAck><roID>EVENING</roID><roStatus>OK</roStatus></roAck></mos>";

const OKAY_NONE: &str =
    "<mos><mosID>desk</mosID><ncsID>ncs1</ncsID><roAck><roID>EVENING</roID><roStatus>OK</roStatus></roAck></mos>";

const MISSING: &str =
    "<mos><mosID>desk</mosID><ncsID>ncs1</ncsID><messageID>70</messageID><roAck><roID>EVENING</roID><roStatus>MISSING A</roStatus></roAck></mos>";

const ORDER: &str =
    "<mos><mosID>other</mosID><ncsID>ncs1</ncsID><roList><roID>EVENING</roID><roSlug>Six</roSlug><story><storyID>B</storyID><item><itemID>1</itemID><objID>o</objID><mosID>m1</mosID></item></story><story><storyID>A</storyID></story></roList></mos>";

/// What is told of the three messages.
const TOLD: &str = "roCreate EVENING: OK\nroElementAction EVENING: OK\nEVENING B:1 A\n";

/// Pieces of one byte.
const ONES: [usize; 4000] = [1; 4000];

// The three messages, each of which has the answer that it wants.
fn three<'a>() -> Giving<'a> {
    unfailing(&[CREATE, SWAP, REQUEST], &[OKAY, OKAY_7, ORDER])
}

#[test]
fn each_message_of_a_file_is_sent_and_its_answer_told(rt: HostRuntime) -> Result<(), Fail> {
    let given = Given {
        end: MessageEnd::Done,
        sent: &[CREATE, SWAP, REQUEST],
        shown: TOLD,
    };
    assert!(rt; gives(&rt, rt.alloc(), &three(), &given)?);
    let slow = Giving {
        pieces: &ONES,
        hearings: &ONES,
        ..three()
    };
    assert!(rt; gives(&rt, rt.alloc(), &slow, &given)?);
    Ok(())
}

// White space and U+FEFF stand between the messages, and the encodings that are sent are canonical.
#[test]
fn messages_are_sent_in_their_canonical_encodings(rt: HostRuntime) -> Result<(), Fail> {
    let given = Given {
        end: MessageEnd::Done,
        sent: &[REQUEST, REQUEST],
        shown: "EVENING B:1 A\nEVENING B:1 A\n",
    };
    let spaced = Giving {
        front: &[0xFE, 0xFF],
        behind: &[0, 10, 0xFE, 0xFF, 0, 32],
        ..unfailing(&["\n", SPACED_REQUEST, " \n", REQUEST], &[ORDER, ORDER])
    };
    assert!(rt; gives(&rt, rt.alloc(), &spaced, &given)?);
    Ok(())
}

#[test]
fn a_file_of_no_messages_sends_nothing(rt: HostRuntime) -> Result<(), Fail> {
    let given = Given {
        end: MessageEnd::Done,
        sent: &[],
        shown: "",
    };
    assert!(rt; gives(&rt, rt.alloc(), &unfailing(&[], &[]), &given)?);
    Ok(())
}

#[test]
fn an_answer_to_a_message_that_is_not_ok_is_told(rt: HostRuntime) -> Result<(), Fail> {
    let given = Given {
        end: MessageEnd::Refused,
        sent: &[CREATE, SWAP, REQUEST],
        shown: "roCreate EVENING: MISSING A\nroElementAction EVENING: OK\nroReq EVENING: OK\n",
    };
    let answered = unfailing(&[CREATE, SWAP, REQUEST], &[MISSING, OKAY_7, OKAY_NONE]);
    assert!(rt; gives(&rt, rt.alloc(), &answered, &given)?);
    let another = Given {
        shown: "roCreate EVENING: OK\nroElementAction EVENING: ANOTHER MESSAGE\nroReq EVENING: OK\n",
        ..given
    };
    let answered = unfailing(&[CREATE, SWAP, REQUEST], &[OKAY, OKAY, BARE]);
    assert!(rt; gives(&rt, rt.alloc(), &answered, &another)?);
    Ok(())
}

// A heartbeat has no roID, and the roID of a message that the tables don't have isn't looked for.
#[test]
fn a_message_without_a_ro_id_is_told_by_its_name(rt: HostRuntime) -> Result<(), Fail> {
    let given = Given {
        end: MessageEnd::Refused,
        sent: &[HEARTBEAT, ALL, ALL, UNKNOWN],
        shown: "heartbeat: ANOTHER MESSAGE\nno running orders\nroReqAll: OK\nroClose: OK\n",
    };
    let others = unfailing(
        &[HEARTBEAT, ALL, ALL, UNKNOWN],
        &[HEARTBEAT, NO_ORDERS, BARE, OKAY_NONE],
    );
    assert!(rt; gives(&rt, rt.alloc(), &others, &given)?);
    Ok(())
}

// The first message was given and answered.
fn first<'a>(end: MessageEnd) -> Given<'a> {
    Given {
        end,
        sent: &[CREATE],
        shown: "roCreate EVENING: OK\n",
    }
}

#[test]
fn a_file_that_is_cut_inside_a_message_is_rejected_at_its_end(rt: HostRuntime) -> Result<(), Fail> {
    let given = first(MessageEnd::Rejected {
        place: (CREATE.len() + CUT.len()) as u64,
        kind: Kind::End,
    });
    let cut = unfailing(&[CREATE, CUT], &[OKAY, OKAY_7]);
    assert!(rt; gives(&rt, rt.alloc(), &cut, &given)?);
    let odd = Giving {
        behind: &[0],
        ..cut
    };
    assert!(rt; gives(&rt, rt.alloc(), &odd, &given)?);
    let slow = Giving {
        pieces: &ONES,
        ..odd
    };
    assert!(rt; gives(&rt, rt.alloc(), &slow, &given)?);
    Ok(())
}

#[test]
fn a_file_that_is_no_stream_is_rejected_behind_its_messages(rt: HostRuntime) -> Result<(), Fail> {
    let given = first(MessageEnd::Rejected {
        place: CREATE.len() as u64,
        kind: Kind::Tag,
    });
    let bad = unfailing(&[CREATE, "<mis>", SWAP], &[OKAY, OKAY_7]);
    assert!(rt; gives(&rt, rt.alloc(), &bad, &given)?);
    Ok(())
}

// The second message was sent, and had no answer.
fn lost<'a>() -> Given<'a> {
    Given {
        end: MessageEnd::Unanswered,
        sent: &[CREATE, SWAP],
        shown: "roCreate EVENING: OK\n",
    }
}

#[test]
fn a_connection_that_ends_before_the_second_answer_is_lost(rt: HostRuntime) -> Result<(), Fail> {
    let ended = unfailing(&[CREATE, SWAP, REQUEST], &[OKAY]);
    assert!(rt; gives(&rt, rt.alloc(), &ended, &lost())?);
    let cut = unfailing(&[CREATE, SWAP, REQUEST], &[OKAY, CUT]);
    assert!(rt; gives(&rt, rt.alloc(), &cut, &lost())?);
    let bad = unfailing(&[CREATE, SWAP, REQUEST], &[OKAY, "<mis>"]);
    assert!(rt; gives(&rt, rt.alloc(), &bad, &lost())?);
    Ok(())
}

// Each read of the connection gives one answer.
#[test]
fn each_read_of_an_answer_that_fails_loses_the_connection(rt: HostRuntime) -> Result<(), Fail> {
    let none = Given {
        end: MessageEnd::Unheard,
        sent: &[CREATE],
        shown: "",
    };
    let second = Given {
        end: MessageEnd::Unheard,
        ..lost()
    };
    let hearings = [2 * OKAY.len(), 2 * OKAY_7.len()];
    let at_first = Giving {
        hearings: &hearings,
        hears: &[0],
        ..three()
    };
    assert!(rt; gives(&rt, rt.alloc(), &at_first, &none)?);
    let at_second = Giving {
        hears: &[1],
        ..at_first
    };
    assert!(rt; gives(&rt, rt.alloc(), &at_second, &second)?);
    Ok(())
}

#[test]
fn each_write_of_a_message_that_fails_loses_the_connection(rt: HostRuntime) -> Result<(), Fail> {
    let none = Given {
        end: MessageEnd::Unsent,
        sent: &[],
        shown: "",
    };
    let at_first = Giving {
        sends: &[0],
        ..three()
    };
    assert!(rt; gives(&rt, rt.alloc(), &at_first, &none)?);
    let at_second = Giving {
        sends: &[1],
        ..three()
    };
    assert!(rt; gives(&rt, rt.alloc(), &at_second, &first(MessageEnd::Unsent))?);
    Ok(())
}

// The file comes in two pieces, the first of which is its first message, and then its end is read.
#[test]
fn each_read_of_the_file_that_fails_ends_the_run(rt: HostRuntime) -> Result<(), Fail> {
    let none = Given {
        end: MessageEnd::ReadFault,
        sent: &[],
        shown: "",
    };
    let pieces = [2 * CREATE.len()];
    let at_first = Giving {
        pieces: &pieces,
        reads: &[0],
        ..three()
    };
    assert!(rt; gives(&rt, rt.alloc(), &at_first, &none)?);
    let at_second = Giving {
        reads: &[1],
        ..at_first
    };
    assert!(rt; gives(&rt, rt.alloc(), &at_second, &first(MessageEnd::ReadFault))?);
    let all = Given {
        end: MessageEnd::ReadFault,
        sent: &[CREATE, SWAP, REQUEST],
        shown: TOLD,
    };
    let at_end = Giving {
        reads: &[2],
        ..at_first
    };
    assert!(rt; gives(&rt, rt.alloc(), &at_end, &all)?);
    Ok(())
}

#[test]
fn each_answer_that_cannot_be_told_ends_the_run(rt: HostRuntime) -> Result<(), Fail> {
    let none = Given {
        end: MessageEnd::WriteFault,
        sent: &[CREATE],
        shown: "",
    };
    let at_first = Giving {
        shows: &[0],
        ..three()
    };
    assert!(rt; gives(&rt, rt.alloc(), &at_first, &none)?);
    let second = Given {
        end: MessageEnd::WriteFault,
        sent: &[CREATE, SWAP],
        shown: "roCreate EVENING: OK\n",
    };
    let at_second = Giving {
        shows: &[1],
        ..three()
    };
    assert!(rt; gives(&rt, rt.alloc(), &at_second, &second)?);
    Ok(())
}

#[test]
fn each_end_has_its_status(rt: HostRuntime) -> Result<(), Fail> {
    let rejected = MessageEnd::Rejected {
        place: 7,
        kind: Kind::End,
    };
    assert_eq!(rt; MessageEnd::Done.status(), EditStatus::Done);
    assert_eq!(rt; MessageEnd::Refused.status(), EditStatus::Refused);
    assert_eq!(rt; rejected.status(), EditStatus::Refused);
    assert_eq!(rt; MessageEnd::ReadFault.status(), EditStatus::ReadFault);
    assert_eq!(rt; MessageEnd::WriteFault.status(), EditStatus::WriteFault);
    assert_eq!(rt; MessageEnd::Unsent.status(), EditStatus::Lost);
    assert_eq!(rt; MessageEnd::Unheard.status(), EditStatus::Lost);
    assert_eq!(rt; MessageEnd::Unanswered.status(), EditStatus::Lost);
    assert_eq!(rt; MessageEnd::NoMemory.status(), EditStatus::NoMemory);
    Ok(())
}
