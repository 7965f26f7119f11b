//! How runs end that don't come to the end of their lines.
use crate::lines::{FIRST, OKAY, OKAY_2, READY, SECOND, SWAP};
use crate::play::{Play, Wanted, is, plain};
use edit_runs::EditStatus;
use std::test::Fail;

/// Two edits.
const LINES: &str = "swap R1 A B\nready R1\n";

/// An answer that isn't whole.
const CUT: &str = "<mos><mosID>e</mosID><ncsID>n</ncsID><messageID>1</messageID><roAck><roID>R1";

/// A text where none may stand, which shows at the next tag.
const NO_MESSAGE: &str = "x<";

// The second edit was sent, and had no answer.
fn lost<'a>() -> Wanted<'a> {
    Wanted {
        status: EditStatus::Unanswered { line: 2 },
        sent: &[FIRST, SWAP, SECOND, READY],
        shown: "swap R1 A B: OK\n",
        noted: "",
    }
}

#[test]
fn a_connection_that_ends_is_lost(rt: HostRuntime) -> Result<(), Fail> {
    let wanted = lost();
    assert!(rt; is(&rt, rt.alloc(), &plain(LINES, &[OKAY]), &wanted)?);
    assert!(rt; is(&rt, rt.alloc(), &plain(LINES, &[OKAY, CUT]), &wanted)?);
    assert!(rt; is(&rt, rt.alloc(), &plain(LINES, &[OKAY, NO_MESSAGE]), &wanted)?);
    Ok(())
}

// No line is sent behind one that had no answer. Lines that are passed over count.
#[test]
fn nothing_is_sent_before_the_answer_came(rt: HostRuntime) -> Result<(), Fail> {
    let wanted = Wanted {
        status: EditStatus::Unanswered { line: 2 },
        sent: &[FIRST, SWAP],
        shown: "",
        noted: "",
    };
    let lines = "# evening\nswap R1 A B\nready R1\n";
    assert!(rt; is(&rt, rt.alloc(), &plain(lines, &[]), &wanted)?);
    let unheard = Wanted {
        status: EditStatus::Unheard { line: 1 },
        ..wanted
    };
    let play = Play {
        hears: &[0],
        ..plain(LINES, &[OKAY, OKAY_2])
    };
    assert!(rt; is(&rt, rt.alloc(), &play, &unheard)?);
    Ok(())
}

#[test]
fn a_write_to_the_connection_that_fails_loses_it(rt: HostRuntime) -> Result<(), Fail> {
    let play = Play {
        sends: &[1],
        ..plain(LINES, &[OKAY, OKAY_2])
    };
    let wanted = Wanted {
        status: EditStatus::Unsent { line: 2 },
        sent: &[FIRST, SWAP],
        shown: "swap R1 A B: OK\n",
        noted: "",
    };
    assert!(rt; is(&rt, rt.alloc(), &play, &wanted)?);
    Ok(())
}

// The lines come in two pieces, and the read of the second one fails.
#[test]
fn input_that_fails_ends_the_run_behind_its_last_line(rt: HostRuntime) -> Result<(), Fail> {
    let play = Play {
        pieces: &[15, 1000],
        reads: &[1],
        ..plain(LINES, &[OKAY, OKAY_2])
    };
    let wanted = Wanted {
        status: EditStatus::ReadFault,
        sent: &[FIRST, SWAP],
        shown: "swap R1 A B: OK\n",
        noted: "",
    };
    assert!(rt; is(&rt, rt.alloc(), &play, &wanted)?);
    Ok(())
}

#[test]
fn an_answer_that_cannot_be_told_ends_the_run(rt: HostRuntime) -> Result<(), Fail> {
    let play = Play {
        shows: &[0],
        ..plain(LINES, &[OKAY, OKAY_2])
    };
    let wanted = Wanted {
        status: EditStatus::WriteFault,
        sent: &[FIRST, SWAP],
        shown: "",
        noted: "",
    };
    assert!(rt; is(&rt, rt.alloc(), &play, &wanted)?);
    Ok(())
}

#[test]
fn a_note_that_cannot_be_written_ends_the_run(rt: HostRuntime) -> Result<(), Fail> {
    let play = Play {
        notes: &[0],
        ..plain("swop R1 A B\nready R1\n", &[OKAY])
    };
    let wanted = Wanted {
        status: EditStatus::WriteFault,
        sent: &[],
        shown: "",
        noted: "",
    };
    assert!(rt; is(&rt, rt.alloc(), &play, &wanted)?);
    Ok(())
}

#[test]
fn each_status_has_its_number(rt: HostRuntime) -> Result<(), Fail> {
    assert_eq!(rt; EditStatus::Done.number(), 0);
    assert_eq!(rt; EditStatus::Refused.number(), 1);
    assert_eq!(rt; EditStatus::Usage.number(), 2);
    assert_eq!(rt; EditStatus::ReadFault.number(), 3);
    assert_eq!(rt; EditStatus::WriteFault.number(), 4);
    assert_eq!(rt; EditStatus::NoMemory.number(), 5);
    assert_eq!(rt; EditStatus::Lost.number(), 6);
    assert_eq!(rt; EditStatus::Unsent { line: 7 }.number(), 6);
    assert_eq!(rt; EditStatus::Unheard { line: 7 }.number(), 6);
    assert_eq!(rt; EditStatus::Unanswered { line: 7 }.number(), 6);
    Ok(())
}
