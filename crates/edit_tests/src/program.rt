//! The program's runs: its words, the connection that is dialed, and how it ends.
use crate::dialed::{FileTurn, Line, Turn, edits_lines, gives_file, words_of};
use crate::lines::{OKAY, OKAY_2, READY, SWAP};
use edit_program::{USAGE, last_words, place_in};
use edit_runs::EditStatus;
use message_runs::MessageEnd;
use mos_fields::{NoMemory, Text};
use mos_lexer::Kind;
use port_links::Place;
use std::alloc::Global;
use std::test::Fail;

/// Two edits.
const LINES: &str = "swap R1 A B\nready R1\n";

/// What is told of them.
const TOLD: &str = "swap R1 A B: OK\nready R1: OK\n";

/// How their messages begin.
const FIRST: &str = "<mos><mosID>editor</mosID><ncsID>n</ncsID><messageID>1</messageID>";

const SECOND: &str = "<mos><mosID>editor</mosID><ncsID>n</ncsID><messageID>2</messageID>";

/// A message of a file.
const MESSAGE: &str =
    "<mos><mosID>desk</mosID><ncsID>ncs1</ncsID><messageID>7</messageID><roReadyToAir><roID>EVENING</roID><roAir>READY</roAir></roReadyToAir></mos>";

/// Its answer.
const OKAY_7: &str =
    "<mos><mosID>desk</mosID><ncsID>ncs1</ncsID><messageID>7</messageID><roAck><roID>EVENING</roID><roStatus>OK</roStatus></roAck></mos>";

/// The front of a message.
const CUT: &str = "<mos><mosID>desk</mosID><ncsID>ncs1</ncsID><messageID>8</messageID><roEl";

/// What is told of the message.
const ANSWERED: &str = "roReadyToAir EVENING: OK\n";

/// The words of a run of lines.
const WORDS: &str = "localhost:10542 n";

/// The words of a run of a file.
const FILE_WORDS: &str = "localhost:10542 n FILE";

/// On each line words that aren't a place and an ID: none, one, three; without a colon; with a port that is 0, too large, begins
/// with 0, is no number, is empty; with a host that is empty; with an ID that is empty.
const WRONG: &str =
    "\nlocalhost:10542\nlocalhost:10542 n FILE\nlocalhost n\nlocalhost:0 n\nlocalhost:65536 n\nlocalhost:010542 n\nlocalhost:10542x n\nlocalhost: n\n:10542 n\n[]:10542 n\nlocalhost:10542 ";

/// On each line a place, its host and its port.
const PLACES: &str =
    "localhost:10542 localhost 10542\n127.0.0.1:1 127.0.0.1 1\n[::1]:65535 ::1 65535\n::1:7 ::1 7\na:b:10 a:b 10\n[:8 [ 8";

// A connection of the two edits.
fn edits_line<'a>(fails: &'a [u64]) -> Line<'a> {
    Line {
        sent: &[FIRST, SWAP, SECOND, READY],
        answers: &[OKAY, OKAY_2],
        fails,
    }
}

// The two edits are given and answered.
fn done<'a>() -> Turn<'a> {
    Turn {
        rows: WORDS,
        status: EditStatus::Done,
        shown: TOLD,
    }
}

// No line is given.
fn none<'a>(rows: &'a str, status: EditStatus) -> Turn<'a> {
    Turn {
        rows,
        status,
        shown: "",
    }
}

#[test]
fn lines_are_given_over_the_connection_that_was_opened(rt: HostRuntime) -> Result<(), Fail> {
    assert!(rt; edits_lines(&rt, &edits_line(&[]), LINES, &[done()])?);
    Ok(())
}

// A dial would take the only connection.
#[test]
fn with_wrong_words_no_dial_is_made_and_nothing_is_read(rt: HostRuntime) -> Result<(), Fail> {
    let turns = [none(WRONG, EditStatus::Usage), done()];
    assert!(rt; edits_lines(&rt, &edits_line(&[]), LINES, &turns)?);
    Ok(())
}

// The second dial opens the connection, and the third has none.
#[test]
fn a_dial_that_fails_is_lost_and_nothing_is_read(rt: HostRuntime) -> Result<(), Fail> {
    let lost = none(WORDS, EditStatus::Lost);
    assert!(rt; edits_lines(&rt, &edits_line(&[0]), LINES, &[lost, done(), lost])?);
    Ok(())
}

// A run of a file that comes to this.
fn file_turn<'a>(
    rows: &'a str,
    end: Result<MessageEnd, EditStatus>,
    shown: &'a str,
) -> FileTurn<'a> {
    FileTurn { rows, end, shown }
}

// A connection of the message.
fn message_line<'a>(fails: &'a [u64]) -> Line<'a> {
    Line {
        sent: &[MESSAGE],
        answers: &[OKAY_7],
        fails,
    }
}

#[test]
fn a_file_is_given_over_the_connection_that_was_opened(rt: HostRuntime) -> Result<(), Fail> {
    let turns = [
        file_turn(WORDS, Err(EditStatus::Usage), ""),
        file_turn(FILE_WORDS, Err(EditStatus::Lost), ""),
        file_turn(FILE_WORDS, Ok(MessageEnd::Done), ANSWERED),
    ];
    assert!(rt; gives_file(&rt, &message_line(&[0]), &[MESSAGE], &turns)?);
    Ok(())
}

#[test]
fn a_file_that_ends_inside_a_message_is_rejected_there(rt: HostRuntime) -> Result<(), Fail> {
    let end = MessageEnd::Rejected {
        place: (MESSAGE.len() + CUT.len()) as u64,
        kind: Kind::End,
    };
    let turns = [file_turn(FILE_WORDS, Ok(end), ANSWERED)];
    assert!(rt; gives_file(&rt, &message_line(&[]), &[MESSAGE, CUT], &turns)?);
    Ok(())
}

// Whether the place has this host and this port.
fn has_parts(alloc: Global, place: &Place, host: &str, port: &str) -> Result<bool, NoMemory> {
    let letters: Vec<char> = host.chars().collect(alloc)?;
    match Text::try_new(alloc, &letters) {
        Ok(host) => Ok(place.host.is(&host) && port.parse::<u16>() == Ok(place.port)),
        Err(_) => Ok(false),
    }
}

// Whether the word is a place of this host and this port.
fn is_place(alloc: Global, word: &str, host: &str, port: &str) -> Result<bool, NoMemory> {
    match place_in(alloc, word) {
        Ok(place) => has_parts(alloc, &place, host, port),
        Err(_) => Ok(false),
    }
}

// Whether the first word of three is a place of the others.
fn is_row(alloc: Global, row: &str) -> Result<bool, NoMemory> {
    match words_of(alloc, row)?.as_slice() {
        [word, host, port] => is_place(alloc, word.as_str(), host.as_str(), port.as_str()),
        _ => Ok(false),
    }
}

#[test]
fn a_place_is_a_host_and_the_port_behind_its_last_colon(rt: HostRuntime) -> Result<(), Fail> {
    for row in PLACES.split('\n') {
        assert!(rt; is_row(rt.alloc(), row)?);
    }
    Ok(())
}

// Whether these are the last words of a run of lines with the words of this row.
fn says(alloc: Global, row: &str, status: EditStatus, text: &str) -> Result<bool, NoMemory> {
    let words = words_of(alloc, row)?;
    match last_words(alloc, &words, status)? {
        Some(said) => Ok(said.as_str() == text),
        None => Ok(text.is_empty()),
    }
}

/// On each line words that are wrong, a bar, and what is said of them.
const WRONG_WORDS: &str = "localhost n|localhost has no port: HOST:PORT is wanted
localhost:99999 n|localhost:99999 has no port from 1 to 65535: HOST:PORT is wanted
:7 n|:7 has no host: HOST:PORT is wanted
localhost:7 |NCS_ID has to be 1 to 128 characters
--nosuch n FILE|--nosuch is no option: --help and --version are";

// Whether what is said of the words of a row is what stands behind its bar.
fn is_said(alloc: Global, row: &str) -> Result<bool, NoMemory> {
    match row.split_once('|') {
        None => Ok(false),
        Some((words, said)) => {
            let text = format!(in alloc; "{said}\n{USAGE}")?;
            says(alloc, words, EditStatus::Usage, text.as_str())
        }
    }
}

#[test]
fn what_is_wrong_with_words_is_said(rt: HostRuntime) -> Result<(), Fail> {
    for row in WRONG_WORDS.split('\n') {
        assert!(rt; is_said(rt.alloc(), row)?);
    }
    assert!(rt; says(rt.alloc(), "localhost:7", EditStatus::Usage, USAGE)?);
    Ok(())
}

#[test]
fn what_went_wrong_is_said(rt: HostRuntime) -> Result<(), Fail> {
    assert!(rt; says(rt.alloc(), WORDS, EditStatus::Done, "")?);
    assert!(rt; says(rt.alloc(), WORDS, EditStatus::Refused, "")?);
    let lost = "Lost: no connection to localhost:10542; nothing was sent";
    assert!(rt; says(rt.alloc(), WORDS, EditStatus::Lost, lost)?);
    let unsent = EditStatus::Unsent { line: 3 };
    assert!(rt;
        says(
            rt.alloc(),
            WORDS,
            unsent,
            "Lost: line 3 couldn't be sent whole"
        )?
    );
    let unanswered = EditStatus::Unanswered { line: 3 };
    let ended = "Lost: the connection ended before the answer to line 3, which may have been taken";
    assert!(rt; says(rt.alloc(), WORDS, unanswered, ended)?);
    Ok(())
}
