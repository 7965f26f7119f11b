//! Whole connections.
use crate::plays::{Play, answered, driven, plain};
use crate::scripted::Scripted;
use mos_fields::let_go;
use port_events::Side;
use shared_machine::Hub;
use std::alloc::Global;
use std::sync::Wait;
use std::test::Fail;

/// A heartbeat of 122 characters. A reply to it by the same time is the same text.
const BEAT: &str =
    "<mos><mosID>m</mosID><ncsID>n</ncsID><messageID>7</messageID><heartbeat><time>2000-01-01T00:00:00</time></heartbeat></mos>";

/// So many bytes has that heartbeat.
const BEAT_BYTES: u64 = 244;

/// Two of them.
const TWO_BEATS: &str =
    "<mos><mosID>m</mosID><ncsID>n</ncsID><messageID>7</messageID><heartbeat><time>2000-01-01T00:00:00</time></heartbeat></mos><mos><mosID>m</mosID><ncsID>n</ncsID><messageID>7</messageID><heartbeat><time>2000-01-01T00:00:00</time></heartbeat></mos>";

/// A request of another device between two heartbeats.
const BETWEEN: &str =
    "<mos><mosID>m</mosID><ncsID>n</ncsID><messageID>7</messageID><heartbeat><time>2000-01-01T00:00:00</time></heartbeat></mos><mos><mosID>x</mosID><ncsID>n</ncsID><messageID>8</messageID><roReq><roID>R</roID></roReq></mos><mos><mosID>m</mosID><ncsID>n</ncsID><messageID>7</messageID><heartbeat><time>2000-01-01T00:00:00</time></heartbeat></mos>";

const NOT_FOR_ME: &str =
    "<mos><mosID>x</mosID><ncsID>n</ncsID><messageID>8</messageID><roAck><roID>R</roID><roStatus>NOT FOR ME</roStatus></roAck></mos>";

/// A heartbeat, and a message that isn't whole.
const CUT_SHORT: &str =
    "<mos><mosID>m</mosID><ncsID>n</ncsID><messageID>7</messageID><heartbeat><time>2000-01-01T00:00:00</time></heartbeat></mos><mos><mosID>";

/// A heartbeat, and a text where none may stand, which shows at the next tag.
const NO_MESSAGE: &str =
    "<mos><mosID>m</mosID><ncsID>n</ncsID><messageID>7</messageID><heartbeat><time>2000-01-01T00:00:00</time></heartbeat></mos>x<";

/// The heartbeats of this end.
const FIRST: &str =
    "<mos><mosID>m</mosID><ncsID>n</ncsID><messageID>1</messageID><heartbeat><time>2000-01-01T00:00:00</time></heartbeat></mos>";

const SECOND: &str =
    "<mos><mosID>m</mosID><ncsID>n</ncsID><messageID>2</messageID><heartbeat><time>2000-01-01T00:00:00</time></heartbeat></mos>";

/// roReqAll of this end.
const REQUEST: &str =
    "<mos><mosID>m</mosID><ncsID>n</ncsID><messageID>1</messageID><roReqAll></roReqAll></mos>";

/// It is answered so.
const REFUSED: &str =
    "<mos><mosID>m</mosID><ncsID>n</ncsID><messageID>1</messageID><roAck><roID>R</roID><roStatus>NOT NOW</roStatus></roAck></mos>";

/// Pieces of one byte.
const ONES: [usize; 600] = [1; 600];

/// Pieces of a hundred bytes.
const HUNDREDS: [usize; 8] = [100; 8];

// Plays a connection, and compares the events and the end, and what was written.
fn is<R: Wait>(
    rt: &R,
    alloc: Global,
    drives: bool,
    play: &Play<'_>,
    told: &str,
    written: &[&str],
) -> Result<bool, Fail> {
    let machine = Scripted::new(alloc, Vec::from_slice(alloc, play.replies.as_bytes())?);
    let Ok((hub, mut pass)) = Hub::new(alloc, (machine, ())) else {
        return Ok(false);
    };
    let mut out = Vec::new(alloc);
    let played = if drives {
        driven(rt, alloc, &hub, &mut pass, play, &mut out)
    } else {
        answered(rt, alloc, &hub, &mut pass, play, &mut out)
    };
    let (machine, ()) = hub.close(rt, pass);
    played?;
    let mut seen = Vec::from_slice(alloc, machine.log.as_slice())?;
    let_go(machine);
    seen.push(b' ')?;
    seen.extend_from_slice(out.as_slice())?;
    let mut wanted = Vec::from_slice(alloc, told.as_bytes())?;
    wanted.push(b' ')?;
    for text in written {
        wanted.extend_from_slice(text.as_bytes())?;
    }
    Ok(seen.as_slice() == wanted.as_slice())
}

// At the end of the source between messages.
#[test]
fn each_message_is_heard_and_answered(rt: HostRuntime) -> Result<(), Fail> {
    let play = plain(TWO_BEATS, "dbb");
    assert!(rt; is(&rt, rt.alloc(), false, &play, "AHHI Closed", &[BEAT, BEAT])?);
    let play = plain(TWO_BEATS, "nnb");
    assert!(rt; is(&rt, rt.alloc(), false, &play, "AHHI Closed", &[BEAT])?);
    let play = plain("", "");
    assert!(rt; is(&rt, rt.alloc(), false, &play, "I Closed", &[])?);
    Ok(())
}

#[test]
fn bytes_may_come_one_by_one(rt: HostRuntime) -> Result<(), Fail> {
    let play = Play {
        pieces: &ONES,
        ..plain(TWO_BEATS, "dbb")
    };
    assert!(rt; is(&rt, rt.alloc(), false, &play, "AHHI Closed", &[BEAT, BEAT])?);
    Ok(())
}

#[test]
fn a_message_for_another_end_is_refused_and_is_no_event(rt: HostRuntime) -> Result<(), Fail> {
    let play = plain(BETWEEN, "dbb");
    assert!(rt;
        is(
            &rt,
            rt.alloc(),
            false,
            &play,
            "AHHI Closed",
            &[BEAT, NOT_FOR_ME, BEAT]
        )?
    );
    let play = Play {
        side: Side::Editor,
        ..plain(BETWEEN, "dbnb")
    };
    assert!(rt; is(&rt, rt.alloc(), false, &play, "AHHHI Closed", &[BEAT, BEAT])?);
    Ok(())
}

#[test]
fn on_the_lower_port_an_object_is_refused_by_its_own_name(rt: HostRuntime) -> Result<(), Fail> {
    let input =
        "<mos><mosID>x</mosID><ncsID>n</ncsID><messageID>8</messageID><mosReqObj><objID>O</objID></mosReqObj></mos>";
    let wanted =
        "<mos><mosID>x</mosID><ncsID>n</ncsID><messageID>8</messageID><mosAck><objID>O</objID><objRev>0</objRev><status>NACK</status><statusDescription>NOT FOR ME</statusDescription></mosAck></mos>";
    let play = Play {
        side: Side::Lower,
        ..plain(input, "")
    };
    assert!(rt; is(&rt, rt.alloc(), false, &play, "I Closed", &[wanted])?);
    Ok(())
}

#[test]
fn a_message_that_is_cut_short_tells_its_bytes(rt: HostRuntime) -> Result<(), Fail> {
    let play = plain(CUT_SHORT, "db");
    assert!(rt; is(&rt, rt.alloc(), false, &play, "AHI Truncated 24", &[BEAT])?);
    let play = Play {
        cut: 1,
        ..plain(CUT_SHORT, "db")
    };
    assert!(rt; is(&rt, rt.alloc(), false, &play, "AHI Truncated 23", &[BEAT])?);
    Ok(())
}

#[test]
fn what_is_no_message_ends_it_behind_the_messages_before(rt: HostRuntime) -> Result<(), Fail> {
    let play = plain(NO_MESSAGE, "db");
    assert!(rt; is(&rt, rt.alloc(), false, &play, "AHI BadMessage 122", &[BEAT])?);
    Ok(())
}

#[test]
fn the_budget_counts_bytes(rt: HostRuntime) -> Result<(), Fail> {
    let play = Play {
        budget: BEAT_BYTES,
        ..plain(BEAT, "db")
    };
    assert!(rt; is(&rt, rt.alloc(), false, &play, "AHI Budget", &[BEAT])?);
    let play = Play {
        budget: BEAT_BYTES - 1,
        ..plain(BEAT, "db")
    };
    assert!(rt; is(&rt, rt.alloc(), false, &play, "I Budget", &[])?);
    let play = Play {
        budget: BEAT_BYTES + 1,
        ..plain(BEAT, "db")
    };
    assert!(rt; is(&rt, rt.alloc(), false, &play, "AHI Closed", &[BEAT])?);
    Ok(())
}

#[test]
fn a_read_that_fails_ends_it(rt: HostRuntime) -> Result<(), Fail> {
    let play = Play {
        reads: &[0],
        ..plain(BEAT, "db")
    };
    assert!(rt; is(&rt, rt.alloc(), false, &play, "I ReadFault", &[])?);
    let play = Play {
        reads: &[1],
        pieces: &HUNDREDS,
        ..plain(BEAT, "db")
    };
    assert!(rt; is(&rt, rt.alloc(), false, &play, "I ReadFault", &[])?);
    let play = Play {
        reads: &[1],
        ..plain(BEAT, "db")
    };
    assert!(rt; is(&rt, rt.alloc(), false, &play, "AHI ReadFault", &[BEAT])?);
    Ok(())
}

#[test]
fn a_write_that_fails_ends_it(rt: HostRuntime) -> Result<(), Fail> {
    let play = Play {
        writes: &[0],
        ..plain(TWO_BEATS, "dbb")
    };
    assert!(rt; is(&rt, rt.alloc(), false, &play, "AHI WriteFault", &[])?);
    let play = Play {
        writes: &[1],
        ..plain(TWO_BEATS, "dbb")
    };
    assert!(rt; is(&rt, rt.alloc(), false, &play, "AHHI WriteFault", &[BEAT])?);
    Ok(())
}

#[test]
fn the_hub_may_end_it(rt: HostRuntime) -> Result<(), Fail> {
    let play = plain(TWO_BEATS, "s");
    assert!(rt; is(&rt, rt.alloc(), false, &play, "AI Stale", &[])?);
    let play = plain(TWO_BEATS, "dbs");
    assert!(rt; is(&rt, rt.alloc(), false, &play, "AHHI Stale", &[BEAT])?);
    let play = plain(TWO_BEATS, "du");
    assert!(rt; is(&rt, rt.alloc(), false, &play, "AHI Unasked", &[])?);
    let play = plain(TWO_BEATS, "dbm");
    assert!(rt; is(&rt, rt.alloc(), false, &play, "AHI NoMemory", &[BEAT])?);
    let play = plain(BEAT, "dbm");
    assert!(rt; is(&rt, rt.alloc(), false, &play, "AH NoMemory", &[BEAT])?);
    Ok(())
}

#[test]
fn messages_are_numbered_and_each_answer_is_read(rt: HostRuntime) -> Result<(), Fail> {
    let play = plain(TWO_BEATS, "dbtbt");
    assert!(rt;
        is(
            &rt,
            rt.alloc(),
            true,
            &play,
            "DNWNWNO Stopped",
            &[FIRST, SECOND]
        )?
    );

    // Both answers come in one read; a second read would fail.
    let play = Play {
        reads: &[1],
        ..plain(TWO_BEATS, "dbtbt")
    };
    assert!(rt;
        is(
            &rt,
            rt.alloc(),
            true,
            &play,
            "DNWNWNO Stopped",
            &[FIRST, SECOND]
        )?
    );
    Ok(())
}

#[test]
fn a_message_that_answers_dialed_is_written_first(rt: HostRuntime) -> Result<(), Fail> {
    let play = plain(BEAT, "bt");
    assert!(rt; is(&rt, rt.alloc(), true, &play, "DWNO Stopped", &[FIRST])?);
    Ok(())
}

#[test]
fn a_pause_comes_after_not_now_and_after_nothing(rt: HostRuntime) -> Result<(), Fail> {
    let play = Play {
        paces: "ab",
        ..plain(REFUSED, "dqt")
    };
    assert!(rt; is(&rt, rt.alloc(), true, &play, "DNWNBNO Stopped", &[REQUEST])?);
    let play = plain(REFUSED, "dqt");
    assert!(rt; is(&rt, rt.alloc(), true, &play, "DNWO Stopped", &[REQUEST])?);
    Ok(())
}

#[test]
fn the_source_ends_it_while_an_answer_is_awaited(rt: HostRuntime) -> Result<(), Fail> {
    let play = plain("", "db");
    assert!(rt; is(&rt, rt.alloc(), true, &play, "DNO Closed", &[FIRST])?);
    let play = plain(CUT_SHORT, "dbtb");
    assert!(rt;
        is(
            &rt,
            rt.alloc(),
            true,
            &play,
            "DNWNO Truncated 24",
            &[FIRST, SECOND]
        )?
    );
    let play = plain(NO_MESSAGE, "dbtb");
    assert!(rt;
        is(
            &rt,
            rt.alloc(),
            true,
            &play,
            "DNWNO BadMessage 122",
            &[FIRST, SECOND]
        )?
    );
    let play = plain(NO_MESSAGE, "dbt");
    assert!(rt; is(&rt, rt.alloc(), true, &play, "DNWNO Stopped", &[FIRST])?);
    let play = Play {
        budget: BEAT_BYTES,
        ..plain(TWO_BEATS, "dbtb")
    };
    assert!(rt;
        is(
            &rt,
            rt.alloc(),
            true,
            &play,
            "DNWNO Budget",
            &[FIRST, SECOND]
        )?
    );
    Ok(())
}

#[test]
fn a_fault_ends_it_too(rt: HostRuntime) -> Result<(), Fail> {
    let play = Play {
        reads: &[0],
        ..plain(BEAT, "db")
    };
    assert!(rt; is(&rt, rt.alloc(), true, &play, "DNO ReadFault", &[FIRST])?);
    let play = Play {
        writes: &[1],
        ..plain(BEAT, "dbtb")
    };
    assert!(rt; is(&rt, rt.alloc(), true, &play, "DNWNO WriteFault", &[FIRST])?);
    Ok(())
}

#[test]
fn the_hub_may_end_one_that_this_end_opened(rt: HostRuntime) -> Result<(), Fail> {
    let play = plain(BEAT, "s");
    assert!(rt; is(&rt, rt.alloc(), true, &play, "DO Stale", &[])?);
    let play = plain(BEAT, "dbu");
    assert!(rt; is(&rt, rt.alloc(), true, &play, "DNWO Unasked", &[FIRST])?);
    let play = plain(BEAT, "m");
    assert!(rt; is(&rt, rt.alloc(), true, &play, "O NoMemory", &[])?);
    Ok(())
}
