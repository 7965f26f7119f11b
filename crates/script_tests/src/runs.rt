//! Runs over inputs and outputs in memory.
use mos_fields::NoMemory;
use mos_io::{MemSink, MemSource};
use replay_commands::{USAGE, about};
use std::alloc::Global;
use std::test::Fail;
use stream_commands::Status;
use world_commands::run_in_memory;

/// 129 code units
const HEARTBEAT: &str =
    "<mos><mosID>dev1</mosID><ncsID>ncs1</ncsID><messageID>7</messageID><heartbeat><time>2009-04-11T14:22:07Z</time></heartbeat></mos>";

/// The front of a message, in 67 code units.
const FRONT: &str = "<mos><mosID>dev1</mosID><ncsID>ncs1</ncsID><messageID>8</messageID>";

/// The same with another messageID.
const OTHER_FRONT: &str = "<mos><mosID>dev1</mosID><ncsID>ncs1</ncsID><messageID>7</messageID>";

/// Appends a text in which `@` stands for a heartbeat, `$` and `%` for the fronts of messages, `^` for the end tag and `~` for
/// a line feed.
fn push_meant(out: &mut String, text: &str) -> Result<(), NoMemory> {
    for c in text.chars() {
        match c {
            '@' => out.push_str(HEARTBEAT)?,
            '$' => out.push_str(FRONT)?,
            '%' => out.push_str(OTHER_FRONT)?,
            '^' => out.push_str("</mos>")?,
            '~' => out.push('\n')?,
            c => out.push(c)?,
        }
    }
    Ok(())
}

/// The bytes of an ASCII text, in UCS-2 with the high byte first where they are `wide`.
fn bytes_of(alloc: Global, text: &str, wide: bool) -> Result<Vec<u8>, NoMemory> {
    let mut bytes = Vec::new(alloc);
    for byte in text.as_bytes() {
        if wide {
            bytes.push(0)?;
        }
        bytes.push(*byte)?;
    }
    Ok(bytes)
}

/// The bytes that such a text stands for.
fn meant(alloc: Global, text: &str, wide: bool) -> Result<Vec<u8>, NoMemory> {
    let mut out = String::new(alloc);
    push_meant(&mut out, text)?;
    bytes_of(alloc, out.as_str(), wide)
}

/// The words of a command.
pub(crate) fn words_of(alloc: Global, command: &str) -> Result<Vec<String>, NoMemory> {
    let mut words = Vec::new(alloc);
    for word in command.split(' ') {
        words.push(String::from_str(alloc, word)?)?;
    }
    Ok(words)
}

/// How a run on a new stage ends. The input comes in these pieces, and the reads of these numbers fail.
fn ending(
    alloc: Global,
    words: &[String],
    bytes: Vec<u8>,
    pieces: Vec<usize>,
    fails: Vec<u64>,
    sink: &mut MemSink,
) -> Status {
    let mut source = MemSource::new(bytes, pieces, fails);
    run_in_memory(alloc, words, &mut source, sink)
}

/// How a run ends, and whether it writes this. The input comes in these pieces, and the calls of these numbers fail.
fn run(
    alloc: Global,
    command: &str,
    input: &[u8],
    pieces: &[usize],
    reads: &[u64],
    writes: &[u64],
    output: &[u8],
) -> Result<(Status, bool), NoMemory> {
    let words = words_of(alloc, command)?;
    let input = Vec::from_slice(alloc, input)?;
    let pieces = Vec::from_slice(alloc, pieces)?;
    let reads = Vec::from_slice(alloc, reads)?;
    let mut sink = MemSink::new(alloc, Vec::from_slice(alloc, writes)?);
    let status = ending(alloc, &words, input, pieces, reads, &mut sink);
    Ok((status, sink.bytes() == output))
}

/// The same where the input comes as a whole and no call fails.
fn run_whole(
    alloc: Global,
    command: &str,
    input: &[u8],
    output: &[u8],
) -> Result<(Status, bool), NoMemory> {
    run(alloc, command, input, &[], &[], &[], output)
}

/// Whether a run over a text writes a text. Streams are UCS-2, and so is what `take` writes.
fn run_texts(
    alloc: Global,
    command: &str,
    input: &str,
    output: &str,
) -> Result<(Status, bool), NoMemory> {
    let input = meant(alloc, input, command != "replay")?;
    let output = meant(alloc, output, command == "take")?;
    run_whole(alloc, command, &input, &output)
}

fn status_word(status: Status) -> &'static str {
    match status {
        Status::Done => "Done",
        Status::Refused => "Refused",
        Status::Usage => "Usage",
        Status::ReadFault => "ReadFault",
        Status::WriteFault => "WriteFault",
        Status::NoMemory => "NoMemory",
    }
}

/// Whether a row says how its run ends and what it writes. A row has the word, how the run ends, the input and the output.
fn row_holds(alloc: Global, row: &str) -> Result<bool, NoMemory> {
    let Some((head, output)) = row.split_once(" =>") else {
        return Ok(false);
    };
    let Some((word, head)) = head.split_once(' ') else {
        return Ok(false);
    };
    let Some((wanted, input)) = head.split_once(' ') else {
        return Ok(false);
    };
    let output = output.strip_prefix(" ").unwrap_or(output);
    let (status, same) = run_texts(alloc, word, input, output)?;
    Ok(same && status_word(status) == wanted)
}

const RUNS: &str = "\
take Done @ => @
show Done @ => 0 heartbeat dev1 ncs1 -~
check Done @ => 1 messages, 129 units~
take Done  =>
take Done  ~ =>
show Done  =>
check Done  => 0 messages, 0 units~
check Done  ~ => 0 messages, 2 units~
show Done @~$<roDelete><roID>R1</roID></roDelete>^ $<extra a='1'/>^ => 0 heartbeat dev1 ncs1 -~130 roDelete dev1 ncs1 R1~240 extra dev1 ncs1 -~
show Done $<mosReqObj><objID>a\tb</objID></mosReqObj>^ => 0 mosReqObj dev1 ncs1 a b~
show Done $<roAck><roID/><roStatus>OK</roStatus></roAck>^ => 0 roAck dev1 ncs1 -~
show Done $<mosReqAll><pause>2</pause></mosReqAll>^ => 0 mosReqAll dev1 ncs1 -~
show Done %<mosReqAll><pause> 0 </pause></mosReqAll>^ => 0 mosReqAll dev1 ncs1 -~
show Done %<roItemCue><x/></roItemCue>^ => 0 roItemCue dev1 ncs1 -~
take Done %<roItemCue><x/></roItemCue>^ => %<roAck><roID></roID><roStatus>NOT SUPPORTED</roStatus></roAck>^
take Refused $<roCreate><roID>R</roID><roID> => REFUSED 91 Twice(roID)~
check Refused $<roCreate><roID>R</roID><roID> => REFUSED 91 Twice(roID)~
show Refused $<roCreate><roID>R</roID><roID> => REFUSED 91 Twice(roID)~
take Refused $<roCreate><roID>R</roID></roCreate> => REFUSED 91 Missing(roSlug)~
check Refused $<roCreate><roID>R</roID></roCreate> => REFUSED 91 Missing(roSlug)~
take Refused $<roElementAction><roID>R</roID> => REFUSED 67 Missing(operation)~
take Refused $<roElementAction> => REFUSED 67 Missing(operation)~
show Refused $<roElementAction> => REFUSED 67 Missing(operation)~
check Refused $<roElementAction> => REFUSED 67 Missing(operation)~
take Refused $<roCreate><roID>R</roID><roSlug>&#x110000; => REFUSED 99 Entity~
show Refused $<roCreate><roID>R</roID><roSlug>&#x110000; => REFUSED 99 Entity~
check Refused $<roCreate><roID>R</roID><roSlug>&#x110000; => REFUSED 99 Entity~
take Refused $<roCreate><roID>R</roID><roSlug>S</roSlug><story><storyID>A</storyID></story><story><storyID>A</storyID></story></roCreate>^ => REFUSED 160 Value(storyID)~
show Refused $<roCreate><roID>R</roID><roSlug>S</roSlug><story><storyID>A</storyID></story><story><storyID>A</storyID></story></roCreate>^ => REFUSED 160 Value(storyID)~
check Refused $<roCreate><roID>R</roID><roSlug>S</roSlug><story><storyID>A</storyID></story><story><storyID>A</storyID></story></roCreate>^ => REFUSED 160 Value(storyID)~
take Refused $<roCreate><roID>R</roID><roSlug/><story><storyID>A</storyID></story><story><storyID>A</storyID></story></roCreate>^ => REFUSED 151 Value(storyID)~
take Refused <mos><mosID>&#x110000; => REFUSED 12 Entity~
check Refused <mos><mosID>&#x110000; => REFUSED 12 Entity~
take Refused @$^ => @REFUSED 196 Tag~
show Refused @$^ => 0 heartbeat dev1 ncs1 -~REFUSED 196 Tag~
check Refused @$^ => REFUSED 196 Tag~
replay Done devices 1~ => server 1 down~device 1 upper - dial - idle~
replay Refused devices 1~open 1 => REFUSED line 2~";

#[test]
fn runs_end_and_write_as_they_should(rt: HostRuntime) -> Result<(), Fail> {
    let mut rows = 0u64;
    for row in RUNS.lines() {
        assert!(rt; row_holds(rt.alloc(), row)?, "{row}");
        rows = rows.saturating_add(1);
    }
    assert_eq!(rt; rows, 38);
    Ok(())
}

/// An element, behind the front of a message of its own, and the roID and the status of the roAck that `take` answers; in one
/// run up to an empty line.
const ANSWERS: &str = "\
<roCreate><roID>R1</roID><roSlug>News</roSlug><story><storyID>A</storyID><item><itemID>1</itemID><objID>O1</objID><mosID>dev1</mosID></item></story></roCreate> => R1 OK
 <roCreate a='1'> <roID>R&amp;D</roID> <extra/> <roSlug/> </roCreate > => R&amp;D OK
<roReplace><roID>R1</roID><roSlug>News</roSlug></roReplace> => R1 OK
<roDelete><roID>R&#68;</roID></roDelete> => RD OK

<roReadyToAir><roID>R1</roID><roAir>READY</roAir></roReadyToAir> => R1 NOT IN STEP
<roReadyToAir><roID>R1</roID><roAir>NOT READY</roAir></roReadyToAir> => R1 OK
<roReadyToAir><roID>R1</roID><roAir>READY</roAir></roReadyToAir> => R1 NOT IN STEP
<roCreate><roID>R1</roID><roSlug>News</roSlug></roCreate> => R1 OK
<roReadyToAir><roID>R1</roID><roAir>READY</roAir></roReadyToAir> => R1 OK
<roReadyToAir><roID>R1</roID><roAir>NOT READY</roAir></roReadyToAir> => R1 OK
<roDelete><roID>R1</roID></roDelete> => R1 OK
<roReadyToAir><roID>R1</roID><roAir>READY</roAir></roReadyToAir> => R1 MISSING R1
<roReq><roID>R1</roID></roReq> => R1 NOT SUPPORTED
<roReqAll/> =>  NOT SUPPORTED
<extra/> =>  NOT SUPPORTED

<roCreate><roID>r</roID><roSlug>r</roSlug><story><storyID>A</storyID></story><story><storyID>B</storyID></story><story><storyID>C</storyID></story></roCreate> => r OK
<roElementAction operation='MOVE'><roID>r</roID><element_target><storyID>A</storyID></element_target><element_source><storyID>C</storyID></element_source></roElementAction> => r OK
<roElementAction operation='SWAP'><roID>r</roID><element_source><storyID>A</storyID><storyID>A</storyID></element_source></roElementAction> => r OK
<roElementAction operation='DELETE'><roID>r</roID><element_source><storyID>B</storyID></element_source></roElementAction> => r OK
<roElementAction operation='MOVE'><roID>r</roID><element_target><storyID>A</storyID></element_target><element_source><storyID>A</storyID></element_source></roElementAction> => r MISSING A
<roElementAction operation='DELETE'><roID>r</roID><element_source><storyID>A</storyID></element_source></roElementAction> => r NOT IN STEP

<roCreate><roID>r</roID><roSlug>r</roSlug><story><storyID>A</storyID></story><story><storyID>B</storyID></story><story><storyID>C</storyID></story></roCreate> => r OK
<roElementAction operation='INSERT'><roID>r</roID><element_target><storyID/></element_target><element_source><story><storyID>D</storyID></story></element_source></roElementAction> => r OK
<roElementAction operation='INSERT'><roID>r</roID><element_target><storyID>A</storyID><itemID/></element_target><element_source><item><itemID>x</itemID><objID>x</objID><mosID>m1</mosID></item><item><itemID>y</itemID><objID>y</objID><mosID>m1</mosID></item></element_source></roElementAction> => r OK
<roElementAction operation='MOVE'><roID>r</roID><element_target><storyID>A</storyID><itemID>x</itemID></element_target><element_source><itemID>y</itemID></element_source></roElementAction> => r OK
<roElementAction operation='SWAP'><roID>r</roID><element_target><storyID>A</storyID></element_target><element_source><itemID>x</itemID><itemID>z</itemID></element_source></roElementAction> => r MISSING z

<roCreate><roID>r</roID><roSlug>r</roSlug><story><storyID>A</storyID></story><story><storyID>B</storyID></story><story><storyID>C</storyID></story></roCreate> => r OK
<roElementAction operation='INSERT'><roID>r</roID><element_target><storyID>A</storyID></element_target><element_source><story><storyID>C</storyID></story></element_source></roElementAction> => r ALREADY THERE C";

/// Appends the message of an element, and the message of its roAck.
fn push_row(row: &str, input: &mut String, output: &mut String) -> Result<(), NoMemory> {
    let Some((element, answer)) = row.split_once(" => ") else {
        return Ok(());
    };
    let Some((ro, status)) = answer.split_once(' ') else {
        return Ok(());
    };
    for part in [FRONT, element, "</mos>"] {
        input.push_str(part)?;
    }
    for part in [
        FRONT,
        "<roAck><roID>",
        ro,
        "</roID><roStatus>",
        status,
        "</roStatus></roAck></mos>",
    ] {
        output.push_str(part)?;
    }
    Ok(())
}

/// Whether `take` answers the messages of these rows so.
fn takes(alloc: Global, rows: &str) -> Result<bool, NoMemory> {
    let mut input = String::new(alloc);
    let mut output = String::new(alloc);
    for row in rows.lines() {
        push_row(row, &mut input, &mut output)?;
    }
    let (status, same) = run_texts(alloc, "take", input.as_str(), output.as_str())?;
    Ok(same && status == Status::Done && !input.is_empty())
}

#[test]
fn elements_are_answered(rt: HostRuntime) -> Result<(), Fail> {
    let mut runs = 0u64;
    for rows in ANSWERS.split("\n\n") {
        assert!(rt; takes(rt.alloc(), rows)?, "{rows}");
        runs = runs.saturating_add(1);
    }
    assert_eq!(rt; runs, 5);
    Ok(())
}

#[test]
fn bytes_one_by_one_are_the_same_message(rt: HostRuntime) -> Result<(), Fail> {
    let alloc = rt.alloc();
    let bytes = meant(alloc, "@", true)?;
    assert_eq!(rt; bytes.len(), 258);
    assert!(rt; bytes.starts_with(&[0x00u8, 0x3C, 0x00, 0x6D, 0x00, 0x6F, 0x00, 0x73, 0x00, 0x3E]));
    let ones = [1usize; 300];
    let done = (Status::Done, true);
    assert_eq!(rt; run(alloc, "take", &bytes, &ones, &[], &[], &bytes)?, done);
    let line = b"0 heartbeat dev1 ncs1 -\n";
    assert_eq!(rt; run(alloc, "show", &bytes, &ones, &[], &[], line)?, done);
    Ok(())
}

#[test]
fn other_words_are_no_command(rt: HostRuntime) -> Result<(), Fail> {
    for words in ",make,make x,make 200001,make 0000001,take take,replay 1".split(',') {
        assert_eq!(rt;
            run_whole(rt.alloc(), words, &[], &[])?,
            (Status::Usage, true),
            "{words}"
        );
    }
    Ok(())
}

#[test]
fn no_words_are_no_command(rt: HostRuntime) -> Result<(), Fail> {
    let alloc = rt.alloc();
    let input = Vec::from_slice(alloc, b"devices 1\n")?;
    let mut sink = MemSink::new(alloc, Vec::new(alloc));
    let status = ending(
        alloc,
        &[],
        input,
        Vec::new(alloc),
        Vec::new(alloc),
        &mut sink,
    );
    assert_eq!(rt; status, Status::Usage);
    assert!(rt; sink.bytes().is_empty());
    Ok(())
}

#[test]
fn scripts_are_made(rt: HostRuntime) -> Result<(), Fail> {
    let wanted = b"events 0
accepted 0
refused 0
impossible 0
server 1 down
device 1 upper - dial - idle
server 2 down
device 2 upper - dial - idle
";
    assert_eq!(rt;
        run_whole(rt.alloc(), "make 0", &[], wanted)?,
        (Status::Done, true)
    );
    Ok(())
}

/// What is printed for one word that asks about the program; nothing for another one.
fn about_word(rt: &HostRuntime, word: &str) -> Result<&'static str, Fail> {
    let words = [String::from_str(rt.alloc(), word)?];
    Ok(about(&words).unwrap_or(""))
}

#[test]
fn the_program_tells_of_itself(rt: HostRuntime) -> Result<(), Fail> {
    let help = about_word(&rt, "--help")?;
    assert!(rt; help.contains(USAGE));
    for word in "take show check replay make".split(' ') {
        let line = format!(in rt.alloc(); "\n  {word} ")?;
        assert!(rt; help.contains(line.as_str()));
    }
    for status in 0..6u8 {
        let line = format!(in rt.alloc(); "\n  {status}  ")?;
        assert!(rt; help.contains(line.as_str()));
    }
    let version = "mos_replay 0.1.0, MOS Protocol 2.8.5\n";
    assert_eq!(rt; about_word(&rt, "--version")?, version);
    assert_eq!(rt; about_word(&rt, "take")?, "");
    assert_eq!(rt; about_word(&rt, "--Help")?, "");
    assert!(rt; about(&[]).is_none());
    Ok(())
}

/// How `take` ends of a roDelete of an order whose roID has so many characters, and whether it writes this line.
fn delete(alloc: Global, count: usize, line: &str) -> Result<(Status, bool), NoMemory> {
    let mut text = String::from_str(alloc, "$<roDelete><roID>")?;
    for _ in 0..count {
        text.push('R')?;
    }
    text.push_str("</roID></roDelete>^")?;
    run_texts(alloc, "take", text.as_str(), line)
}

#[test]
fn an_order_id_has_128_characters_at_most(rt: HostRuntime) -> Result<(), Fail> {
    let (longest, _) = delete(rt.alloc(), 128, "")?;
    assert_eq!(rt; longest, Status::Done);
    let longer = delete(rt.alloc(), 129, "REFUSED 83 Value(roID)~")?;
    assert_eq!(rt; longer, (Status::Refused, true));
    Ok(())
}

#[test]
fn a_high_unit_alone_is_rejected_where_it_stands(rt: HostRuntime) -> Result<(), Fail> {
    let alloc = rt.alloc();
    let units = [0x00u8, 0x3C, 0xD8, 0x00, 0x00, 0x41];
    let line = meant(alloc, "REFUSED 1 BadUnit~", true)?;
    let refused = (Status::Refused, true);
    assert_eq!(rt; run_whole(alloc, "take", &units, &line)?, refused);
    assert_eq!(rt;
        run_whole(alloc, "check", &units, b"REFUSED 1 BadUnit\n")?,
        refused
    );
    Ok(())
}

/// So many of the bytes, or all of them.
fn beginning(bytes: &[u8], count: usize) -> &[u8] {
    &bytes[..count.min(bytes.len())]
}

/// Whether a message that is cut before this code unit, and inside it, is refused there; before the first there is none.
fn is_refused_at(
    alloc: Global,
    command: &str,
    message: &[u8],
    count: usize,
) -> Result<bool, NoMemory> {
    let line = format!(in alloc; "REFUSED {count} End\n")?;
    let line = bytes_of(alloc, line.as_str(), command == "take")?;
    let even = count.wrapping_mul(2);
    let odd = beginning(message, even.wrapping_add(1));
    let refused = run(alloc, command, odd, &[7], &[], &[], &line)?;
    if count == 0 {
        return Ok(refused == (Status::Refused, true));
    }
    let whole = run_whole(alloc, command, beginning(message, even), &line)?;
    Ok(refused == (Status::Refused, true) && whole == refused)
}

#[test]
fn a_message_that_is_cut_is_refused_at_its_end(rt: HostRuntime) -> Result<(), Fail> {
    let message = meant(rt.alloc(), "@", true)?;
    for count in 0..129usize {
        assert!(rt;
            is_refused_at(rt.alloc(), "take", &message, count)?,
            "{count}"
        );
        assert!(rt;
            is_refused_at(rt.alloc(), "check", &message, count)?,
            "{count}"
        );
    }
    Ok(())
}

#[test]
fn a_byte_behind_the_last_message_is_no_end(rt: HostRuntime) -> Result<(), Fail> {
    let alloc = rt.alloc();
    let mut bytes = meant(alloc, "@", true)?;
    bytes.push(0)?;
    let answers = meant(alloc, "@REFUSED 129 End~", true)?;
    let refused = (Status::Refused, true);
    assert_eq!(rt; run_whole(alloc, "take", &bytes, &answers)?, refused);
    let lines = meant(alloc, "0 heartbeat dev1 ncs1 -~REFUSED 129 End~", false)?;
    assert_eq!(rt; run_whole(alloc, "show", &bytes, &lines)?, refused);
    Ok(())
}

/// How a run over so many spaces ends, and whether it writes this.
fn spaces(
    alloc: Global,
    command: &str,
    count: usize,
    line: &str,
) -> Result<(Status, bool), NoMemory> {
    let mut bytes = Vec::new(alloc);
    for _ in 0..count {
        bytes.push(0)?;
        bytes.push(b' ')?;
    }
    let line = meant(alloc, line, command == "take")?;
    run_whole(alloc, command, &bytes, &line)
}

#[test]
fn white_space_counts_for_the_length_of_a_message(rt: HostRuntime) -> Result<(), Fail> {
    let most = spaces(rt.alloc(), "check", 8_388_608, "0 messages, 8388608 units~")?;
    assert_eq!(rt; most, (Status::Done, true));
    let more = spaces(rt.alloc(), "check", 8_388_609, "REFUSED 8388608 TooLong~")?;
    assert_eq!(rt; more, (Status::Refused, true));
    Ok(())
}

#[test]
fn white_space_alone_is_answered_by_nothing(rt: HostRuntime) -> Result<(), Fail> {
    let most = spaces(rt.alloc(), "take", 8_388_608, "")?;
    assert_eq!(rt; most, (Status::Done, true));
    let more = spaces(rt.alloc(), "take", 8_388_609, "REFUSED 8388608 TooLong~")?;
    assert_eq!(rt; more, (Status::Refused, true));
    Ok(())
}

/// How a run over two heartbeats ends, and whether it writes this, where the calls of these numbers fail.
fn failing(
    alloc: Global,
    command: &str,
    reads: &[u64],
    writes: &[u64],
    output: &str,
) -> Result<(Status, bool), NoMemory> {
    let input = meant(alloc, "@@", true)?;
    let output = meant(alloc, output, command == "take")?;
    run(alloc, command, &input, &[300], reads, writes, &output)
}

#[test]
fn a_call_that_fails_ends_the_run(rt: HostRuntime) -> Result<(), Fail> {
    let alloc = rt.alloc();
    let unread = (Status::ReadFault, true);
    assert_eq!(rt; failing(alloc, "take", &[0], &[], "")?, unread);
    assert_eq!(rt; failing(alloc, "take", &[1], &[], "@")?, unread);
    assert_eq!(rt;
        failing(alloc, "show", &[1], &[], "0 heartbeat dev1 ncs1 -~")?,
        unread
    );
    let unwritten = (Status::WriteFault, true);
    assert_eq!(rt; failing(alloc, "take", &[], &[1], "@")?, unwritten);
    assert_eq!(rt;
        failing(alloc, "show", &[], &[1], "0 heartbeat dev1 ncs1 -~")?,
        unwritten
    );
    let lines = "0 heartbeat dev1 ncs1 -~129 heartbeat dev1 ncs1 -~";
    assert_eq!(rt;
        failing(alloc, "show", &[], &[], lines)?,
        (Status::Done, true)
    );
    Ok(())
}
