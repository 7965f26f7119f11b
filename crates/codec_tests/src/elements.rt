//! Texts of messages, and their events.
use crate::units::units_of;
use mos_events::{Event, Events, KnownAttribute};
use mos_fields::{Field, NoMemory, Text, let_go};
use mos_lexer::Kind;
use mos_reader::{Found, ReadFault, Reader};
use std::alloc::Global;
use std::test::Fail;

fn push_text(alloc: Global, out: &mut String, text: &Text) -> Result<(), NoMemory> {
    let mut chars = Vec::new(alloc);
    text.push_to(&mut chars)?;
    for &c in &chars {
        out.push(c)?;
    }
    Ok(())
}

fn value_of(attribute: KnownAttribute) -> &'static str {
    match attribute {
        KnownAttribute::Ncs => "NCS",
        KnownAttribute::Mos => "MOS",
        KnownAttribute::Number(_) => "number",
        KnownAttribute::Element(level) => level.word(),
        KnownAttribute::Operation(operation) => operation.word(),
    }
}

fn push_attribute(out: &mut String, attribute: Option<KnownAttribute>) -> Result<(), NoMemory> {
    match attribute {
        None => Ok(()),
        Some(attribute) => {
            out.push_str(" ")?;
            out.push_str(value_of(attribute))
        }
    }
}

fn push_event(alloc: Global, out: &mut String, event: &Event) -> Result<(), NoMemory> {
    match event {
        Event::Leaf {
            name,
            attribute,
            text,
        } => {
            out.push_str(name.name())?;
            push_attribute(out, *attribute)?;
            out.push_str("=")?;
            push_text(alloc, out, text)?;
            out.push_str(";")
        }
        Event::Raw { field, text } => {
            out.push_str(field.name())?;
            out.push_str("~")?;
            push_text(alloc, out, text)?;
            out.push_str(";")
        }
        Event::Opens { name, attribute } => {
            out.push_str("<")?;
            out.push_str(name.name())?;
            push_attribute(out, *attribute)?;
            out.push_str(">")
        }
        Event::Closes { name } => {
            out.push_str("</")?;
            out.push_str(name.name())?;
            out.push_str(">")
        }
    }
}

fn push_each(alloc: Global, out: &mut String, events: &[Event]) -> Result<(), NoMemory> {
    for event in events {
        push_event(alloc, out, event)?;
    }
    Ok(())
}

fn push_events(alloc: Global, out: &mut String, events: Events) -> Result<(), NoMemory> {
    let events = events.into_vec();
    let pushed = push_each(alloc, out, &events);
    let_go(events);
    pushed
}

fn push_fault(out: &mut String, kind: &str, field: Field) -> Result<(), NoMemory> {
    out.push_str(kind)?;
    out.push_str(field.name())
}

fn push_rejection(out: &mut String, kind: Kind) -> Result<(), NoMemory> {
    match kind {
        Kind::Twice(field) => push_fault(out, "!twice ", field),
        Kind::Order(field) => push_fault(out, "!order ", field),
        Kind::Missing(field) => push_fault(out, "!missing ", field),
        Kind::Value(field) => push_fault(out, "!value ", field),
        Kind::Tag => out.push_str("!tag"),
        _ => out.push_str("!another"),
    }
}

/// Appends an answer: whether more may come.
fn push_answer(
    alloc: Global,
    out: &mut String,
    answer: Result<Option<Found>, ReadFault>,
) -> Result<bool, NoMemory> {
    match answer {
        Ok(None) => Ok(false),
        Ok(Some(found)) => {
            push_events(alloc, out, found.value)?;
            Ok(true)
        }
        Err(ReadFault::Rejected(_, kind)) => {
            push_rejection(out, kind)?;
            Ok(false)
        }
        Err(ReadFault::NoMemory) => Err(NoMemory),
    }
}

/// Feeds code units, and appends two answers.
fn feed(
    alloc: Global,
    reader: &mut Reader,
    units: &[u16],
    out: &mut String,
) -> Result<(), NoMemory> {
    if reader.place() < 1_000_000 && units.len() < 1_000_000 {
        reader.feed(units)?;
    }
    for _ in 0..2 {
        if !push_answer(alloc, out, reader.next())? {
            break;
        }
    }
    Ok(())
}

/// The events of the first two messages of a text, and what is wrong with it.
fn events_of(alloc: Global, text: &str) -> Result<String, NoMemory> {
    let units = units_of(alloc, text)?;
    let mut reader = Reader::new(alloc);
    let mut out = String::new(alloc);
    let fed = feed(alloc, &mut reader, &units, &mut out);
    let_go(reader);
    fed?;
    Ok(out)
}

/// What stands behind the names of a message, and its events.
const ELEMENTS: &str = "\
<messageID></messageID><heartbeat><time> 2024-02-29T10:00:00,250Z\t</time></heartbeat></mos><mos/> = messageID=;<heartbeat>time=2024-02-29T10:00:00,250Z;</heartbeat></mos>!missing mosID
<roCreate><roID>R</roID><unknown>a</unknown><roSlug/><mosExternalMetadata>b</mosExternalMetadata><story><storyID>S1</storyID><item><itemID>I</itemID><objID>O</objID><mosID>deck</mosID><itemEdStart> 0010 </itemEdStart><itemEdDur> </itemEdDur></item></story><late/><story><storyID>S2</storyID></story></roCreate></mos> = <roCreate>roID=R;roSlug=;mosExternalMetadata~<mosExternalMetadata>b</mosExternalMetadata>;~<unknown>a</unknown>;~<late/>;<story>storyID=S1;<item>itemID=I;objID=O;mosID=deck;itemEdStart=10;</item></story><story>storyID=S2;</story></roCreate></mos>
<roAck><roID/><roStatus>NACK</roStatus><storyID/><itemID/><objID/><status>1</status><storyID/><itemID/><objID/><itemChannel/><status/></roAck></mos> = <roAck>roID=;roStatus=NACK;storyID=;itemID=;objID=;status=1;storyID=;itemID=;objID=;itemChannel=;status=;</roAck></mos>
<roElementAction operation=' MOVE '><roID>R</roID><element_target><storyID>S</storyID><itemID>I</itemID></element_target><element_source><itemID>J</itemID></element_source></roElementAction></mos> = <roElementAction MOVE>roID=R;<element_target>storyID=S;itemID=I;</element_target><element_source>itemID=J;</element_source></roElementAction></mos>";

/// What stands behind the names of a message, and what is wrong with it.
const FAULTS: &str = "\
<ncsID> = !twice ncsID
</mos> = !tag
 x< = !tag
<heartbeat><time>noon</time> = !value time
<roElementStat> = !missing element
<roElementStat element='DISK'> = !value element
<roReplace><roID>R</roID><roSlug/><roEdStart/><roChannel/> = !order roChannel
<roReplace><roID>R</roID><roSlug/><roEdStart/><roSlug/> = !twice roSlug
<roList><roID>R</roID><roSlug/><story><storyID>S</storyID></story><story><storyID>S</storyID> = !value storyID";

#[test]
fn events_are_arranged_by_columns(rt: HostRuntime) -> Result<(), Fail> {
    let alloc = rt.alloc();
    let mut rows = 0u64;
    for row in ELEMENTS.lines() {
        if let Some((elements, events)) = row.split_once(" = ") {
            let text = format!(in alloc; "<mos><mosID>deck</mosID><ncsID>news</ncsID>{elements}")?;
            let wanted = format!(in alloc; "<mos>mosID=deck;ncsID=news;{events}")?;
            let found = events_of(alloc, text.as_str())?;
            assert_eq!(rt; found.as_str(), wanted.as_str());
            rows = rows.saturating_add(1);
        }
    }
    assert_eq!(rt; rows, 4);
    Ok(())
}

#[test]
fn each_fault_is_shown(rt: HostRuntime) -> Result<(), Fail> {
    let alloc = rt.alloc();
    assert_eq!(rt;
        events_of(alloc, "<mos><ncsID/>")?.as_str(),
        "!missing mosID"
    );
    let mut rows = 0u64;
    for row in FAULTS.lines() {
        if let Some((elements, fault)) = row.split_once(" = ") {
            let text = format!(in alloc; "<mos><mosID>deck</mosID><ncsID>news</ncsID>{elements}")?;
            let found = events_of(alloc, text.as_str())?;
            assert_eq!(rt; found.as_str(), fault, "{elements}");
            rows = rows.saturating_add(1);
        }
    }
    assert_eq!(rt; rows, 9);
    Ok(())
}
