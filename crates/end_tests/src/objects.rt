//! Streams of objects, and streams that are none.

use mos_fields::{Field, NoMemory, let_go};
use mos_io::{Capped, MemSource};
use mos_lexer::Kind;
use mos_values::MosObj;
use object_reading::{ObjectsFault, read_objects};
use object_table::ObjectTable;
use std::alloc::Global;
use std::test::Fail;

// Appends an object's objID, and its objSlug behind a `=` where it has one, and a semicolon.
fn push_object(notes: &mut Vec<char>, object: &MosObj) -> Result<(), NoMemory> {
    object.id.push_to(notes)?;
    if let Some(slug) = &object.slug {
        notes.push('=')?;
        slug.push_to(notes)?;
    }
    notes.push(';')?;
    Ok(())
}

// The objects of a table, in order.
fn objects_of(alloc: Global, table: &ObjectTable) -> Result<String, NoMemory> {
    let mut notes = Vec::new(alloc);
    for i in 0..table.len() {
        if let Some(object) = table.at(i) {
            push_object(&mut notes, object)?;
        }
    }
    Ok(notes.iter().collect::<String>(alloc)?)
}

// At most so many bytes are read.
const MOST: u64 = 1_073_741_824;

// What reading a source gives: the objects, or nothing and why.
fn read(alloc: Global, source: MemSource) -> Result<(String, Option<ObjectsFault>), Fail> {
    let mut source = Capped::new(source, MOST);
    match read_objects(alloc, &mut source) {
        Ok(table) => {
            let objects = objects_of(alloc, &table);
            let_go(table);
            Ok((objects?, None))
        }
        Err(fault) => Ok((String::new(alloc), Some(fault))),
    }
}

// The bytes of an ASCII text in UCS-2, high byte first.
fn ucs2(alloc: Global, text: &str) -> Result<Vec<u8>, NoMemory> {
    let mut bytes = Vec::new(alloc);
    for byte in text.as_bytes() {
        bytes.push(0)?;
        bytes.push(*byte)?;
    }
    Ok(bytes)
}

// What is read of bytes that come in these pieces, from a source whose calls of these numbers fail.
fn read_bytes(
    alloc: Global,
    bytes: Vec<u8>,
    pieces: &[usize],
    fails: &[u64],
) -> Result<(String, Option<ObjectsFault>), Fail> {
    let pieces = Vec::from_slice(alloc, pieces)?;
    let fails = Vec::from_slice(alloc, fails)?;
    read(alloc, MemSource::new(bytes, pieces, fails))
}

// The objects that are read of a text, in one piece.
fn objects(alloc: Global, text: &str) -> Result<String, Fail> {
    let (objects, fault) = read_bytes(alloc, ucs2(alloc, text)?, &[], &[])?;
    match fault {
        None => Ok(objects),
        Some(_) => Ok(String::from_str(alloc, "refused")?),
    }
}

// Why a text isn't read.
fn fault_of(alloc: Global, text: &str) -> Result<Option<ObjectsFault>, Fail> {
    let (_, fault) = read_bytes(alloc, ucs2(alloc, text)?, &[], &[])?;
    Ok(fault)
}

// A message mosObj in the envelope of these names, with this objID and this inside behind it.
fn object(alloc: Global, mos: &str, id: &str, inside: &str) -> Result<String, NoMemory> {
    format!(in alloc;
        "<mos><mosID>{mos}</mosID><ncsID>ncs1</ncsID><mosObj><objID>{id}</objID>{inside}</mosObj></mos>"
    )
}

// Messages mosObj, one after another: on each line the mosID, the objID and what stands behind that.
fn stream(alloc: Global, lines: &str) -> Result<String, NoMemory> {
    let mut text = String::new(alloc);
    for line in lines.lines() {
        let mut words = line.split(' ');
        let mos = words.next().unwrap_or("");
        let id = words.next().unwrap_or("");
        let inside = words.next().unwrap_or("");
        text.push_str(object(alloc, mos, id, inside)?.as_str())?;
    }
    Ok(text)
}

const HEARTBEAT: &str =
    "<mos><mosID>dev1</mosID><ncsID>ncs1</ncsID><messageID>7</messageID><heartbeat><time>2009-04-11T14:22:07Z</time></heartbeat></mos>";

// An object without objID.
const LACKING: &str = "<mos><mosID>dev1</mosID><ncsID>ncs1</ncsID><mosObj></mosObj></mos>";

const TWO: &str = "dev1 O1\ndev1 O2";

#[test]
fn an_empty_stream_gives_an_empty_table(rt: HostRuntime) -> Result<(), Fail> {
    let alloc = rt.alloc();
    assert_eq!(rt;
        read_bytes(alloc, Vec::new(alloc), &[], &[])?,
        (String::new(alloc), None)
    );
    assert_eq!(rt; objects(alloc, " \r\n\t")?.as_str(), "");
    Ok(())
}

#[test]
fn the_last_object_of_an_id_stays(rt: HostRuntime) -> Result<(), Fail> {
    let alloc = rt.alloc();
    let text = stream(
        alloc,
        "dev1 O1 <objSlug>a</objSlug>\ndev1 O2\ndev2 O1 <objSlug>b</objSlug>",
    )?;
    assert_eq!(rt; objects(alloc, text.as_str())?.as_str(), "O1=b;O2;");
    Ok(())
}

#[test]
fn a_deleted_object_goes(rt: HostRuntime) -> Result<(), Fail> {
    let alloc = rt.alloc();
    let text = stream(
        alloc,
        "dev1 O1\ndev1 O2\ndev1 O1 <status>DELETED</status>\ndev1 O3 <status>DELETED</status>\ndev1 O4 <status>NEW</status>",
    )?;
    assert_eq!(rt; objects(alloc, text.as_str())?.as_str(), "O2;O4;");
    Ok(())
}

#[test]
fn each_message_is_an_object(rt: HostRuntime) -> Result<(), Fail> {
    let alloc = rt.alloc();
    assert_eq!(rt;
        fault_of(alloc, HEARTBEAT)?,
        Some(ObjectsFault::NotObject { number: 0 })
    );
    let mut text = stream(alloc, TWO)?;
    text.push_str(HEARTBEAT)?;
    text.push_str(LACKING)?;
    assert_eq!(rt;
        fault_of(alloc, text.as_str())?,
        Some(ObjectsFault::NotObject { number: 2 })
    );
    Ok(())
}

#[test]
fn a_stream_is_rejected_at_its_place(rt: HostRuntime) -> Result<(), Fail> {
    let alloc = rt.alloc();
    let mut text = stream(alloc, "dev1 O1")?;
    text.push_str(LACKING)?;
    text.push_str(HEARTBEAT)?;
    let kind = Kind::Missing(Field::ObjID);
    assert_eq!(rt;
        fault_of(alloc, text.as_str())?,
        Some(ObjectsFault::Refused { place: 134, kind })
    );
    Ok(())
}

#[test]
fn a_stream_that_is_cut_ends_inside_a_message(rt: HostRuntime) -> Result<(), Fail> {
    let alloc = rt.alloc();
    let mut bytes = ucs2(alloc, stream(alloc, TWO)?.as_str())?;
    let place = 165;
    let wanted = Some(ObjectsFault::Refused {
        place,
        kind: Kind::End,
    });
    for _ in 0..2u8 {
        bytes.pop();
        let (_, fault) = read_bytes(alloc, bytes.clone()?, &[], &[])?;
        assert_eq!(rt; fault, wanted);
    }
    Ok(())
}

#[test]
fn pieces_make_no_difference(rt: HostRuntime) -> Result<(), Fail> {
    let alloc = rt.alloc();
    let bytes = ucs2(alloc, stream(alloc, TWO)?.as_str())?;
    for piece in 1..9usize {
        let mut pieces = Vec::new(alloc);
        for _ in 0..400u32 {
            pieces.push(piece)?;
        }
        let (objects, fault) = read_bytes(alloc, bytes.clone()?, &pieces, &[])?;
        assert_eq!(rt; fault, None);
        assert_eq!(rt; objects.as_str(), "O1;O2;");
    }
    Ok(())
}

#[test]
fn a_source_that_fails_is_told(rt: HostRuntime) -> Result<(), Fail> {
    let alloc = rt.alloc();
    let bytes = ucs2(alloc, stream(alloc, TWO)?.as_str())?;
    for call in 0..3u64 {
        let (_, fault) = read_bytes(alloc, bytes.clone()?, &[100, 100], &[call])?;
        assert_eq!(rt; fault, Some(ObjectsFault::ReadFault));
    }
    Ok(())
}

#[test]
fn what_comes_first_is_told(rt: HostRuntime) -> Result<(), Fail> {
    let alloc = rt.alloc();
    let bytes = ucs2(alloc, HEARTBEAT)?;
    let (_, fault) = read_bytes(alloc, bytes.clone()?, &[258], &[1])?;
    assert_eq!(rt; fault, Some(ObjectsFault::NotObject { number: 0 }));
    let (_, fault) = read_bytes(alloc, bytes, &[257], &[1])?;
    assert_eq!(rt; fault, Some(ObjectsFault::ReadFault));
    Ok(())
}

// Two objects, of which the second has a group of so many quotation marks, and then a message that is no object. A mark is one
// code unit here and six in the canonical encoding.
fn large(alloc: Global, marks: usize) -> Result<Vec<u8>, NoMemory> {
    let mut text = object(alloc, "dev1", "A", "")?;
    text.push_str("<mos><mosID>dev1</mosID><ncsID>ncs1</ncsID><mosObj><objID>B</objID><objGroup>")?;
    for _ in 0..marks {
        text.push('"')?;
    }
    text.push_str("</objGroup></mosObj></mos>")?;
    text.push_str(HEARTBEAT)?;
    ucs2(alloc, text.as_str())
}

#[test]
fn a_table_is_full_past_eight_million_units(rt: HostRuntime) -> Result<(), Fail> {
    let alloc = rt.alloc();
    let (_, fault) = read_bytes(alloc, large(alloc, 1_333_315)?, &[], &[])?;
    let units = 8_000_002;
    assert_eq!(rt; fault, Some(ObjectsFault::Full { number: 1, units }));
    let (_, fault) = read_bytes(alloc, large(alloc, 1_333_314)?, &[], &[])?;
    assert_eq!(rt; fault, Some(ObjectsFault::NotObject { number: 2 }));
    Ok(())
}
