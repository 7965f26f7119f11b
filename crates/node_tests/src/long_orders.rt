//! An order of 40 stories with 120 items in all, each with 2,000 characters that both ends pass on as they were written.
use crate::plays::{World, is_answered, new_world};
use mos_fields::{NoMemory, let_go};
use std::alloc::Global;
use std::test::Fail;

// So many letters, with a line feed in each 64.
fn push_letters(out: &mut String, count: u32) -> Result<(), NoMemory> {
    for place in 0..count {
        out.push(if place % 64 == 63 { '\n' } else { 'x' })?;
    }
    Ok(())
}

// The metadata of the item of this number of three digits: 2,000 characters.
fn metadata(alloc: Global, number: u32) -> Result<String, NoMemory> {
    let mut text = String::new(alloc);
    text.push_str("<mosExternalMetadata><!-- a -->1 &amp; 2<![CDATA[</b>]]>\n")?;
    push_letters(&mut text, 1_918)?;
    text.push_str(format!(in alloc; "{number}</mosExternalMetadata>")?.as_str())?;
    Ok(text)
}

fn push_item(alloc: Global, out: &mut String, number: u32) -> Result<(), NoMemory> {
    let metadata = metadata(alloc, number)?;
    let item = format!(in alloc;
        "<item><itemID>{number}</itemID><objID>O1</objID><mosID>dev1</mosID>{metadata}</item>"
    )?;
    out.push_str(item.as_str())
}

// A story of three items, with the numbers from this on.
fn push_story(alloc: Global, out: &mut String, number: u32) -> Result<(), NoMemory> {
    out.push_str(format!(in alloc; "<story><storyID>S{number}</storyID>")?.as_str())?;
    for item in 0..3u32 {
        push_item(alloc, out, number.saturating_add(item))?;
    }
    out.push_str("</story>")
}

// What a roCreate and a roList of the order have inside.
fn body(alloc: Global) -> Result<String, NoMemory> {
    let mut out = String::from_str(alloc, "<roID>R1</roID><roSlug>Long</roSlug>")?;
    for story in 0..40u32 {
        let number = story.saturating_mul(3).saturating_add(100);
        push_story(alloc, &mut out, number)?;
    }
    Ok(out)
}

// A text with the body in the place of its `%`.
fn with_body(alloc: Global, text: &str, body: &str) -> Result<String, NoMemory> {
    match text.split_once("%") {
        Some((front, back)) => format!(in alloc; "{front}{body}{back}"),
        None => String::from_str(alloc, text),
    }
}

/// An editor creates the order. The first gateway is sent it, and the second asks for it: what both hold, and what an editor reads,
/// is what was written.
const ROWS: &str = r#"s0u1 dial = *
a-u1 accept = done
a-u1 hear ^ = *
s0u1 back ^ = taken
s-e0 hear <roCreate>%</roCreate> = @R1 OK
s0u1 next = <roCreate>%</roCreate>
a-u1 hear ^ = @R1 OK
s0u1 back ^ = taken
a-u1 holds = <roList>%</roList>
s-e0 hear <roReq><roID>R1</roID></roReq> = <roList>%</roList>
s1u2 dial = *
b-u2 accept = done
b-u2 hear ^ = *
s1u2 back ^ = taken
b-u3 dial = done
s1u3 accept = done
b-u3 next = <roReqAll></roReqAll>
s1u3 hear ^ = <roListAll><ro><roID>R1</roID><roSlug>Long</roSlug></ro></roListAll>
b-u3 back ^ = taken
b-u3 next = <roReq><roID>R1</roID></roReq>
s1u3 hear ^ = <roList>%</roList>
b-u3 back ^ = taken
b-u2 holds = <roList>%</roList>
b-u2 decks = ;"#;

// Whether a row is answered so.
fn is_so(alloc: Global, world: &mut World, row: &str, body: &str) -> Result<bool, Fail> {
    let (play, wanted) = row.split_once(" = ").ok_or("no row")?;
    let play = with_body(alloc, play, body)?;
    let wanted = with_body(alloc, wanted, body)?;
    is_answered(alloc, world, play.as_str(), wanted.as_str())
}

// The number of the first row that is answered otherwise, from 1; 0 where none is.
fn first_other(alloc: Global, world: &mut World, body: &str) -> Result<u64, Fail> {
    let mut number: u64 = 0;
    for row in ROWS.lines() {
        number = number.saturating_add(1);
        if !is_so(alloc, world, row, body)? {
            return Ok(number);
        }
    }
    Ok(0)
}

fn played(alloc: Global, body: &str) -> Result<u64, Fail> {
    let mut world = new_world(alloc)?;
    let other = first_other(alloc, &mut world, body);
    let_go(world);
    other
}

#[test]
fn a_long_order_passes_as_it_was_written(rt: HostRuntime) -> Result<(), Fail> {
    let alloc = rt.alloc();
    assert_eq!(rt; metadata(alloc, 100)?.len(), 2_000);
    let body = body(alloc)?;
    assert_eq!(rt; played(alloc, body.as_str())?, 0);
    Ok(())
}
