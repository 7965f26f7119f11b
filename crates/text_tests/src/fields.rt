//! What the types read and write, by values from outside.
use mos_fields::{
    Air, Field, FieldFault, Id, MosTime, Name, OptId, Rev, Samples, Slug, Text, Unread,
};
use std::alloc::AllocError;
use std::test::Fail;

fn chars(rt: &impl AllocGlobal, text: &str) -> Result<Vec<char>, AllocError> {
    text.chars().collect(rt.alloc())
}

fn is_time(rt: &impl AllocGlobal, text: &str) -> Result<bool, AllocError> {
    Ok(MosTime::try_new(&chars(rt, text)?).is_ok())
}

/// Texts, and whether they are times.
const TIMES: &str = "\
1900-02-29T00:00:00|no
2000-02-29T00:00:00|time
0000-02-29T00:00:00|time
2026-02-30T00:00:00|no
2026-04-31T00:00:00|no
2026-13-01T00:00:00|no
9999-12-31T23:59:59,999-23:59|time
 2026-07-01T08:09:10Z\t|time
2026-07-01T24:00:00|no
2026-07-01T23:59:60|no
2026-07-01T23:59:59,99|no
2026-07-01T23:59:59+24:00|no
2026-07-01 23:59:59|no";

#[test]
fn times_have_their_form_and_days_are_those_of_the_calendar(rt: HostRuntime) -> Result<(), Fail> {
    let mut rows = 0u64;
    for row in TIMES.lines() {
        if let Some((text, word)) = row.split_once('|') {
            assert_eq!(rt; is_time(&rt, text)?, word == "time", "{row}");
            rows = rows.saturating_add(1);
        }
    }
    assert_eq!(rt; rows, 13);
    Ok(())
}

#[test]
fn times_are_written_as_they_were_read(rt: HostRuntime) -> Result<(), Fail> {
    let text = chars(&rt, "2026-07-01T08:09:10,045+05:30")?;
    let time = MosTime::try_new(&text)?;
    let mut out = Vec::new(rt.alloc());
    time.push_to(&mut out)?;
    assert!(rt; out == text);
    Ok(())
}

#[test]
fn limits_are_exact(rt: HostRuntime) -> Result<(), Fail> {
    let mut text = Vec::new(rt.alloc());
    for _ in 0..128 {
        text.push('x')?;
    }
    assert!(rt; Id::try_new(rt.alloc(), &text).is_ok());
    assert!(rt; Name::try_new(rt.alloc(), &text).is_ok());
    text.push('x')?;
    assert!(rt; Id::try_new(rt.alloc(), &text) == Err(FieldFault::TooLong { length: 129 }));
    assert!(rt; OptId::try_new(rt.alloc(), &text) == Err(FieldFault::TooLong { length: 129 }));
    assert!(rt; Id::try_new(rt.alloc(), &[]) == Err(FieldFault::Empty));
    for _ in 129..1024 {
        text.push('x')?;
    }
    assert!(rt; Slug::try_new(rt.alloc(), &text).is_ok());
    text.push('x')?;
    assert!(rt; Slug::try_new(rt.alloc(), &text) == Err(FieldFault::TooLong { length: 1025 }));
    Ok(())
}

#[test]
fn the_first_forbidden_character_comes_first(rt: HostRuntime) -> Result<(), Fail> {
    let text = ['a', '\u{FFFE}', '\u{0}'];
    assert!(rt; Text::try_new(rt.alloc(), &text) == Err(FieldFault::BadChar { place: 1 }));
    assert!(rt; Samples::try_new(&text) == Err(FieldFault::BadChar { place: 1 }));
    assert!(rt; Text::try_new(rt.alloc(), &['\u{10FFFF}']).is_ok());
    Ok(())
}

#[test]
fn numbers_and_words_drop_white_space(rt: HostRuntime) -> Result<(), Fail> {
    assert!(rt; Samples::try_new(&chars(&rt, "\t0004294967295 ")?) == Err(FieldFault::BadNumber));
    assert!(rt; Samples::try_new(&chars(&rt, " 4294967295")?)?.count() == 4294967295);
    assert!(rt; Samples::try_new(&chars(&rt, "4294967296")?) == Err(FieldFault::BadNumber));
    assert!(rt; Rev::try_new(&chars(&rt, "007")?)?.number() == 7);
    assert!(rt; Air::try_new(&chars(&rt, " NOT READY ")?)? == Air::NotReady);
    assert!(rt; Air::try_new(&chars(&rt, "NOT  READY")?) == Err(FieldFault::BadWord));
    assert!(rt; Field::try_new(&chars(&rt, "mosExternalMetadata")?)? == Field::Metadata);
    Ok(())
}

#[test]
fn texts_are_in_order_by_characters(rt: HostRuntime) -> Result<(), Fail> {
    let private = Id::try_new(rt.alloc(), &['\u{E000}'])?;
    let clef = Id::try_new(rt.alloc(), &['\u{1D11E}'])?;
    assert!(rt; private < clef);
    assert!(rt; !private.is(&clef));
    assert!(rt; clef.try_clone()?.is(&clef));
    Ok(())
}

fn is_unread(rt: &impl AllocGlobal, text: &str) -> Result<bool, AllocError> {
    Ok(Unread::try_new(rt.alloc(), &chars(rt, text)?).is_ok())
}

/// Texts, and whether they are raw elements.
const ELEMENTS: &str = "\
<a/>|raw
<a b = \"'\"\t_='>' />|raw
<x.1><x.1/><!--</x.1 ></x.1>|raw
<a></a></a>|no
<a></b>|no
 <a/>|no
<a b='<'/>|no
<a b='&lt;&gt;&amp;&quot;&apos;'/>|raw
<a b='&#x0010FFFF;&#00000065;'/>|raw
<a b='&nbsp;'/>|no
<a b='&lt'/>|no
<a b='&#x110000;'/>|no
<a b='&#000000065;'/>|no
<a b='&#xFFFE;'/>|no
<a b='&#;'/>|no";

#[test]
fn raw_elements_and_references_have_their_form(rt: HostRuntime) -> Result<(), Fail> {
    let mut rows = 0u64;
    for row in ELEMENTS.lines() {
        if let Some((text, word)) = row.split_once('|') {
            assert_eq!(rt; is_unread(&rt, text)?, word == "raw", "{row}");
            rows = rows.saturating_add(1);
        }
    }
    assert_eq!(rt; rows, 15);
    Ok(())
}

#[test]
fn faults_come_in_order(rt: HostRuntime) -> Result<(), Fail> {
    assert!(rt; MosTime::try_new(&chars(&rt, "2026-02-29T00:00:00")?) == Err(FieldFault::BadTime));
    assert!(rt;
        MosTime::try_new(&chars(&rt, "2026-\u{1}")?) == Err(FieldFault::BadChar { place: 5 })
    );
    match Unread::try_new(rt.alloc(), &chars(&rt, "<a>\u{FFFE}")?) {
        Err(fault) => assert!(rt; fault == FieldFault::BadChar { place: 3 }),
        Ok(_) => assert!(rt; false),
    }
    match Unread::try_new(rt.alloc(), &chars(&rt, "<a>")?) {
        Err(fault) => assert!(rt; fault == FieldFault::BadWord),
        Ok(_) => assert!(rt; false),
    }
    Ok(())
}
