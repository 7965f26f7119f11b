//! What is read and written, by values from outside.
use mos_fields::Text;
use mos_text::{TextFault, UnitReader, push_text, units_of};
use std::test::Fail;

/// Feeds a short piece to a reader that has read little.
#[tactic(auto, using(mos_text::proofs::ReadingLemmas::place_below))]
fn feed(reader: &mut UnitReader, piece: &[u8], out: &mut Vec<char>) -> Result<(), TextFault> {
    if reader.place() > 1000 || piece.len() > 1000 {
        return Err(TextFault::NoMemory);
    }
    reader.feed(piece, out)
}

#[test]
fn a_high_unit_without_its_low_one_is_refused_at_the_high_one(rt: HostRuntime) -> Result<(), Fail> {
    let mut reader = UnitReader::new();
    let mut out = Vec::new(rt.alloc());
    let bytes = [0x00u8, 0x3C, 0xD8, 0x00, 0x00, 0x41];
    assert!(rt; feed(&mut reader, &bytes, &mut out) == Err(TextFault::BadUnit { place: 1 }));
    assert!(rt; reader.place() == 3);
    assert!(rt; out.as_slice() == ['<'].as_slice());
    Ok(())
}

#[test]
fn forbidden_characters_are_refused(rt: HostRuntime) -> Result<(), Fail> {
    let mut out = Vec::new(rt.alloc());
    assert!(rt;
        feed(&mut UnitReader::new(), &[0xFFu8, 0xFE], &mut out)
            == Err(TextFault::BadChar { place: 0 })
    );
    assert!(rt;
        feed(&mut UnitReader::new(), &[0u8, 0], &mut out) == Err(TextFault::BadChar { place: 0 })
    );
    assert!(rt;
        feed(&mut UnitReader::new(), &[0xDCu8, 0], &mut out) == Err(TextFault::BadUnit { place: 0 })
    );
    Ok(())
}

#[test]
fn a_pair_may_be_cut_at_every_byte(rt: HostRuntime) -> Result<(), Fail> {
    let mut reader = UnitReader::new();
    let mut out = Vec::new(rt.alloc());
    assert!(rt; feed(&mut reader, &[0xD8u8], &mut out).is_ok());
    assert!(rt; feed(&mut reader, &[0x34u8], &mut out).is_ok());
    assert!(rt; feed(&mut reader, &[0xDDu8], &mut out).is_ok());
    assert!(rt; feed(&mut reader, &[0x1Eu8], &mut out).is_ok());
    assert!(rt; out.as_slice() == ['\u{1D11E}'].as_slice());
    Ok(())
}

#[test]
fn the_five_characters_are_written_as_references(rt: HostRuntime) -> Result<(), Fail> {
    let text = Text::try_new(rt.alloc(), &['<', 'a', '&']).expect(&rt, "a text");
    let mut out = Vec::new(rt.alloc());
    push_text(&text, &mut out)?;
    assert!(rt; out.as_slice() == b"\0&\0l\0t\0;\0a\0&\0a\0m\0p\0;".as_slice());
    let units = units_of(rt.alloc(), &[0x00u8, 0x26, 0xD8])?;
    assert!(rt; units.as_slice() == [0x26u16].as_slice());
    Ok(())
}
