//! Each end of a connection.
use crate::words::text;
use connection_lines::ended_line;
use mos_fields::Field;
use mos_lexer::Kind;
use port_events::Side;
use port_session::End;
use std::test::Fail;

// The line of each end, in the order of `end_at`.
const LINES: &str = "connection 7 upper dev1 ended: Closed
connection 7 upper dev1 ended: Truncated 17
connection 7 upper dev1 ended: REFUSED 91 Twice(roID)
connection 7 upper dev1 ended: REFUSED 0 BadUnit
connection 7 upper dev1 ended: ReadFault
connection 7 upper dev1 ended: WriteFault
connection 7 upper dev1 ended: Budget
connection 7 upper dev1 ended: Stale
connection 7 upper dev1 ended: Unasked
connection 7 upper dev1 ended: Stopped
connection 7 upper dev1 ended: NoMemory
";

// The end of this number.
fn end_at(row: usize) -> End {
    match row {
        0 => End::Closed,
        1 => End::Truncated { bytes: 17 },
        2 => End::BadMessage {
            place: 91,
            kind: Kind::Twice(Field::RoID),
        },
        3 => End::BadMessage {
            place: 0,
            kind: Kind::BadUnit,
        },
        4 => End::ReadFault,
        5 => End::WriteFault,
        6 => End::Budget,
        7 => End::Stale,
        8 => End::Unasked,
        9 => End::Stopped,
        _ => End::NoMemory,
    }
}

#[test]
fn each_end_has_its_word(rt: HostRuntime) -> Result<(), Fail> {
    let alloc = rt.alloc();
    let device = text(alloc, "dev1")?;
    let mut lines = String::new(alloc);
    for row in 0..11usize {
        let line = ended_line(alloc, 7, Side::Upper, &device, end_at(row))?;
        lines.push_str(line.as_str())?;
    }
    assert_eq!(rt; lines.as_str(), LINES);
    Ok(())
}
