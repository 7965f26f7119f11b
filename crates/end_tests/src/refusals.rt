//! Settings and objects that are refused.
use crate::ends::line;
use end_settings::{Key, SettingsFault};
use mos_fields::Field;
use mos_lexer::Kind;
use object_reading::ObjectsFault;
use program_ends::ProgramEnd;
use std::alloc::Global;
use std::test::Fail;

// The line of each refusal with its number, in the order of `settings_at`.
const SETTINGS: &str = "3 NotToml
3 Missing(ncs_id)
3 Missing(mos_id)
3 BadValue(devices)
3 BadValue(server_upper)
8 NoMemory
";

// The refusal of this number.
fn settings_at(row: u32) -> SettingsFault {
    match row {
        0 => SettingsFault::NotToml,
        1 => SettingsFault::Missing { key: Key::NcsId },
        2 => SettingsFault::Missing {
            key: Key::DeviceMosId,
        },
        3 => SettingsFault::BadValue { key: Key::Devices },
        4 => SettingsFault::BadValue {
            key: Key::ServerUpper,
        },
        _ => SettingsFault::NoMemory,
    }
}

fn settings_lines(alloc: Global, count: u32) -> Result<String, Fail> {
    let mut lines = String::new(alloc);
    for row in 0..count {
        let line = line(alloc, ProgramEnd::of_settings(settings_at(row)))?;
        lines.push_str(line.as_str())?;
    }
    Ok(lines)
}

#[test]
fn refused_settings_name_their_key(rt: HostRuntime) -> Result<(), Fail> {
    let lines = settings_lines(rt.alloc(), 6)?;
    assert_eq!(rt; lines.as_str(), SETTINGS);
    Ok(())
}

// The same of objects, in the order of `kind_at` and then of `objects_at`.
const OBJECTS: &str = "9 Refused 0 BadUnit
9 Refused 1 BadChar
9 Refused 2 Entity
9 Refused 3 Twice(objID)
9 Refused 4 Order(objSlug)
9 Refused 5 Missing(mosID)
9 Refused 6 Value(objRev)
9 Refused 7 Tag
9 Refused 8 TooLong
9 Refused 9 End
9 NotObject 10
9 Full 11 8000001
2 NoFile: objects
8 NoMemory
";

// The kind of this number.
fn kind_at(row: u32) -> Kind {
    match row {
        0 => Kind::BadUnit,
        1 => Kind::BadChar,
        2 => Kind::Entity,
        3 => Kind::Twice(Field::ObjID),
        4 => Kind::Order(Field::ObjSlug),
        5 => Kind::Missing(Field::MosID),
        6 => Kind::Value(Field::ObjRev),
        7 => Kind::Tag,
        8 => Kind::TooLong,
        _ => Kind::End,
    }
}

// The refusal of this number.
fn objects_at(row: u32) -> ObjectsFault {
    match row {
        10 => ObjectsFault::NotObject { number: 10 },
        11 => ObjectsFault::Full {
            number: 11,
            units: 8_000_001,
        },
        12 => ObjectsFault::ReadFault,
        13 => ObjectsFault::NoMemory,
        _ => ObjectsFault::Refused {
            place: row.into(),
            kind: kind_at(row),
        },
    }
}

fn object_lines(alloc: Global, count: u32) -> Result<String, Fail> {
    let mut lines = String::new(alloc);
    for row in 0..count {
        let line = line(alloc, ProgramEnd::of_objects(objects_at(row)))?;
        lines.push_str(line.as_str())?;
    }
    Ok(lines)
}

#[test]
fn refused_objects_tell_their_place_and_kind(rt: HostRuntime) -> Result<(), Fail> {
    let lines = object_lines(rt.alloc(), 14)?;
    assert_eq!(rt; lines.as_str(), OBJECTS);
    Ok(())
}
