//! Names.
ghost use Rattle.std.specs.Prelude.{◌≡◌, ◌+◌, ◌<◌, ◌≤◌, ℕ, true, false, length, slice_index};
ghost use Rattle.mos_fields.specs.Fields.{name_of, same};

use mos_fields::Field;

/// Whether code units are those of an ASCII name. Most names that are compared have different lengths.
#[inline(always)]
pub fn is_name(name: &str, units: &[u16]) -> bool
    ensures { result ≡ same name.now units.now }
{
    name.len() == units.len() && is_text(name.as_bytes(), units)
}

/// The 4 units from `from` on are those of the name: a test with no branch.
fn are_four(name: &[u8], units: &[u16], from: usize) -> bool
    requires in_name { from + 4 ≤ length name.now }
    requires in_units { from + 4 ≤ length units.now }
    ensures yes { result ≡ true → (k : ℕ) → from ≤ k → k < from + 4 → slice_index name.now k ≡ slice_index units.now k }
    ensures no { result ≡ false → same name.now units.now ≡ false }
{
    let mut differ = false;
    for k in from..from + 4 {
        differ |= u16::from(name[k]) != units[k];
    }
    !differ
}

/// The 8 units from `from` on are those of the name: a test with no branch, of which LLVM makes vectors.
fn are_eight(name: &[u8], units: &[u16], from: usize) -> bool
    requires in_name { from + 8 ≤ length name.now }
    requires in_units { from + 8 ≤ length units.now }
    ensures yes { result ≡ true → (k : ℕ) → from ≤ k → k < from + 8 → slice_index name.now k ≡ slice_index units.now k }
    ensures no { result ≡ false → same name.now units.now ≡ false }
{
    let mut differ = false;
    for k in from..from + 8 {
        differ |= u16::from(name[k]) != units[k];
    }
    !differ
}

/// A name of 8 units or more, by eights; the last ones may have been compared before.
fn is_long_text(name: &[u8], units: &[u16]) -> bool
    requires long { 8 ≤ length name.now }
    requires same_length { length name.now ≡ length units.now }
    ensures { result ≡ same name.now units.now }
{
    let last = name.len() - 8;
    let mut n = 0;
    while n < last {
        if !are_eight(name, units, n) {
            return false;
        }
        n += 8;
    }
    are_eight(name, units, last)
}

/// A name of the same length.
#[inline(never)]
fn is_text(name: &[u8], units: &[u16]) -> bool
    requires { length name.now ≡ length units.now }
    ensures { result ≡ same name.now units.now }
{
    let length = name.len();
    if length >= 8 {
        is_long_text(name, units)
    } else if length >= 4 {
        are_four(name, units, 0) && are_four(name, units, length - 4)
    } else {
        is_short_text(name, units)
    }
}

/// A name unit by unit.
fn is_short_text(name: &[u8], units: &[u16]) -> bool
    ensures { result ≡ same name.now units.now }
{
    match name {
        [] => match units {
            [] => true,
            [_, ..] => false,
        },
        [c, cs @ ..] => match units {
            [] => false,
            [u, us @ ..] => u16::from(*c) == *u && is_short_text(cs, us),
        },
    }
}

/// How long the name of a field is: most names are told apart by this.
#[inline(always)]
fn name_length(field: Field) -> usize
    ensures { result ≡ length (name_of field) }
{
    match field {
        Field::Message | Field::Kept | Field::Dropped => 0,
        Field::SerialNumber | Field::MachineID | Field::RoTag => 2,
        Field::Dom => 3,
        Field::RoID | Field::ItemTag | Field::TimeTag => 4,
        Field::MosID
        | Field::NcsID
        | Field::StoryTag
        | Field::ObjID
        | Field::ObjTB
        | Field::ModelTag
        | Field::HwRev
        | Field::SwRev
        | Field::Pause
        | Field::RoAir => 5,
        Field::RoSlug
        | Field::ItemID
        | Field::MosObjTag
        | Field::ObjRev
        | Field::ObjDur
        | Field::Status
        | Field::ObjAir
        | Field::OpTime
        | Field::MosRev
        | Field::Number => 6,
        Field::RoEdDur
        | Field::MacroIn
        | Field::StoryID
        | Field::ObjSlug
        | Field::ObjType
        | Field::Created
        | Field::Changed
        | Field::ElementKind => 7,
        Field::MacroOut
        | Field::StoryNum
        | Field::ItemSlug
        | Field::ObjPaths
        | Field::ObjGroup
        | Field::RoStatus => 8,
        Field::MessageID
        | Field::RoChannel
        | Field::RoEdStart
        | Field::RoTrigger
        | Field::StorySlug
        | Field::ItemEdDur
        | Field::CreatedBy
        | Field::ChangedBy
        | Field::StoryBody
        | Field::OperationKind => 9,
        Field::MosProfile | Field::DeviceType => 10,
        Field::MosAbstract
        | Field::ItemChannel
        | Field::ItemEdStart
        | Field::ItemTrigger
        | Field::Description => 11,
        Field::Manufacturer => 12,
        Field::DefaultActiveX | Field::ElementTarget | Field::ElementSource => 14,
        Field::ItemUserTimingDur | Field::SupportedProfilesTag | Field::StatusDescription => 17,
        Field::Metadata => 19,
    }
}

/// Whether a field has this name.
pub(crate) fn has_name(field: Field, name: &[u16]) -> bool
    ensures { result ≡ same (name_of field) name.now }
{
    name_length(field) == name.len() && is_text(field.name().as_bytes(), name)
}
