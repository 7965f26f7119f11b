//! Typed texts of slots.
ghost use Rattle.std.specs.Prelude.{◌≡◌, [], Some};
ghost use Rattle.mos_fields.specs.declared.field.Field.{Field as Field_};
ghost use Rattle.mos_fields.specs.declared.form.Form.TheVariants as forms;
ghost use Rattle.mos_fields.specs.Forms.{reads};
ghost use Rattle.mos_values.specs.Parts.{must, maybe, must_raw, maybe_raw};
ghost use Rattle.mos_cursor.specs.Parts.{part_events};
ghost use Rattle.mos_cursor.specs.Accepted.{OneLeaf, OptionalLeaf, OneRaw, OptionalRaw};
ghost use Rattle.mos_cursor.specs.Slots.{part_of};

use crate::slot::Slot;
use mos_fields::{Id, OptId, Slug, Text, Unread};

/// The identifier of a canonical text.
#[tactic(auto, using(crate::proofs::Typed::id_sized))]
fn id_of(text: Text) -> Id
    requires { reads forms.Id [] text ≡ Some text }
    ensures { result ≡ text }
{
    Id::from_sized(text)
}

/// The identifier of a canonical text of a key.
#[tactic(auto, using(crate::proofs::Typed::key_sized))]
fn key_of(text: Text) -> Id
    requires { reads forms.Key [] text ≡ Some text }
    ensures { result ≡ text }
{
    Id::from_sized(text)
}

/// The identifier of a canonical text, which may be empty.
#[tactic(auto, using(crate::proofs::Typed::opt_id_sized))]
fn opt_id_of(text: Text) -> OptId
    requires { reads forms.OptId [] text ≡ Some text }
    ensures { result ≡ text }
{
    OptId::from_sized(text)
}

/// The slug of a canonical text.
#[tactic(auto, using(crate::proofs::Typed::slug_sized))]
fn slug_of(text: Text) -> Slug
    requires { reads forms.Slug [] text ≡ Some text }
    ensures { result ≡ text }
{
    Slug::from_sized(text)
}

#[tactic(auto, unfolding(mos_values::specs::Parts::must, mos_values::specs::Parts::maybe, mos_values::specs::Parts::must_raw, mos_values::specs::Parts::maybe_raw))]
impl Slot {
    /// The text of a field that has to be there.
    pub fn text(self) -> Text
        requires { OneLeaf forms.Text (part_of self) }
        ensures { (f : Field_) → part_events f (part_of self) ≡ must f result }
    {
        match self {
            Slot::Leaf(leaf) => leaf.text,
            _ => unreachable!(),
        }
    }

    /// The text of a field that may be absent.
    pub fn optional_text(self) -> Option<Text>
        requires { OptionalLeaf forms.Text (part_of self) }
        ensures { (f : Field_) → part_events f (part_of self) ≡ maybe f result }
    {
        match self {
            Slot::Leaf(leaf) => Some(leaf.text),
            Slot::Absent => None,
            _ => unreachable!(),
        }
    }

    /// The identifier of a field that has to be there.
    pub fn id(self) -> Id
        requires { OneLeaf forms.Id (part_of self) }
        ensures { (f : Field_) → part_events f (part_of self) ≡ must f result }
    {
        match self {
            Slot::Leaf(leaf) => id_of(leaf.text),
            _ => unreachable!(),
        }
    }

    /// The identifier of a story or an item.
    pub fn key(self) -> Id
        requires { OneLeaf forms.Key (part_of self) }
        ensures { (f : Field_) → part_events f (part_of self) ≡ must f result }
    {
        match self {
            Slot::Leaf(leaf) => key_of(leaf.text),
            _ => unreachable!(),
        }
    }

    /// The identifier, which may be empty, of a field that has to be there.
    pub fn opt_id(self) -> OptId
        requires { OneLeaf forms.OptId (part_of self) }
        ensures { (f : Field_) → part_events f (part_of self) ≡ must f result }
    {
        match self {
            Slot::Leaf(leaf) => opt_id_of(leaf.text),
            _ => unreachable!(),
        }
    }

    /// The identifier of a field that may be absent.
    pub fn optional_opt_id(self) -> Option<OptId>
        requires { OptionalLeaf forms.OptId (part_of self) }
        ensures { (f : Field_) → part_events f (part_of self) ≡ maybe f result }
    {
        match self {
            Slot::Leaf(leaf) => Some(opt_id_of(leaf.text)),
            Slot::Absent => None,
            _ => unreachable!(),
        }
    }

    /// The slug of a field that has to be there.
    pub fn slug(self) -> Slug
        requires { OneLeaf forms.Slug (part_of self) }
        ensures { (f : Field_) → part_events f (part_of self) ≡ must f result }
    {
        match self {
            Slot::Leaf(leaf) => slug_of(leaf.text),
            _ => unreachable!(),
        }
    }

    /// The slug of a field that may be absent.
    pub fn optional_slug(self) -> Option<Slug>
        requires { OptionalLeaf forms.Slug (part_of self) }
        ensures { (f : Field_) → part_events f (part_of self) ≡ maybe f result }
    {
        match self {
            Slot::Leaf(leaf) => Some(slug_of(leaf.text)),
            Slot::Absent => None,
            _ => unreachable!(),
        }
    }

    /// The raw element of a field that has to be there.
    pub fn raw(self) -> Unread
        requires { OneRaw (part_of self) }
        ensures { (f : Field_) → part_events f (part_of self) ≡ must_raw f result }
    {
        match self {
            Slot::Raw(text) => Unread::from_raw(text),
            _ => unreachable!(),
        }
    }

    /// The raw element of a field that may be absent.
    pub fn optional_raw(self) -> Option<Unread>
        requires { OptionalRaw (part_of self) }
        ensures { (f : Field_) → part_events f (part_of self) ≡ maybe_raw f result }
    {
        match self {
            Slot::Raw(text) => Some(Unread::from_raw(text)),
            Slot::Absent => None,
            _ => unreachable!(),
        }
    }
}
