//! Reading inside a message.
ghost use Rattle.std.specs.Prelude.{◌≡◌, ◌∷◌, [], true, None, Ok, Err, IfOk, OnOk, reverse};
ghost use Rattle.mos_fields.specs.Characters.{IsUtf16, chars_of};
ghost use Rattle.mos_fields.specs.Fields.{name_of, same};
ghost use Rattle.mos_fields.specs.Names.{is_name as is_name_of};
ghost use Rattle.mos_events.specs.EventView.{attributes_of, element_text};
ghost use Rattle.mos_grammar.specs.Records.{end_fault, field_events, keys};
ghost use Rattle.mos_grammar.specs.Tokens.{close_tag, empty_tag, open_tag, text};
ghost use Rattle.mos_grammar.specs.Tokens.{tail as tail_token};
ghost use Rattle.mos_grammar.specs.RecordMachine.{empty_text_fault as empty_text_fault_of, after_end_tag, after_field, after_record_tag, at, behind_text as behind_text_of, between as between_of, in_field as in_field_of, in_raw as in_raw_of, opening, step, with_child};
ghost use Rattle.mos_grammar.specs.Streams.{mos_name};
ghost use Rattle.mos_grammar.specs.declared.fault.Fault.TheVariants.{Tag as misplaced};
ghost use Rattle.mos_tokens.specs.TokenView.{IsSound, IsTag, token_of};
ghost use Rattle.mos_elements.specs.Opened.{frame_in, frames_in};
ghost use Rattle.mos_elements.specs.Parts.{part_events};
ghost use Rattle.mos_elements.specs.Roles.{open_field_of};
ghost use Rattle.mos_elements.specs.States.{Stepped, state_of, state_with, value_in};

use crate::admission::{Admission, admit, admit_empty};
use crate::child::Part;
use crate::empty::table_end_fault;
use crate::fault::FrameFault;
use crate::frame::Frame;
use crate::mode::{Mode, RawStart};
use crate::open_field::OpenField;
use crate::progress::Progress;
use crate::spare::Spare;
use crate::texts::{empty_text_fault, raw_part, read_empty, read_text};
use mos_columns::is_name;
use mos_events::{ElementName, Events, KnownAttribute};
use mos_fields::{Field, NoMemory, Text};
use mos_forms::{is_tail, is_white, join};
use mos_grammar::Fault;
use mos_tables::Table;
use mos_tokens::{Attribute, Token};
use std::alloc::Global;
use std::mem::replace;

/// Reading inside a message: what the innermost record is in, that record, and the records that it stands in, the
/// innermost last; and the memory of records that have ended.
#[derive(Drop)]
pub struct Inside {
    pub mode: Mode,
    pub inner: Frame,
    pub outer: Vec<Frame>,
    pub spares: Vec<Spare>,
}

fn misplaced() -> Result<Progress, FrameFault>
    ensures { result ≡ Err (FrameFault.Rejected misplaced) }
{
    Err(FrameFault::Rejected(Fault::Tag))
}

/// A raw element behind its start tag.
fn raw_start(alloc: Global, name: &[u16], field: Field, tag: &[u16]) -> Result<RawStart, NoMemory>
    requires named { is_name_of name.now ≡ true }
    requires written { IsUtf16 tag.now }
    ensures { IfOk result (λ r. in_raw_of r.name.items r.field r.tag ≡ in_raw_of name.now field (chars_of tag.now)) }
{
    let name = Vec::from_slice(alloc, name)?;
    Ok(RawStart {
        name,
        field,
        tag: Text::from_units(alloc, tag)?,
    })
}

impl Inside {
    /// In no message, which takes no memory.
    pub fn blank(alloc: Global) -> Self {
        Inside {
            mode: Mode::Between,
            inner: Frame::blank(alloc),
            outer: Vec::new(alloc),
            spares: Vec::new(alloc),
        }
    }

    /// The start tag of a message came, wherever reading was. The only error is that memory runs out.
    pub fn begin(&mut self, alloc: Global) -> Result<(), NoMemory>
        ensures { OnOk result (state_of self.new ≡ opening Table.Envelope mos_name) }
    {
        self.inner = Frame::open(
            alloc,
            &mut self.spares,
            Table::Envelope,
            ElementName::Mos,
            Field::Message,
            None,
        )?;
        self.outer.clear();
        self.mode = Mode::Between;
        Ok(())
    }

    /// Between the elements of the innermost record, where it mostly is already, since a whole child was taken out of the
    /// mode.
    fn stand_between(&mut self)
        ensures { state_of self.new ≡ state_with between_of self.old }
    {
        match self.mode {
            Mode::Between => {}
            _ => self.mode = Mode::Between,
        }
    }

    /// A child of the innermost record is whole.
    fn add_child(&mut self, alloc: Global, field: Field, part: Part) -> Result<Progress, FrameFault>
        ensures { Stepped result (state_of self.new) (Ok (with_child (frame_in self.old.inner (reverse self.old.outer.items)) (frames_in (reverse self.old.outer.items)) (field, part_events part))) }
    {
        self.inner.add(field, part)?;
        self.stand_between();
        Ok(Progress::More)
    }

    /// A record begins inside the innermost one.
    fn open_record(
        &mut self,
        alloc: Global,
        field: Field,
        table: Table,
        name: ElementName,
        attribute: Option<KnownAttribute>,
    ) -> Result<Progress, FrameFault>
        ensures { Stepped result (state_of self.new) (Ok (at between_of (record { table = table; name = element_text name; place = field; given = attributes_of attribute; taken = keys self.old.inner.table self.old.inner.before; before = [] }) (frame_in self.old.inner (reverse self.old.outer.items) ∷ frames_in (reverse self.old.outer.items)))) }
    {
        let inner = Frame::open(alloc, &mut self.spares, table, name, field, attribute)?;
        let around = replace(&mut self.inner, inner);
        self.outer.push(around)?;
        self.stand_between();
        Ok(Progress::More)
    }

    /// The innermost record ends.
    fn close_record(&mut self, alloc: Global) -> Result<Progress, FrameFault>
        ensures { Stepped result (state_of self.new) (after_end_tag (frame_in self.old.inner (reverse self.old.outer.items)) (frames_in (reverse self.old.outer.items)) None) }
    {
        match self.outer.pop() {
            None => {
                let frame = replace(&mut self.inner, Frame::blank(alloc));
                self.mode = Mode::Ended(Events::from_vec(frame.close(alloc, &mut self.spares)?));
                Ok(Progress::Whole)
            }
            Some(around) => {
                let frame = replace(&mut self.inner, around);
                let place = frame.place();
                let events = frame.close(alloc, &mut self.spares)?;
                self.add_child(alloc, place, Part::Several(events))
            }
        }
    }

    /// A start tag between the elements of the innermost record.
    #[tactic(auto, unfolding(mos_grammar::specs::RecordMachine::step))]
    fn open_tag(
        &mut self,
        alloc: Global,
        name: &[u16],
        attributes: &[Attribute],
        raw: &[u16],
    ) -> Result<Progress, FrameFault>
        requires { IsTag name.now raw.now }
        ensures { Stepped result (state_of self.new) (step (state_with between_of self.old) (open_tag name.now attributes.now (chars_of raw.now))) }
    {
        match admit(alloc, &self.inner, name, attributes)? {
            Admission::Refused(fault) => Err(FrameFault::Rejected(fault)),
            Admission::AsLeaf(leaf) => {
                self.mode = Mode::InField(leaf);
                Ok(Progress::More)
            }
            Admission::AsRaw(field) => {
                self.mode = Mode::InRaw(raw_start(alloc, name, field, raw)?);
                Ok(Progress::More)
            }
            Admission::AsRecord(field, table, name, attribute) => {
                self.open_record(alloc, field, table, name, attribute)
            }
        }
    }

    /// A record with no child.
    fn add_empty_record(
        &mut self,
        alloc: Global,
        field: Field,
        table: Table,
        name: ElementName,
        attribute: Option<KnownAttribute>,
    ) -> Result<Progress, FrameFault>
        ensures { Stepped result (state_of self.new) (after_record_tag (frame_in self.old.inner (reverse self.old.outer.items)) (frames_in (reverse self.old.outer.items)) (element_text name) field table (attributes_of attribute) (end_fault table [])) }
    {
        match table_end_fault(alloc, table)? {
            Some(fault) => Err(FrameFault::Rejected(fault)),
            None => {
                let spares = &mut self.spares;
                let record = Frame::open(alloc, spares, table, name, field, attribute)?;
                let events = record.close(alloc, spares)?;
                self.add_child(alloc, field, Part::Several(events))
            }
        }
    }

    /// A field with an empty text.
    fn add_empty_field(&mut self, alloc: Global, leaf: OpenField) -> Result<Progress, FrameFault>
        ensures { Stepped result (state_of self.new) (after_field (frame_in self.old.inner (reverse self.old.outer.items)) (frames_in (reverse self.old.outer.items)) (open_field_of leaf) (field_events (name_of leaf.field) (open_field_of leaf) [] [])) }
    {
        match read_empty(alloc, leaf) {
            Some(part) => self.add_child(alloc, leaf.field, part),
            None => Err(FrameFault::Rejected(Fault::Value(leaf.field))),
        }
    }

    /// An empty tag between the elements of the innermost record.
    #[tactic(auto, unfolding(mos_grammar::specs::RecordMachine::step), using(crate::proofs::RoleLemmas::admission_beside, crate::proofs::TextLemmas::events_empty))]
    fn empty_tag(
        &mut self,
        alloc: Global,
        name: &[u16],
        attributes: &[Attribute],
        raw: &[u16],
    ) -> Result<Progress, FrameFault>
        requires { IsTag name.now raw.now }
        ensures { Stepped result (state_of self.new) (step (state_with between_of self.old) (empty_tag name.now attributes.now (chars_of raw.now))) }
    {
        match admit_empty(alloc, &self.inner, name, attributes)? {
            Admission::Refused(fault) => Err(FrameFault::Rejected(fault)),
            Admission::AsLeaf(leaf) => self.add_empty_field(alloc, leaf),
            Admission::AsRaw(field) => {
                let text = Text::from_units(alloc, raw)?;
                self.add_child(alloc, field, raw_part(field, text))
            }
            Admission::AsRecord(field, table, name, attribute) => {
                self.add_empty_record(alloc, field, table, name, attribute)
            }
        }
    }

    /// An end tag between the elements of the innermost record.
    #[tactic(auto, unfolding(mos_grammar::specs::RecordMachine::step))]
    fn close_tag(&mut self, alloc: Global, name: &[u16]) -> Result<Progress, FrameFault>
        ensures { Stepped result (state_of self.new) (step (state_with between_of self.old) (close_tag name.now)) }
    {
        if !self.inner.is_named(name) {
            return misplaced();
        }
        match self.inner.end_fault() {
            Some(fault) => Err(FrameFault::Rejected(fault)),
            None => self.close_record(alloc),
        }
    }

    /// A text between the elements of the innermost record.
    #[tactic(auto, unfolding(mos_grammar::specs::RecordMachine::step))]
    fn text_between(&mut self, raw: &[u16], resolved: &[u16]) -> Result<Progress, FrameFault>
        ensures { Stepped result (state_of self.new) (step (state_with between_of self.old) (text (chars_of raw.now) (chars_of resolved.now))) }
    {
        let _ = resolved;
        if is_white(raw) {
            self.stand_between();
            Ok(Progress::More)
        } else {
            misplaced()
        }
    }

    /// The text of a field.
    #[tactic(auto, unfolding(mos_grammar::specs::RecordMachine::step))]
    fn text_of_field(
        &mut self,
        alloc: Global,
        leaf: OpenField,
        raw: &[u16],
        resolved: &[u16],
    ) -> Result<Progress, FrameFault>
        requires { IsUtf16 resolved.now }
        ensures { Stepped result (state_of self.new) (step (state_with (in_field_of (name_of leaf.field) (open_field_of leaf)) self.old) (text (chars_of raw.now) (chars_of resolved.now))) }
    {
        let _ = raw;
        match read_text(alloc, leaf, &self.outer, resolved)? {
            Some(part) => {
                self.mode = Mode::BehindText(leaf, part);
                Ok(Progress::More)
            }
            None => Err(FrameFault::Rejected(Fault::Value(leaf.field))),
        }
    }

    /// An end tag directly behind a field's start tag.
    #[tactic(auto, unfolding(mos_grammar::specs::RecordMachine::step), using(crate::proofs::TextLemmas::events_empty))]
    fn close_empty_field(
        &mut self,
        alloc: Global,
        leaf: OpenField,
        name: &[u16],
    ) -> Result<Progress, FrameFault>
        ensures { Stepped result (state_of self.new) (step (state_with (in_field_of (name_of leaf.field) (open_field_of leaf)) self.old) (close_tag name.now)) }
    {
        if is_name(leaf.field.name(), name) {
            self.add_empty_field(alloc, leaf)
        } else {
            Err(FrameFault::Rejected(empty_text_fault(leaf)))
        }
    }

    /// An end tag behind a field's text.
    #[tactic(auto, unfolding(mos_grammar::specs::RecordMachine::step))]
    fn close_field(
        &mut self,
        alloc: Global,
        leaf: OpenField,
        part: Part,
        name: &[u16],
    ) -> Result<Progress, FrameFault>
        ensures { Stepped result (state_of self.new) (step (state_with (behind_text_of (name_of leaf.field) (open_field_of leaf) (part_events part)) self.old) (close_tag name.now)) }
    {
        if is_name(leaf.field.name(), name) {
            self.add_child(alloc, leaf.field, part)
        } else {
            misplaced()
        }
    }

    /// The rest of a raw element.
    #[tactic(auto, unfolding(mos_grammar::specs::RecordMachine::step))]
    fn close_raw(
        &mut self,
        alloc: Global,
        start: RawStart,
        rest: &[u16],
    ) -> Result<Progress, FrameFault>
        requires { IsUtf16 rest.now }
        ensures { Stepped result (state_of self.new) (step (state_with (in_raw_of start.name.items start.field start.tag) self.old) (tail_token (chars_of rest.now))) }
    {
        if is_tail(&start.name, rest) {
            let text = join(alloc, &start.tag, rest)?;
            self.add_child(alloc, start.field, raw_part(start.field, text))
        } else {
            misplaced()
        }
    }

    /// A tag that doesn't fit directly behind a field's start tag.
    fn refuse_tag(leaf: OpenField) -> Result<Progress, FrameFault>
        ensures { result ≡ Err (FrameFault.Rejected (empty_text_fault_of (open_field_of leaf) (field_events (name_of leaf.field) (open_field_of leaf) [] []))) }
    {
        Err(FrameFault::Rejected(empty_text_fault(leaf)))
    }

    #[tactic(auto, unfolding(mos_grammar::specs::RecordMachine::step))]
    fn between(&mut self, alloc: Global, token: Token<'_>) -> Result<Progress, FrameFault>
        requires { IsSound token }
        ensures { Stepped result (state_of self.new) (step (state_with between_of self.old) (token_of token.entry)) }
    {
        match token {
            Token::OpenTag(name, attributes, raw) => self.open_tag(alloc, name, attributes, raw),
            Token::EmptyTag(name, attributes, raw) => self.empty_tag(alloc, name, attributes, raw),
            Token::CloseTag(name) => self.close_tag(alloc, name),
            Token::Text(raw, resolved) => self.text_between(raw, resolved),
            Token::Tail(_) | Token::Mark | Token::Declaration => misplaced(),
        }
    }

    #[tactic(auto, unfolding(mos_grammar::specs::RecordMachine::step), using(crate::proofs::TextLemmas::events_empty))]
    fn in_field(
        &mut self,
        alloc: Global,
        leaf: OpenField,
        token: Token<'_>,
    ) -> Result<Progress, FrameFault>
        requires { IsSound token }
        ensures { Stepped result (state_of self.new) (step (state_with (in_field_of (name_of leaf.field) (open_field_of leaf)) self.old) (token_of token.entry)) }
    {
        match token {
            Token::OpenTag(_, _, _) | Token::EmptyTag(_, _, _) => Inside::refuse_tag(leaf),
            Token::CloseTag(name) => self.close_empty_field(alloc, leaf, name),
            Token::Text(raw, resolved) => self.text_of_field(alloc, leaf, raw, resolved),
            Token::Tail(_) | Token::Mark | Token::Declaration => misplaced(),
        }
    }

    #[tactic(auto, unfolding(mos_grammar::specs::RecordMachine::step))]
    fn behind_text(
        &mut self,
        alloc: Global,
        leaf: OpenField,
        part: Part,
        token: Token<'_>,
    ) -> Result<Progress, FrameFault>
        ensures { Stepped result (state_of self.new) (step (state_with (behind_text_of (name_of leaf.field) (open_field_of leaf) (part_events part)) self.old) (token_of token.entry)) }
    {
        match token {
            Token::CloseTag(name) => self.close_field(alloc, leaf, part, name),
            _ => misplaced(),
        }
    }

    #[tactic(auto, unfolding(mos_grammar::specs::RecordMachine::step))]
    fn in_raw(
        &mut self,
        alloc: Global,
        start: RawStart,
        token: Token<'_>,
    ) -> Result<Progress, FrameFault>
        requires { IsSound token }
        ensures { Stepped result (state_of self.new) (step (state_with (in_raw_of start.name.items start.field start.tag) self.old) (token_of token.entry)) }
    {
        match token {
            Token::Tail(rest) => self.close_raw(alloc, start, rest),
            _ => misplaced(),
        }
    }

    /// Takes one token, with what the innermost record is in taken out of it.
    #[tactic(auto, unfolding(mos_grammar::specs::RecordMachine::step))]
    fn take_owned(&mut self, alloc: Global, token: Token<'_>) -> Result<Progress, FrameFault>
        requires { IsSound token }
        ensures { Stepped result (state_of self.new) (step (state_of self.old) (token_of token.entry)) }
    {
        match replace(&mut self.mode, Mode::Between) {
            Mode::Between => self.between(alloc, token),
            Mode::InField(leaf) => self.in_field(alloc, leaf, token),
            Mode::BehindText(leaf, part) => self.behind_text(alloc, leaf, part, token),
            Mode::InRaw(start) => self.in_raw(alloc, start, token),
            Mode::Ended(_) => misplaced(),
        }
    }

    /// Takes one token. Behind a fault nothing is promised of the state.
    pub fn take(&mut self, alloc: Global, token: Token<'_>) -> Result<Progress, FrameFault>
        requires { IsSound token }
        ensures { Stepped result (state_of self.new) (step (state_of self.old) (token_of token.entry)) }
    {
        match self.mode {
            Mode::Between => self.between(alloc, token),
            Mode::InField(leaf) => self.in_field(alloc, leaf, token),
            _ => self.take_owned(alloc, token),
        }
    }

    /// The value of a message that is whole. Nothing is promised of the state behind it; where there is none, the state is
    /// as it was.
    pub fn take_value(&mut self) -> Option<Events>
        ensures value { result ≡ value_in (state_of self.old) }
        ensures unchanged { result ≡ None → state_of self.new ≡ state_of self.old }
    {
        match replace(&mut self.mode, Mode::Between) {
            Mode::Ended(value) => Some(value),
            other => {
                self.mode = other;
                None
            }
        }
    }
}
