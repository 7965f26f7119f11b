//! Open records.
ghost use Rattle.std.specs.Prelude.{◌≡◌, [], IfOk, MatchOption, None, OnErr, OnOk, Some};
ghost use Rattle.mos_fields.specs.Fields.{same};
ghost use Rattle.mos_fields.specs.Forms.{among};
ghost use Rattle.mos_tables.specs.Tables.{columns as columns_of};
ghost use Rattle.mos_grammar.specs.Records.{column_of, field_fault, end_fault as end_fault_of, aim_of as aim_of_lem};
ghost use Rattle.mos_columns.specs.Counts.{counts_of};
ghost use Rattle.mos_events.specs.EventView.{attributes_of, element_text, events_of};
ghost use Rattle.mos_elements.specs.Parts.{part_events};
ghost use Rattle.mos_elements.specs.Opened.{added, closed, keys_of, seen_in, times_by};

use crate::aiming::aim_of;
use crate::arranging::arrange;
use crate::child::{Child, Part};
use crate::key_set::KeySet;
use crate::spare::{Spare, keep, take_spare};
use crate::times::times;
use mos_columns::{find_end_fault, find_tag, is_name, note};
use mos_events::{ElementName, Event, KnownAttribute};
use mos_fields::{Field, NoMemory, Text};
use mos_grammar::Fault;
use mos_tables::{Aim, Column, Table};
use std::alloc::Global;
use std::marker::Model;

/// A record whose end tag is still to come.
#[derive(Drop)]
pub struct Frame {
    table: Table,
    name: ElementName,
    /// the field of the record around it that it is
    place: Field,
    /// the attribute that its start tag gave
    attribute: Option<KnownAttribute>,
    /// how often the field of each column was seen, in roAck since the last group began
    counts: Vec<usize>,
    /// its children so far
    before: Vec<Child>,
    /// the keys of those, where they have to be apart
    key_set: KeySet,
}

/// How much room the events of a record take: those of its children, and its own two. It only saves moving them again.
fn room(children: &[Child]) -> usize {
    let mut sum = 2usize;
    for child in children {
        sum = sum.saturating_add(child.part.len());
    }
    sum
}

impl Model for Frame {
    ghost use Rattle.std.specs.Prelude.{◌≡◌};
    ghost use Rattle.mos_tables.specs.Tables.{columns};
    ghost use Rattle.mos_grammar.specs.Records.{keys, seen_of};
    ghost use Rattle.mos_elements.specs.Keys.{Holds};
    ghost use Rattle.mos_columns.specs.Counts.{counts_of};
    ghost use Rattle.mos_events.specs.EventView.{attributes_of, element_text};
    ghost use Rattle.mos_elements.specs.Opened.{Opened};
    ghost use Rattle.mos_elements.specs.Parts.{children_of};

    ghost Value = { Opened };

    ghost view = { λ f. record { table = f.table; name = element_text f.name; place = f.place; given = attributes_of f.attribute; before = children_of f.before.items } };

    ghost invariant = { λ f. (f.counts.items ≡ counts_of (columns f.table) (seen_of f.table (children_of f.before.items))) × Holds f.key_set.keys (keys f.table (children_of f.before.items)) };
}

impl Frame {
    /// A record of the table with no child, in memory that was kept. The only error is that memory runs out.
    #[tactic(auto, using(crate::proofs::FrameLemmas::none_seen, crate::proofs::KeyLemmas::holds_start))]
    pub fn open(
        alloc: Global,
        spares: &mut Vec<Spare>,
        table: Table,
        name: ElementName,
        place: Field,
        attribute: Option<KnownAttribute>,
    ) -> Result<Self, NoMemory>
        ensures { IfOk result (λ f. f ≡ record { table = table; name = element_text name; place = place; given = attributes_of attribute; before = [] }) }
    {
        let (counts, before) = take_spare(alloc, spares).start(table.columns())?;
        Ok(Frame {
            table,
            name,
            place,
            attribute,
            counts,
            before,
            key_set: KeySet::new(alloc),
        })
    }

    /// A record with no fields, which takes no memory.
    #[tactic(auto, using(crate::proofs::FrameLemmas::blank_seen, crate::proofs::KeyLemmas::holds_start))]
    pub fn blank(alloc: Global) -> Self {
        Frame {
            table: Table::NoFields,
            name: ElementName::Mos,
            place: Field::Dropped,
            attribute: None,
            counts: Vec::new(alloc),
            before: Vec::new(alloc),
            key_set: KeySet::new(alloc),
        }
    }

    /// Its table.
    pub fn table(&self) -> Table
        ensures { result ≡ (self.now).table }
    {
        self.table
    }

    /// The field of the record around it that it is.
    pub fn place(&self) -> Field
        ensures { result ≡ (self.now).place }
    {
        self.place
    }

    /// Whether it has this name.
    pub fn is_named(&self, name: &[u16]) -> bool
        ensures { result ≡ same (self.now).name name.now }
    {
        is_name(self.name.name(), name)
    }

    /// The column of an element with this name, if its table has one, and what the element's tag shows behind the children so
    /// far.
    pub fn find_tag(&self, name: &[u16]) -> Option<(Column, Option<Fault>)>
        ensures { MatchOption result (column_of (columns_of (self.now).table) name.now ≡ None) (λ r. (column_of (columns_of (self.now).table) name.now ≡ Some r.0) × (r.1 ≡ field_fault (columns_of (self.now).table) (seen_in self.now) name.now)) }
    {
        find_tag(self.table.columns(), &self.counts, name)
    }

    /// What its end tag shows.
    #[tactic(auto, unfolding(mos_grammar::specs::Records::end_fault))]
    pub fn end_fault(&self) -> Option<Fault>
        ensures { result ≡ end_fault_of (self.now).table (self.now).before }
    {
        find_end_fault(self.table, &self.counts)
    }

    /// How often the field of the column with this name was seen.
    pub fn times(&self, name: &[u16]) -> usize
        ensures { result ≡ times_by (columns_of (self.now).table) (counts_of (columns_of (self.now).table) (seen_in self.now)) name.now }
    {
        times(self.table.columns(), &self.counts, name)
    }

    /// What the element_target among the children aims at.
    pub fn aim(&self) -> Aim
        ensures { result ≡ aim_of_lem (self.now).before }
    {
        aim_of(&self.before)
    }

    /// Whether a record inside may not have this key, since one beside it has it.
    pub fn has_key(&self, key: &Text) -> bool
        ensures { result ≡ among key.now (keys_of self.now) }
    {
        self.key_set.contains(key)
    }

    /// Adds a child. Without memory for it the record stays as it was. A list that has room for one more is too short for a
    /// count to have no room.
    #[tactic(auto, using(crate::proofs::FrameLemmas::one_more_seen, crate::proofs::PartLemmas::children_more))]
    pub fn add(&mut self, field: Field, part: Part) -> Result<(), NoMemory>
        ensures ok { OnOk result (self.new ≡ added self.old (field, part_events part)) }
        ensures unchanged { OnErr result (self.new ≡ self.old) }
    {
        self.before.reserve(1)?;
        self.key_set.note(self.table, &part)?;
        self.before.push_reserved(Child { field, part });
        note(self.table, &mut self.counts, field);
        Ok(())
    }

    /// Its value. Its memory is kept.
    #[tactic(auto, unfolding(mos_grammar::specs::Records::nested), using(crate::proofs::PartLemmas::one_more))]
    pub fn close(self, alloc: Global, spares: &mut Vec<Spare>) -> Result<Vec<Event>, NoMemory>
        ensures { IfOk result (λ v. events_of v.items ≡ closed self) }
    {
        let mut before = self.before;
        let mut events = Vec::with_capacity(alloc, room(&before))?;
        events.push(Event::Opens {
            name: self.name,
            attribute: self.attribute,
        })?;
        arrange(self.table, &mut before, &mut events)?;
        events.push(Event::Closes { name: self.name })?;
        keep(spares, self.counts, before);
        Ok(events)
    }
}
