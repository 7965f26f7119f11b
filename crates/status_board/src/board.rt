//! The board of reports.
ghost use Rattle.std.specs.Prelude.{◌≡◌, ◌+◌, ◌≤◌, [], ◌∷◌, ◌++◌, codes, slice_set, IfOk, OnOk, IfErr};
ghost use Rattle.std.specs.List.{position_from};
ghost use Rattle.std.specs.Option.{option_copied};
ghost use Rattle.mos_values.specs.Units.{capped};
ghost use Rattle.status_board.specs.Board.{IsFault, answer, answer_units, find_report, is_of_element as is_of_element_so, is_of_same, put_report, size_limit};
ghost use Rattle.status_board.specs.Numbers.{element_of};
ghost use Rattle.status_board.specs.Tables.{StandsAt};

use crate::elements::text_or;
use crate::fault::BoardFault;
use crate::links::Links;
use crate::numbers::{element_number, order_number};
use crate::rows::{Row, find_row, groups_of, last_row, put_last, put_over};
use crate::sizes::{empty_units, group_units};
use mos_fields::{Id, Level, NoMemory, OptId, Slug, Text, pair_ok};
use mos_values::{AckGroups, ElementStat, RoAck, named};
use std::alloc::Global;
use std::marker::Model;

// How many code units the canonical roAck of a device and an order may have.
const LIMIT: u64 = 8_000_000;

/// The last report of each element of each device, in the order of the elements' first reports. Contracts see the reports, each
/// with the number of its device, and for how many more of new elements there is room.
///
/// An element is told by the number of the device, the roID, what it is of, the storyID and the itemID; an absent identifier
/// counts as an empty one. The canonical roAck element that lists what one device reported on one order has at most 8,000,000
/// code units. A look-up doesn't walk the reports and takes no memory.
#[derive(Drop)]
pub struct Board {
    rows: Vec<Row>,
    units: Vec<u64>,
    elements: Links,
    orders: Links,
    room: usize,
}

impl Model for Board {
    ghost use Rattle.std.specs.Prelude.{◌≤◌, ◌+◌, vec_len, vec_capacity};
    ghost use Rattle.status_board.specs.Tables.{BoardTables, IsKept};

    ghost Value = { BoardTables };

    ghost view = { λ b. record { reports = b.rows.items; spare = b.room } };

    ghost invariant = { λ b. IsKept b.rows.items b.units.items b.elements.numbers b.orders.numbers × (vec_len b.rows + b.room ≤ vec_capacity b.rows) × (vec_len b.units + b.room ≤ vec_capacity b.units) × (b.room ≤ b.elements.spare) × (b.room ≤ b.orders.spare) };
}

impl Board {
    /// No reports. It takes no memory; the board grows in this allocator.
    pub fn new(alloc: Global) -> Self
        ensures { result.reports ≡ [] }
    {
        Board {
            rows: Vec::new(alloc),
            units: Vec::new(alloc),
            elements: Links::new(alloc),
            orders: Links::new(alloc),
            room: 0,
        }
    }

    /// Makes the room for a report of a device, and changes no report.
    ///
    /// `Full` comes exactly where the canonical roAck element that lists what the device reported on the order would pass
    /// 8,000,000 code units with it, the element alone, and tells how many it would have. The other error is that memory runs
    /// out.
    pub fn room(&mut self, d: u32, s: &ElementStat) -> Result<(), BoardFault>
        ensures reports { self.new.reports ≡ self.old.reports }
        ensures spare { OnOk result (1 ≤ self.new.spare) }
        ensures within { OnOk result (answer_units d s.now.ro (put_report (d, s.now) self.old.reports) ≤ size_limit) }
        ensures fault { IfErr result (IsFault (answer_units d s.now.ro (put_report (d, s.now) self.old.reports))) }
    {
        let units = self.units_with(d, s);
        if units > LIMIT {
            return Err(BoardFault::Full { units });
        }
        match self.make_room() {
            Ok(()) => Ok(()),
            Err(_) => Err(BoardFault::NoMemory),
        }
    }

    /// Puts a report of a device on the board: in the place of the last one of its element, or behind all others where that is
    /// new. It takes no memory.
    pub fn put(&mut self, d: u32, s: ElementStat)
        requires spare { 1 ≤ self.old.spare }
        requires within { answer_units d s.ro (put_report (d, s) self.old.reports) ≤ size_limit }
        ensures reports { self.new.reports ≡ put_report (d, s) self.old.reports }
        ensures spare { self.old.spare ≤ self.new.spare + 1 }
    {
        let units = self.units_with(d, &s);
        match self.place(d, &s) {
            Some(at) => self.exchange(at, d, s, units),
            None => self.push(d, s, units),
        }
    }

    /// What a device last reported of an element, where it reported anything. It takes no memory.
    pub fn last(
        &self,
        d: u32,
        ro: &Id,
        level: Level,
        story: &OptId,
        item: &OptId,
    ) -> Option<&ElementStat>
        ensures { option_copied result ≡ find_report d ro.now level story.now item.now self.now.reports }
    {
        match self.find(d, ro.text(), level, story.text(), item.text()) {
            Some(at) => Some(&self.rows[at].1),
            None => None,
        }
    }

    /// The roAck that lists what a device reported on an order, in the order of the board, with the text `OK`. What other
    /// devices reported, and what was reported on other orders, isn't looked at. The only error is that memory runs out.
    pub fn groups(&self, d: u32, ro: &Id) -> Result<RoAck, NoMemory>
        ensures { IfOk result (λ a. a ≡ answer d ro.now self.now.reports) }
    {
        let alloc = *self.rows.allocator();
        let (groups, (ro, status)) = pair_ok(
            groups_of(alloc, &self.rows, &self.orders, d, ro.text()),
            pair_ok(named(ro), okay(alloc)),
        )?;
        Ok(RoAck {
            ro,
            status,
            groups: AckGroups::from_vec(groups),
        })
    }

    // The place of the first report of an element, from 0.
    fn find(&self, d: u32, ro: &Text, level: Level, story: &Text, item: &Text) -> Option<usize>
        ensures { result ≡ position_from (is_of_element_so d ro.now level story.now item.now) 0 self.now.reports }
    {
        let nothing = Text::new(*self.rows.allocator());
        find_row(
            &self.rows,
            &self.elements,
            d,
            ro,
            level,
            story,
            item,
            &nothing,
        )
    }

    // The place of the first report of a report's element, from 0.
    fn place(&self, d: u32, s: &ElementStat) -> Option<usize>
        ensures { result ≡ position_from (is_of_same (d, s.now)) 0 self.now.reports }
    {
        let nothing = Text::new(*self.rows.allocator());
        let story = text_or(&s.story, &nothing);
        let item = text_or(&s.item, &nothing);
        self.find(d, s.ro.text(), s.level, story, item)
    }

    // The code units of the answer that lists what a device reported on an order, 2^64 - 1 where that is smaller.
    fn units_of(&self, d: u32, ro: &Text) -> u64
        ensures { result ≡ capped (answer_units d ro.now self.now.reports) }
    {
        let last = last_row(&self.rows, &self.orders, d, ro);
        if last == 0 {
            empty_units(d, ro)
        } else {
            self.units[last - 1]
        }
    }

    // The same with a report more.
    fn units_with(&self, d: u32, s: &ElementStat) -> u64
        ensures { result ≡ capped (answer_units d s.now.ro (put_report (d, s.now) self.now.reports)) }
    {
        let nothing = Text::new(*self.rows.allocator());
        let before = self.units_of(d, s.ro.text());
        let added = group_units(s, &nothing);
        match self.place(d, s) {
            Some(at) => {
                let taken = group_units(&self.rows[at].1, &nothing);
                (before - taken).saturating_add(added)
            }
            None => before.saturating_add(added),
        }
    }

    // Makes the room for one more report.
    fn make_room(&mut self) -> Result<(), NoMemory>
        ensures reports { self.new.reports ≡ self.old.reports }
        ensures room { OnOk result (1 ≤ self.new.spare) }
    {
        self.rows.reserve(1)?;
        self.units.reserve(1)?;
        self.elements.make_room()?;
        self.orders.make_room()?;
        self.room = self.room.max(1);
        Ok(())
    }

    // Puts a report in the place of the first of its element, with which the answer has so many code units.
    fn exchange(&mut self, at: usize, d: u32, s: ElementStat, units: u64)
        requires at { StandsAt (is_of_same (d, s)) self.old.reports at }
        requires units { units ≡ answer_units d s.ro (slice_set self.old.reports at (d, s)) }
        requires within { units ≤ size_limit }
        ensures reports { self.new.reports ≡ slice_set self.old.reports at (d, s) }
        ensures spare { self.new.spare ≡ self.old.spare }
    {
        let last = last_row(&self.rows, &self.orders, d, s.ro.text());
        put_over(&mut self.rows, at, (d, s));
        self.units[last - 1] = units;
    }

    // Puts a report of a new element behind all others, with which the answer has so many code units.
    fn push(&mut self, d: u32, s: ElementStat, units: u64)
        requires spare { 1 ≤ self.old.spare }
        requires units { units ≡ answer_units d s.ro (self.old.reports ++ (d, s) ∷ []) }
        requires within { units ≤ size_limit }
        ensures reports { self.new.reports ≡ self.old.reports ++ (d, s) ∷ [] }
        ensures spare { self.new.spare + 1 ≡ self.old.spare }
    {
        let element = element_of_report(d, &s, *self.rows.allocator());
        let order = order_number(d, s.ro.text());
        put_last(&mut self.rows, (d, s));
        self.units.push(units).unwrap();
        self.elements.push(element);
        self.orders.push(order);
        self.room -= 1;
    }
}

// The number of a report's element.
fn element_of_report(d: u32, s: &ElementStat, alloc: Global) -> u64
    ensures { result ≡ element_of (d, s.now) }
{
    let nothing = Text::new(alloc);
    let story = text_or(&s.story, &nothing);
    let item = text_or(&s.item, &nothing);
    element_number(d, s.ro.text(), s.level, story, item)
}

// The text `OK`.
fn okay(alloc: Global) -> Result<Slug, NoMemory>
    ensures { IfOk result (λ t. t ≡ codes "OK") }
{
    match Slug::try_new(alloc, &['O', 'K']) {
        Ok(text) => Ok(text),
        Err(_) => Err(NoMemory),
    }
}
