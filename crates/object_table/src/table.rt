//! The table of objects.
ghost use Rattle.std.specs.Prelude.{◌≡◌, true, false, ◌<◌, ◌≤◌, ◌++◌, [], ◌∷◌, codes, length, remove, slice_get, slice_set, vec_len, IfOk, OnOk, OnErr, IfErr, IsOk};
ghost use Rattle.std.specs.Option.{option_copied};
ghost use Rattle.mos_values.specs.Distinct.{AreDistinct};
ghost use Rattle.mos_edits.specs.Texts.{has_id, same_id};
ghost use Rattle.object_table.specs.Objects.{StandsAt, find_object, object_ids, says_deleted, taken};
ghost use Rattle.object_table.specs.Sizes.{list_size, size_limit};
ghost use Rattle.object_table.specs.Tables.{IsFault};

use crate::fault::TableFault;
use mos_fields::{Id, NoMemory, Text, let_go, pair_ok};
use mos_values::{MosObj, MosObjs, object_units};
use running_order::IdTable;
use std::alloc::Global;
use std::marker::Model;
use std::mem::replace;

// The code units of the canonical mosListAll element of no objects, and how many it may have.
const NO_OBJECTS: u64 = 25;

const LIMIT: u64 = 8_000_000;

// DELETED, in code units.
const DELETED: [u16; 7] = [68, 69, 76, 69, 84, 69, 68];

/// The last object of each objID, in the order in which the objIDs came first. Contracts see the list of the objects.
///
/// The canonical mosListAll element of all has at most 8,000,000 code units. A look-up doesn't walk the objects and takes no
/// memory.
#[derive(Drop)]
pub struct ObjectTable {
    objects: Vec<MosObj>,
    places: IdTable,
    units: u64,
}

impl Model for ObjectTable {
    ghost use Rattle.std.specs.Prelude.{List};
    ghost use Rattle.mos_values.specs.declared.mos_obj.MosObj.{MosObj as Value_};
    ghost use Rattle.object_table.specs.Tables.{IsKept};

    ghost Value = { List Value_ };

    ghost view = { λ t. t.objects.items };

    ghost invariant = { λ t. IsKept t.objects.items t.places t.units };
}

impl ObjectTable {
    /// No objects. It takes no memory; the table grows in this allocator.
    pub fn new(alloc: Global) -> Self
        ensures { result ≡ [] }
    {
        ObjectTable {
            objects: Vec::new(alloc),
            places: IdTable::new(alloc),
            units: NO_OBJECTS,
        }
    }

    /// How many objects there are.
    pub fn len(&self) -> usize
        ensures { result ≡ length self.now }
    {
        self.objects.len()
    }

    /// The object at a place, which counts from 0; `None` from the end on.
    pub fn at(&self, i: usize) -> Option<&MosObj>
        ensures { option_copied result ≡ slice_get self.now i }
    {
        self.objects.get(i)
    }

    /// The object of an objID, where there is one.
    pub fn get(&self, id: &Id) -> Option<&MosObj>
        ensures { option_copied result ≡ find_object id.now self.now }
    {
        match self.places.place(id.text()) {
            Some(at) => self.at(at),
            None => None,
        }
    }

    /// The code units of the canonical mosListAll element of the objects, 8,000,000 at most.
    pub fn units(&self) -> u64
        ensures count { result ≡ list_size self.now }
        ensures within { list_size self.now ≤ size_limit }
    {
        self.units
    }

    /// The law of the type: no two objects have the same objID.
    pub fn has_distinct_ids(&self)
        ensures { AreDistinct (object_ids self.now) }
    {
        self.places.has_distinct_ids();
    }

    /// Takes an object, as mosObj brings it: one of a new objID goes last, one of a present objID comes in the place of the
    /// one that is there, and the status `DELETED` removes it, while the others keep their order.
    ///
    /// `Full` comes exactly where the canonical mosListAll element of the objects would then pass 8,000,000 code units, the
    /// element alone. It never comes for a removal, which takes no memory. After each fault the table is as it was. Only a
    /// removal moves objects.
    pub fn take(&mut self, o: &MosObj) -> Result<(), TableFault>
        ensures ok { OnOk result (self.new ≡ taken o.now self.old) }
        ensures within { list_size self.new ≤ size_limit }
        ensures fault { IfErr result (IsFault (taken o.now self.old)) }
        ensures err { OnErr result (self.new ≡ self.old) }
        ensures removal { says_deleted o.now.status ≡ true → IsOk result }
    {
        match self.places.place(o.id.text()) {
            Some(at) => self.take_at(at, o),
            None => self.take_new(o),
        }
    }

    // Takes an object whose objID stands at a place.
    fn take_at(&mut self, at: usize, o: &MosObj) -> Result<(), TableFault>
        requires { StandsAt o.now.id self.old at }
        ensures ok { OnOk result (self.new ≡ taken o.now self.old) }
        ensures within { list_size self.new ≤ size_limit }
        ensures fault { IfErr result (IsFault (taken o.now self.old)) }
        ensures err { OnErr result (self.new ≡ self.old) }
        ensures removal { says_deleted o.now.status ≡ true → IsOk result }
    {
        if is_deleted(o) {
            self.remove(at);
            Ok(())
        } else {
            self.exchange(at, o)
        }
    }

    // Takes an object whose objID isn't there.
    fn take_new(&mut self, o: &MosObj) -> Result<(), TableFault>
        requires { has_id o.now.id (object_ids self.old) ≡ false }
        ensures ok { OnOk result (self.new ≡ taken o.now self.old) }
        ensures within { list_size self.new ≤ size_limit }
        ensures fault { IfErr result (IsFault (taken o.now self.old)) }
        ensures err { OnErr result (self.new ≡ self.old) }
        ensures removal { says_deleted o.now.status ≡ true → IsOk result }
    {
        if is_deleted(o) {
            let _units = self.units;
            Ok(())
        } else {
            self.push(o)
        }
    }

    // Removes the object at a place.
    fn remove(&mut self, at: usize)
        requires { at < length self.old }
        ensures value { self.new ≡ remove self.old at }
        ensures within { list_size self.new ≤ size_limit }
    {
        self.units -= object_units(&self.objects[at]);
        let_go(self.objects.remove(at));
        self.places.remove(at);
    }

    // Puts a copy of an object in the place of the one at a place, which has the same objID.
    fn exchange(&mut self, at: usize, o: &MosObj) -> Result<(), TableFault>
        requires { StandsAt o.now.id self.old at }
        ensures ok { OnOk result (self.new ≡ slice_set self.old at o.now) }
        ensures within { list_size self.new ≤ size_limit }
        ensures fault { IfErr result (IsFault (slice_set self.old at o.now)) }
        ensures err { OnErr result (self.new ≡ self.old) }
    {
        let rest = self.units - object_units(&self.objects[at]);
        let units = rest.saturating_add(object_units(o));
        if units > LIMIT {
            return Err(TableFault::Full { units });
        }
        match put_copy(&mut self.objects, at, o) {
            Ok(()) => {
                self.units = units;
                Ok(())
            }
            Err(_) => Err(TableFault::NoMemory),
        }
    }

    // Puts a copy of an object at the end, whose objID isn't there.
    fn push(&mut self, o: &MosObj) -> Result<(), TableFault>
        requires { has_id o.now.id (object_ids self.old) ≡ false }
        ensures ok { OnOk result (self.new ≡ self.old ++ o.now ∷ []) }
        ensures within { list_size self.new ≤ size_limit }
        ensures fault { IfErr result (IsFault (self.old ++ o.now ∷ [])) }
        ensures err { OnErr result (self.new ≡ self.old) }
    {
        let units = self.units.saturating_add(object_units(o));
        if units > LIMIT {
            return Err(TableFault::Full { units });
        }
        self.places.has_distinct_ids();
        match push_both(&mut self.objects, &mut self.places, o) {
            Ok(()) => {
                self.units = units;
                Ok(())
            }
            Err(_) => Err(TableFault::NoMemory),
        }
    }

    /// Copies of the objects, in order, as mosListAll carries them. The only error is that memory runs out.
    pub fn list_all(&self) -> Result<MosObjs, NoMemory>
        ensures { IfOk result (λ l. l ≡ self.now) }
    {
        let mut list = MosObjs::new(*self.objects.allocator());
        for object in &self.objects {
            add_copy(&mut list, object)?;
        }
        Ok(list)
    }

    /// The same table again, in memory of its own. The only error is that memory runs out.
    pub fn try_clone(&self) -> Result<Self, NoMemory>
        ensures { IfOk result (λ t. t ≡ self.now) }
    {
        self.places.has_distinct_ids();
        let (objects, places) = pair_ok(self.list_all(), ids_of(&self.objects))?;
        Ok(ObjectTable {
            objects: objects.into_vec(),
            places,
            units: self.units,
        })
    }
}

// Whether an object's status says that it is no more.
fn is_deleted(o: &MosObj) -> bool
    ensures { result ≡ says_deleted o.now.status }
{
    match &o.status {
        Some(status) => is_deleted_word(status),
        None => false,
    }
}

fn is_deleted_word(status: &Text) -> bool
    ensures { result ≡ same_id status.now (codes "DELETED") }
{
    status.units() == DELETED.as_slice()
}

// Puts a copy of an object in the place of the one that stands there.
fn put_copy(objects: &mut Vec<MosObj>, at: usize, o: &MosObj) -> Result<(), NoMemory>
    requires { at < vec_len objects.old }
    ensures ok { OnOk result (objects.new.items ≡ slice_set objects.old.items at o.now) }
    ensures err { OnErr result (objects.new.items ≡ objects.old.items) }
{
    let object = o.try_clone()?;
    let_go(replace(&mut objects[at], object));
    Ok(())
}

// Puts a copy of an object and its objID at the end, or leaves both as they are.
fn push_both(objects: &mut Vec<MosObj>, places: &mut IdTable, o: &MosObj) -> Result<(), NoMemory>
    requires { AreDistinct (places.old ++ o.now.id ∷ []) }
    ensures ok { OnOk result ((objects.new.items ≡ objects.old.items ++ o.now ∷ []) × (places.new ≡ places.old ++ o.now.id ∷ [])) }
    ensures err { OnErr result ((objects.new.items ≡ objects.old.items) × (places.new ≡ places.old)) }
{
    objects.reserve(1)?;
    let object = o.try_clone()?;
    match places.push(*objects.allocator(), o.id.text()) {
        Ok(()) => {
            objects.push(object).unwrap();
            Ok(())
        }
        Err(fault) => {
            let_go(object);
            Err(fault)
        }
    }
}

// Adds a copy of an object.
fn add_copy(list: &mut MosObjs, object: &MosObj) -> Result<(), NoMemory>
    ensures { OnOk result (list.new ≡ list.old ++ object.now ∷ []) }
{
    list.push(object.try_clone()?)
}

// The table of the objIDs of these objects.
fn ids_of(objects: &Vec<MosObj>) -> Result<IdTable, NoMemory>
    requires { AreDistinct (object_ids objects.now.items) }
    ensures { IfOk result (λ t. t ≡ object_ids objects.now.items) }
{
    let alloc = *objects.allocator();
    let mut table = IdTable::with_room(alloc, objects.len())?;
    for object in objects {
        table.push(alloc, object.id.text())?;
    }
    Ok(table)
}
