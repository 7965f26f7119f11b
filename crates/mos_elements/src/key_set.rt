//! The keys of records beside each other.
ghost use Rattle.std.specs.Prelude.{◌≡◌, ◌++◌, ◌∷◌, [], List, Some, ℕ, OnErr, OnOk, cond};
ghost use Rattle.std.specs.BTreeMap.{get, is_at};
ghost use Rattle.std.specs.Cmp.Lexicographic.{slice_cmp};
ghost use Rattle.std.specs.Ordering.{nat_cmp};
ghost use Rattle.mos_fields.specs.Forms.{among};
ghost use Rattle.mos_fields.specs.declared.field.Field.{Field as FieldOf};
ghost use Rattle.mos_grammar.specs.Records.{key_of as key_of_lem, keys as keys_of_lem};
ghost use Rattle.mos_grammar.specs.Records.{Child as ChildOf};
ghost use Rattle.mos_elements.specs.Keys.{Holds};
ghost use Rattle.mos_elements.specs.Parts.{part_events};

use crate::child::Part;
use crate::keys::key_of;
use mos_fields::{NoMemory, Text};
use mos_tables::Table;
use std::alloc::Global;
use std::collections::BTreeMap;

/// The keys of a record's children, to be looked up.
#[derive(Drop)]
pub struct KeySet {
    pub keys: BTreeMap<Text, ()>,
}

fn put(keys: &mut BTreeMap<Text, ()>, key: Text) -> Result<(), NoMemory>
    ensures ok { OnOk result ((q : List ℕ) → get (slice_cmp nat_cmp) keys.new q ≡ cond (is_at (slice_cmp nat_cmp key) q) (Some tt) (get (slice_cmp nat_cmp) keys.old q)) }
    ensures err { OnErr result (keys.new.entries ≡ keys.old.entries) }
{
    keys.insert(key, ())?;
    Ok(())
}

impl KeySet {
    /// The empty set, which takes no memory.
    #[tactic(auto, using(crate::proofs::KeyLemmas::holds_none))]
    pub fn new(alloc: Global) -> Self
        ensures { Holds result.keys [] }
    {
        KeySet {
            keys: BTreeMap::new(alloc),
        }
    }

    /// Whether the key is there.
    pub fn contains(&self, key: &Text) -> bool
        ensures { (ks : List (List ℕ)) → Holds (self.now).keys ks → result ≡ among key.now ks }
    {
        self.keys.contains_key(key)
    }

    /// Adds a key. Without memory for it the set stays as it was.
    pub fn insert(&mut self, key: &Text) -> Result<(), NoMemory>
        ensures ok { OnOk result ((ks : List (List ℕ)) → Holds (self.old).keys ks → Holds (self.new).keys (ks ++ key.now ∷ [])) }
        ensures err { OnErr result ((ks : List (List ℕ)) → Holds (self.old).keys ks → Holds (self.new).keys ks) }
    {
        let key = key.try_clone()?;
        put(&mut self.keys, key)?;
        Ok(())
    }

    /// Adds the key that a child has, if it is a record. Without memory for it the set stays as it was.
    fn note_key(&mut self, part: &Part) -> Result<(), NoMemory>
        ensures ok { OnOk result ((ks : List (List ℕ)) → Holds (self.old).keys ks → Holds (self.new).keys (ks ++ key_of_lem (part_events part.now))) }
        ensures err { OnErr result ((ks : List (List ℕ)) → Holds (self.old).keys ks → Holds (self.new).keys ks) }
    {
        match key_of(part) {
            None => Ok(()),
            Some(key) => self.insert(key),
        }
    }

    /// Adds the key of one more child, where the table's records inside have keys. Without memory for it the set stays as it
    /// was.
    pub fn note(&mut self, table: Table, part: &Part) -> Result<(), NoMemory>
        ensures ok { OnOk result ((cs : List ChildOf) → (f : FieldOf) → Holds (self.old).keys (keys_of_lem table cs) → Holds (self.new).keys (keys_of_lem table (cs ++ (f, part_events part.now) ∷ []))) }
        ensures err { OnErr result ((ks : List (List ℕ)) → Holds (self.old).keys ks → Holds (self.new).keys ks) }
    {
        if table.has_keys() {
            self.note_key(part)
        } else {
            Ok(())
        }
    }
}
