//! A list of numbers in which the places of each number are found from the last to the first.
ghost use Rattle.std.specs.Prelude.{◌≡◌, ◌+◌, ◌<◌, ◌≤◌, [], ◌∷◌, ◌++◌, length, get_or, take, OnOk, ℕ, Some, cond, nat_eq, vec_len, vec_capacity};
ghost use Rattle.indexmap.specs.IndexMap.{get, spare};
ghost use Rattle.status_board.specs.Links.{AreLinked, last_of};

use indexmap::IndexMap;
use mos_fields::NoMemory;
use std::alloc::Global;
use std::marker::Model;

/// Numbers in order. The last place of a number is found without a walk over them, and from each place the one before it of
/// the same number. A place counts from 1 where 0 is none.
#[derive(Drop)]
pub(crate) struct Links {
    numbers: Vec<u64>,
    older: Vec<usize>,
    newest: IndexMap<u64, usize>,
    room: usize,
}

impl Model for Links {
    ghost use Rattle.std.specs.Prelude.{◌≤◌, ◌+◌, nat_eq, vec_len, vec_capacity};
    ghost use Rattle.indexmap.specs.IndexMap.{get, spare};
    ghost use Rattle.status_board.specs.Links.{AreLinked, LinkedNumbers};

    ghost Value = { LinkedNumbers };

    ghost view = { λ l. record { numbers = l.numbers.items; spare = l.room } };

    ghost invariant = { λ l. AreLinked (λ n. get nat_eq l.newest n) l.older.items l.numbers.items × (vec_len l.numbers + l.room ≤ vec_capacity l.numbers) × (vec_len l.older + l.room ≤ vec_capacity l.older) × (l.room ≤ spare l.newest) };
}

impl Links {
    /// No numbers. It takes no memory; the list grows in this allocator.
    pub fn new(alloc: Global) -> Self
        ensures numbers { result.numbers ≡ [] }
        ensures spare { result.spare ≡ 0 }
    {
        Links {
            numbers: Vec::new(alloc),
            older: Vec::new(alloc),
            newest: IndexMap::new(alloc),
            room: 0,
        }
    }

    /// The last place of a number, counted from 1; 0 where it isn't there.
    pub fn last(&self, n: u64) -> usize
        ensures { result ≡ last_of n self.now.numbers }
    {
        match self.newest.get(&n) {
            Some(place) => *place,
            None => 0,
        }
    }

    /// The last place before `i` of the number that stands at `i`, which counts from 0; the result counts from 1, and is 0
    /// where there is none.
    pub fn before(&self, i: usize) -> usize
        requires { i < length self.now.numbers }
        ensures { result ≡ last_of (get_or self.now.numbers i 0) (take i self.now.numbers) }
    {
        self.older[i]
    }

    /// Makes the room for one more number. The only error is that memory runs out.
    pub fn make_room(&mut self) -> Result<(), NoMemory>
        ensures numbers { self.new.numbers ≡ self.old.numbers }
        ensures spare { self.old.spare ≤ self.new.spare }
        ensures room { OnOk result (1 ≤ self.new.spare) }
    {
        self.numbers.reserve(1)?;
        self.older.reserve(1)?;
        self.newest.reserve(1)?;
        self.room = self.room.max(1);
        Ok(())
    }

    /// Puts a number behind the others, for which there is room.
    pub fn push(&mut self, n: u64)
        requires { 1 ≤ self.old.spare }
        ensures numbers { self.new.numbers ≡ self.old.numbers ++ n ∷ [] }
        ensures spare { self.new.spare + 1 ≡ self.old.spare }
    {
        let before = self.last(n);
        push_all(
            &mut self.numbers,
            &mut self.older,
            &mut self.newest,
            n,
            before,
        );
        self.room -= 1;
    }
}

// Says where the last of a number stands.
fn note_place(newest: &mut IndexMap<u64, usize>, n: u64, place: usize)
    requires { 1 ≤ spare newest.old }
    ensures places { (q : ℕ) → get nat_eq newest.new q ≡ cond (nat_eq n q) (Some place) (get nat_eq newest.old q) }
    ensures spare { spare newest.old ≤ spare newest.new + 1 }
{
    newest.insert(n, place).unwrap();
}

// Puts a number behind the others, of which the last place before was this.
fn push_all(
    numbers: &mut Vec<u64>,
    older: &mut Vec<usize>,
    newest: &mut IndexMap<u64, usize>,
    n: u64,
    before: usize,
)
    requires linked { AreLinked (λ q. get nat_eq newest.old q) older.old.items numbers.old.items }
    requires before { before ≡ last_of n numbers.old.items }
    requires numbers { vec_len numbers.old < vec_capacity numbers.old }
    requires older { vec_len older.old < vec_capacity older.old }
    requires newest { 1 ≤ spare newest.old }
    ensures items { numbers.new.items ≡ numbers.old.items ++ n ∷ [] }
    ensures linked { AreLinked (λ q. get nat_eq newest.new q) older.new.items numbers.new.items }
    ensures numbers { vec_len numbers.new + vec_capacity numbers.old ≤ vec_len numbers.old + 1 + vec_capacity numbers.new }
    ensures older { vec_len older.new + vec_capacity older.old ≤ vec_len older.old + 1 + vec_capacity older.new }
    ensures newest { spare newest.old ≤ spare newest.new + 1 }
{
    numbers.push(n).unwrap();
    older.push(before).unwrap();
    note_place(newest, n, numbers.len());
}
