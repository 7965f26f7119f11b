//! Reading all that is held of a message.
ghost use Rattle.std.specs.Prelude.{◌≡◌, ◌+◌, ◌<◌, ◌≤◌, length, IfOk};
ghost use Rattle.mos_fields.specs.Characters.{is_high as is_high_of};
ghost use Rattle.mos_lexer.specs.Units.{message_limit};
ghost use Rattle.mos_scanner.specs.Character.{IsAtPlace, IsCut};
ghost use Rattle.mos_scanner.specs.Parts.{IsCharacter};
ghost use Rattle.mos_scanner.specs.declared.character.Character.TheVariants.{Unpaired};
ghost use Rattle.mos_reader.specs.Places.{Came, Ended, HasRead, IsOnward, RanOn, WentOn, capped_of};

use crate::outcome::Outcome;
use crate::reading::Reading;
use mos_fields::NoMemory;
use mos_lexer::Kind;
use mos_scanner::{Character, character_at};
use std::alloc::Global;

/// A message and what stands before it have so many code units at most.
const MESSAGE_LIMIT: usize = 8_388_608;

/// The first unit of a pair.
fn is_high(unit: u16) -> bool
    ensures { result ≡ is_high_of unit }
{
    unit >= 0xD800 && unit <= 0xDBFF
}

/// One unit is too many.
fn too_long() -> Outcome
    ensures { result ≡ Outcome.Rejects message_limit Kind.TooLong }
{
    Outcome::Rejects(MESSAGE_LIMIT, Kind::TooLong)
}

/// What a character comes to of which the last unit is one too many.
fn cap(outcome: Outcome) -> Outcome
    ensures { result ≡ capped_of outcome }
{
    match outcome {
        Outcome::ReadsOn => too_long(),
        Outcome::Completes(_) => too_long(),
        Outcome::Rejects(place, kind) => Outcome::Rejects(place, kind),
    }
}

impl Reading {
    /// Reads a character that ends within the limit, or of which the last unit is one too many: any other fault that such
    /// a one shows comes first.
    fn read_capped(
        &mut self,
        alloc: Global,
        held: &[u16],
        next: usize,
        c: char,
    ) -> Result<Outcome, NoMemory>
        requires read { HasRead self.old held.now }
        requires character { IsCharacter held.now (self.old).here next c }
        requires close { next ≤ message_limit + 1 }
        ensures came { IfOk result (λ o. Came o self.new held.now) }
        ensures onward { IfOk result (λ o. IsOnward o self.old self.new) }
    {
        let outcome = self.take_character(alloc, held, next, c)?;
        if next <= MESSAGE_LIMIT {
            Ok(outcome)
        } else {
            Ok(cap(outcome))
        }
    }

    /// Reads the character `c`, whose units are held from where reading is up to `next`.
    fn read_character(
        &mut self,
        alloc: Global,
        held: &[u16],
        next: usize,
        c: char,
    ) -> Result<Outcome, NoMemory>
        requires read { HasRead self.old held.now }
        requires character { IsCharacter held.now (self.old).here next c }
        ensures came { IfOk result (λ o. Came o self.new held.now) }
        ensures onward { IfOk result (λ o. IsOnward o self.old self.new) }
    {
        if next <= MESSAGE_LIMIT + 1 {
            self.read_capped(alloc, held, next, c)
        } else {
            Ok(too_long())
        }
    }

    /// A high unit is the last that is held: it waits for its low one.
    fn at_cut(&self, held: &[u16]) -> Outcome
        requires read { HasRead self.now held.now }
        requires cut { IsCut held.now (self.now).here }
        ensures { Ended result self.now held.now }
    {
        if self.here < MESSAGE_LIMIT {
            Outcome::ReadsOn
        } else {
            too_long()
        }
    }

    /// A unit of a pair stands alone.
    fn at_unpaired(&self, held: &[u16]) -> Outcome
        requires read { HasRead self.now held.now }
        requires unpaired { IsAtPlace Unpaired held.now (self.now).here }
        requires within { (self.now).here < length held.now }
        ensures { Ended result self.now held.now }
    {
        if self.here < MESSAGE_LIMIT {
            Outcome::Rejects(self.here, Kind::BadUnit)
        } else {
            self.at_unpaired_over(held)
        }
    }

    /// A unit of a pair stands alone and is one too many, which is seen first where it is a high one.
    fn at_unpaired_over(&self, held: &[u16]) -> Outcome
        requires read { HasRead self.now held.now }
        requires unpaired { IsAtPlace Unpaired held.now (self.now).here }
        requires within { (self.now).here < length held.now }
        requires over { message_limit ≤ (self.now).here }
        ensures { Ended result self.now held.now }
    {
        if is_high(held[self.here]) {
            too_long()
        } else {
            Outcome::Rejects(self.here, Kind::BadUnit)
        }
    }

    /// Reads the character where reading is, or sees that there is none.
    fn read_at(&mut self, alloc: Global, held: &[u16]) -> Result<Option<Outcome>, NoMemory>
        requires read { HasRead self.old held.now }
        requires within { (self.old).here < length held.now }
        ensures { IfOk result (λ o. WentOn o self.old self.new held.now) }
    {
        match character_at(held, self.here) {
            Character::Whole(c, next) => match self.read_character(alloc, held, next, c)? {
                Outcome::ReadsOn => Ok(None),
                outcome => Ok(Some(outcome)),
            },
            Character::Cut => Ok(Some(self.at_cut(held))),
            Character::Unpaired => Ok(Some(self.at_unpaired(held))),
            Character::Forbidden => Ok(Some(Outcome::Rejects(self.here, Kind::BadChar))),
        }
    }

    /// Reads the characters behind each of which the same token goes on.
    fn read_run(&mut self, held: &[u16]) -> Result<Option<Outcome>, NoMemory>
        requires { HasRead self.old held.now }
        ensures { IfOk result (λ o. RanOn o self.old self.new held.now) }
    {
        let next = self.scanner.skip(held, self.here)?;
        if next <= MESSAGE_LIMIT {
            self.here = next;
            Ok(None)
        } else {
            Ok(Some(too_long()))
        }
    }

    /// Reads such characters, and the one behind them.
    fn read_some(&mut self, alloc: Global, held: &[u16]) -> Result<Option<Outcome>, NoMemory>
        requires read { HasRead self.old held.now }
        requires within { (self.old).here < length held.now }
        ensures { IfOk result (λ o. WentOn o self.old self.new held.now) }
    {
        match self.read_run(held)? {
            Some(outcome) => Ok(Some(outcome)),
            None => {
                if self.here < held.len() {
                    self.read_at(alloc, held)
                } else {
                    Ok(None)
                }
            }
        }
    }

    /// Reads on until a message is complete, the stream is rejected, or all that is held was read.
    pub fn read_on(&mut self, alloc: Global, held: &[u16]) -> Result<Outcome, NoMemory>
        requires { HasRead self.old held.now }
        ensures { IfOk result (λ o. Ended o self.new held.now) }
    {
        'next: while self.here < held.len() {
            match self.read_some(alloc, held)? {
                None => {}
                Some(outcome) => return Ok(outcome),
            }
        }
        Ok(Outcome::ReadsOn)
    }
}
