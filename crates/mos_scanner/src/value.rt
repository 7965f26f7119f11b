//! Reading attributes.
ghost use Rattle.std.specs.Prelude.{◌≡◌, IfOk};
ghost use Rattle.mos_scanner.specs.Parts.{IsCharacter};
ghost use Rattle.mos_scanner.specs.ScannerView.{IsSoundAt, IsStep};
ghost use Rattle.mos_scanner.specs.declared.mode.Mode.TheVariants.{AttributeName, BeforeEquals, BeforeValue, InValue, ValueReference};

use crate::chars::{is_quote, is_space, may_grow};
use crate::mode::Mode;
use crate::reference::{Reference, Referred};
use crate::scanned::Scanned;
use crate::scanner::Scanner;
use mos_fields::{NoMemory, Text};
use mos_tokens::Attribute;
use std::alloc::Global;

impl Scanner {
    /// A character behind the beginning of an attribute's name.
    pub(crate) fn in_attribute_name(
        &mut self,
        held: &[u16],
        here: usize,
        next: usize,
        c: char,
        outside: bool,
    ) -> Scanned
        requires mode { (self.old).mode ≡ AttributeName }
        requires sound { IsSoundAt AttributeName self.old held.now here }
        requires character { IsCharacter held.now here next c }
        ensures { IsStep AttributeName self.old self.new outside result held.now here next c }
    {
        if may_grow(here - self.attribute_start, c) {
            Scanned::More
        } else {
            self.attribute_end = here;
            self.before_equals(held, here, next, c, outside)
        }
    }

    /// A character between an attribute's name and its `=`.
    pub(crate) fn before_equals(
        &mut self,
        held: &[u16],
        here: usize,
        next: usize,
        c: char,
        outside: bool,
    ) -> Scanned
        requires sound { IsSoundAt BeforeEquals self.old held.now here }
        requires character { IsCharacter held.now here next c }
        ensures { IsStep BeforeEquals self.old self.new outside result held.now here next c }
    {
        if is_space(c) {
            self.mode = Mode::BeforeEquals;
            Scanned::More
        } else if c == '=' {
            self.mode = Mode::BeforeValue;
            Scanned::More
        } else {
            Scanned::NoToken
        }
    }

    /// A character between an attribute's `=` and its value.
    pub(crate) fn before_value(
        &mut self,
        held: &[u16],
        here: usize,
        next: usize,
        c: char,
        outside: bool,
    ) -> Scanned
        requires mode { (self.old).mode ≡ BeforeValue }
        requires sound { IsSoundAt BeforeValue self.old held.now here }
        requires character { IsCharacter held.now here next c }
        ensures { IsStep BeforeValue self.old self.new outside result held.now here next c }
    {
        if is_space(c) {
            Scanned::More
        } else if is_quote(c) {
            self.quote = c;
            self.value_start = next;
            self.is_resolved = false;
            self.mode = Mode::InValue;
            Scanned::More
        } else {
            Scanned::NoToken
        }
    }

    /// A character behind the beginning of an attribute's value.
    pub(crate) fn in_value(
        &mut self,
        alloc: Global,
        held: &[u16],
        here: usize,
        next: usize,
        c: char,
        outside: bool,
    ) -> Result<Scanned, NoMemory>
        requires mode { (self.old).mode ≡ InValue }
        requires sound { IsSoundAt InValue self.old held.now here }
        requires character { IsCharacter held.now here next c }
        ensures { IfOk result (λ r. IsStep InValue self.old self.new outside r held.now here next c) }
    {
        if c == self.quote {
            let attribute = self.attribute(alloc, held, here)?;
            self.attributes.push(attribute)?;
            self.mode = Mode::InStart(false);
            Ok(Scanned::More)
        } else if c == '&' {
            self.resolve(held, self.value_start, here)?;
            self.reference = next;
            self.referring = Reference::Empty;
            self.mode = Mode::ValueReference;
            Ok(Scanned::More)
        } else if c == '<' {
            Ok(Scanned::NoToken)
        } else {
            self.grow_resolved(held, here, next)?;
            Ok(Scanned::More)
        }
    }

    /// A character behind a `&` in an attribute's value.
    pub(crate) fn in_value_reference(
        &mut self,
        held: &[u16],
        here: usize,
        next: usize,
        c: char,
        outside: bool,
    ) -> Result<Scanned, NoMemory>
        requires mode { (self.old).mode ≡ ValueReference }
        requires sound { IsSoundAt ValueReference self.old held.now here }
        requires character { IsCharacter held.now here next c }
        ensures { IfOk result (λ r. IsStep ValueReference self.old self.new outside r held.now here next c) }
    {
        match self.referring.next(c) {
            Referred::Found(d) => {
                self.push_resolved(d)?;
                self.is_resolved = true;
                self.mode = Mode::InValue;
                Ok(Scanned::More)
            }
            Referred::Begun(reference) => {
                self.referring = reference;
                Ok(Scanned::More)
            }
            Referred::Never => Ok(Scanned::NoReference(here - self.reference + 1)),
        }
    }
}
