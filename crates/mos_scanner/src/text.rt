//! Reading texts.
ghost use Rattle.std.specs.Prelude.{◌≡◌, IfOk};
ghost use Rattle.mos_scanner.specs.Parts.{IsCharacter};
ghost use Rattle.mos_scanner.specs.ScannerView.{IsSoundAt, IsStep};
ghost use Rattle.mos_scanner.specs.declared.mode.Mode.TheVariants.{Begin, InText, TextReference};

use crate::chars::{is_mark, is_mark_behind_white};
use crate::mode::Mode;
use crate::reference::{Reference, Referred};
use crate::scanned::{Kind, Scanned};
use crate::scanner::Scanner;
use mos_fields::NoMemory;
use std::alloc::Global;

impl Scanner {
    /// The first character of a token.
    pub(crate) fn at_begin(
        &mut self,
        held: &[u16],
        here: usize,
        next: usize,
        c: char,
        outside: bool,
    ) -> Scanned
        requires sound { IsSoundAt Begin self.old held.now here }
        requires character { IsCharacter held.now here next c }
        ensures { IsStep Begin self.old self.new outside result held.now here next c }
    {
        if c == '<' {
            self.mode = Mode::InTag;
            Scanned::More
        } else if is_mark(outside, c) {
            Scanned::Token(Kind::Mark)
        } else if c == '&' {
            self.text.clear();
            self.reference = next;
            self.referring = Reference::Empty;
            self.mode = Mode::TextReference;
            Scanned::More
        } else {
            self.is_resolved = false;
            self.mode = Mode::InText;
            Scanned::More
        }
    }

    /// A character behind a text.
    pub(crate) fn in_text(
        &mut self,
        held: &[u16],
        here: usize,
        next: usize,
        c: char,
        outside: bool,
    ) -> Result<Scanned, NoMemory>
        requires mode { (self.old).mode ≡ InText }
        requires sound { IsSoundAt InText self.old held.now here }
        requires character { IsCharacter held.now here next c }
        ensures { IfOk result (λ r. IsStep InText self.old self.new outside r held.now here next c) }
    {
        if c == '<' {
            Ok(Scanned::TextBefore)
        } else if is_mark_behind_white(outside, c, &held[self.start..here]) {
            Ok(Scanned::TextBeforeMark)
        } else if c == '&' {
            self.resolve(held, self.start, here)?;
            self.reference = next;
            self.referring = Reference::Empty;
            self.mode = Mode::TextReference;
            Ok(Scanned::More)
        } else {
            self.grow_resolved(held, here, next)?;
            Ok(Scanned::More)
        }
    }

    /// A character behind a `&` in a text.
    pub(crate) fn in_text_reference(
        &mut self,
        held: &[u16],
        here: usize,
        next: usize,
        c: char,
        outside: bool,
    ) -> Result<Scanned, NoMemory>
        requires mode { (self.old).mode ≡ TextReference }
        requires sound { IsSoundAt TextReference self.old held.now here }
        requires character { IsCharacter held.now here next c }
        ensures { IfOk result (λ r. IsStep TextReference self.old self.new outside r held.now here next c) }
    {
        match self.referring.next(c) {
            Referred::Found(d) => {
                self.push_resolved(d)?;
                self.is_resolved = true;
                self.mode = Mode::InText;
                Ok(Scanned::More)
            }
            Referred::Begun(reference) => {
                self.referring = reference;
                Ok(Scanned::More)
            }
            Referred::Never => Ok(Scanned::NoReference(here - self.reference + 1)),
        }
    }
}
