//! Reading end tags and the rest of raw elements.
ghost use Rattle.std.specs.Prelude.{◌≡◌, IfOk};
ghost use Rattle.mos_scanner.specs.Parts.{IsCharacter};
ghost use Rattle.mos_scanner.specs.ScannerView.{IsSoundAt, IsStep};
ghost use Rattle.mos_scanner.specs.declared.mode.Mode.TheVariants.{EndName, EndWhite, InTail};

use crate::chars::{is_space, may_grow};
use crate::mode::Mode;
use crate::scanned::{Kind, Scanned};
use crate::scanner::Scanner;
use crate::tail::ends_with_end_tag;

impl Scanner {
    /// A character behind `</` or behind the beginning of an end tag's name.
    pub(crate) fn in_end_name(
        &mut self,
        held: &[u16],
        here: usize,
        next: usize,
        c: char,
        outside: bool,
    ) -> Scanned
        requires mode { (self.old).mode ≡ EndName }
        requires sound { IsSoundAt EndName self.old held.now here }
        requires character { IsCharacter held.now here next c }
        ensures { IsStep EndName self.old self.new outside result held.now here next c }
    {
        let length = here - self.start - 2;
        if may_grow(length, c) {
            Scanned::More
        } else if length == 0 {
            Scanned::NoToken
        } else {
            self.name_end = here;
            self.in_end_white(held, here, next, c, outside)
        }
    }

    /// A character behind the name of an end tag.
    pub(crate) fn in_end_white(
        &mut self,
        held: &[u16],
        here: usize,
        next: usize,
        c: char,
        outside: bool,
    ) -> Scanned
        requires sound { IsSoundAt EndWhite self.old held.now here }
        requires character { IsCharacter held.now here next c }
        ensures { IsStep EndWhite self.old self.new outside result held.now here next c }
    {
        if c == '>' {
            Scanned::Token(Kind::CloseTag)
        } else if is_space(c) {
            self.mode = Mode::EndWhite;
            Scanned::More
        } else {
            Scanned::NoToken
        }
    }

    /// A character of the rest of a raw element.
    pub(crate) fn in_tail(
        &mut self,
        held: &[u16],
        here: usize,
        next: usize,
        c: char,
        outside: bool,
    ) -> Scanned
        requires mode { (self.old).mode ≡ InTail }
        requires sound { IsSoundAt InTail self.old held.now here }
        requires character { IsCharacter held.now here next c }
        ensures { IsStep InTail self.old self.new outside result held.now here next c }
    {
        if ends_with_end_tag(&held[self.raw_start..self.raw_end], &held[self.start..next]) {
            Scanned::Token(Kind::Tail)
        } else {
            Scanned::More
        }
    }
}
