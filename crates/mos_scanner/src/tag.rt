//! Reading start tags and empty tags.
ghost use Rattle.std.specs.Prelude.{◌≡◌, IfOk};
ghost use Rattle.mos_scanner.specs.Parts.{IsCharacter};
ghost use Rattle.mos_scanner.specs.ScannerView.{IsSoundAt, IsStep};
ghost use Rattle.mos_scanner.specs.declared.mode.Mode.TheVariants.{InTag, StartName, InStart, BeforeClose};

use crate::chars::{begins_attribute, is_space, is_start, may_grow};
use crate::mode::Mode;
use crate::scanned::{Kind, Scanned};
use crate::scanner::Scanner;

impl Scanner {
    /// The character behind `<`.
    pub(crate) fn in_tag(
        &mut self,
        held: &[u16],
        here: usize,
        next: usize,
        c: char,
        outside: bool,
    ) -> Scanned
        requires sound { IsSoundAt InTag self.old held.now here }
        requires character { IsCharacter held.now here next c }
        ensures { IsStep InTag self.old self.new outside result held.now here next c }
    {
        if c == '/' {
            self.mode = Mode::EndName;
            Scanned::More
        } else if c == '?' {
            self.mode = Mode::BeforeXml;
            Scanned::More
        } else if is_start(c) {
            self.attributes.clear();
            self.mode = Mode::StartName;
            Scanned::More
        } else {
            Scanned::NoToken
        }
    }

    /// A character behind the name of a start tag, or behind its beginning.
    pub(crate) fn in_start_name(
        &mut self,
        held: &[u16],
        here: usize,
        next: usize,
        c: char,
        outside: bool,
    ) -> Scanned
        requires mode { (self.old).mode ≡ StartName }
        requires sound { IsSoundAt StartName self.old held.now here }
        requires character { IsCharacter held.now here next c }
        ensures { IsStep StartName self.old self.new outside result held.now here next c }
    {
        if may_grow(here - self.start - 1, c) {
            Scanned::More
        } else {
            self.name_end = here;
            self.in_start(false, held, here, next, c, outside)
        }
    }

    /// A character behind the name of a start tag or an attribute.
    pub(crate) fn in_start(
        &mut self,
        spaced: bool,
        held: &[u16],
        here: usize,
        next: usize,
        c: char,
        outside: bool,
    ) -> Scanned
        requires sound { IsSoundAt (InStart spaced) self.old held.now here }
        requires character { IsCharacter held.now here next c }
        ensures { IsStep (InStart spaced) self.old self.new outside result held.now here next c }
    {
        if is_space(c) {
            self.mode = Mode::InStart(true);
            Scanned::More
        } else if c == '>' {
            Scanned::Token(Kind::OpenTag)
        } else if c == '/' {
            self.mode = Mode::BeforeClose;
            Scanned::More
        } else if begins_attribute(spaced, c) {
            self.attribute_start = here;
            self.mode = Mode::AttributeName;
            Scanned::More
        } else {
            Scanned::NoToken
        }
    }

    /// The character behind the `/` of an empty tag.
    pub(crate) fn before_close(
        &mut self,
        held: &[u16],
        here: usize,
        next: usize,
        c: char,
        outside: bool,
    ) -> Scanned
        requires sound { IsSoundAt BeforeClose self.old held.now here }
        requires character { IsCharacter held.now here next c }
        ensures { IsStep BeforeClose self.old self.new outside result held.now here next c }
    {
        if c == '>' {
            Scanned::Token(Kind::EmptyTag)
        } else {
            Scanned::NoToken
        }
    }
}
