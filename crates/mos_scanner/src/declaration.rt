//! Reading the XML declaration.
ghost use Rattle.std.specs.Prelude.{◌≡◌, IfOk};
ghost use Rattle.mos_scanner.specs.Parts.{IsCharacter};
ghost use Rattle.mos_scanner.specs.ScannerView.{IsSoundAt, IsStep};
ghost use Rattle.mos_scanner.specs.declared.mode.Mode.TheVariants.{BeforeXml, BeforeMl, BeforeL, AfterXml, InDeclaration};

use crate::chars::{ends_declaration, is_space};
use crate::mode::Mode;
use crate::scanned::{Kind, Scanned};
use crate::scanner::Scanner;

impl Scanner {
    /// The character behind `<?`.
    pub(crate) fn before_xml(
        &mut self,
        held: &[u16],
        here: usize,
        next: usize,
        c: char,
        outside: bool,
    ) -> Scanned
        requires sound { IsSoundAt BeforeXml self.old held.now here }
        requires character { IsCharacter held.now here next c }
        ensures { IsStep BeforeXml self.old self.new outside result held.now here next c }
    {
        if c == 'x' {
            self.mode = Mode::BeforeMl;
            Scanned::More
        } else {
            Scanned::NoToken
        }
    }

    /// The character behind `<?x`.
    pub(crate) fn before_ml(
        &mut self,
        held: &[u16],
        here: usize,
        next: usize,
        c: char,
        outside: bool,
    ) -> Scanned
        requires sound { IsSoundAt BeforeMl self.old held.now here }
        requires character { IsCharacter held.now here next c }
        ensures { IsStep BeforeMl self.old self.new outside result held.now here next c }
    {
        if c == 'm' {
            self.mode = Mode::BeforeL;
            Scanned::More
        } else {
            Scanned::NoToken
        }
    }

    /// The character behind `<?xm`.
    pub(crate) fn before_l(
        &mut self,
        held: &[u16],
        here: usize,
        next: usize,
        c: char,
        outside: bool,
    ) -> Scanned
        requires sound { IsSoundAt BeforeL self.old held.now here }
        requires character { IsCharacter held.now here next c }
        ensures { IsStep BeforeL self.old self.new outside result held.now here next c }
    {
        if c == 'l' {
            self.mode = Mode::AfterXml;
            Scanned::More
        } else {
            Scanned::NoToken
        }
    }

    /// The character behind `<?xml`.
    pub(crate) fn after_xml(
        &mut self,
        held: &[u16],
        here: usize,
        next: usize,
        c: char,
        outside: bool,
    ) -> Scanned
        requires sound { IsSoundAt AfterXml self.old held.now here }
        requires character { IsCharacter held.now here next c }
        ensures { IsStep AfterXml self.old self.new outside result held.now here next c }
    {
        if is_space(c) {
            self.mode = Mode::InDeclaration(false);
            Scanned::More
        } else {
            Scanned::NoToken
        }
    }

    /// A further character of the declaration.
    pub(crate) fn in_declaration(
        &mut self,
        question: bool,
        held: &[u16],
        here: usize,
        next: usize,
        c: char,
        outside: bool,
    ) -> Scanned
        requires sound { IsSoundAt (InDeclaration question) self.old held.now here }
        requires character { IsCharacter held.now here next c }
        ensures { IsStep (InDeclaration question) self.old self.new outside result held.now here next c }
    {
        if ends_declaration(question, c) {
            Scanned::Token(Kind::Declaration)
        } else {
            self.mode = Mode::InDeclaration(c == '?');
            Scanned::More
        }
    }
}
