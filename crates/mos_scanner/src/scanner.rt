//! The scanner.
ghost use Rattle.std.specs.Prelude.{◌≡◌, ◌≤◌, ◌++◌, ℕ, List, [], length, IfOk};
ghost use Rattle.mos_grammar.specs.Tokens.{text};
ghost use Rattle.mos_lexer.specs.LexMachine.{lex_step, begin, in_tail, in_tag};
ghost use Rattle.mos_lexer.specs.Units.{is_blank as is_blank_of};
ghost use Rattle.mos_tokens.specs.TokenView.{token_of, IsSound as IsSoundToken};
ghost use Rattle.mos_scanner.specs.Parts.{IsCharacter};
ghost use Rattle.mos_scanner.specs.ScannerView.{IsSound, IsSoundAfter, IsWhole, IsWholeText, lex_of, scanned_of, kind_token, tag_name, raw_of, resolved};
ghost use Rattle.mos_scanner.specs.declared.scanned.Kind.TheVariants.{OpenTag};

use crate::chars::is_white_text;
use crate::mode::Mode;
use crate::reference::Reference;
use crate::scanned::{Kind, Scanned};
use mos_fields::NoMemory;
use mos_tokens::{Attribute, Token};
use std::alloc::Global;

/// What of a token was read, beside the code units that are held.
///
/// Places count the code units that are held.
#[derive(Drop)]
pub struct Scanner {
    pub(crate) mode: Mode,
    /// where the token begins
    pub(crate) start: usize,
    /// where the name of the tag ends
    pub(crate) name_end: usize,
    /// where the name of the raw element begins and ends whose rest is being read
    pub(crate) raw_start: usize,
    pub(crate) raw_end: usize,
    /// where the name of the attribute begins and ends, and where its value begins
    pub(crate) attribute_start: usize,
    pub(crate) attribute_end: usize,
    pub(crate) value_start: usize,
    /// the quote of the value
    pub(crate) quote: char,
    /// where the reference begins, behind its `&`
    pub(crate) reference: usize,
    /// what of it was read
    pub(crate) referring: Reference,
    /// whether the text or the value has references: `text` is what it stands for
    pub(crate) is_resolved: bool,
    pub(crate) text: Vec<u16>,
    pub(crate) attributes: Vec<Attribute>,
}

impl Scanner {
    /// A scanner that has read nothing.
    pub fn new(alloc: Global) -> Self
        ensures state { (held : List ℕ) → lex_of result held 0 ≡ begin }
        ensures sound { (held : List ℕ) → IsSound result held 0 }
    {
        Scanner {
            mode: Mode::Begin,
            start: 0,
            name_end: 0,
            raw_start: 0,
            raw_end: 0,
            attribute_start: 0,
            attribute_end: 0,
            value_start: 0,
            quote: '"',
            reference: 0,
            referring: Reference::Empty,
            is_resolved: false,
            text: Vec::new(alloc),
            attributes: Vec::new(alloc),
        }
    }

    /// Reads the character `c`, whose code units are held from `here` up to `next`. `outside` says that no message has
    /// begun, where U+FEFF is a token.
    ///
    /// What it does is what `lex_step` of the grammar's characters says of what was read before. Behind `More` the
    /// scanner has read what is held up to `next`. Behind every other answer the token, its place or the rejection is
    /// to be taken, and `begin`, `begin_tail` or `begin_tag` says where reading goes on.
    ///
    /// # Errors
    /// `NoMemory` where memory runs out. The scanner has to be given up then.
    pub fn step(
        &mut self,
        alloc: Global,
        held: &[u16],
        here: usize,
        next: usize,
        c: char,
        outside: bool,
    ) -> Result<Scanned, NoMemory>
        requires sound { IsSound self.old held.now here }
        requires character { IsCharacter held.now here next c }
        ensures same { IfOk result (λ r. scanned_of r self.new held.now here next ≡ lex_step outside (lex_of self.old held.now here) c) }
        ensures sound { IfOk result (λ r. IsSoundAfter r self.new held.now here next) }
    {
        match self.mode {
            Mode::Begin => Ok(self.at_begin(held, here, next, c, outside)),
            Mode::InText => self.in_text(held, here, next, c, outside),
            Mode::TextReference => self.in_text_reference(held, here, next, c, outside),
            Mode::InTag => Ok(self.in_tag(held, here, next, c, outside)),
            Mode::StartName => Ok(self.in_start_name(held, here, next, c, outside)),
            Mode::InStart(spaced) => Ok(self.in_start(spaced, held, here, next, c, outside)),
            Mode::AttributeName => Ok(self.in_attribute_name(held, here, next, c, outside)),
            Mode::BeforeEquals => Ok(self.before_equals(held, here, next, c, outside)),
            Mode::BeforeValue => Ok(self.before_value(held, here, next, c, outside)),
            Mode::InValue => self.in_value(alloc, held, here, next, c, outside),
            Mode::ValueReference => self.in_value_reference(held, here, next, c, outside),
            Mode::BeforeClose => Ok(self.before_close(held, here, next, c, outside)),
            Mode::EndName => Ok(self.in_end_name(held, here, next, c, outside)),
            Mode::EndWhite => Ok(self.in_end_white(held, here, next, c, outside)),
            Mode::InTail => Ok(self.in_tail(held, here, next, c, outside)),
            Mode::BeforeXml => Ok(self.before_xml(held, here, next, c, outside)),
            Mode::BeforeMl => Ok(self.before_ml(held, here, next, c, outside)),
            Mode::BeforeL => Ok(self.before_l(held, here, next, c, outside)),
            Mode::AfterXml => Ok(self.after_xml(held, here, next, c, outside)),
            Mode::InDeclaration(question) => Ok(self.in_declaration(
                question, held, here, next, c, outside,
            )),
        }
    }

    /// The next token begins at this place.
    pub fn begin(&mut self, place: usize)
        ensures state { (held : List ℕ) → lex_of self.new held place ≡ begin }
        ensures sound { (held : List ℕ) → place ≤ length held → IsSound self.new held place }
    {
        self.start = place;
        self.mode = Mode::Begin;
    }

    /// Behind the start tag that was whole with the last character: the rest of that raw element begins at this place.
    pub fn begin_tail(&mut self, held: &[u16], place: usize)
        requires { IsWhole OpenTag self.old held.now place }
        ensures state { lex_of self.new held.now place ≡ in_tail (tag_name self.old held.now) [] }
        ensures sound { IsSound self.new held.now place }
    {
        self.raw_start = self.start + 1;
        self.raw_end = self.name_end;
        self.start = place;
        self.mode = Mode::InTail;
    }

    /// Behind a text: a tag begins with the `<` that is held from `here` up to `next`.
    pub fn begin_tag(&mut self, held: &[u16], here: usize, next: usize)
        requires { IsCharacter held.now here next 60 }
        ensures state { lex_of self.new held.now next ≡ in_tag }
        ensures sound { IsSound self.new held.now next }
    {
        self.start = here;
        self.mode = Mode::InTag;
    }

    /// The token that is whole where `held` up to `next` was read.
    pub fn token<'a>(&'a self, kind: Kind, held: &'a [u16], next: usize) -> Token<'a>
        requires whole { IsWhole kind self.now held.now next }
        requires within { next ≤ length held.now }
        ensures token { token_of result ≡ kind_token kind self.now held.now next }
        ensures sound { IsSoundToken result }
    {
        match kind {
            Kind::OpenTag => Token::OpenTag(
                &held[self.start + 1..self.name_end],
                &self.attributes,
                &held[self.start..next],
            ),
            Kind::EmptyTag => Token::EmptyTag(
                &held[self.start + 1..self.name_end],
                &self.attributes,
                &held[self.start..next],
            ),
            Kind::CloseTag => Token::CloseTag(&held[self.start + 2..self.name_end]),
            Kind::Tail => Token::Tail(&held[self.start..next]),
            Kind::Mark => Token::Mark,
            Kind::Declaration => Token::Declaration,
        }
    }

    /// The text that is whole where `held` up to `here` was read.
    pub fn text<'a>(&'a self, held: &'a [u16], here: usize) -> Token<'a>
        requires { IsWholeText self.now held.now here }
        ensures token { token_of result ≡ text (raw_of self.now held.now here) (resolved self.now held.now (self.now).start here) }
        ensures sound { IsSoundToken result }
    {
        Token::Text(
            &held[self.start..here],
            self.resolved_units(held, self.start, here),
        )
    }

    /// Whether no token was begun where `held` up to `here` was read, or white space alone of a text.
    pub fn is_blank(&self, held: &[u16], here: usize) -> bool
        requires { IsSound self.now held.now here }
        ensures { result ≡ is_blank_of (lex_of self.now held.now here) }
    {
        match self.mode {
            Mode::Begin => true,
            Mode::InText => is_white_text(&held[self.start..here]),
            _ => false,
        }
    }

    /// What was read stays the same where more is held. It does nothing.
    pub fn stays_read(&self, held: &[u16], more: &[u16], here: usize)
        requires { IsSound self.now held.now here }
        ensures state { lex_of self.now (held.now ++ more.now) here ≡ lex_of self.now held.now here }
        ensures sound { IsSound self.now (held.now ++ more.now) here }
    {}
}
