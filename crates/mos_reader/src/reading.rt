//! Where the reading of a message is.
ghost use Rattle.std.specs.Prelude.{◌≡◌, ◌≤◌, ◌++◌, ℕ, List, [], cond, length, true, IfOk};
ghost use Rattle.mos_grammar.specs.Streams.{message_step};
ghost use Rattle.mos_grammar.specs.Tokens.{mark};
ghost use Rattle.mos_lexer.specs.LexMachine.{begin, in_tail, lex_step, whole_token};
ghost use Rattle.mos_lexer.specs.Units.{at_token, is_outside as is_outside_of, kind_of as kind_of_fault, lexed, rests};
ghost use Rattle.mos_scanner.specs.Parts.{IsCharacter};
ghost use Rattle.mos_scanner.specs.ScannerView.{IsSound, IsTextBefore, IsWhole, IsWholeText, kind_token, lex_of, tag_name};
ghost use Rattle.mos_scanner.specs.declared.scanned.Kind.TheVariants.{OpenTag};
ghost use Rattle.mos_elements.specs.Ahead.{stands_in_raw, stands_outside};
ghost use Rattle.mos_reader.specs.Places.{HasRead, IsAt, IsComplete, IsPlaced, IsSoundBehind, before_mark, before_tag, outcome_of, position_of, reader_of, rests_at, value_at};

use crate::outcome::Outcome;
use mos_elements::{FrameFault, Frames, Progress};
use mos_events::Events;
use mos_fields::NoMemory;
use mos_grammar::Fault;
use mos_lexer::Kind;
use mos_scanner::{Kind as TokenKind, Scanned, Scanner};
use mos_tokens::Token;
use std::alloc::Global;

/// Where the reading of a message is. The code units are held by the caller; places count them.
#[derive(Drop)]
pub struct Reading {
    pub scanner: Scanner,
    pub frames: Frames,
    /// where the token begins that is being read
    pub start: usize,
    /// where the last token began that stands before the message or begins it
    pub opened: usize,
    /// so many units were read
    pub here: usize,
}

/// The kind of a token that doesn't fit.
fn kind_of(fault: Fault) -> Kind
    ensures { result ≡ kind_of_fault fault }
{
    match fault {
        Fault::Twice(field) => Kind::Twice(field),
        Fault::Order(field) => Kind::Order(field),
        Fault::Missing(field) => Kind::Missing(field),
        Fault::Value(field) => Kind::Value(field),
        Fault::Tag => Kind::Tag,
    }
}

/// The next token begins at this place: the rest of a raw element, or any other.
fn begin_next(scanner: &mut Scanner, is_raw: bool, held: &[u16], next: usize)
    requires raw { is_raw ≡ true → IsWhole OpenTag scanner.old held.now next }
    requires within { next ≤ length held.now }
    ensures state { lex_of scanner.new held.now next ≡ cond is_raw (in_tail (tag_name scanner.old held.now) []) begin }
    ensures sound { IsSound scanner.new held.now next }
{
    if is_raw {
        scanner.begin_tail(held, next);
    } else {
        scanner.begin(next);
    }
}

impl Reading {
    /// In front of a message, where nothing was read.
    pub fn new(alloc: Global) -> Self
        ensures { (held : List ℕ) → HasRead result held }
    {
        Reading {
            scanner: Scanner::new(alloc),
            frames: Frames::new(alloc),
            start: 0,
            opened: 0,
            here: 0,
        }
    }

    /// The value of a message that is complete. The next one begins with what is held then.
    #[tactic(auto, using(crate::proofs::TokenLemmas::complete_value))]
    pub fn take_value(&mut self) -> Events
        requires { IsComplete (self.old).frames }
        ensures value { result ≡ value_at (self.old).frames }
        ensures read { (held : List ℕ) → HasRead self.new held }
    {
        self.scanner.begin(0);
        self.start = 0;
        self.opened = 0;
        self.here = 0;
        match self.frames.take_value() {
            Some(value) => value,
            None => unreachable!(),
        }
    }

    /// What was read stays the same where more is held. It does nothing.
    pub fn stay(&self, held: &[u16], more: &[u16])
        requires { HasRead self.now held.now }
        ensures { HasRead self.now (held.now ++ more.now) }
    {
        self.scanner.stays_read(held, more, self.here);
    }

    /// Whether all that is held was read, and nothing but white space and U+FEFF of it stands behind the last message.
    pub fn is_resting(&self, held: &[u16]) -> bool
        requires { HasRead self.now held.now }
        ensures { result ≡ rests_at self.now held.now }
    {
        held.len() <= self.here && self.frames.may_rest() && self.scanner.is_blank(held, self.here)
    }

    /// Where the `<mos` of the message began, or the token that is being read in front of it.
    fn opened_by(&self) -> usize
        ensures { result ≡ cond (stands_outside (self.now).frames) (self.now).start (self.now).opened }
    {
        if self.frames.is_outside() {
            self.start
        } else {
            self.opened
        }
    }
    /// A token was taken: the next one begins behind it.
    fn rest(&mut self, held: &[u16], next: usize, opened: usize)
        requires raw { stands_in_raw (self.old).frames ≡ true → IsWhole OpenTag (self.old).scanner held.now next }
        requires within { next ≤ length held.now }
        ensures frames { (self.new).frames ≡ (self.old).frames }
        ensures state { lex_of (self.new).scanner held.now next ≡ cond (stands_in_raw (self.old).frames) (in_tail (tag_name (self.old).scanner held.now) []) begin }
        ensures sound { IsSound (self.new).scanner held.now next }
        ensures start { (self.new).start ≡ next }
        ensures opened { (self.new).opened ≡ opened }
        ensures here { (self.new).here ≡ next }
    {
        begin_next(&mut self.scanner, self.frames.is_in_raw(), held, next);
        self.start = next;
        self.opened = opened;
        self.here = next;
    }

    /// Takes a token that is whole with the last character, which ends at `next`.
    fn take_whole(
        &mut self,
        kind: TokenKind,
        held: &[u16],
        next: usize,
    ) -> Result<Outcome, NoMemory>
        requires placed { IsPlaced self.old }
        requires whole { IsWhole kind (self.old).scanner held.now next }
        requires onward { (self.old).here ≤ next }
        requires within { next ≤ length held.now }
        ensures same { IfOk result (λ o. outcome_of o self.new held.now ≡ lexed (reader_of self.old held.now) (self.old).here next (whole_token (kind_token kind (self.old).scanner held.now next))) }
        ensures sound { IfOk result (λ o. IsSoundBehind o self.new held.now next) }
    {
        let opened = self.opened_by();
        match self.frames.take(self.scanner.token(kind, held, next)) {
            Err(FrameFault::NoMemory) => Err(NoMemory),
            Err(FrameFault::Rejected(fault)) => Ok(Outcome::Rejects(self.start, kind_of(fault))),
            Ok(Progress::Whole) => {
                self.here = next;
                Ok(Outcome::Completes(opened))
            }
            Ok(Progress::More) => {
                self.rest(held, next, opened);
                Ok(Outcome::ReadsOn)
            }
        }
    }

    /// Takes a text that is whole before a `<`, which ends at `next`.
    fn take_text(&mut self, held: &[u16], next: usize) -> Result<Outcome, NoMemory>
        requires placed { IsPlaced self.old }
        requires before { IsTextBefore (self.old).scanner held.now (self.old).here next }
        ensures same { IfOk result (λ o. outcome_of o self.new held.now ≡ lexed (reader_of self.old held.now) (self.old).here next (before_tag (self.old).scanner held.now (self.old).here)) }
        ensures sound { IfOk result (λ o. IsSoundBehind o self.new held.now next) }
    {
        let opened = self.opened_by();
        let place = self.here;
        match self.frames.take(self.scanner.text(held, place)) {
            Err(FrameFault::NoMemory) => Err(NoMemory),
            Err(FrameFault::Rejected(fault)) => Ok(Outcome::Rejects(self.start, kind_of(fault))),
            Ok(Progress::Whole) => {
                self.here = next;
                Ok(Outcome::Completes(opened))
            }
            Ok(Progress::More) => {
                self.scanner.begin_tag(held, place, next);
                self.start = place;
                self.opened = opened;
                self.here = next;
                Ok(Outcome::ReadsOn)
            }
        }
    }

    /// Takes the U+FEFF that ends at `next`.
    fn take_mark(&mut self, held: &[u16], next: usize) -> Result<Outcome, NoMemory>
        requires placed { IsPlaced self.old }
        requires onward { (self.old).here ≤ next }
        requires within { next ≤ length held.now }
        ensures same { IfOk result (λ o. outcome_of o self.new held.now ≡ at_token (self.old).here (message_step (position_of (self.old).frames) mark) (rests (self.old).here next)) }
        ensures sound { IfOk result (λ o. IsSoundBehind o self.new held.now next) }
    {
        let place = self.here;
        match self.frames.take(Token::Mark) {
            Err(FrameFault::NoMemory) => Err(NoMemory),
            Err(FrameFault::Rejected(fault)) => Ok(Outcome::Rejects(place, kind_of(fault))),
            Ok(Progress::Whole) => {
                self.here = next;
                Ok(Outcome::Completes(place))
            }
            Ok(Progress::More) => {
                self.rest(held, next, place);
                Ok(Outcome::ReadsOn)
            }
        }
    }

    /// Takes a text that is whole before U+FEFF, which ends at `next`, and then that.
    fn take_text_and_mark(&mut self, held: &[u16], next: usize) -> Result<Outcome, NoMemory>
        requires placed { IsPlaced self.old }
        requires whole { IsWholeText (self.old).scanner held.now (self.old).here }
        requires onward { (self.old).here ≤ next }
        requires within { next ≤ length held.now }
        ensures same { IfOk result (λ o. outcome_of o self.new held.now ≡ lexed (reader_of self.old held.now) (self.old).here next (before_mark (self.old).scanner held.now (self.old).here)) }
        ensures sound { IfOk result (λ o. IsSoundBehind o self.new held.now next) }
    {
        match self.frames.take(self.scanner.text(held, self.here)) {
            Err(FrameFault::NoMemory) => Err(NoMemory),
            Err(FrameFault::Rejected(fault)) => Ok(Outcome::Rejects(self.start, kind_of(fault))),
            Ok(Progress::Whole) => unreachable!(),
            Ok(Progress::More) => self.take_mark(held, next),
        }
    }

    /// Reads the character `c`, whose units are held from where reading is up to `next`. Behind a message that is
    /// complete with it the next message begins.
    pub fn take_character(
        &mut self,
        alloc: Global,
        held: &[u16],
        next: usize,
        c: char,
    ) -> Result<Outcome, NoMemory>
        requires at { IsAt self.old held.now }
        requires character { IsCharacter held.now (self.old).here next c }
        ensures same { IfOk result (λ o. outcome_of o self.new held.now ≡ lexed (reader_of self.old held.now) (self.old).here next (lex_step (is_outside_of (position_of (self.old).frames)) (lex_of (self.old).scanner held.now (self.old).here) c)) }
        ensures sound { IfOk result (λ o. IsSoundBehind o self.new held.now next) }
    {
        let outside = self.frames.is_outside();
        match self.scanner.step(alloc, held, self.here, next, c, outside)? {
            Scanned::More => {
                self.here = next;
                Ok(Outcome::ReadsOn)
            }
            Scanned::Token(kind) => self.take_whole(kind, held, next),
            Scanned::TextBefore => self.take_text(held, next),
            Scanned::TextBeforeMark => self.take_text_and_mark(held, next),
            Scanned::NoToken => Ok(Outcome::Rejects(self.start, Kind::Tag)),
            Scanned::NoReference(back) => Ok(Outcome::Rejects(
                self.here.saturating_sub(back),
                Kind::Entity,
            )),
        }
    }
}
