//! The stack of open records.
ghost use Rattle.std.specs.Prelude.{◌≡◌, Err};
ghost use Rattle.mos_grammar.specs.Streams.{before_message, before_prolog, message_step};
ghost use Rattle.mos_grammar.specs.Streams.{inside as inside_position};
ghost use Rattle.mos_tokens.specs.TokenView.{IsSound, token_of};
ghost use Rattle.mos_elements.specs.Ahead.{is_in_raw as is_in_raw_of, may_stay, stands_in_raw, stands_outside};
ghost use Rattle.mos_elements.specs.States.{state_of};
ghost use Rattle.mos_elements.specs.Standing.{Takes, TakesStep, reads, stage_of, standing_in, taken_of, value_of};

use crate::fault::FrameFault;
use crate::inside::Inside;
use crate::mode::Mode;
use crate::place::{Place, Stage};
use crate::progress::Progress;
use crate::prolog::step_before;
use mos_events::Events;
use mos_tokens::Token;
use std::alloc::Global;
use std::marker::Model;

/// Reading messages token after token, each to its value. It holds the open records of one message.
#[derive(Drop)]
pub struct Frames {
    alloc: Global,
    place: Place,
    inside: Inside,
}

impl Model for Frames {
    ghost use Rattle.mos_elements.specs.Standing.{Standing, standing_in};

    ghost Value = { Standing };

    ghost view = { λ f. standing_in f.place f.inside };
}

fn fail(place: &mut Place, fault: FrameFault) -> Result<Progress, FrameFault>
    ensures answer { result ≡ Err fault }
    ensures place { place.new ≡ Place.Failed fault }
{
    *place = Place::Failed(fault);
    Err(fault)
}

fn take_before(
    alloc: Global,
    stage: Stage,
    place: &mut Place,
    inside: &mut Inside,
    token: Token<'_>,
) -> Result<Progress, FrameFault>
    ensures { TakesStep (message_step (before_message (stage_of stage)) (token_of token.entry)) result (standing_in place.new inside.new) }
{
    match step_before(stage, token) {
        Err(fault) => fail(place, FrameFault::Rejected(fault)),
        Ok(Some(stage)) => {
            *place = Place::Before(stage);
            Ok(Progress::More)
        }
        Ok(None) => match inside.begin(alloc) {
            Err(_) => fail(place, FrameFault::NoMemory),
            Ok(()) => {
                *place = Place::InMessage;
                Ok(Progress::More)
            }
        },
    }
}

#[tactic(auto, unfolding(mos_grammar::specs::Streams::message_step))]
fn take_inside(
    alloc: Global,
    place: &mut Place,
    inside: &mut Inside,
    token: Token<'_>,
) -> Result<Progress, FrameFault>
    requires place { place.old ≡ Place.InMessage }
    requires sound { IsSound token }
    ensures { TakesStep (message_step (inside_position (state_of inside.old)) (token_of token.entry)) result (standing_in place.new inside.new) }
{
    match inside.take(alloc, token) {
        Err(fault) => fail(place, fault),
        Ok(progress) => Ok(progress),
    }
}

fn is_raw(inside: &Inside) -> bool
    ensures { result ≡ is_in_raw_of (state_of inside.now) }
{
    match &inside.mode {
        Mode::InRaw(_) => true,
        _ => false,
    }
}

impl Frames {
    /// In front of a message. It takes no memory yet.
    pub fn new(alloc: Global) -> Self
        ensures { result ≡ reads (before_message before_prolog) }
    {
        Frames {
            alloc,
            place: Place::Before(Stage::BeforeProlog),
            inside: Inside::blank(alloc),
        }
    }

    /// Takes the next token: the message goes on, or it is whole with this token. Its value waits then for `take_value`,
    /// and until that was called no token fits.
    ///
    /// `Rejected` comes exactly where the token doesn't fit behind the tokens before it, with the fault that it shows.
    /// `NoMemory` comes where there is no memory for what the token adds. Behind either each later token is answered with
    /// the same fault.
    pub fn take(&mut self, token: Token<'_>) -> Result<Progress, FrameFault>
        requires { IsSound token }
        ensures { Takes self.old (token_of token.entry) result self.new }
    {
        match self.place {
            Place::Before(stage) => {
                take_before(self.alloc, stage, &mut self.place, &mut self.inside, token)
            }
            Place::InMessage => {
                take_inside(self.alloc, &mut self.place, &mut self.inside, token)
            }
            Place::Failed(fault) => Err(fault),
        }
    }

    /// The value of the message that is whole with the last token, and the next message may begin. `None` exactly where
    /// none is whole, or its value was taken; then reading stands as it did.
    pub fn take_value(&mut self) -> Option<Events>
        ensures value { result ≡ value_of self.old }
        ensures stands { self.new ≡ taken_of self.old }
    {
        match self.place {
            Place::InMessage => {
                let value = self.inside.take_value()?;
                self.place = Place::Before(Stage::BeforeProlog);
                Some(value)
            }
            _ => None,
        }
    }

    /// Whether reading stands in front of a message.
    pub fn is_outside(&self) -> bool
        ensures { result ≡ stands_outside self.now }
    {
        match self.place {
            Place::Before(_) => true,
            _ => false,
        }
    }

    /// Whether reading may stay where it is: in front of a message, behind no declaration.
    pub fn may_rest(&self) -> bool
        ensures { result ≡ may_stay self.now }
    {
        match self.place {
            Place::Before(Stage::BehindDeclaration) => false,
            Place::Before(_) => true,
            _ => false,
        }
    }

    /// Whether reading stands in a raw element: the next token is its rest.
    pub fn is_in_raw(&self) -> bool
        ensures { result ≡ stands_in_raw self.now }
    {
        match self.place {
            Place::InMessage => is_raw(&self.inside),
            _ => false,
        }
    }
}
