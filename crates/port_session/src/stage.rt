//! Where a connection that this end opened stands.
ghost use Rattle.std.specs.Prelude.{◌≡◌, cond};
ghost use Rattle.mos_values.specs.declared.message.Message.{Message as MessageOf};
ghost use Rattle.port_session.specs.Driving.{answered_to, beaten_to, dialed_to, next_to, paused_to};
ghost use Rattle.port_session.specs.Messages.{is_not_now as is_not_now_of};
ghost use Rattle.port_session.specs.declared.stage.Stage.TheVariants.{Ready, Rests};

use crate::end::End;
use mos_fields::let_go;
use mos_io::Pace;
use mos_values::{Envelope, Message};
use port_events::PortAnswer;

/// What is to be done next on a connection that this end opened.
#[derive(Drop)]
pub enum Stage {
    /// Dialed is to be told.
    Begins,
    /// Next is to be told.
    Ready,
    /// This message is to be written.
    Writes(Message),
    /// An answer is to be read.
    Awaits,
    /// This answer is to be told.
    Hears(Envelope),
    /// A pause is to be made.
    Rests,
    /// Beat is to be told.
    Beats,
    /// Nothing; the connection ends.
    Over(End),
}

/// A stage, and the number of the last message that was written.
#[derive(Drop)]
pub struct At {
    pub stage: Stage,
    pub number: u64,
}

pub(crate) fn after_dialed(answer: PortAnswer) -> Stage
    ensures { result ≡ dialed_to answer }
{
    match answer {
        PortAnswer::Say(message) => Stage::Writes(message),
        PortAnswer::Stale => Stage::Over(End::Stale),
        PortAnswer::Unasked => Stage::Over(End::Unasked),
        PortAnswer::Done => Stage::Ready,
        PortAnswer::Nothing => Stage::Ready,
        PortAnswer::Taken => Stage::Ready,
    }
}

pub(crate) fn after_next(answer: PortAnswer) -> Stage
    ensures { result ≡ next_to answer }
{
    match answer {
        PortAnswer::Say(message) => Stage::Writes(message),
        PortAnswer::Nothing => Stage::Rests,
        PortAnswer::Stale => Stage::Over(End::Stale),
        PortAnswer::Unasked => Stage::Over(End::Unasked),
        PortAnswer::Done => Stage::Ready,
        PortAnswer::Taken => Stage::Ready,
    }
}

// After an answer that was taken.
fn after_taken(is_not_now: bool) -> Stage
    ensures { result ≡ cond is_not_now Rests Ready }
{
    if is_not_now {
        Stage::Rests
    } else {
        Stage::Ready
    }
}

pub(crate) fn after_answered(is_not_now: bool, answer: PortAnswer) -> Stage
    ensures { (m : MessageOf) → is_not_now ≡ is_not_now_of m → result ≡ answered_to m answer }
{
    match answer {
        PortAnswer::Taken => after_taken(is_not_now),
        PortAnswer::Stale => Stage::Over(End::Stale),
        PortAnswer::Unasked => Stage::Over(End::Unasked),
        PortAnswer::Done => Stage::Ready,
        PortAnswer::Nothing => Stage::Ready,
        PortAnswer::Say(message) => {
            let_go(message);
            Stage::Ready
        }
    }
}

pub(crate) fn after_pause(pace: Pace) -> Stage
    ensures { result ≡ paused_to pace }
{
    match pace {
        Pace::Again => Stage::Ready,
        Pace::Beat => Stage::Beats,
        Pace::Stop => Stage::Over(End::Stopped),
    }
}

pub(crate) fn after_beat(answer: PortAnswer) -> Stage
    ensures { result ≡ beaten_to answer }
{
    match answer {
        PortAnswer::Stale => Stage::Over(End::Stale),
        PortAnswer::Unasked => Stage::Over(End::Unasked),
        PortAnswer::Done => Stage::Ready,
        PortAnswer::Nothing => Stage::Ready,
        PortAnswer::Taken => Stage::Ready,
        PortAnswer::Say(message) => {
            let_go(message);
            Stage::Ready
        }
    }
}
