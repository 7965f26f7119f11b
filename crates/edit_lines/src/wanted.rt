//! Which answer a message wants.
ghost use Rattle.std.specs.Prelude.{◌≡◌, bytes_eq, codes};
ghost use Rattle.mos_fields.specs.Characters.{units_of};
ghost use Rattle.edit_lines.specs.Answers.{is_fitting as is_fitting_of, is_okay as is_okay_of, is_order as is_order_of, is_all as is_all_of, is_wanted as is_wanted_of, wanted_by};

use crate::matching::is_for;
use mos_fields::Slug;
use mos_values::{Envelope, Message};

/// Which answer a message wants.
#[derive(Clone, Copy, Debug, PartialEq, Eq)]
pub enum Wanted {
    /// a roAck with the text `OK`
    Okay,
    /// the list of one order
    Order,
    /// the list of all orders
    All,
}

// OK, in code units.
const OKAY: [u16; 2] = [79, 75];

/// Which answer a message wants: roReq a roList, roReqAll a roListAll, and any other a roAck with the text `OK`.
pub(crate) fn wanted_of(message: &Message) -> Wanted
    ensures { result ≡ wanted_by message.now }
{
    match message {
        Message::RoReq(_) => Wanted::Order,
        Message::RoReqAll => Wanted::All,
        _ => Wanted::Okay,
    }
}

// Whether a status says so.
fn says_okay(status: &Slug) -> bool
    ensures { result ≡ bytes_eq (units_of status.now) (codes "OK") }
{
    status.units() == OKAY.as_slice()
}

// Whether an answer is a roAck with the text `OK`.
fn is_okay(answer: &Message) -> bool
    ensures { result ≡ is_okay_of answer.now }
{
    match answer {
        Message::RoAck(ack) => says_okay(&ack.status),
        _ => false,
    }
}

// Whether an answer is a roList.
fn is_order(answer: &Message) -> bool
    ensures { result ≡ is_order_of answer.now }
{
    match answer {
        Message::RoList(_) => true,
        _ => false,
    }
}

// Whether an answer is a roListAll.
fn is_all(answer: &Message) -> bool
    ensures { result ≡ is_all_of answer.now }
{
    match answer {
        Message::RoListAll(_) => true,
        _ => false,
    }
}

// Whether an answer is of the kind that was wanted.
fn is_fitting(wanted: Wanted, answer: &Message) -> bool
    ensures { result ≡ is_fitting_of wanted answer.now }
{
    match wanted {
        Wanted::Okay => is_okay(answer),
        Wanted::Order => is_order(answer),
        Wanted::All => is_all(answer),
    }
}

/// Whether an answer is the one that a message wants: it is for that message, as `is_for` says, and it is a roList for a roReq,
/// a roListAll for roReqAll, and for any other a roAck with the text `OK`.
#[tactic(auto, unfolding(crate::specs::Answers::is_wanted))]
pub fn is_wanted(asked: &Envelope, answer: &Envelope) -> bool
    ensures { result ≡ is_wanted_of asked.now answer.now }
{
    is_for(asked, answer) && is_fitting(wanted_of(&asked.message), &answer.message)
}
