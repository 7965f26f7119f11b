//! The texts of roAcks.
ghost use Rattle.std.specs.Prelude.{◌≡◌, ◌++◌, [], IfOk, take};
ghost use Rattle.mos_machines.specs.Messages.{status_text, status_limit};
ghost use Rattle.machine_answers.specs.Answers.{status_of};

use mos_fields::{NoMemory, OptId, Slug};
use mos_values::{AckGroups, RoAck};
use std::alloc::Global;

/// Why a message about a running order was refused, or that it was not.
#[derive(Drop)]
pub enum Status {
    /// `OK`
    Okay,
    /// `NO DECK`: decks were handed in, and none is left.
    NoDeck,
    /// `NOT IN STEP`: the device isn't in step with the server.
    NotInStep,
    /// `MISSING` and the ID of what isn't there.
    Missing(OptId),
    /// `ALREADY THERE` and the ID of what is there.
    AlreadyThere(OptId),
    /// `FULL`: a limit of the server would be passed.
    Full,
    /// `STORE FAULT`: the journal couldn't be written.
    StoreFault,
    /// `STOPPED`: an earlier entry couldn't be written.
    Stopped,
    /// `NOT NOW`: an edit of the order is on its way.
    NotNow,
    /// `NO RUNNING ORDER`: there is no such order.
    NoRunningOrder,
    /// `NOT SUPPORTED`: no machine acts on such a message.
    NotSupported,
}

impl Status {
    /// The text, at most 128 characters: one that carries an ID is cut there. The only error is that memory runs out.
    pub fn text(&self, alloc: Global) -> Result<Slug, NoMemory>
        ensures { IfOk result (λ t. t ≡ status_text (status_of self.now)) }
    {
        match self {
            Status::Okay => words(alloc, &['O', 'K']),
            Status::NoDeck => words(alloc, &['N', 'O', ' ', 'D', 'E', 'C', 'K']),
            Status::NotInStep => words(
                alloc,
                &['N', 'O', 'T', ' ', 'I', 'N', ' ', 'S', 'T', 'E', 'P'],
            ),
            Status::Missing(id) => words_with(alloc, &['M', 'I', 'S', 'S', 'I', 'N', 'G', ' '], id),
            Status::AlreadyThere(id) => words_with(
                alloc,
                &[
                    'A', 'L', 'R', 'E', 'A', 'D', 'Y', ' ', 'T', 'H', 'E', 'R', 'E', ' ',
                ],
                id,
            ),
            Status::Full => words(alloc, &['F', 'U', 'L', 'L']),
            Status::StoreFault => words(
                alloc,
                &['S', 'T', 'O', 'R', 'E', ' ', 'F', 'A', 'U', 'L', 'T'],
            ),
            Status::Stopped => words(alloc, &['S', 'T', 'O', 'P', 'P', 'E', 'D']),
            Status::NotNow => words(alloc, &['N', 'O', 'T', ' ', 'N', 'O', 'W']),
            Status::NoRunningOrder => words(
                alloc,
                &[
                    'N', 'O', ' ', 'R', 'U', 'N', 'N', 'I', 'N', 'G', ' ', 'O', 'R', 'D', 'E', 'R',
                ],
            ),
            Status::NotSupported => words(
                alloc,
                &[
                    'N', 'O', 'T', ' ', 'S', 'U', 'P', 'P', 'O', 'R', 'T', 'E', 'D',
                ],
            ),
        }
    }
}

// A text of a few allowed characters.
fn words(alloc: Global, chars: &[char]) -> Result<Slug, NoMemory>
    ensures { IfOk result (λ t. t ≡ chars.now) }
{
    match Slug::try_new(alloc, chars) {
        Ok(slug) => Ok(slug),
        Err(_) => Err(NoMemory),
    }
}

// The same with an ID behind it, cut to what a status may have.
fn words_with(alloc: Global, front: &[char], id: &OptId) -> Result<Slug, NoMemory>
    ensures { IfOk result (λ t. t ≡ take status_limit (front.now ++ id.now)) }
{
    let mut chars = Vec::from_slice(alloc, front)?;
    id.push_to(&mut chars)?;
    chars.truncate(128);
    words(alloc, &chars)
}

/// The roAck of an order, or of none where `ro` is empty. The only error is that memory runs out.
pub fn acknowledgement(alloc: Global, ro: OptId, status: &Status) -> Result<RoAck, NoMemory>
    ensures { IfOk result (λ a. a ≡ record { ro = ro; status = status_text (status_of status.now); groups = [] }) }
{
    let status = status.text(alloc)?;
    Ok(RoAck {
        ro,
        status,
        groups: AckGroups::new(alloc),
    })
}
