//! What the ports say to the answers of the server's calls.
ghost use Rattle.std.specs.Prelude.{◌≡◌};
ghost use Rattle.port_machines.specs.Saying.{heard_said, sent_said, step_said};

use machine_answers::{Heard, Sent, Step};
use mos_fields::let_go;
use port_events::PortAnswer;

// To what became of an answer, or of an end.
pub fn step_answer(step: Step) -> PortAnswer
    ensures { result ≡ step_said step }
{
    match step {
        Step::Taken => PortAnswer::Taken,
        Step::Stale => PortAnswer::Stale,
        Step::Unasked => PortAnswer::Unasked,
    }
}

// To a message that came.
pub fn heard_answer(heard: Heard) -> PortAnswer
    ensures { result ≡ heard_said heard }
{
    match heard {
        Heard::Stale => PortAnswer::Stale,
        Heard::Say(message) => PortAnswer::Say(message),
    }
}

// To a call for the message that is sent next.
pub fn sent_answer(sent: Sent) -> PortAnswer
    ensures { result ≡ sent_said sent }
{
    match sent {
        Sent::Stale => PortAnswer::Stale,
        Sent::Nothing => PortAnswer::Nothing,
        Sent::Out { message, tag } => {
            let_go(tag);
            PortAnswer::Say(message)
        }
    }
}
