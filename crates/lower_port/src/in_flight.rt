//! What awaits an answer.
ghost use Rattle.std.specs.Prelude.{◌≡◌};
ghost use Rattle.lower_port.specs.Connections.{fits as fits_of, is_heartbeat as is_heartbeat_of, is_mos_ack as is_mos_ack_of};

use mos_values::Message;

/// What is in flight on a lower connection that this end opened.
#[derive(Clone, Copy, Debug, PartialEq, Eq)]
pub enum InFlight {
    /// No answer is awaited.
    Nothing,
    /// mosReqAll
    Request,
    /// mosListAll
    List,
    /// mosObj
    Object,
    /// A heartbeat.
    Heartbeat,
}

impl InFlight {
    /// Whether this message answers it: a mosAck answers a request, a list and an object, a heartbeat a heartbeat.
    pub fn fits(self, message: &Message) -> bool
        ensures { result ≡ fits_of self message.now }
    {
        match self {
            InFlight::Nothing => false,
            InFlight::Request | InFlight::List | InFlight::Object => is_mos_ack(message),
            InFlight::Heartbeat => is_heartbeat(message),
        }
    }
}

fn is_mos_ack(message: &Message) -> bool
    ensures { result ≡ is_mos_ack_of message.now }
{
    matches!(message, Message::MosAck(_))
}

fn is_heartbeat(message: &Message) -> bool
    ensures { result ≡ is_heartbeat_of message.now }
{
    matches!(message, Message::Heartbeat(_))
}
