//! Whose messages they are.
ghost use Rattle.std.specs.Prelude.{◌≡◌, true, false};
ghost use Rattle.port_session.specs.Messages.{IsFor};

use crate::port::Port;
use mos_values::Envelope;
use port_events::Side;

/// Whether the message is for this end: whether it has the port's names, on the editors' port its ncsID.
pub(crate) fn is_for(port: &Port, e: &Envelope) -> bool
    ensures yes { result ≡ true → IsFor port.now e.now }
    ensures no { result ≡ false → IsFor port.now e.now → ⊥ }
{
    match port.side {
        Side::Upper | Side::Lower => e.mos.is(&port.mos) && e.ncs.is(&port.ncs),
        Side::Editor => e.ncs.is(&port.ncs),
    }
}
