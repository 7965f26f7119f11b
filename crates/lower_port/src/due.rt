//! What is sent before any heartbeat.
ghost use Rattle.std.specs.Prelude.{◌≡◌};
ghost use Rattle.lower_port.specs.Connections.{all_due};

use mos_fields::Samples;

/// What is due on a lower connection that this end opened.
#[derive(Clone, Copy, Debug, PartialEq, Eq)]
pub enum Due {
    /// Nothing.
    Nothing,
    /// The request of all objects, without a pause: the server's first message.
    Request,
    /// The list of all objects.
    List,
    /// The objects from this place on, which counts from 0, one a turn.
    Objects(usize),
}

impl Due {
    /// What a request of all objects with this pause makes due: one list where the pause is 0, else object after object.
    pub fn all(pause: Samples) -> Due
        ensures { result ≡ all_due pause }
    {
        if pause.count() == 0 {
            Due::List
        } else {
            Due::Objects(0)
        }
    }
}
