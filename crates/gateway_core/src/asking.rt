//! What is in flight to the server on the connection that the device opened, and what is to be confirmed there.
ghost use Rattle.std.specs.Prelude.{◌≡◌, ◌||◌, if◌then◌else◌};
ghost use Rattle.mos_machines.specs.Device.{is_all as is_all_of, confirmed, Confirmation};
ghost use Rattle.gateway_core.specs.Parts.{asking_of, confirmation_of, is_due, once_sent};

use mos_fields::Id;
use std::mem::replace;

/// The request that is in flight to the server.
#[derive(Drop)]
pub enum Asking {
    /// None.
    Nothing,
    /// A roReq of this order.
    Order(Id),
    /// A roReqAll.
    All,
    /// A heartbeat.
    Beat,
}

/// The heartbeat that confirms a list that was taken.
#[derive(Drop)]
pub enum Confirm {
    /// None is to be sent.
    NotDue,
    /// One is to be sent, for this order.
    Due(Id),
    /// One was sent, for this order, and isn't answered yet.
    Unanswered(Id),
}

impl Asking {
    // Whether it is a roReqAll.
    pub fn is_all(&self) -> bool
        ensures { result ≡ is_all_of (asking_of self.now) }
    {
        match self {
            Asking::All => true,
            _ => false,
        }
    }

    // Whether all orders are to be asked for once nothing of this is in flight any more.
    pub fn leaves_all_wanted(&self, want_all: bool) -> bool
        ensures { result ≡ (want_all || is_all_of (asking_of self.now)) }
    {
        want_all || self.is_all()
    }
}

impl Confirm {
    // Sends the heartbeat that is due; says whether one was.
    pub fn send(&mut self) -> bool
        ensures due { result ≡ is_due (confirmation_of self.old) }
        ensures sent { confirmation_of self.new ≡ once_sent (confirmation_of self.old) }
    {
        match replace(self, Confirm::NotDue) {
            Confirm::Due(ro) => {
                *self = Confirm::Unanswered(ro);
                true
            }
            confirm => {
                *self = confirm;
                false
            }
        }
    }

    // The heartbeat that was sent was answered.
    pub fn answered(&mut self)
        ensures { confirmation_of self.new ≡ confirmed (confirmation_of self.old) }
    {
        match replace(self, Confirm::NotDue) {
            Confirm::Unanswered(_) => {}
            confirm => *self = confirm,
        }
    }

    // A list of this order came; where the order is in step now, the list is to be confirmed.
    pub fn list(&mut self, in_step: bool, ro: Id)
        ensures { confirmation_of self.new ≡ (if in_step then Confirmation.Due ro else confirmation_of self.old) }
    {
        if in_step {
            *self = Confirm::Due(ro);
        }
    }
}
