//! Changes of all views of a device.

use crate::view::Seen;
use mos_fields::Id;
use order_table::RowChange;
use rundown_log::Journal;

/// The device's connection was replaced: no list is on its way any more.
pub struct Unlisting;

impl RowChange<Seen> for Unlisting {
    ghost use Rattle.mos_machines.specs.Server.{unlisted as unlisted_of};

    ghost changed = { λ s r v. unlisted_of v };

    fn change(&self, _ro: &Id, value: &mut Seen) {
        value.unlist();
    }
}

/// A message was heard: a heartbeat says that the device took what was listed, another that it may not have.
#[derive(Drop)]
pub struct Settling<'a> {
    pub journal: &'a Journal,
    pub beat: bool,
}

impl<'a> RowChange<Seen> for Settling<'a> {
    ghost use Rattle.mos_machines.specs.Server.{settled as settled_of};

    ghost changed = { λ s r v. settled_of s.journal.now s.beat r v };

    fn change(&self, ro: &Id, value: &mut Seen) {
        value.settle(self.journal, self.beat, ro);
    }
}
