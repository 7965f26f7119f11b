//! The orders that have a row among a device's views.
ghost use Rattle.std.specs.Prelude.{◌≡◌, ◌<◌, length, slice_get, Some};
ghost use Rattle.mos_machines.specs.Tables.{row_ids};

use crate::peer::Peer;
use mos_fields::Id;

impl Peer {
    /// How many orders have a row. An order without one has the view `Out`. It takes no memory.
    pub fn known(&self) -> usize
        ensures { result ≡ length (row_ids self.now.views) }
    {
        self.views.rows().len()
    }

    /// The roID of the row at a place, which counts from 0. The roIDs ascend. It takes no memory.
    pub fn id_at(&self, place: usize) -> &Id
        requires { place < length (row_ids self.now.views) }
        ensures { slice_get (row_ids self.now.views) place ≡ Some result.now }
    {
        &self.views.rows()[place].0
    }
}
