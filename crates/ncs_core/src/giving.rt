//! An accepted edit, as the devices are given it.
ghost use Rattle.std.specs.Prelude.{◌≡◌, ℕ, ◌<◌, ◌&&◌, length, OnOk};
ghost use Rattle.mos_edits.specs.Entries.{kind};
ghost use Rattle.mos_edits.specs.Texts.{set_order};
ghost use Rattle.mos_machines.specs.Server.{is_open, is_whole as is_whole_of, view_given};
ghost use Rattle.ncs_core.specs.State.{states, given_by, HaveRoomFor};

use mos_edits::Edit;
use mos_fields::{Id, NoMemory};
use server_peer::Peer;

/// Whether an edit says what the whole order is.
pub fn is_whole(edit: &Edit) -> bool
    ensures { result ≡ is_whole_of (kind edit.now) }
{
    match edit {
        Edit::Create(_) => true,
        Edit::Replace(_) => true,
        Edit::Delete(_) => true,
        Edit::Metadata(_) => false,
        Edit::Act { ro: _, action: _ } => false,
        Edit::Air { ro: _, air: _ } => false,
        Edit::Script(_) => false,
    }
}

/// Makes room at each device for the view that an accepted edit of this order may leave. Nothing else changes, also
/// without memory for it.
pub fn reserve_all(peers: &mut [Peer], ro: &Id, is_whole: bool) -> Result<(), NoMemory>
    ensures room { OnOk result (HaveRoomFor is_whole ro.now peers.new) }
    ensures same { states peers.new ≡ states peers.old }
{
    let mut d = 0;
    'peers: while d < peers.len() {
        peers[d].reserve_given(ro, is_whole)?;
        d += 1;
    }
    Ok(())
}

/// An edit of this order was accepted, which is its entry `n`: each device is given it, as `Peer` says. It takes no memory.
pub fn give_all(peers: &mut [Peer], ro: &Id, is_whole: bool, n: u64)
    requires { HaveRoomFor is_whole ro.now peers.old }
    ensures { states peers.new ≡ (λ d. given_by ro.now is_whole n (states peers.old d)) }
{
    let mut d = 0;
    'peers: while d < peers.len() {
        peers[d].given(ro, is_whole, n);
        d += 1;
    }
}
