//! Single views of a device's table.
ghost use Rattle.std.specs.Prelude.{◌≡◌, ℕ, List, OnOk, IsSome};
ghost use Rattle.mos_machines.specs.Server.{View as ServerView};
ghost use Rattle.mos_machines.specs.Tables.{look, put_row};
ghost use Rattle.order_table.specs.Rows.{find_row};
ghost use Rattle.server_peer.specs.Parts.{AreBelow, after_view};

use crate::after::After;
use crate::view::Seen;
use mos_fields::{Id, NoMemory, let_go};
use order_table::OrderTable;

// Gives an order a row, where it has none. Only that takes memory.
pub fn know(views: &mut OrderTable<Seen>, ro: &Id) -> Result<(), NoMemory>
    ensures there { OnOk result (IsSome (find_row ro.now views.new)) }
    ensures same { look ServerView.Out views.new ≡ look ServerView.Out views.old }
    ensures kept { (q : List ℕ) → IsSome (find_row q views.old) → IsSome (find_row q views.new) }
{
    match views.find(ro) {
        Some(_) => Ok(()),
        None => views.put(ro, Seen::out(views.allocator())),
    }
}

// Changes the view of an order that has a row. It takes no memory.
pub fn step(views: &mut OrderTable<Seen>, ro: &Id, after: After)
    requires { IsSome (find_row ro.now views.old) }
    ensures { views.new ≡ put_row ro.now (after_view after (look ServerView.Out views.old ro.now)) views.old }
{
    let mut seen = Seen::out(views.allocator());
    views.exchange(ro, &mut seen);
    seen.step(after);
    views.exchange(ro, &mut seen);
    let_go(seen);
}

// A list of an order that has a row is on its way. It takes no memory.
pub fn set_listed(views: &mut OrderTable<Seen>, ro: &Id, m: u64, scripts: Vec<u64>)
    requires there { IsSome (find_row ro.now views.old) }
    requires below { AreBelow m scripts.items }
    ensures { views.new ≡ put_row ro.now (ServerView.Listed m scripts.items) views.old }
{
    let mut seen = Seen::listed(m, scripts);
    views.exchange(ro, &mut seen);
    let_go(seen);
}
