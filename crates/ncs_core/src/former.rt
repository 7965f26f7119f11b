//! What an edit found in the row of its order.
ghost use Rattle.std.specs.Prelude.{◌≡◌, IsSome};
ghost use Rattle.order_table.specs.Rows.{find_row};
ghost use Rattle.ncs_core.specs.Accepting.{restored};

use crate::orders::Table;
use mos_fields::{Id, let_go};
use running_order::Order;

/// What is put back in the row of an order, where its edit isn't kept.
#[derive(Drop)]
pub enum Former {
    /// Nothing: the edit left all orders as they were.
    Same,
    /// What was in the row.
    Was { order: Option<Order> },
}

/// Puts back what was in a row. It takes no memory.
pub fn put_back(orders: &mut Table, ro: &Id, former: Former)
    requires { IsSome (find_row ro.now orders.old) }
    ensures { orders.new ≡ restored former ro.now orders.old }
{
    match former {
        Former::Same => {}
        Former::Was { order } => {
            let mut held = order;
            orders.exchange(ro, &mut held);
            let_go(held);
        }
    }
}
