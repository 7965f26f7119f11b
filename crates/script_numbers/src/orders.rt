//! The numbers on the stories of all orders.
ghost use Rattle.std.specs.Prelude.{◌≡◌, [], OnOk, IfOk, IsSome, Some, None, if◌then◌else◌};
ghost use Rattle.mos_edits.specs.Texts.{same_id, has_id};
ghost use Rattle.mos_edits.specs.Rows.{look};
ghost use Rattle.mos_edits.specs.Orders.{form_of, taken_out};
ghost use Rattle.mos_values.specs.Distinct.{story_ids};
ghost use Rattle.order_table.specs.Rows.{find_row};
ghost use Rattle.script_numbers.specs.Numbers.{IsChanged, IsSame, HasRow, numbers_on};

use crate::stories::{Stories, TakingOut, know_story, numbers_in_order, put_number};
use mos_fields::{Id, NoMemory};
use mos_values::Action;
use order_table::OrderTable;
use running_order::Order;
use std::alloc::Global;

// The numbers on the stories of each order, by roID.
pub type Orders = OrderTable<Stories>;

// Gives an order a row, where it has none. Only that takes memory.
fn know_order(orders: &mut Orders, ro: &Id) -> Result<(), NoMemory>
    ensures there { OnOk result (IsSome (find_row ro.now orders.new)) }
    ensures same { look [] orders.new ≡ look [] orders.old }
{
    match orders.find(ro) {
        Some(_) => Ok(()),
        None => orders.put(ro, OrderTable::new(orders.allocator())),
    }
}

// Gives a story of an order a row, where it has none. Only that takes memory.
pub fn know(orders: &mut Orders, ro: &Id, story: &Id) -> Result<(), NoMemory>
    ensures there { OnOk result (HasRow ro.now story.now orders.new) }
    ensures same { IsSame orders.old orders.new }
{
    know_order(orders, ro)?;
    let mut stories = OrderTable::new(orders.allocator());
    orders.exchange(ro, &mut stories);
    let known = know_story(&mut stories, story);
    orders.exchange(ro, &mut stories);
    known
}

// Puts a number on a story of an order, in place of a former one. It takes no memory.
pub fn put(orders: &mut Orders, ro: &Id, story: &Id, number: u64)
    requires { HasRow ro.now story.now orders.old }
    ensures { IsChanged ro.now (λ q old. if same_id q story.now then Some number else old) orders.old orders.new }
{
    let mut stories = OrderTable::new(orders.allocator());
    orders.exchange(ro, &mut stories);
    put_number(&mut stories, story, number);
    orders.exchange(ro, &mut stories);
}

// Takes away all numbers of an order. It takes no memory.
pub fn clear(orders: &mut Orders, ro: &Id)
    ensures { IsChanged ro.now (λ q old. None) orders.old orders.new }
{
    orders.remove(ro);
}

// Takes away the numbers on the stories that an action takes out. It takes no memory.
pub fn take_out(orders: &mut Orders, ro: &Id, action: &Action)
    ensures { IsChanged ro.now (λ q old. if has_id q (taken_out (form_of action.now)) then None else old) orders.old orders.new }
{
    match orders.find(ro) {
        Some(_) => {
            let mut stories = OrderTable::new(orders.allocator());
            orders.exchange(ro, &mut stories);
            stories.change_all(&TakingOut { action });
            orders.exchange(ro, &mut stories);
        }
        None => {}
    }
}

// The numbers on the stories of an order, in their order.
pub fn numbers_of(
    alloc: Global,
    orders: &Orders,
    ro: &Id,
    order: &Order,
) -> Result<Vec<u64>, NoMemory>
    ensures { IfOk result (λ v. v.items ≡ numbers_on (story_ids order.now.stories) (look [] orders.now ro.now)) }
{
    match orders.find(ro) {
        Some(stories) => numbers_in_order(alloc, stories, order),
        None => Ok(Vec::new(alloc)),
    }
}
