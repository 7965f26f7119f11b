//! The list of all orders.
ghost use Rattle.std.specs.Prelude.{◌≡◌, ◌++◌, OnOk, OnErr, IfOk, IsSome};
ghost use Rattle.mos_machines.specs.Tables.{unknown_order, look, put_row};
ghost use Rattle.order_table.specs.Rows.{find_row};
ghost use Rattle.gateway_core.specs.Lists.{missing_one, missing_rows, listed_order, want_listed, listed_rows, AreKnown};

use crate::changes::WantingOut;
use crate::known::Known;
use crate::orders::{is_wanted_in, mark, phase_in};
use mos_fields::{Id, NoMemory};
use mos_values::HeaderPatch;
use order_table::OrderTable;
use std::alloc::Global;

// Adds a row for an order that has none.
fn push_missing(
    new: &mut Vec<(Id, Known)>,
    orders: &OrderTable<Known>,
    ro: &Id,
) -> Result<(), NoMemory>
    ensures { OnOk result (new.new.items ≡ new.old.items ++ missing_one ro.now (find_row ro.now orders.now)) }
{
    match orders.find(ro) {
        Some(_) => Ok(()),
        None => {
            new.push((ro.try_clone()?, Known::unknown()))?;
            Ok(())
        }
    }
}

// The rows for the listed orders that have none.
fn missing(
    alloc: Global,
    orders: &OrderTable<Known>,
    headers: &[HeaderPatch],
) -> Result<Vec<(Id, Known)>, NoMemory>
    ensures { IfOk result (λ v. v.items ≡ missing_rows headers.now orders.now) }
{
    let mut new = Vec::new(alloc);
    'headers: for header in headers {
        push_missing(&mut new, orders, &header.ro)?;
    }
    Ok(new)
}

// Wants an order that has a row, unless it is in step.
fn want_one(orders: &mut OrderTable<Known>, ro: &Id)
    requires { IsSome (find_row ro.now orders.old) }
    ensures { orders.new ≡ put_row ro.now (listed_order (look unknown_order orders.old ro.now)) orders.old }
{
    let phase = phase_in(orders, ro);
    let wanted = !phase.is_in() || is_wanted_in(orders, ro);
    mark(orders, ro, phase, wanted);
}

// Wants the listed orders, each of which has a row.
fn want_each(orders: &mut OrderTable<Known>, headers: &[HeaderPatch])
    requires { AreKnown headers.now orders.old }
    ensures { orders.new ≡ want_listed headers.now orders.old }
{
    'headers: for header in headers {
        want_one(orders, &header.ro);
    }
}

// A list of all orders came: each listed order that isn't in step, and each known one that is out of step, is wanted. Only
// new rows take memory.
pub fn list_in(orders: &mut OrderTable<Known>, headers: &[HeaderPatch]) -> Result<(), NoMemory>
    ensures ok { OnOk result (orders.new ≡ listed_rows headers.now orders.old) }
    ensures err { OnErr result (orders.new ≡ orders.old) }
{
    let new = missing(orders.allocator(), orders, headers)?;
    orders.put_all(new)?;
    orders.change_all(&WantingOut);
    want_each(orders, headers);
    Ok(())
}
