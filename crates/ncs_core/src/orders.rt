//! The orders that are there.
ghost use Rattle.std.specs.Prelude.{◌≡◌, ◌++◌, [], None, OnOk, IfOk};
ghost use Rattle.std.specs.Option.{option_copied};
ghost use Rattle.mos_machines.specs.Tables.{look, row_ids};
ghost use Rattle.mos_values.specs.Headers.{patch_of};
ghost use Rattle.order_table.specs.Rows.{IsAscending};
ghost use Rattle.ncs_core.specs.State.{all_units, row_headers, one_header};

use mos_fields::{Id, NoMemory};
use mos_values::{HeaderPatch, Headers, Sequence};
use order_table::OrderTable;
use running_order::Order;
use std::alloc::Global;
use std::marker::Model;

// Each order that an entry names, or that there is none any more.
pub type Table = OrderTable<Option<Order>>;

/// The code units of the list of no orders.
pub const NO_ORDERS: u64 = 23;

/// Each order that an entry names, or that there is none any more; and how many code units the list of all has. Contracts see
/// the rows.
#[derive(Drop)]
pub struct Orders {
    pub(crate) table: Table,
    pub(crate) units: u64,
}

impl Model for Orders {
    ghost use Rattle.std.specs.Prelude.{◌≡◌, List, Option};
    ghost use Rattle.mos_edits.specs.Orders.{Order as Made};
    ghost use Rattle.mos_edits.specs.Texts.{Text};
    ghost use Rattle.ncs_core.specs.State.{all_units};

    ghost Value = { List (Text × Option Made) };

    ghost view = { λ o. o.table };

    ghost invariant = { λ o. o.units ≡ all_units o.table };
}

impl Orders {
    /// No orders. It takes no memory; the table grows in this allocator.
    pub fn new(alloc: Global) -> Self
        ensures { result ≡ [] }
    {
        Orders {
            table: OrderTable::new(alloc),
            units: NO_ORDERS,
        }
    }

    /// The rows, in ascending order.
    pub fn rows(&self) -> &[(Id, Option<Order>)]
        ensures { result.now ≡ self.now }
    {
        self.table.rows()
    }

    /// The law of the type: the roIDs ascend.
    pub fn has_ascending_ids(&self)
        ensures { IsAscending (row_ids self.now) }
    {
        self.table.has_ascending_ids();
    }

    /// The code units of the list of all orders.
    pub fn units(&self) -> u64
        ensures { result ≡ all_units self.now }
    {
        self.units
    }

    /// The order of a roID, where there is one.
    pub fn order(&self, ro: &Id) -> Option<&Order>
        ensures { option_copied result ≡ look None self.now ro.now }
    {
        order_in(&self.table, ro)
    }
}

// The order of a roID, where there is one.
pub fn order_in<'a>(orders: &'a Table, ro: &Id) -> Option<&'a Order>
    ensures { option_copied result ≡ look None orders.now ro.now }
{
    match orders.find(ro) {
        Some(held) => held.as_ref(),
        None => None,
    }
}

// The header of an order as a list of all orders has it.
fn listed(order: &Order) -> Result<HeaderPatch, NoMemory>
    ensures { IfOk result (λ h. h ≡ patch_of order.now.header) }
{
    Ok(order.header().try_clone()?.into_patch())
}

// Adds the header of an order, where it is there.
fn push_header(headers: &mut Headers, held: &Option<Order>) -> Result<(), NoMemory>
    ensures { OnOk result (headers.new ≡ headers.old ++ one_header held.now) }
{
    match held {
        Some(order) => headers.push(listed(order)?),
        None => Ok(()),
    }
}

// The header of an order, where there is one.
pub fn header_of(alloc: Global, order: Option<&Order>) -> Result<Headers, NoMemory>
    ensures { IfOk result (λ hs. hs ≡ one_header (option_copied order.entry)) }
{
    let mut headers = Sequence::new(alloc);
    match order {
        Some(order) => headers.push(listed(order)?)?,
        None => {}
    }
    Ok(headers)
}

// The headers of all orders, by roID.
pub fn headers_in(alloc: Global, rows: &[(Id, Option<Order>)]) -> Result<Headers, NoMemory>
    ensures { IfOk result (λ hs. hs ≡ row_headers rows.now) }
{
    let mut headers = Sequence::new(alloc);
    'rows: for row in rows {
        push_header(&mut headers, &row.1)?;
    }
    Ok(headers)
}
