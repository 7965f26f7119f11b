//! Edits on the table of orders.
ghost use Rattle.std.specs.Prelude.{◌≡◌, ℕ, Bool, Option, IsSome, None, OnOk, OnErr, IfOk, IfErr};
ghost use Rattle.element_action.specs.Answers.{IsCause};
ghost use Rattle.mos_edits.specs.Entries.{entry_of, refusal};
ghost use Rattle.mos_edits.specs.KeyedLists.{Applied};
ghost use Rattle.mos_edits.specs.KeyedLists.Applied.{Done};
ghost use Rattle.mos_edits.specs.Orders.{Order as Made, edit_ro as edit_ro_of};
ghost use Rattle.mos_machines.specs.Tables.{look, put_row};
ghost use Rattle.order_table.specs.Rows.{find_row};
ghost use Rattle.mos_edits.specs.Sizes.{at_most_64_bits};
ghost use Rattle.ncs_core.specs.State.{all_units};
ghost use Rattle.ncs_core.specs.Accepting.{applied_to, rows_over, rows_after, rows_acceptance, IsRefusal, leaves_all as leaves_all_of, former_of, restored};
ghost use Rattle.ncs_core.specs.declared.former.Former.TheVariants.{Same, Was};

use crate::fault::CommandFault;
use crate::former::{Former, put_back};
use crate::limits::{exchanged_units, overrun, script_overrun, units_alone};
use crate::orders::{NO_ORDERS, Orders, Table, order_in};
use element_action::{ActFault, applied, apply};
use mos_edits::Edit;
use mos_fields::{Id, NoMemory, let_go};
use order_table::OrderTable;
use rundown_log::edit_ro;
use running_order::Order;
use std::alloc::Global;
use std::mem::replace;

// A fault of an edit, as a command tells it.
fn told(fault: ActFault) -> CommandFault
    ensures { (takes : Bool) → (defined : Applied (Option Made)) → (units : Option ℕ) → IsCause takes defined fault → IsRefusal (refusal defined units) result }
{
    match fault {
        ActFault::Missing { id } => CommandFault::Missing { id },
        ActFault::AlreadyThere { id } => CommandFault::AlreadyThere { id },
        ActFault::NoMemory => CommandFault::NoMemory,
    }
}

// What an edit makes of its order.
fn edited(alloc: Global, orders: &Table, edit: &Edit) -> Result<Option<Order>, CommandFault>
    ensures made { IfOk result (λ o. applied_to orders.now (entry_of edit.now) ≡ Done o) }
    ensures fault { IfErr result (λ f. (units : Option ℕ) → IsRefusal (refusal (applied_to orders.now (entry_of edit.now)) units) f) }
{
    match applied(alloc, order_in(orders, edit_ro(edit)), edit) {
        Ok(order) => Ok(order),
        Err(fault) => Err(told(fault)),
    }
}

// Gives an order a row, where it has none. Only that takes memory.
fn know(orders: &mut Table, ro: &Id) -> Result<(), NoMemory>
    ensures there { OnOk result (IsSome (find_row ro.now orders.new)) }
    ensures rows { OnOk result ((order : Option Made) → put_row ro.now order orders.new ≡ put_row ro.now order orders.old) }
    ensures same { look None orders.new ≡ look None orders.old }
    ensures units { all_units orders.new ≡ all_units orders.old }
{
    orders.has_ascending_ids();
    match orders.find(ro) {
        Some(_) => Ok(()),
        None => orders.put(ro, None),
    }
}

// Whether no limit is passed, where the list of all orders has so many code units, and the edit passes `next` by itself.
fn within(orders: &Table, ro: &Id, units: u64, next: Option<u64>) -> Result<(), CommandFault>
    requires { units ≡ at_most_64_bits (all_units orders.now) }
    ensures within { OnOk result (rows_over orders.now ro.now next ≡ None) }
    ensures units { OnOk result (units ≡ all_units orders.now) }
    ensures full { IfErr result (λ f. (order : Option Made) → IsRefusal (refusal (Done order) (rows_over orders.now ro.now next)) f) }
{
    match overrun(orders, ro, units, next) {
        Some(units) => Err(CommandFault::Full { units }),
        None => Ok(()),
    }
}

// Exchanges an order for another, where the orders then pass no limit, and gives how many code units the list of all has
// then; where they would, or without memory, all orders stay as they were.
fn exchange_within(
    alloc: Global,
    orders: &mut Table,
    units: u64,
    ro: &Id,
    order: &mut Option<Order>,
    next: Option<u64>,
) -> Result<u64, CommandFault>
    requires there { IsSome (find_row ro.now orders.old) }
    requires units { units ≡ all_units orders.old }
    ensures order { OnOk result (order.new ≡ look None orders.old ro.now) }
    ensures rows { OnOk result (orders.new ≡ put_row ro.now order.old orders.old) }
    ensures within { OnOk result (rows_over (put_row ro.now order.old orders.old) ro.now next ≡ None) }
    ensures units { IfOk result (λ units. units ≡ all_units orders.new) }
    ensures fault { IfErr result (λ f. IsRefusal (refusal (Done order.old) (rows_over (put_row ro.now order.old orders.old) ro.now next)) f) }
    ensures err { OnErr result (look None orders.new ≡ look None orders.old) }
    ensures kept { OnErr result (all_units orders.new ≡ all_units orders.old) }
{
    orders.has_ascending_ids();
    let former = units_alone(alloc, order_in(orders, ro))?;
    let new = units_alone(alloc, order.as_ref())?;
    let units = exchanged_units(units, former, new);
    orders.exchange(ro, order);
    match within(orders, ro, units, next) {
        Ok(()) => Ok(units),
        Err(fault) => {
            orders.exchange(ro, order);
            Err(fault)
        }
    }
}

// Whether an edit leaves all orders as they are: READY and NOT READY do, of an order that is there.
fn leaves_all(orders: &Table, edit: &Edit) -> bool
    ensures { result ≡ leaves_all_of orders.now edit.now }
{
    match edit {
        Edit::Air { ro, air: _ } => order_in(orders, ro).is_some(),
        _ => false,
    }
}

// Whether the orders pass no limit as they are. Nothing is to be put back then.
fn stay_within(orders: &Orders, ro: &Id, next: Option<u64>) -> Result<Former, CommandFault>
    ensures former { IfOk result (λ f. f ≡ Same) }
    ensures within { OnOk result (rows_over orders.now ro.now next ≡ None) }
    ensures full { IfErr result (λ f. (order : Option Made) → IsRefusal (refusal (Done order) (rows_over orders.now ro.now next)) f) }
{
    match within(&orders.table, ro, orders.units, next) {
        Ok(()) => Ok(Former::Same),
        Err(fault) => Err(fault),
    }
}

// Puts an order in its row, where the orders then pass no limit, and gives what was there.
fn put_within(
    alloc: Global,
    orders: &mut Orders,
    ro: &Id,
    order: Option<Order>,
    next: Option<u64>,
) -> Result<Former, CommandFault>
    ensures former { IfOk result (λ f. f ≡ Was (look None orders.old ro.now)) }
    ensures rows { OnOk result (orders.new ≡ put_row ro.now order orders.old) }
    ensures within { OnOk result (rows_over (put_row ro.now order orders.old) ro.now next ≡ None) }
    ensures fault { IfErr result (λ f. IsRefusal (refusal (Done order) (rows_over (put_row ro.now order orders.old) ro.now next)) f) }
    ensures err { OnErr result (look None orders.new ≡ look None orders.old) }
{
    let mut held = order;
    match exchange_in(alloc, orders, ro, &mut held, next) {
        Ok(()) => Ok(Former::Was { order: held }),
        Err(fault) => {
            let_go(held);
            Err(fault)
        }
    }
}

// Puts what an edit makes of its order in its row, where the edit is accepted, and gives what was there.
fn put_edited(alloc: Global, orders: &mut Orders, edit: &Edit) -> Result<Former, CommandFault>
    ensures former { IfOk result (λ f. f ≡ Was (look None orders.old (edit_ro_of edit.now))) }
    ensures rows { OnOk result (orders.new ≡ rows_after orders.old (entry_of edit.now)) }
    ensures accepted { OnOk result (rows_acceptance orders.old (entry_of edit.now) ≡ None) }
    ensures fault { IfErr result (λ f. IsRefusal (rows_acceptance orders.old (entry_of edit.now)) f) }
    ensures err { OnErr result (look None orders.new ≡ look None orders.old) }
{
    match edited(alloc, &orders.table, edit) {
        Ok(order) => put_within(alloc, orders, edit_ro(edit), order, script_overrun(edit)),
        Err(fault) => Err(fault),
    }
}

/// Puts what an edit makes of its order in its row, where the edit is accepted, and gives what `undo` puts back.
///
/// READY and NOT READY of an order that is there copy nothing. After each error all orders are as they were.
pub fn accept_edit(alloc: Global, orders: &mut Orders, edit: &Edit) -> Result<Former, CommandFault>
    ensures former { IfOk result (λ f. f ≡ former_of orders.old edit.now) }
    ensures rows { OnOk result (orders.new ≡ rows_after orders.old (entry_of edit.now)) }
    ensures accepted { OnOk result (rows_acceptance orders.old (entry_of edit.now) ≡ None) }
    ensures fault { IfErr result (λ f. IsRefusal (rows_acceptance orders.old (entry_of edit.now)) f) }
    ensures err { OnErr result (look None orders.new ≡ look None orders.old) }
{
    orders.has_ascending_ids();
    if leaves_all(&orders.table, edit) {
        stay_within(orders, edit_ro(edit), script_overrun(edit))
    } else {
        put_edited(alloc, orders, edit)
    }
}

// Exchanges an order for what is in its row, which it gets where it has none, where the orders then pass no limit.
fn exchange_in(
    alloc: Global,
    orders: &mut Orders,
    ro: &Id,
    order: &mut Option<Order>,
    next: Option<u64>,
) -> Result<(), CommandFault>
    ensures order { OnOk result (order.new ≡ look None orders.old ro.now) }
    ensures rows { OnOk result (orders.new ≡ put_row ro.now order.old orders.old) }
    ensures within { OnOk result (rows_over (put_row ro.now order.old orders.old) ro.now next ≡ None) }
    ensures fault { IfErr result (λ f. IsRefusal (refusal (Done order.old) (rows_over (put_row ro.now order.old orders.old) ro.now next)) f) }
    ensures err { OnErr result (look None orders.new ≡ look None orders.old) }
{
    know(&mut orders.table, ro)?;
    let units = exchange_within(alloc, &mut orders.table, orders.units, ro, order, next)?;
    orders.units = units;
    Ok(())
}

// What an edit makes of its order, in place, where it is accepted; and how many code units the list of all orders has then.
// After an error the orders may be any.
fn edit_row(alloc: Global, orders: &mut Table, units: u64, edit: &Edit) -> Result<u64, CommandFault>
    requires { units ≡ all_units orders.old }
    ensures rows { OnOk result (orders.new ≡ rows_after orders.old (entry_of edit.now)) }
    ensures units { IfOk result (λ units. units ≡ all_units orders.new) }
    ensures accepted { OnOk result (rows_acceptance orders.old (entry_of edit.now) ≡ None) }
    ensures fault { IfErr result (λ f. IsRefusal (rows_acceptance orders.old (entry_of edit.now)) f) }
{
    let ro = edit_ro(edit);
    know(orders, ro)?;
    orders.has_ascending_ids();
    let mut order = None;
    orders.exchange(ro, &mut order);
    let former = units_alone(alloc, order.as_ref());
    let applied = apply(alloc, &mut order, edit);
    let new = units_alone(alloc, order.as_ref());
    orders.exchange(ro, &mut order);
    let_go(order);
    match applied {
        Ok(()) => {
            let units = exchanged_units(units, former?, new?);
            match within(orders, ro, units, script_overrun(edit)) {
                Ok(()) => Ok(units),
                Err(fault) => Err(fault),
            }
        }
        Err(fault) => Err(told(fault)),
    }
}

/// Does an edit on its order in place, where the edit is accepted. After an error no orders are left: nothing is copied to be
/// put back.
pub fn edit_order(alloc: Global, orders: &mut Orders, edit: &Edit) -> Result<(), CommandFault>
    ensures rows { OnOk result (orders.new ≡ rows_after orders.old (entry_of edit.now)) }
    ensures accepted { OnOk result (rows_acceptance orders.old (entry_of edit.now) ≡ None) }
    ensures fault { IfErr result (λ f. IsRefusal (rows_acceptance orders.old (entry_of edit.now)) f) }
{
    match edit_row(alloc, &mut orders.table, orders.units, edit) {
        Ok(units) => {
            orders.units = units;
            Ok(())
        }
        Err(fault) => {
            let_go(replace(&mut orders.table, OrderTable::new(alloc)));
            orders.units = NO_ORDERS;
            Err(fault)
        }
    }
}

/// Puts back what was there before an edit, when the list of all orders had so many code units. It takes no memory.
pub fn undo(orders: &mut Orders, ro: &Id, former: Former, units: u64)
    requires there { IsSome (find_row ro.now orders.old) }
    requires units { units ≡ all_units (restored former ro.now orders.old) }
    ensures { orders.new ≡ restored former ro.now orders.old }
{
    put_back(&mut orders.table, ro, former);
    orders.units = units;
}
