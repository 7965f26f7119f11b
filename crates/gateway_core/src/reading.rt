//! Messages that the server sends on its connection, as they are read.
ghost use Rattle.std.specs.Prelude.{◌≡◌, [], OnOk, OnErr, IfOk, IsSome, Some, None};
ghost use Rattle.std.specs.Option.{option_copied};
ghost use Rattle.mos_machines.specs.Device.Phase.{InStep, OutOfStep};
ghost use Rattle.mos_machines.specs.Device.{Phase as DevicePhase};
ghost use Rattle.mos_machines.specs.Messages.{Status as MachineStatus};
ghost use Rattle.mos_machines.specs.Values.{seen};
ghost use Rattle.mos_machines.specs.Tables.{unknown_order, look, row_ids, put_row};
ghost use Rattle.order_table.specs.Rows.{IsAscending, find_row};
ghost use Rattle.machine_answers.specs.Answers.{status_of};
ghost use Rattle.gateway_core.specs.Parts.{phase_of, decks_of};
ghost use Rattle.gateway_core.specs.Reads.{entry_at, kept, put_result, known_result, asked_result, out_result, rows_result, whole_order, whole_result, unready_result, acked, read_rows, read_ack, IsRefusal, IsRefused};
ghost use Rattle.mos_values.specs.declared.message.Message.TheVariants as carried;

use crate::edits::{Change, apply, status_after};
use crate::known::{DeckState, Known, Phase};
use crate::orders::{is_wanted_in, know, mark, phase_in};
use element_action::ActFault;
use machine_answers::{Status, acknowledgement};
use mos_fields::{Air, Id, NoMemory, OptId, let_go, pair_ok};
use mos_values::{Message, OrderBody, RoAck};
use order_table::OrderTable;
use running_order::Order;
use std::alloc::Global;

// The roAck of an order.
fn ack(alloc: Global, ro: &Id, status: &Status) -> Result<RoAck, NoMemory>
    ensures { IfOk result (λ a. a ≡ acked ro.now (status_of status.now)) }
{
    acknowledgement(alloc, OptId::from_id(ro.try_clone()?), status)
}

// The same with a status that is let go then.
fn ack_with(alloc: Global, ro: &Id, status: Status) -> Result<RoAck, NoMemory>
    ensures { IfOk result (λ a. a ≡ acked ro.now (status_of status)) }
{
    let answer = ack(alloc, ro, &status);
    let_go(status);
    answer
}

// An edit of an order that is asked for isn't taken; the list that comes is out of date.
fn read_asked(alloc: Global, orders: &mut OrderTable<Known>, ro: &Id) -> Result<RoAck, NoMemory>
    ensures rows { OnOk result (orders.new ≡ put_row ro.now (kept (asked_result (look unknown_order orders.old ro.now))) orders.old) }
    ensures answer { IfOk result (λ a. a ≡ acked ro.now MachineStatus.NotInStep) }
    ensures err { OnErr result (orders.new ≡ orders.old) }
{
    let answer = ack_with(alloc, ro, Status::NotInStep)?;
    let wanted = is_wanted_in(orders, ro);
    match know(orders, ro) {
        Ok(()) => {
            mark(orders, ro, Phase::Crossed, wanted);
            Ok(answer)
        }
        Err(fault) => {
            let_go(answer);
            Err(fault)
        }
    }
}

// A change of an order that is out of step isn't taken; the order is asked for.
fn read_out_of_step(
    alloc: Global,
    orders: &mut OrderTable<Known>,
    ro: &Id,
) -> Result<RoAck, NoMemory>
    ensures rows { OnOk result (orders.new ≡ put_row ro.now (kept (out_result (look unknown_order orders.old ro.now))) orders.old) }
    ensures answer { IfOk result (λ a. a ≡ acked ro.now MachineStatus.NotInStep) }
    ensures err { OnErr result (orders.new ≡ orders.old) }
{
    let answer = ack_with(alloc, ro, Status::NotInStep)?;
    match know(orders, ro) {
        Ok(()) => {
            mark(orders, ro, Phase::Out, true);
            Ok(answer)
        }
        Err(fault) => {
            let_go(answer);
            Err(fault)
        }
    }
}

// A fault as the text of a roAck tells it.
fn refusal(fault: ActFault) -> Result<Status, NoMemory>
    ensures { IsRefusal fault result }
{
    match fault {
        ActFault::Missing { id } => Ok(Status::Missing(id)),
        ActFault::AlreadyThere { id } => Ok(Status::AlreadyThere(id)),
        ActFault::NoMemory => Err(NoMemory),
    }
}

// The roAck of a fault.
fn refuse(alloc: Global, ro: &Id, fault: ActFault) -> Result<RoAck, NoMemory>
    ensures { IsRefused ro.now fault result }
{
    let status = refusal(fault)?;
    ack_with(alloc, ro, status)
}

// A change of an order that is in step is applied to what is held; after a fault the order is out of step and asked for.
fn read_in_step(
    alloc: Global,
    known: &mut Known,
    ro: &Id,
    change: Change<'_>,
    decks: DeckState,
) -> Result<RoAck, NoMemory>
    requires { known.old.phase ≡ InStep }
    ensures rows { OnOk result (known.new ≡ kept (known_result known.old (decks_of decks) (entry_at ro.now change.entry))) }
    ensures answer { IfOk result (λ a. a ≡ acked ro.now (known_result known.old (decks_of decks) (entry_at ro.now change.entry)).status) }
    ensures err { OnErr result (known.new ≡ known.old) }
{
    let answer = ack_with(alloc, ro, status_after(change, decks))?;
    match apply(alloc, &mut known.held, ro, change) {
        Ok(()) => Ok(answer),
        Err(fault) => {
            let_go(answer);
            let answer = refuse(alloc, ro, fault)?;
            known.phase = Phase::Out;
            known.wanted = true;
            Ok(answer)
        }
    }
}

// The same of an order in the table.
fn read_known(
    alloc: Global,
    orders: &mut OrderTable<Known>,
    ro: &Id,
    change: Change<'_>,
    decks: DeckState,
) -> Result<RoAck, NoMemory>
    requires { (look unknown_order orders.old ro.now).phase ≡ InStep }
    ensures rows { OnOk result (orders.new ≡ put_row ro.now (kept (rows_result orders.old (decks_of decks) (entry_at ro.now change.entry))) orders.old) }
    ensures answer { IfOk result (λ a. a ≡ acked ro.now (rows_result orders.old (decks_of decks) (entry_at ro.now change.entry)).status) }
    ensures err { OnErr result (orders.new ≡ orders.old) }
{
    orders.has_ascending_ids();
    let mut known = Known::unknown();
    orders.exchange(ro, &mut known);
    let answer = read_in_step(alloc, &mut known, ro, change, decks);
    orders.exchange(ro, &mut known);
    let_go(known);
    answer
}

// roElementAction, roMetadataReplace, roStorySend and READY.
fn read_change(
    alloc: Global,
    orders: &mut OrderTable<Known>,
    ro: &Id,
    change: Change<'_>,
    decks: DeckState,
) -> Result<RoAck, NoMemory>
    ensures rows { OnOk result (orders.new ≡ put_result ro.now (rows_result orders.old (decks_of decks) (entry_at ro.now change.entry)) orders.old) }
    ensures answer { IfOk result (λ a. a ≡ acked ro.now (rows_result orders.old (decks_of decks) (entry_at ro.now change.entry)).status) }
    ensures err { OnErr result (orders.new ≡ orders.old) }
{
    match phase_in(orders, ro) {
        Phase::In => read_known(alloc, orders, ro, change, decks),
        Phase::Out => read_out_of_step(alloc, orders, ro),
        Phase::Asked => read_asked(alloc, orders, ro),
        Phase::Crossed => read_asked(alloc, orders, ro),
    }
}

// A copy of what a whole-order edit leaves.
fn copied(alloc: Global, body: Option<&OrderBody>) -> Result<Option<Order>, NoMemory>
    ensures { IfOk result (λ o. o ≡ whole_order (option_copied body.entry)) }
{
    match body {
        Some(body) => Ok(Some(Order::from_body(alloc, body)?)),
        None => Ok(None),
    }
}

// A whole order, or that there is none from now on, is held in step.
fn hold_whole(
    alloc: Global,
    orders: &mut OrderTable<Known>,
    ro: &Id,
    body: Option<&OrderBody>,
) -> Result<RoAck, NoMemory>
    ensures rows { OnOk result (orders.new ≡ put_row ro.now (record { held = whole_order (option_copied body.entry); phase = InStep; wanted = (look unknown_order orders.old ro.now).wanted }) orders.old) }
    ensures answer { IfOk result (λ a. a ≡ acked ro.now MachineStatus.Okay) }
    ensures err { OnErr result (orders.new ≡ orders.old) }
{
    let (answer, held) = pair_ok(ack_with(alloc, ro, Status::Okay), copied(alloc, body))?;
    let wanted = is_wanted_in(orders, ro);
    let known = Known {
        held,
        phase: Phase::In,
        wanted,
    };
    match orders.put(ro, known) {
        Ok(()) => Ok(answer),
        Err(fault) => {
            let_go(answer);
            Err(fault)
        }
    }
}

// roCreate, roReplace and roDelete.
fn read_whole(
    alloc: Global,
    orders: &mut OrderTable<Known>,
    ro: &Id,
    body: Option<&OrderBody>,
) -> Result<RoAck, NoMemory>
    ensures rows { OnOk result (orders.new ≡ put_result ro.now (whole_result orders.old ro.now (whole_order (option_copied body.entry))) orders.old) }
    ensures answer { IfOk result (λ a. a ≡ acked ro.now (whole_result orders.old ro.now (whole_order (option_copied body.entry))).status) }
    ensures err { OnErr result (orders.new ≡ orders.old) }
{
    match phase_in(orders, ro) {
        Phase::In => hold_whole(alloc, orders, ro, body),
        Phase::Out => hold_whole(alloc, orders, ro, body),
        _ => read_asked(alloc, orders, ro),
    }
}

// NOT READY.
fn read_not_ready(alloc: Global, orders: &mut OrderTable<Known>, ro: &Id) -> Result<RoAck, NoMemory>
    ensures rows { OnOk result (orders.new ≡ put_result ro.now (unready_result orders.old ro.now) orders.old) }
    ensures answer { IfOk result (λ a. a ≡ acked ro.now (unready_result orders.old ro.now).status) }
    ensures err { OnErr result (orders.new ≡ orders.old) }
{
    match phase_in(orders, ro) {
        Phase::In => ack(alloc, ro, &Status::Okay),
        Phase::Out => ack(alloc, ro, &Status::Okay),
        Phase::Asked => read_asked(alloc, orders, ro),
        Phase::Crossed => read_asked(alloc, orders, ro),
    }
}

// A message that the device doesn't act on, with its roID.
fn unsupported(alloc: Global, ro: &Id) -> Result<RoAck, NoMemory>
    ensures { IfOk result (λ a. a ≡ acked ro.now MachineStatus.NotSupported) }
{
    ack(alloc, ro, &Status::NotSupported)
}

// A roAck that the device doesn't act on, with its roID or an empty one.
fn unasked(alloc: Global, ro: &OptId) -> Result<RoAck, NoMemory>
    ensures { IfOk result (λ a. a ≡ acked ro.now MachineStatus.NotSupported) }
{
    acknowledgement(alloc, ro.try_clone()?, &Status::NotSupported)
}

// A message that has no roID.
fn unknown(alloc: Global) -> Result<RoAck, NoMemory>
    ensures { IfOk result (λ a. a ≡ acked [] MachineStatus.NotSupported) }
{
    match OptId::try_new(alloc, &[]) {
        Ok(ro) => acknowledgement(alloc, ro, &Status::NotSupported),
        Err(_) => Err(NoMemory),
    }
}

// A message that isn't a heartbeat, with the roAck that answers it.
pub fn read_message(
    alloc: Global,
    orders: &mut OrderTable<Known>,
    m: &Message,
    decks: DeckState,
) -> Result<RoAck, NoMemory>
    ensures rows { OnOk result (orders.new ≡ read_rows orders.old (decks_of decks) (seen m.now)) }
    ensures answer { IfOk result (λ a. a ≡ read_ack orders.old (decks_of decks) (seen m.now)) }
    ensures err { OnErr result (orders.new ≡ orders.old) }
{
    match m {
        Message::RoCreate(body) => read_whole(
            alloc,
            orders,
            &body.as_ref().header.ro,
            Some(body.as_ref()),
        ),
        Message::RoReplace(body) => read_whole(
            alloc,
            orders,
            &body.as_ref().header.ro,
            Some(body.as_ref()),
        ),
        Message::RoDelete(ro) => read_whole(alloc, orders, ro, None),
        Message::RoMetadataReplace(patch) => read_change(
            alloc,
            orders,
            &patch.as_ref().ro,
            Change::Header(patch.as_ref()),
            decks,
        ),
        Message::RoElementAction { ro, action } => read_change(
            alloc,
            orders,
            ro,
            Change::Action(action),
            decks,
        ),
        Message::RoStorySend(script) => read_change(
            alloc,
            orders,
            &script.as_ref().ro,
            Change::Script(script),
            decks,
        ),
        Message::RoReadyToAir { ro, air } => read_air(alloc, orders, ro, *air, decks),
        Message::RoAck(ack) => unasked(alloc, &ack.ro),
        Message::RoReq(ro) => unsupported(alloc, ro),
        Message::RoList(body) => unsupported(alloc, &body.as_ref().header.ro),
        Message::RoElementStat(status) => unsupported(alloc, &status.as_ref().ro),
        _ => unknown(alloc),
    }
}

// READY and NOT READY.
fn read_air(
    alloc: Global,
    orders: &mut OrderTable<Known>,
    ro: &Id,
    air: Air,
    decks: DeckState,
) -> Result<RoAck, NoMemory>
    ensures rows { OnOk result (orders.new ≡ read_rows orders.old (decks_of decks) (seen (carried.RoReadyToAir ro.now air))) }
    ensures answer { IfOk result (λ a. a ≡ read_ack orders.old (decks_of decks) (seen (carried.RoReadyToAir ro.now air))) }
    ensures err { OnErr result (orders.new ≡ orders.old) }
{
    match air {
        Air::Ready => read_change(alloc, orders, ro, Change::Release, decks),
        Air::NotReady => read_not_ready(alloc, orders, ro),
    }
}
