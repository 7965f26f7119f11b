//! Envelopes from their events.
ghost use Rattle.std.specs.Prelude.{◌≡◌, ◌++◌, [], IfOk};
ghost use Rattle.mos_fields.specs.declared.field.Field.TheVariants as fields;
ghost use Rattle.mos_fields.specs.declared.form.Form.TheVariants as forms;
ghost use Rattle.mos_tables.specs.declared.table.Table.TheVariants as tables;
ghost use Rattle.mos_grammar.specs.Streams.{mos_name};
ghost use Rattle.mos_values.specs.MessageViews.{envelope_events};
ghost use Rattle.mos_values.specs.Parts.{element};
ghost use Rattle.mos_cursor.specs.Accepted.{IsAccepted, OneLeaf, OptionalLeaf, OneMessage};
ghost use Rattle.mos_cursor.specs.Parts.{part_events};
ghost use Rattle.mos_cursor.specs.Slots.{part_of};
ghost use Rattle.mos_message_reading.specs.Values.{IsMessageValue, IsNamed};

use crate::messages::message_of;
use mos_cursor::{Cursor, Slot, record_slots};
use mos_events::Events;
use mos_fields::NoMemory;
use mos_tables::Table;
use mos_values::Envelope;
use std::alloc::Global;

/// The events inside the element of an envelope.
fn inner_of(events: Events) -> Cursor
    requires { IsMessageValue events }
    ensures accepted { IsAccepted tables.Envelope [] result }
    ensures whole { element mos_name result ≡ events }
{
    let mut events = events.into_vec();
    let _end = events.pop();
    let mut inner = Cursor::new(Events::from_vec(events));
    let _start = inner.pop();
    inner
}

/// The envelope of these parts. The only error is that memory runs out.
#[inline(always)]
#[tactic(auto, unfolding(mos_values::specs::MessageViews::envelope_events))]
fn envelope_with(
    alloc: Global,
    mos: Slot,
    ncs: Slot,
    message_id: Slot,
    message: Slot,
) -> Result<Envelope, NoMemory>
    requires mos { OneLeaf forms.Id (part_of mos) }
    requires ncs { OneLeaf forms.Id (part_of ncs) }
    requires message_id { OptionalLeaf forms.OptId (part_of message_id) }
    requires message { OneMessage (part_of message) }
    ensures events { IfOk result (λ e. envelope_events e ≡ element mos_name (part_events fields.MosID (part_of mos) ++ part_events fields.NcsID (part_of ncs) ++ part_events fields.MessageID (part_of message_id) ++ part_events fields.Message (part_of message))) }
    ensures named { IfOk result (λ e. IsNamed e.message) }
{
    let mos = mos.id();
    let ncs = ncs.id();
    let message_id = message_id.optional_opt_id();
    let message = message_of(alloc, message)?;
    Ok(Envelope {
        mos,
        ncs,
        message_id,
        message,
    })
}

/// The envelope of the events inside its element.
#[inline(always)]
fn envelope_inside(alloc: Global, inner: Cursor) -> Result<Envelope, NoMemory>
    requires { IsAccepted tables.Envelope [] inner }
    ensures events { IfOk result (λ e. envelope_events e ≡ element mos_name inner) }
    ensures named { IfOk result (λ e. IsNamed e.message) }
{
    let slots: [Slot; 4] = record_slots::<4>(alloc, Table::Envelope, inner)?;
    let [mos, ncs, message_id, message] = slots;
    envelope_with(alloc, mos, ncs, message_id, message)
}

/// The message of these events, with the names of its two ends, as a value. Its texts move out of the events.
///
/// The events have to be those of a whole message, as a reader hands them out: `encoded_message` says that the events
/// of every encoding are. The only error is that memory runs out.
#[inline(always)]
pub fn envelope_of(alloc: Global, events: Events) -> Result<Envelope, NoMemory>
    requires { IsMessageValue events }
    ensures events { IfOk result (λ e. envelope_events e ≡ events) }
    ensures named { IfOk result (λ e. IsNamed e.message) }
{
    let inner = inner_of(events);
    envelope_inside(alloc, inner)
}
