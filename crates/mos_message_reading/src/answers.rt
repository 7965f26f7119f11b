//! Messages of the status, the release and the parts of running orders, from the events inside their elements.
ghost use Rattle.std.specs.Prelude.{◌≡◌, List, [], ◌∷◌, IfOk, codes};
ghost use Rattle.mos_fields.specs.Characters.{Text};
ghost use Rattle.mos_fields.specs.Values.{level_text, operation_text};
ghost use Rattle.mos_fields.specs.declared.field.Field.TheVariants as fields;
ghost use Rattle.mos_tables.specs.declared.table.Table.TheVariants as tables;
ghost use Rattle.mos_values.specs.MessageViews.{message_events};
ghost use Rattle.mos_values.specs.Parts.{attribute, element, element_with};
ghost use Rattle.mos_cursor.specs.Accepted.{IsAccepted};

use mos_action_reading::action_of;
use mos_cursor::Cursor;
use mos_fields::{Level, NoMemory, Operation};
use mos_order_reading::{ack_of, release_of, send_of, stat_of};
use mos_values::{Boxed, Message};
use std::alloc::Global;

/// The roElementStat of this level and of these events. The only error is that memory runs out.
#[tactic(auto, unfolding(mos_values::specs::MessageViews::message_events))]
pub(crate) fn status_of(alloc: Global, level: Level, inner: Cursor) -> Result<Message, NoMemory>
    requires { (taken : List Text) × IsAccepted tables.ElementStat taken inner }
    ensures { IfOk result (λ m. message_events m ≡ element_with (codes "roElementStat") (attribute fields.ElementKind (level_text level) ∷ []) inner) }
{
    let stat = stat_of(alloc, level, inner)?;
    Ok(Message::RoElementStat(Boxed::new(alloc, stat)?))
}

/// The roElementAction of this operation and of these events. The only error is that memory runs out.
#[tactic(auto, unfolding(mos_values::specs::MessageViews::message_events))]
pub(crate) fn order_action_of(
    alloc: Global,
    operation: Operation,
    inner: Cursor,
) -> Result<Message, NoMemory>
    requires { (taken : List Text) × IsAccepted (tables.Action operation) taken inner }
    ensures { IfOk result (λ m. message_events m ≡ element_with (codes "roElementAction") (attribute fields.OperationKind (operation_text operation) ∷ []) inner) }
{
    let (ro, action) = action_of(alloc, operation, inner)?;
    Ok(Message::RoElementAction { ro, action })
}

/// The roReadyToAir of these events. The only error is that memory runs out.
#[tactic(auto, unfolding(mos_values::specs::MessageViews::message_events))]
pub(crate) fn readiness_of(alloc: Global, inner: Cursor) -> Result<Message, NoMemory>
    requires { (taken : List Text) × IsAccepted tables.ReadyToAir taken inner }
    ensures { IfOk result (λ m. message_events m ≡ element (codes "roReadyToAir") inner) }
{
    let (ro, air) = release_of(alloc, inner)?;
    Ok(Message::RoReadyToAir { ro, air })
}

/// The roAck of these events. The only error is that memory runs out.
#[tactic(auto, unfolding(mos_values::specs::MessageViews::message_events))]
pub(crate) fn order_ack_of(alloc: Global, inner: Cursor) -> Result<Message, NoMemory>
    requires { (taken : List Text) × IsAccepted tables.RoAck taken inner }
    ensures { IfOk result (λ m. message_events m ≡ element (codes "roAck") inner) }
{
    let ack = ack_of(alloc, inner)?;
    Ok(Message::RoAck(ack))
}

/// The roStorySend of these events. The only error is that memory runs out.
#[tactic(auto, unfolding(mos_values::specs::MessageViews::message_events))]
pub(crate) fn story_sent_of(alloc: Global, inner: Cursor) -> Result<Message, NoMemory>
    requires { (taken : List Text) × IsAccepted tables.StorySend taken inner }
    ensures { IfOk result (λ m. message_events m ≡ element (codes "roStorySend") inner) }
{
    let story = send_of(alloc, inner)?;
    Ok(Message::RoStorySend(Boxed::new(alloc, story)?))
}
