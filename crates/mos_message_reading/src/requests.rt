//! Messages without fields.
ghost use Rattle.std.specs.Prelude.{◌≡◌, List, codes};
ghost use Rattle.mos_fields.specs.Characters.{Text};
ghost use Rattle.mos_tables.specs.declared.table.Table.TheVariants as tables;
ghost use Rattle.mos_values.specs.MessageViews.{message_events};
ghost use Rattle.mos_values.specs.Parts.{element};
ghost use Rattle.mos_cursor.specs.Accepted.{IsAccepted};

use mos_cursor::Cursor;
use mos_values::Message;

/// The reqMachInfo of these events, of which there are none.
#[tactic(auto, unfolding(mos_values::specs::MessageViews::message_events))]
pub(crate) fn machine_request_of(inner: Cursor) -> Message
    requires { (taken : List Text) × IsAccepted tables.NoFields taken inner }
    ensures { message_events result ≡ element (codes "reqMachInfo") inner }
{
    let _none = inner;
    Message::ReqMachInfo
}

/// The roReqAll of these events, of which there are none.
#[tactic(auto, unfolding(mos_values::specs::MessageViews::message_events))]
pub(crate) fn all_orders_request_of(inner: Cursor) -> Message
    requires { (taken : List Text) × IsAccepted tables.NoFields taken inner }
    ensures { message_events result ≡ element (codes "roReqAll") inner }
{
    let _none = inner;
    Message::RoReqAll
}
