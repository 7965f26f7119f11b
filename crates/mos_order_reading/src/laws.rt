//! What the grammar says of the events of a roAck.
ghost use Rattle.std.specs.Prelude.{List};
ghost use Rattle.mos_fields.specs.Characters.{Text};
ghost use Rattle.mos_tables.specs.Events.{Event};
ghost use Rattle.mos_tables.specs.Tables.{ack_columns};
ghost use Rattle.mos_tables.specs.declared.table.Table.TheVariants as tables;
ghost use Rattle.mos_cursor.specs.Accepted.{IsAccepted};
ghost use Rattle.mos_order_reading.specs.Groups.{IsAhead};

/// An accepted roAck is its order and its status, and then groups, each of all fields that a group has to have.
pub fn accepted_ack()
    ensures { (taken : List Text) (es : List Event) → IsAccepted tables.RoAck taken es → IsAhead ack_columns es }
{}
