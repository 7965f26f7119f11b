//! The attributes of messages' elements.
ghost use Rattle.std.specs.Prelude.{◌≡◌, [], ◌∷◌, Some};
ghost use Rattle.mos_fields.specs.Values.{level_text, operation_text};
ghost use Rattle.mos_fields.specs.declared.field.Field.TheVariants as fields;
ghost use Rattle.mos_fields.specs.declared.operation.Operation.{Operation as Operation_};
ghost use Rattle.mos_tables.specs.declared.table.Table.TheVariants as tables;
ghost use Rattle.mos_events.specs.EventView.{attributes_of};
ghost use Rattle.mos_values.specs.Parts.{attribute as attribute_as};
ghost use Rattle.mos_cursor.specs.Accepted.{IsGivenTo};

use mos_events::KnownAttribute;
use mos_fields::{Level, Operation};

/// The level of a roElementStat.
pub(crate) fn level_of(attribute: Option<KnownAttribute>) -> Level
    requires { IsGivenTo tables.ElementStat (attributes_of attribute) }
    ensures { attributes_of attribute ≡ attribute_as fields.ElementKind (level_text result) ∷ [] }
{
    match attribute {
        Some(KnownAttribute::Element(level)) => level,
        _ => unreachable!(),
    }
}

/// The operation of a roElementAction.
pub(crate) fn operation_of(attribute: Option<KnownAttribute>) -> Operation
    requires { (o : Operation_) × IsGivenTo (tables.Action o) (attributes_of attribute) }
    ensures { attributes_of attribute ≡ attribute_as fields.OperationKind (operation_text result) ∷ [] }
{
    match attribute {
        Some(KnownAttribute::Operation(operation)) => operation,
        _ => unreachable!(),
    }
}
