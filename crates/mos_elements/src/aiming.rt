//! What the target of a roElementAction aims at.
ghost use Rattle.std.specs.Prelude.{◌≡◌, ◌∷◌, [], cond};
ghost use Rattle.mos_fields.specs.Fields.{name_of, same};
ghost use Rattle.mos_grammar.specs.Records.{aim_of as aim_of_lem, has_leaf as has_leaf_of};
ghost use Rattle.mos_events.specs.EventView.{element_text, events_of};
ghost use Rattle.mos_elements.specs.Parts.{part_events, children_of};

use crate::child::{Child, Part};
use crate::field_name::{same_field, same_name};
use mos_events::{ElementName, Event};
use mos_fields::Field;
use mos_tables::Aim;

fn is_name_of(name: ElementName, field: Field) -> bool
    ensures { result ≡ same (element_text name) (name_of field) }
{
    same_name(name.name().as_bytes(), field.name().as_bytes())
}

fn is_leaf(event: &Event, field: Field) -> bool
    ensures { result ≡ has_leaf_of (name_of field) (events_of (event.now ∷ [])) }
{
    match event {
        Event::Leaf { name, .. } => is_name_of(*name, field),
        _ => false,
    }
}

fn has_leaf(events: &[Event], field: Field) -> bool
    ensures { result ≡ has_leaf_of (name_of field) (events_of events.now) }
{
    let mut rest = events;
    while let [event, more @ ..] = rest {
        if let Event::Leaf { name, .. } = event {
            if is_name_of(*name, field) {
                return true;
            }
        }
        rest = more;
    }
    false
}

fn part_has_leaf(part: &Part, field: Field) -> bool
    ensures { result ≡ has_leaf_of (name_of field) (part_events part.now) }
{
    match part {
        Part::Nothing => false,
        Part::Single(event) => is_leaf(event, field),
        Part::Several(events) => has_leaf(events, field),
    }
}

fn aim_of_target(target: &Part) -> Aim
    ensures { result ≡ cond (has_leaf_of (name_of Field.ItemID) (part_events target.now)) Aim.AtItem Aim.AtStory }
{
    if part_has_leaf(target, Field::ItemID) {
        Aim::AtItem
    } else {
        Aim::AtStory
    }
}

/// What the element_target among these children aims at.
pub fn aim_of(children: &[Child]) -> Aim
    ensures { result ≡ aim_of_lem (children_of children.now) }
{
    let mut rest = children;
    while let [child, more @ ..] = rest {
        if same_field(child.field, Field::ElementTarget) {
            return aim_of_target(&child.part);
        }
        rest = more;
    }
    Aim::Nowhere
}
