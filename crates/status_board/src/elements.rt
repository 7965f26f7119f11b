//! What element a report is of.
ghost use Rattle.std.specs.Prelude.{◌≡◌, ◌&&◌, []};
ghost use Rattle.mos_edits.specs.Texts.{same_id};
ghost use Rattle.mos_values.specs.Names.{text_or_none};
ghost use Rattle.status_board.specs.Board.{is_of_element as is_of_element_so, is_of_order as is_of_order_so};

use crate::numbers::level_number;
use mos_fields::{Level, OptId, Text};
use mos_values::ElementStat;

// Whether two texts are one.
fn is_same(text: &Text, other: &Text) -> bool
    ensures { result ≡ same_id text.now other.now }
{
    text.is(other)
}

/// The text of an identifier, or this empty one where there is none.
pub(crate) fn text_or<'a>(given: &'a Option<OptId>, nothing: &'a Text) -> &'a Text
    requires { nothing.now ≡ [] }
    ensures { result.now ≡ text_or_none given.now }
{
    match given {
        Some(id) => id.text(),
        None => nothing,
    }
}

/// Whether a report is of this device and this order.
pub(crate) fn is_of_order(d: u32, ro: &Text, report: &(u32, ElementStat)) -> bool
    ensures { result ≡ is_of_order_so d ro.now report.now }
{
    d == report.0 && is_same(ro, report.1.ro.text())
}

// Whether a report is of this story and this item.
fn has_identifiers(story: &Text, item: &Text, s: &ElementStat, nothing: &Text) -> bool
    requires { nothing.now ≡ [] }
    ensures { result ≡ (same_id story.now (text_or_none s.now.story) && same_id item.now (text_or_none s.now.item)) }
{
    is_same(story, text_or(&s.story, nothing)) && is_same(item, text_or(&s.item, nothing))
}

/// Whether a report is of the element of this device, order, level, story and item. An absent identifier counts as this empty
/// one.
pub(crate) fn is_of_element(
    d: u32,
    ro: &Text,
    level: Level,
    story: &Text,
    item: &Text,
    report: &(u32, ElementStat),
    nothing: &Text,
) -> bool
    requires { nothing.now ≡ [] }
    ensures { result ≡ is_of_element_so d ro.now level story.now item.now report.now }
{
    is_of_order(d, ro, report)
        && level_number(level) == level_number(report.1.level)
        && has_identifiers(story, item, &report.1, nothing)
}
