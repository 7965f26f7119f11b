//! The code units of an order, kept beside it. A number that would pass 2^64 - 1 is 2^64 - 1.
ghost use Rattle.std.specs.Prelude.{◌≡◌, ℕ, ◌+◌, List};
ghost use Rattle.mos_values.specs.OrderValue.{OrderBody};
ghost use Rattle.mos_values.specs.StoryValue.{Story};
ghost use Rattle.mos_values.specs.Units.{capped, list_events, units_in};
ghost use Rattle.mos_values.specs.Views.{header_events};
ghost use Rattle.running_order.specs.Sizes.{IsEdited, stories_size};

use crate::story_table::StoryTable;

/// The sum of two numbers.
pub fn plus(a: u64, b: u64) -> u64
    ensures { result ≡ capped (a + b) }
{
    a.saturating_add(b)
}

/// The size of stories after an edit: what it was before, without what went and with what came. Only a size that passed
/// 2^64 - 1 is counted anew.
pub fn size_after(before: u64, gone: u64, come: u64, stories: &StoryTable) -> u64
    ensures { (old : List Story) (out new : ℕ) → before ≡ capped (stories_size old) → gone ≡ capped out → come ≡ capped new → IsEdited old stories.now out new → result ≡ capped (stories_size stories.now) }
{
    if before < u64::MAX {
        plus(before.saturating_sub(gone), come)
    } else {
        stories.units()
    }
}

/// The code units of the canonical roList element, by those of the header's fields and those of the stories.
pub fn list_size(header: u64, stories: u64) -> u64
    ensures { (o : OrderBody) → header ≡ capped (units_in (header_events o.header)) → stories ≡ capped (stories_size o.stories) → result ≡ capped (units_in (list_events o)) }
{
    let inside = plus(header, stories);
    plus(17, inside)
}
