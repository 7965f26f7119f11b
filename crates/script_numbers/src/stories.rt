//! The numbers on the stories of one order.
ghost use Rattle.std.specs.Prelude.{◌≡◌, ℕ, List, ◌++◌, [], OnOk, IfOk, IsSome, Some, None, if◌then◌else◌};
ghost use Rattle.mos_edits.specs.Texts.{same_id, has_id};
ghost use Rattle.mos_edits.specs.KeyedLists.{with_found};
ghost use Rattle.mos_edits.specs.Rows.{look};
ghost use Rattle.mos_edits.specs.Orders.{form_of, taken_out};
ghost use Rattle.mos_values.specs.Distinct.{story_ids};
ghost use Rattle.order_table.specs.Rows.{find_row};
ghost use Rattle.script_numbers.specs.Numbers.{numbers_on};

use mos_fields::{Id, NoMemory, OptId};
use mos_values::{Action, Story};
use order_table::{OrderTable, RowChange};
use running_order::Order;
use std::alloc::Global;

// By storyID, the number of the entry whose script stands there, or that none does.
pub type Stories = OrderTable<Option<u64>>;

// Gives a story a row, where it has none. Only that takes memory.
pub fn know_story(stories: &mut Stories, story: &Id) -> Result<(), NoMemory>
    ensures there { OnOk result (IsSome (find_row story.now stories.new)) }
    ensures same { look None stories.new ≡ look None stories.old }
{
    match stories.find(story) {
        Some(_) => Ok(()),
        None => stories.put(story, None),
    }
}

// Puts a number on a story, in place of a former one.
pub fn put_number(stories: &mut Stories, story: &Id, number: u64)
    requires { IsSome (find_row story.now stories.old) }
    ensures { (q : List ℕ) → look None stories.new q ≡ (if same_id q story.now then Some number else look None stories.old q) }
{
    let mut number = Some(number);
    stories.exchange(story, &mut number);
}

fn is_same(story: &Id, id: &OptId) -> bool
    ensures { result ≡ same_id story.now id.now }
{
    story.text().is(id.text())
}

// Whether the storyID stands among these.
fn is_among(story: &Id, ids: &[OptId]) -> bool
    ensures { result ≡ has_id story.now ids.now }
{
    for id in ids {
        if is_same(story, id) {
            return true;
        }
    }
    false
}

// Whether an action takes the story out.
fn is_taken_out(story: &Id, action: &Action) -> bool
    ensures { result ≡ has_id story.now (taken_out (form_of action.now)) }
{
    match action {
        Action::ReplaceStory { target, sources: _ } => is_same(story, target),
        Action::DeleteStories { sources } => is_among(story, sources.as_slice()),
        _ => false,
    }
}

// An action is done: the scripts of the stories that it takes out go with them.
#[derive(Drop)]
pub struct TakingOut<'a> {
    pub action: &'a Action,
}

impl<'a> RowChange<Option<u64>> for TakingOut<'a> {
    ghost use Rattle.std.specs.Prelude.{None, if◌then◌else◌};
    ghost use Rattle.mos_edits.specs.Texts.{has_id};
    ghost use Rattle.mos_edits.specs.Orders.{form_of, taken_out};

    ghost changed = { λ t story number. if has_id story (taken_out (form_of t.action.now)) then None else number };

    fn change(&self, story: &Id, number: &mut Option<u64>) {
        if is_taken_out(story, self.action) {
            *number = None;
        }
    }
}

// The number on a story, where it has one.
fn number_on(stories: &Stories, story: &Id) -> Option<u64>
    ensures { result ≡ look None stories.now story.now }
{
    match stories.find(story) {
        Some(number) => *number,
        None => None,
    }
}

// Puts the number on a story at the end, where it has one.
fn push_number(numbers: &mut Vec<u64>, stories: &Stories, story: &Story) -> Result<(), NoMemory>
    ensures { OnOk result (numbers.new.items ≡ numbers.old.items ++ with_found (look None stories.now story.now.id) []) }
{
    match number_on(stories, &story.id) {
        Some(number) => numbers.push(number)?,
        None => {}
    }
    Ok(())
}

// The numbers on the stories of an order, in their order.
pub fn numbers_in_order(
    alloc: Global,
    stories: &Stories,
    order: &Order,
) -> Result<Vec<u64>, NoMemory>
    ensures { IfOk result (λ v. v.items ≡ numbers_on (story_ids order.now.stories) stories.now) }
{
    let mut numbers = Vec::new(alloc);
    'places: for place in 0..order.len() {
        match order.story(place) {
            Some(story) => push_number(&mut numbers, stories, story)?,
            None => {}
        }
    }
    Ok(numbers)
}
