//! The IDs of what an action puts in.
ghost use Rattle.std.specs.Prelude.{◌≡◌, IfOk};
ghost use Rattle.mos_values.specs.Distinct.{item_ids, story_ids};

use mos_fields::{NoMemory, OptId, OptIds};
use mos_values::{Items, Stories};
use std::alloc::Global;

/// The storyIDs of stories, in order. The only error is that memory runs out.
pub fn ids_of_stories(alloc: Global, stories: &Stories) -> Result<OptIds, NoMemory>
    ensures { IfOk result (λ l. l ≡ story_ids stories.now) }
{
    let mut ids = OptIds::new(alloc);
    for story in stories.as_slice() {
        ids.push(OptId::from_id(story.id.try_clone()?))?;
    }
    Ok(ids)
}

/// The itemIDs of items, in order. The only error is that memory runs out.
pub fn ids_of_items(alloc: Global, items: &Items) -> Result<OptIds, NoMemory>
    ensures { IfOk result (λ l. l ≡ item_ids items.now) }
{
    let mut ids = OptIds::new(alloc);
    for item in items.as_slice() {
        ids.push(OptId::from_id(item.id.try_clone()?))?;
    }
    Ok(ids)
}
