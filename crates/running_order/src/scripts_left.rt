//! The scripts that are left where the stories from a place on are removed.
ghost use Rattle.std.specs.Prelude.{◌≡◌, drop};
ghost use Rattle.mos_values.specs.Distinct.{story_ids};
ghost use Rattle.order_table.specs.Rows.{without_rows};

use crate::shared_script::SharedScript;
use crate::story_table::StoryTable;
use mos_fields::Id;
use order_table::{OrderTable, RowTest};

// The scripts of the stories from a place on go.
#[derive(Drop)]
struct InFront<'a> {
    stories: &'a StoryTable,
    left: usize,
}

impl<'a> RowTest for InFront<'a> {
    ghost use Rattle.std.specs.Prelude.{drop, not};
    ghost use Rattle.mos_edits.specs.Texts.{has_id};
    ghost use Rattle.mos_values.specs.Distinct.{story_ids};

    ghost kept = { λ s story. not (has_id story (story_ids (drop s.left s.stories.now))) };

    fn keeps(&self, story: &Id) -> bool {
        self.stories.has_none_from(self.left, story.text())
    }
}

/// Removes the scripts of the stories from a place on. The scripts are gone over once, and no memory is taken.
pub fn remove_scripts_from(
    scripts: &mut OrderTable<SharedScript>,
    stories: &StoryTable,
    left: usize,
)
    ensures { scripts.new ≡ without_rows (story_ids (drop left stories.now)) scripts.old }
{
    scripts.retain(&InFront { stories, left });
}
