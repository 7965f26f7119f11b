//! Stories with their text from their events.
ghost use Rattle.std.specs.Prelude.{◌≡◌, ◌++◌, List, [], ◌∷◌, IfOk};
ghost use Rattle.mos_fields.specs.Characters.{Text};
ghost use Rattle.mos_tables.specs.declared.table.Table.TheVariants as tables;
ghost use Rattle.mos_tables.specs.Tables.{columns};
ghost use Rattle.mos_values.specs.Views.{story_send_events};
ghost use Rattle.mos_cursor.specs.Accepted.{AllFit, IsAccepted};
ghost use Rattle.mos_cursor.specs.Parts.{parts_events, places};
ghost use Rattle.mos_cursor.specs.Slots.{parts_of};

use mos_cursor::{Cursor, Slot, record_slots};
use mos_fields::NoMemory;
use mos_tables::Table;
use mos_values::StorySend;
use std::alloc::Global;

/// The value of these parts.
#[tactic(auto, unfolding(mos_values::specs::Views::story_send_events))]
fn send_with(
    alloc: Global,
    ro: Slot,
    story: Slot,
    slug: Slot,
    num: Slot,
    body: Slot,
    metadata: Slot,
    others: Slot,
) -> Result<StorySend, NoMemory>
    requires { AllFit tables.StorySend (places (columns tables.StorySend)) (parts_of (ro ∷ story ∷ slug ∷ num ∷ body ∷ metadata ∷ others ∷ [])) }
    ensures { IfOk result (λ v. story_send_events v ≡ parts_events (places (columns tables.StorySend)) (parts_of (ro ∷ story ∷ slug ∷ num ∷ body ∷ metadata ∷ others ∷ []))) }
{
    Ok(StorySend {
        ro: ro.id(),
        story: story.id(),
        slug: slug.optional_slug(),
        num: num.optional_text(),
        body: body.raw(),
        metadata: metadata.raws(alloc)?,
        others: others.raws(alloc)?,
    })
}

/// The value of these events. The only error is that memory runs out.
pub fn send_of(alloc: Global, cursor: Cursor) -> Result<StorySend, NoMemory>
    requires { (taken : List Text) × IsAccepted tables.StorySend taken cursor }
    ensures { IfOk result (λ v. story_send_events v ≡ cursor) }
{
    let slots: [Slot; 7] = record_slots::<7>(alloc, Table::StorySend, cursor)?;
    let [ro, story, slug, num, body, metadata, others] = slots;
    send_with(alloc, ro, story, slug, num, body, metadata, others)
}
