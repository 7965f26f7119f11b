//! Statuses of running orders, stories and items from their events.
ghost use Rattle.std.specs.Prelude.{◌≡◌, List, [], ◌∷◌, IfOk};
ghost use Rattle.mos_fields.specs.Characters.{Text};
ghost use Rattle.mos_tables.specs.Tables.{columns};
ghost use Rattle.mos_tables.specs.declared.table.Table.TheVariants as tables;
ghost use Rattle.mos_values.specs.Views.{element_stat_events};
ghost use Rattle.mos_cursor.specs.Accepted.{AllFit, IsAccepted};
ghost use Rattle.mos_cursor.specs.Parts.{parts_events, places};
ghost use Rattle.mos_cursor.specs.Slots.{parts_of};

use mos_cursor::{Cursor, Slot, record_slots};
use mos_fields::{Level, NoMemory};
use mos_tables::Table;
use mos_values::ElementStat;
use std::alloc::Global;

/// The status of these parts.
#[tactic(auto, unfolding(mos_values::specs::Views::element_stat_events))]
fn stat_with(
    alloc: Global,
    level: Level,
    ro: Slot,
    story: Slot,
    item: Slot,
    obj: Slot,
    channel: Slot,
    status: Slot,
    time: Slot,
) -> Result<ElementStat, NoMemory>
    requires { AllFit tables.ElementStat (places (columns tables.ElementStat)) (parts_of (ro ∷ story ∷ item ∷ obj ∷ channel ∷ status ∷ time ∷ [])) }
    ensures events { IfOk result (λ s. element_stat_events s ≡ parts_events (places (columns tables.ElementStat)) (parts_of (ro ∷ story ∷ item ∷ obj ∷ channel ∷ status ∷ time ∷ []))) }
    ensures level { IfOk result (λ s. s.level ≡ level) }
{
    let time = time.time(alloc)?;
    Ok(ElementStat {
        level,
        ro: ro.id(),
        story: story.optional_opt_id(),
        item: item.optional_opt_id(),
        obj: obj.optional_opt_id(),
        channel: channel.optional_text(),
        status: status.text(),
        time,
    })
}

/// The status of these events, at the level that its element's attribute gives.
/// The only error is that memory runs out.
pub fn stat_of(alloc: Global, level: Level, cursor: Cursor) -> Result<ElementStat, NoMemory>
    requires { (taken : List Text) × IsAccepted tables.ElementStat taken cursor }
    ensures events { IfOk result (λ s. element_stat_events s ≡ cursor) }
    ensures level { IfOk result (λ s. s.level ≡ level) }
{
    let slots: [Slot; 7] = record_slots::<7>(alloc, Table::ElementStat, cursor)?;
    let [ro, story, item, obj, channel, status, time] = slots;
    stat_with(alloc, level, ro, story, item, obj, channel, status, time)
}
