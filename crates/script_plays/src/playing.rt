//! Playing events on a stage.
ghost use Rattle.std.specs.Prelude.{◌≡◌, ◌++◌, ◌∷◌, ◌<◌, ℕ, [], List, IsSome, OnOk, IfOk};
ghost use Rattle.world_scripts.specs.WorldEvents.{HasSoundEdit, event_of, events_of};
ghost use Rattle.world_laws.specs.Outcomes.{Outcome as Told};
ghost use Rattle.world_laws.specs.World.{WorldEvent as Event};
ghost use Rattle.world_scripts.specs.Made.{made_events};
ghost use Rattle.world_scripts.specs.Results.{event_line};
ghost use Rattle.world_stage.specs.Worlds.{HaveSoundEdits};
ghost use Rattle.script_plays.specs.Counted.{AreFew, HasCounts, counted};
ghost use Rattle.script_plays.specs.Played.{HasLines};

use crate::counts::Counts;
use crate::lines::push_event_line;
use mos_fields::{NoMemory, let_go};
use std::alloc::Global;
use world_scripts::{Generator, WorldEvent};
use world_stage::Stage;

/// Plays an event, and appends its line.
fn play_event<T: Stage>(
    alloc: Global,
    stage: &mut T,
    e: &WorldEvent,
    number: u64,
    out: &mut Vec<u8>,
) -> Result<(), NoMemory>
    requires begun { IsSome (T.shown stage.old) }
    requires sound { HasSoundEdit (event_of e.now) }
    ensures shown { IsSome (T.shown stage.new) }
    ensures told { OnOk result ((devices : ℕ) (es : List Event) (os : List Told) → T.told stage.old devices es os → (o : Told) × T.told stage.new devices (es ++ event_of e.now ∷ []) (os ++ o ∷ []) × (out.new.items ≡ out.old.items ++ event_line number o)) }
{
    let outcome = stage.step(e)?;
    push_event_line(alloc, out, number, &outcome)
}

/// Plays events on a stage that was just begun: a line for each.
pub fn play<T: Stage>(
    alloc: Global,
    stage: &mut T,
    events: &[WorldEvent],
) -> Result<Vec<u8>, NoMemory>
    requires begun { IsSome (T.shown stage.old) }
    requires sound { HaveSoundEdits (events_of events.now) }
    ensures shown { IsSome (T.shown stage.new) }
    ensures told { IfOk result (λ out. (devices : ℕ) → T.told stage.old devices [] [] → HasLines (T.told stage.new) devices (events_of events.now) out.items) }
{
    let mut out = Vec::new(alloc);
    let mut played = 0;
    'events: while played < events.len() {
        play_event(alloc, stage, &events[played], played as u64 + 1, &mut out)?;
        played += 1;
    }
    Ok(out)
}

/// Plays an event that was made, and counts it.
fn count_event<T: Stage>(stage: &mut T, e: &WorldEvent, counts: Counts) -> Result<Counts, NoMemory>
    requires begun { IsSome (T.shown stage.old) }
    requires sound { HasSoundEdit (event_of e.now) }
    requires few { AreFew counts }
    ensures shown { IsSome (T.shown stage.new) }
    ensures counted { IfOk result (λ c. (o : Told) × (c ≡ counted counts o)) }
    ensures told { IfOk result (λ c. (devices : ℕ) (es : List Event) (os : List Told) → T.told stage.old devices es os → (o : Told) × T.told stage.new devices (es ++ event_of e.now ∷ []) (os ++ o ∷ []) × (c ≡ counted counts o)) }
{
    let outcome = stage.step(e)?;
    Ok(counts.add(&outcome))
}

/// Plays an event that was made, counts it, and lets it go.
fn count_made<T: Stage>(stage: &mut T, e: WorldEvent, counts: Counts) -> Result<Counts, NoMemory>
    requires begun { IsSome (T.shown stage.old) }
    requires sound { HasSoundEdit (event_of e) }
    requires few { AreFew counts }
    ensures shown { IsSome (T.shown stage.new) }
    ensures counted { IfOk result (λ c. (o : Told) × (c ≡ counted counts o)) }
    ensures told { IfOk result (λ c. (devices : ℕ) (es : List Event) (os : List Told) → T.told stage.old devices es os → (o : Told) × T.told stage.new devices (es ++ event_of e ∷ []) (os ++ o ∷ []) × (c ≡ counted counts o)) }
{
    let counted = count_event(stage, &e, counts);
    let_go(e);
    counted
}

/// Plays the events of `make` with this count on a stage that was just begun, and counts what is told of them.
pub fn play_made<T: Stage>(alloc: Global, stage: &mut T, count: u32) -> Result<Counts, NoMemory>
    requires begun { IsSome (T.shown stage.old) }
    ensures shown { IsSome (T.shown stage.new) }
    ensures told { IfOk result (λ c. (devices : ℕ) → T.told stage.old devices [] [] → HasCounts (T.told stage.new) devices (made_events count) c) }
{
    let mut generator = Generator::new(count);
    let mut counts = Counts::new();
    'events: while let Some(e) = generator.next(alloc)? {
        counts = count_made(stage, e, counts)?;
    }
    Ok(counts)
}
