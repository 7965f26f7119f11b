//! What scripts are played on.
ghost use Rattle.std.specs.Prelude.{◌≡◌, ◌≤◌, ℕ, [], ◌∷◌, ◌++◌, OnOk, IfOk, IsSome, None, Option, List};
ghost use Rattle.std.specs.Option.{option_copied};
ghost use Rattle.world_scripts.specs.WorldEvents.{HasSoundEdit, event_of};
ghost use Rattle.world_scripts.specs.Outcomes.{outcome_of};
ghost use Rattle.world_laws.specs.Outcomes.{Outcome as Told};
ghost use Rattle.world_laws.specs.World.{WorldEvent as events};
ghost use Rattle.world_stage.specs.Stages.{IsPlayed, ShowsWorld};
ghost use Rattle.world_stage.specs.declared.play.Play.{Play};

use crate::world::World;
use mos_fields::{NoMemory, let_go};
use std::alloc::Global;
use std::mem::replace;
use world_scripts::{Outcome, WorldEvent};

/// What a script is played on: a world that is begun anew and then stepped, event after event.
///
/// What a stage makes of the events is said by its relation of events and outcomes. That of `WorldStage` says that they are
/// those of the world's definition.
pub trait Stage {
    // the outcomes that were told since the last beginning, of so many devices and of these events
    ghost told: { Self → ℕ → List events → List Told → Type 0 };

    // the world, where one was begun
    ghost shown: { Self → Option (Option Play) };

    /// Begins the opening world of 1 to 64 devices; nothing is told yet. The only error is that memory runs out.
    fn begin(&mut self, devices: u32) -> Result<(), NoMemory>
        requires least { 1 ≤ devices }
        requires most { devices ≤ 64 }
        ensures told { OnOk result (told self.new devices [] []) }
        ensures shown { OnOk result (IsSome (shown self.new)) }
        ensures world { OnOk result (ShowsWorld (shown self.new)) };

    /// Plays an event, and tells what came of it. An edit that is commanded has an encoding. The only error is that memory
    /// runs out.
    fn step(&mut self, e: &WorldEvent) -> Result<Outcome, NoMemory>
        requires begun { IsSome (shown self.old) }
        requires sound { HasSoundEdit (event_of e.now) }
        ensures told { IfOk result (λ o. (devices : ℕ) (es : List events) (os : List Told) → told self.old devices es os → told self.new devices (es ++ event_of e.now ∷ []) (os ++ outcome_of o ∷ [])) }
        ensures shown { IsSome (shown self.new) };

    /// The world; `None` exactly where none was begun.
    fn world(&self) -> Option<&World>
        ensures { option_copied result ≡ shown self.now };
}

/// A stage that keeps one world and plays its definition: what it tells are the outcomes of the run, and the world that it
/// shows is the one that the run ends in.
#[derive(Drop)]
pub struct WorldStage {
    alloc: Global,
    world: Option<World>,
}

impl WorldStage {
    /// A stage on which no world was begun: it shows none, and has told nothing. It takes no memory; its worlds grow in this
    /// allocator.
    pub fn new(alloc: Global) -> Self
        ensures shown { result.world ≡ None }
        ensures told { (devices : ℕ) (es : List events) (os : List Told) → IsPlayed result.world devices es os → ⊥ }
    {
        WorldStage { alloc, world: None }
    }
}

impl Stage for WorldStage {
    ghost use Rattle.world_stage.specs.Stages.{IsPlayed};

    ghost told = { λ s. IsPlayed s.world };

    ghost shown = { λ s. s.world };

    fn begin(&mut self, devices: u32) -> Result<(), NoMemory> {
        let world = World::new(self.alloc, devices)?;
        let_go(replace(&mut self.world, Some(world)));
        Ok(())
    }

    fn step(&mut self, e: &WorldEvent) -> Result<Outcome, NoMemory> {
        match &mut self.world {
            Some(world) => world.step(e),
            None => unreachable!(),
        }
    }

    fn world(&self) -> Option<&World> {
        self.world.as_ref()
    }
}

/// Lets a stage go. Who hands its stage to this call drops none of its parts by itself, which would be proved once more.
pub fn close_stage(stage: WorldStage) {
    let_go(stage);
}
