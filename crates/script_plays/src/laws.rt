//! What is written where the stage plays the world's definition.
ghost use Rattle.std.specs.Prelude.{◌≡◌, ℕ, List, Option};
ghost use Rattle.world_stage.specs.Stages.{IsPlayed};
ghost use Rattle.world_stage.specs.declared.play.Play.{Play};
ghost use Rattle.script_plays.specs.Played.{IsListed, IsMade, IsReplayed, IsSummed};

/// On a stage that plays the world's definition, as `WorldStage` does, what `replay` writes is the listing of the script's run,
/// and what `make` writes is the summary of that run; and the run is safe.
pub fn honest_stages_write_the_run()
    ensures replay { (shown : Option (Option Play)) (left_before left_after written_before written_after : Option (List ℕ)) → IsReplayed (IsPlayed shown) shown left_before left_after written_before written_after → IsListed left_before left_after written_before written_after }
    ensures make { (shown : Option (Option Play)) (n : ℕ) (written_before written_after : Option (List ℕ)) → IsMade (IsPlayed shown) shown n written_before written_after → IsSummed n written_before written_after }
{}
