//! Edits of running orders.
ghost use Rattle.std.specs.Prelude.{◌≡◌, true, false};
ghost use Rattle.mos_machines.specs.Values.{edit_message};
ghost use Rattle.mos_values.specs.Sound.{IsSound};

use crate::actions::is_sound_action;
use crate::orders::{is_sound_body, is_sound_patch, is_sound_send};
use mos_edits::Edit;

/// Whether the message of the edit has an encoding, as `is_sound` says of it.
#[tactic(auto, unfolding(mos_values::specs::Sound::IsSound))]
pub fn is_sound_edit(edit: &Edit) -> bool
    ensures sound { result ≡ true → IsSound (edit_message edit.now) }
    ensures unsound { result ≡ false → IsSound (edit_message edit.now) → ⊥ }
{
    match edit {
        Edit::Create(body) => is_sound_body(body.as_ref()),
        Edit::Replace(body) => is_sound_body(body.as_ref()),
        Edit::Metadata(patch) => is_sound_patch(patch.as_ref()),
        Edit::Act { ro: _, action } => is_sound_action(action),
        Edit::Delete(_) => true,
        Edit::Air { ro: _, air: _ } => true,
        Edit::Script(script) => is_sound_send(script.as_ref()),
    }
}
