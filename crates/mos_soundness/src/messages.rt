//! Messages.
ghost use Rattle.std.specs.Prelude.{◌≡◌, ◌↔◌, ◌∷◌, [], true, false, codes, IsTrue};
ghost use Rattle.mos_fields.specs.Forms.{among};
ghost use Rattle.mos_fields.specs.Raw.{IsRaw};
ghost use Rattle.mos_values.specs.Sound.{IsSound, taken_names};

use crate::actions::is_sound_action;
use crate::names::{element_name, is_word};
use crate::objects::{are_sound_objects, is_sound_machine, is_sound_object};
use crate::orders::{are_sound_patches, is_sound_body, is_sound_patch, is_sound_send};
use mos_columns::find_message;
use mos_fields::{Name, Unread};
use mos_values::Message;

/// Whether a field of the envelope beside its message has this name.
fn is_envelope_name(name: &[u16]) -> bool
    ensures { result ≡ among name.now (codes "mosID" ∷ codes "ncsID" ∷ codes "messageID" ∷ []) }
{
    is_word(name, "mosID") || is_word(name, "ncsID") || is_word(name, "messageID")
}

/// Whether a message of the profile has this name, or another field of the envelope.
fn is_taken(name: &[u16]) -> bool
    ensures { result ≡ among name.now taken_names }
{
    match find_message(name) {
        Some(_) => true,
        None => is_envelope_name(name),
    }
}

/// Whether the name is that of the raw element, and no message of the profile has it.
fn is_sound_other(name: &Name, raw: &Unread) -> bool
    ensures { IsTrue result ↔ (IsRaw name.now raw.now × (among name.now taken_names ≡ false)) }
{
    let written = element_name(raw);
    name.units() == written && !is_taken(written)
}

/// Whether the message has an encoding: each raw element has the name of its field; each element that is kept has a name
/// that its record's table doesn't have, and keeps; a message of another name has that of its raw text, which is none of
/// the profile's; and an action has a source or more.
#[tactic(auto, unfolding(mos_values::specs::Sound::IsSound))]
pub fn is_sound(message: &Message) -> bool
    ensures sound { result ≡ true → IsSound message.now }
    ensures unsound { result ≡ false → IsSound message.now → ⊥ }
{
    match message {
        Message::ListMachInfo(info) => is_sound_machine(info.as_ref()),
        Message::MosObj(object) => is_sound_object(object.as_ref()),
        Message::MosListAll(objects) => are_sound_objects(objects.as_slice()),
        Message::RoCreate(body) => is_sound_body(body.as_ref()),
        Message::RoReplace(body) => is_sound_body(body.as_ref()),
        Message::RoList(body) => is_sound_body(body.as_ref()),
        Message::RoMetadataReplace(patch) => is_sound_patch(patch.as_ref()),
        Message::RoListAll(patches) => are_sound_patches(patches.as_slice()),
        Message::RoElementAction { ro: _, action } => is_sound_action(action),
        Message::RoStorySend(story) => is_sound_send(story.as_ref()),
        Message::Other { name, raw } => is_sound_other(name, raw),
        _ => true,
    }
}
