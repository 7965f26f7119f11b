//! Words of slots.
ghost use Rattle.std.specs.Prelude.{◌≡◌, [], Some};
ghost use Rattle.mos_fields.specs.Forms.{reads};
ghost use Rattle.mos_fields.specs.declared.field.Field.{Field as Field_};
ghost use Rattle.mos_fields.specs.declared.form.Form.TheVariants as forms;
ghost use Rattle.mos_values.specs.Parts.{must};
ghost use Rattle.mos_values.specs.Views.{ack_status_text};
ghost use Rattle.mos_cursor.specs.Accepted.{OneLeaf};
ghost use Rattle.mos_cursor.specs.Parts.{part_events};
ghost use Rattle.mos_cursor.specs.Slots.{part_of};

use mos_cursor::Slot;
use mos_fields::Text;
use mos_values::AckStatus;

/// Whether a message was taken, by a canonical text: the two words differ in their lengths.
#[tactic(auto, using(crate::proofs::WordLemmas::is_ack, crate::proofs::WordLemmas::is_nack))]
fn ack_status_of(text: &Text) -> AckStatus
    requires { reads forms.AckWord [] text.now ≡ Some text.now }
    ensures { ack_status_text result ≡ text.now }
{
    if text.len() == 3 {
        return AckStatus::Ack;
    }
    AckStatus::Nack
}

/// Whether a message was taken, of a field that has to be there.
#[tactic(auto, unfolding(mos_values::specs::Parts::must))]
pub(crate) fn ack_status(slot: Slot) -> AckStatus
    requires { OneLeaf forms.AckWord (part_of slot) }
    ensures { (f : Field_) → part_events f (part_of slot) ≡ must f (ack_status_text result) }
{
    match slot {
        Slot::Leaf(leaf) => ack_status_of(&leaf.text),
        _ => unreachable!(),
    }
}
