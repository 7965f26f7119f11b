//! Identifiers in order, from their texts.
ghost use Rattle.std.specs.Prelude.{◌≡◌, [], Some, IfOk, map};
ghost use Rattle.std.specs.List.{AllByRecursion};
ghost use Rattle.mos_fields.specs.Fields.{name_of};
ghost use Rattle.mos_fields.specs.Forms.{reads};
ghost use Rattle.mos_fields.specs.declared.field.Field.{Field as Field_};
ghost use Rattle.mos_fields.specs.declared.form.Form.TheVariants as forms;
ghost use Rattle.mos_values.specs.MessageViews.{ids_events};
ghost use Rattle.mos_cursor.specs.Accepted.{LeafFits};
ghost use Rattle.mos_cursor.specs.Parts.{leaf_event};
ghost use Rattle.mos_cursor.specs.Slots.{leaf_of};
ghost use Rattle.mos_action_reading.specs.Identifiers.{HoldsId, text_of};

use mos_cursor::LeafText;
use mos_fields::{NoMemory, OptId, OptIds, Text};
use mos_values::Sequence;
use std::alloc::Global;

/// The identifier of a canonical text, which may be empty.
#[tactic(auto, using(mos_cursor::proofs::Typed::opt_id_sized))]
pub(crate) fn id_of(text: Text) -> OptId
    requires { reads forms.OptId [] text ≡ Some text }
    ensures { result ≡ text }
{
    OptId::from_sized(text)
}

/// The identifiers of these texts, in order.
#[tactic(auto, using(mos_cursor::proofs::Read::read_start, mos_cursor::proofs::Read::read_next, mos_cursor::proofs::Read::read_more, mos_cursor::proofs::Read::read_end))]
fn read_ids(alloc: Global, leaves: Sequence<LeafText>) -> Result<OptIds, NoMemory>
    requires { AllByRecursion HoldsId leaves }
    ensures { IfOk result (λ ids. map (λ x. x) ids ≡ map text_of leaves) }
{
    let mut rest = leaves.into_vec();
    rest.reverse();
    let mut ids = OptIds::new(alloc);
    'next: while let Some(leaf) = rest.pop() {
        ids.push(id_of(leaf.text))?;
    }
    Ok(ids)
}

/// The identifiers of these texts, in order. The only error is that memory runs out.
pub(crate) fn ids_of(alloc: Global, leaves: Sequence<LeafText>) -> Result<OptIds, NoMemory>
    requires { AllByRecursion (LeafFits forms.OptId) (map leaf_of leaves) }
    ensures { IfOk result (λ ids. (f : Field_) → ids_events f ids ≡ map (leaf_event (name_of f)) (map leaf_of leaves)) }
{
    let ids = read_ids(alloc, leaves)?;
    Ok(ids)
}
