//! What empty elements show.
ghost use Rattle.std.specs.Prelude.{◌≡◌, [], cond, IfOk, is_some, Some, None, ◌||◌};
ghost use Rattle.mos_fields.specs.Forms.{reads};
ghost use Rattle.mos_grammar.specs.Records.{end_fault as end_fault_of};
ghost use Rattle.mos_grammar.specs.declared.fault.Fault.TheVariants.{Value as wrong_value};

use mos_columns::{find_end_fault, start_counts};
use mos_fields::{Field, Form, NoMemory};
use mos_grammar::Fault;
use mos_tables::Table;
use std::alloc::Global;

/// Whether the empty text is of the form.
#[tactic(auto, unfolding(mos_fields::specs::Forms::reads))]
pub fn takes_empty(form: Form) -> bool
    ensures { result ≡ is_some (reads form [] []) }
{
    matches!(form, Form::OptId | Form::Slug | Form::Text)
}

/// What the end of a field with an empty text shows.
pub fn leaf_fault(field: Field, form: Form, may_lack: bool) -> Option<Fault>
    ensures { result ≡ cond (may_lack || is_some (reads form [] [])) None (Some (wrong_value field)) }
{
    if may_lack || takes_empty(form) {
        None
    } else {
        Some(Fault::Value(field))
    }
}

/// What the end of a record with no child shows. The only error is that memory runs out.
#[tactic(auto, unfolding(mos_grammar::specs::Records::end_fault), using(crate::proofs::FrameLemmas::none_seen))]
pub fn table_end_fault(alloc: Global, table: Table) -> Result<Option<Fault>, NoMemory>
    ensures { IfOk result (λ k. k ≡ end_fault_of table []) }
{
    let counts = start_counts(alloc, table.columns())?;
    Ok(find_end_fault(table, &counts))
}
