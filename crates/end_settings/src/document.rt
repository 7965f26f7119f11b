//! The table that a text is.
ghost use Rattle.std.specs.Prelude.{◌≡◌, IfErr, IfOk, Some, None};
ghost use Rattle.toml.specs.View.{table_view};
ghost use Rattle.end_settings.specs.Ends.{table_in};
ghost use Rattle.end_settings.specs.declared.fault.SettingsFault.TheVariants.{NoMemory as out_of_memory, NotToml as not_toml};

use crate::fault::SettingsFault;
use std::alloc::Global;
use toml::Table;

/// The table of a TOML text in UTF-8. `NotToml` comes exactly where the text is none.
pub fn read_document(alloc: Global, text: &[u8]) -> Result<Table, SettingsFault>
    ensures table { IfOk result (λ t. table_in text.now ≡ Some (table_view t)) }
    ensures fault { IfErr result (λ f. ¬ (f ≡ out_of_memory) → (f ≡ not_toml) × (table_in text.now ≡ None)) }
{
    match toml::table_from_slice(alloc, text) {
        Ok(table) => Ok(table),
        Err(fault) => {
            if fault.is_memory() {
                return Err(SettingsFault::NoMemory);
            }
            Err(SettingsFault::NotToml)
        }
    }
}
