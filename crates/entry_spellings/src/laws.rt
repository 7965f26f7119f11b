//! The law of spellings.
ghost use Rattle.std.specs.Prelude.{◌≡◌, List, ℕ};
ghost use Rattle.mos_edits.specs.Entries.{Entry as JournalEntry};
ghost use Rattle.entry_spellings.specs.Spellings.{Spells};

use value_laws::encodings::encodings_pin_envelopes;

/// The law: bytes are the spelling of one entry at most.
pub fn bytes_spell_one_entry()
    ensures { (bytes : List ℕ) (e f : JournalEntry) → Spells bytes e → Spells bytes f → e ≡ f }
{
    encodings_pin_envelopes();
}
