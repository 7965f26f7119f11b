//! Laws of files of records.
ghost use Rattle.std.specs.Prelude.{◌≡◌, List, ℕ};
ghost use Rattle.mos_edits.specs.Entries.{Entry as JournalEntry};
ghost use Rattle.journal_records.specs.Records.{Scans};

use entry_spellings::bytes_spell_one_entry;

/// The law: a file stands for one list of entries at most.
pub fn files_scan_to_one_list()
    ensures { (bytes : List ℕ) (es fs : List JournalEntry) → Scans bytes es → Scans bytes fs → es ≡ fs }
{
    bytes_spell_one_entry();
}
