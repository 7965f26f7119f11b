//! Entries of a journal.
ghost use Rattle.std.specs.Prelude.{◌≡◌, IfOk};
ghost use Rattle.mos_edits.specs.Entries.{entry_of, IsEntry};
ghost use Rattle.mos_edits.specs.Orders.{edit_ro as edit_ro_of};

use mos_edits::Edit;
use mos_fields::{Id, NoMemory};
use std::marker::Model;

/// An entry of the server's journal: an edit that was accepted, with the roID that it names.
#[derive(Drop)]
pub struct Entry {
    edit: Edit,
}

impl Model for Entry {
    ghost use Rattle.mos_edits.specs.Entries.{Entry as JournalEntry, entry_of};

    ghost Value = { JournalEntry };

    ghost view = { λ e. entry_of e.edit };
}

/// The roID that an edit names.
pub fn edit_ro(edit: &Edit) -> &Id
    ensures { result.now ≡ edit_ro_of edit.now }
{
    match edit {
        Edit::Create(body) => &body.as_ref().header.ro,
        Edit::Replace(body) => &body.as_ref().header.ro,
        Edit::Delete(ro) => ro,
        Edit::Metadata(patch) => &patch.as_ref().ro,
        Edit::Act { ro, action: _ } => ro,
        Edit::Air { ro, air: _ } => ro,
        Edit::Script(script) => &script.as_ref().ro,
    }
}

impl Entry {
    /// The entry of an edit. It takes no memory.
    pub fn new(edit: Edit) -> Self
        ensures { result ≡ entry_of edit }
    {
        Entry { edit }
    }

    /// The roID that the edit names.
    pub fn ro(&self) -> &Id
        ensures { result.now ≡ self.now.ro }
    {
        edit_ro(&self.edit)
    }

    /// The edit.
    pub fn edit(&self) -> &Edit
        ensures { result.now ≡ self.now.edit }
    {
        &self.edit
    }

    /// The law of the type: the roID is that of the edit.
    pub fn has_ro_of_edit(&self)
        ensures { IsEntry self.now }
    {
        let _edit = &self.edit;
    }

    /// The same entry again, in memory of its own. The only error is that memory runs out.
    pub fn try_clone(&self) -> Result<Self, NoMemory>
        ensures { IfOk result (λ e. e ≡ self.now) }
    {
        let edit = self.edit.try_clone()?;
        Ok(Entry { edit })
    }
}
