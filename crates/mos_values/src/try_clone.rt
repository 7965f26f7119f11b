//! Copies of values.
ghost use Rattle.std.specs.Prelude.{◌≡◌, IfOk};

use crate::ack_group::AckGroup;
use crate::element_stat::ElementStat;
use crate::header::HeaderPatch;
use crate::item::Item;
use crate::mach_info::MachInfo;
use crate::mos_obj::MosObj;
use crate::order_body::OrderBody;
use crate::profile::{Profile, SupportedProfiles};
use crate::sequence::Sequence;
use crate::story::Story;
use crate::story_send::StorySend;
use mos_fields::{Id, NoMemory, OptId, OptIds, Slug, Text, Unread};

/// A value that stands in lists and in optional fields, and that can be copied where there is memory for it.
pub trait TryClone: Drop {
    /// An equal value, in memory of its own. The only error is that memory runs out.
    fn try_clone(&self) -> Result<Self, NoMemory>
        ensures { IfOk result (λ t. t ≡ self.now) };
}

/// A copy of an optional field.
pub fn copied<T: TryClone>(field: &Option<T>) -> Result<Option<T>, NoMemory>
    ensures { IfOk result (λ t. t ≡ field.now) }
{
    match field {
        None => Ok(None),
        Some(t) => Ok(Some(t.try_clone()?)),
    }
}

impl TryClone for Unread {
    fn try_clone(&self) -> Result<Self, NoMemory> {
        self.try_clone()
    }
}

impl TryClone for Text {
    fn try_clone(&self) -> Result<Self, NoMemory> {
        self.try_clone()
    }
}

impl TryClone for Slug {
    fn try_clone(&self) -> Result<Self, NoMemory> {
        self.try_clone()
    }
}

impl TryClone for OptId {
    fn try_clone(&self) -> Result<Self, NoMemory> {
        self.try_clone()
    }
}

impl TryClone for Item {
    fn try_clone(&self) -> Result<Self, NoMemory> {
        self.try_clone()
    }
}

impl TryClone for Story {
    fn try_clone(&self) -> Result<Self, NoMemory> {
        self.try_clone()
    }
}

impl TryClone for MosObj {
    fn try_clone(&self) -> Result<Self, NoMemory> {
        self.try_clone()
    }
}

impl TryClone for HeaderPatch {
    fn try_clone(&self) -> Result<Self, NoMemory> {
        self.try_clone()
    }
}

impl TryClone for AckGroup {
    fn try_clone(&self) -> Result<Self, NoMemory> {
        self.try_clone()
    }
}

impl TryClone for Profile {
    fn try_clone(&self) -> Result<Self, NoMemory> {
        Ok(*self)
    }
}

impl TryClone for SupportedProfiles {
    fn try_clone(&self) -> Result<Self, NoMemory> {
        self.try_clone()
    }
}

impl TryClone for MachInfo {
    fn try_clone(&self) -> Result<Self, NoMemory> {
        self.try_clone()
    }
}

impl TryClone for OrderBody {
    fn try_clone(&self) -> Result<Self, NoMemory> {
        self.try_clone()
    }
}

impl TryClone for ElementStat {
    fn try_clone(&self) -> Result<Self, NoMemory> {
        self.try_clone()
    }
}

impl TryClone for StorySend {
    fn try_clone(&self) -> Result<Self, NoMemory> {
        self.try_clone()
    }
}

impl TryClone for Id {
    fn try_clone(&self) -> Result<Self, NoMemory> {
        self.try_clone()
    }
}

impl TryClone for OptIds {
    fn try_clone(&self) -> Result<Self, NoMemory> {
        self.try_clone()
    }
}

impl<T: TryClone> TryClone for Option<T> {
    fn try_clone(&self) -> Result<Self, NoMemory> {
        copied(self)
    }
}

impl<T: TryClone> TryClone for Sequence<T> {
    fn try_clone(&self) -> Result<Self, NoMemory> {
        self.try_clone()
    }
}
