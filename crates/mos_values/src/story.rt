//! Stories of a running order.
ghost use Rattle.std.specs.Prelude.{◌≡◌, ◌↔◌, [], ◌∷◌, ◌++◌, None, IfOk, OnOk, OnErr, Err, Contains, IsTrue};
ghost use Rattle.mos_values.specs.Distinct.{AreDistinct, item_ids};

use crate::copies::triple;
use crate::ids::{is_item_among, repeats_item};
use crate::item::Item;
use crate::push_fault::PushFault;
use crate::{Items, Unreads};
use mos_fields::{Id, NoMemory, Slug, Text, pair_ok};
use std::alloc::Global;
use std::marker::Model;

/// A story of a running order. In every value of this type the items have distinct itemIDs.
#[derive(Drop)]
pub struct Story {
    /// storyID, which no other story of its order has
    pub id: Id,
    /// storySlug
    pub slug: Option<Slug>,
    /// storyNum
    pub num: Option<Text>,
    /// mosExternalMetadata, each element as it was written
    pub metadata: Unreads,
    /// the elements of other names, in order, each as it was written
    pub others: Unreads,
    /// the items, in order
    pub items: Items,
}

impl Model for Story {
    ghost use Rattle.mos_values.specs.Distinct.{AreDistinct, item_ids};
    ghost use Rattle.mos_values.specs.StoryValue.{Story as Value_};

    ghost Value = { Value_ };

    ghost view = { λ s. record { id = s.id; slug = s.slug; num = s.num; metadata = s.metadata; others = s.others; items = s.items } };

    ghost invariant = { λ s. AreDistinct (item_ids s.items) };
}

impl Story {
    /// A story that has its storyID alone. It takes no memory; its lists grow in this allocator.
    pub fn new(alloc: Global, id: Id) -> Self
        ensures { result ≡ record { id = id; slug = None; num = None; metadata = []; others = []; items = [] } }
    {
        Story {
            id,
            slug: None,
            num: None,
            metadata: Unreads::new(alloc),
            others: Unreads::new(alloc),
            items: Items::new(alloc),
        }
    }

    /// The law of the type: no two items have the same itemID.
    pub fn has_distinct_items(&self)
        ensures { AreDistinct (item_ids self.now.items) }
    {
        let _ = &self.items;
    }

    /// Whether an item has this itemID.
    pub fn has_item(&self, id: &Id) -> bool
        ensures { IsTrue result ↔ Contains (item_ids self.now.items) id.now }
    {
        is_item_among(self.items.as_slice(), id)
    }

    /// Adds an item at the end. `Repeat` comes exactly where an item has its itemID already. With either fault the
    /// story stays as it was, and the item is dropped.
    pub fn push_item(&mut self, i: Item) -> Result<(), PushFault>
        ensures ok { OnOk result (self.new ≡ record self.old { items = self.old.items ++ i ∷ [] }) }
        ensures repeat { (result ≡ Err PushFault.Repeat) ↔ Contains (item_ids self.old.items) i.id }
        ensures err { OnErr result (self.new ≡ self.old) }
    {
        if repeats_item(self.items.as_slice(), &i) {
            return Err(PushFault::Repeat);
        }
        self.items.push(i)?;
        Ok(())
    }

    /// The same story again, in memory of its own. The only error is that memory runs out.
    pub fn try_clone(&self) -> Result<Self, NoMemory>
        ensures { IfOk result (λ t. t ≡ self.now) }
    {
        let ((id, slug, num), (metadata, others, items)) = pair_ok(
            triple(&self.id, &self.slug, &self.num),
            triple(&self.metadata, &self.others, &self.items),
        )?;
        Ok(Story {
            id,
            slug,
            num,
            metadata,
            others,
            items,
        })
    }
}
