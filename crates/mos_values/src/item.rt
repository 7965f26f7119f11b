//! Items of a story.
ghost use Rattle.std.specs.Prelude.{◌≡◌, IfOk};

use crate::Unreads;
use crate::copies::triple;
use mos_fields::{Id, NoMemory, OptId, Samples, Slug, Text, Unread, pair_ok};

/// An item of a story: an object, and where and how it is played.
#[derive(Drop)]
pub struct Item {
    /// itemID, which no other item of its story has
    pub id: Id,
    /// itemSlug
    pub slug: Option<Slug>,
    /// objID
    pub obj: OptId,
    /// mosID of the device that has the object
    pub mos: OptId,
    /// mosAbstract, as it was written
    pub mos_abstract: Option<Unread>,
    /// objPaths, as it was written
    pub obj_paths: Option<Unread>,
    /// itemChannel
    pub channel: Option<Text>,
    /// itemEdStart
    pub ed_start: Option<Samples>,
    /// itemEdDur
    pub ed_dur: Option<Samples>,
    /// itemUserTimingDur
    pub user_timing_dur: Option<Samples>,
    /// itemTrigger
    pub trigger: Option<Text>,
    /// macroIn
    pub macro_in: Option<Text>,
    /// macroOut
    pub macro_out: Option<Text>,
    /// mosExternalMetadata, each element as it was written
    pub metadata: Unreads,
    /// the elements of other names, in order, each as it was written
    pub others: Unreads,
}

impl Item {
    /// The same item again, in memory of its own. The only error is that memory runs out.
    pub fn try_clone(&self) -> Result<Self, NoMemory>
        ensures { IfOk result (λ t. t ≡ self.now) }
    {
        let (
            ((id, slug, obj), (mos, mos_abstract, obj_paths)),
            ((channel, trigger, macro_in), (macro_out, metadata, others)),
        ) = pair_ok(
            pair_ok(
                triple(&self.id, &self.slug, &self.obj),
                triple(&self.mos, &self.mos_abstract, &self.obj_paths),
            ),
            pair_ok(
                triple(&self.channel, &self.trigger, &self.macro_in),
                triple(&self.macro_out, &self.metadata, &self.others),
            ),
        )?;
        Ok(Item {
            id,
            slug,
            obj,
            mos,
            mos_abstract,
            obj_paths,
            channel,
            trigger,
            macro_in,
            macro_out,
            metadata,
            others,
            ed_start: self.ed_start,
            ed_dur: self.ed_dur,
            user_timing_dur: self.user_timing_dur,
        })
    }
}
