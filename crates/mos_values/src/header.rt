//! Headers of running orders.
ghost use Rattle.std.specs.Prelude.{◌≡◌, Some, IfOk};
ghost use Rattle.mos_values.specs.Headers.{patch_of};

use crate::Unreads;
use crate::copies::{pair, triple};
use mos_fields::{Id, NoMemory, Slug, Text, pair_ok};

/// What a running order says of itself, before its stories: the fields of roCreate, roReplace and roList.
#[derive(Drop)]
pub struct Header {
    /// roID
    pub ro: Id,
    /// roSlug
    pub slug: Slug,
    /// roChannel
    pub channel: Option<Text>,
    /// roEdStart, a time that is kept as text
    pub ed_start: Option<Text>,
    /// roEdDur, a duration that is kept as text
    pub ed_dur: Option<Text>,
    /// roTrigger
    pub trigger: Option<Text>,
    /// macroIn
    pub macro_in: Option<Text>,
    /// macroOut
    pub macro_out: Option<Text>,
    /// mosExternalMetadata, each element as it was written
    pub metadata: Unreads,
    /// the elements of other names, in order, each as it was written
    pub others: Unreads,
}

impl Header {
    /// The same header again, in memory of its own. The only error is that memory runs out.
    pub fn try_clone(&self) -> Result<Self, NoMemory>
        ensures { IfOk result (λ t. t ≡ self.now) }
    {
        let (
            ((ro, slug, channel), (ed_start, ed_dur)),
            ((trigger, macro_in, macro_out), (metadata, others)),
        ) = pair_ok(
            pair_ok(
                triple(&self.ro, &self.slug, &self.channel),
                pair(&self.ed_start, &self.ed_dur),
            ),
            pair_ok(
                triple(&self.trigger, &self.macro_in, &self.macro_out),
                pair(&self.metadata, &self.others),
            ),
        )?;
        Ok(Header {
            ro,
            slug,
            channel,
            ed_start,
            ed_dur,
            trigger,
            macro_in,
            macro_out,
            metadata,
            others,
        })
    }

    /// The header as roListAll lists it: with all that it has.
    pub fn into_patch(self) -> HeaderPatch
        ensures { result ≡ patch_of self }
    {
        HeaderPatch {
            ro: self.ro,
            slug: Some(self.slug),
            channel: self.channel,
            ed_start: self.ed_start,
            ed_dur: self.ed_dur,
            trigger: self.trigger,
            macro_in: self.macro_in,
            macro_out: self.macro_out,
            metadata: self.metadata,
            others: self.others,
        }
    }
}

/// A header whose slug may be absent: the fields of roMetadataReplace, and of each `ro` of roListAll.
#[derive(Drop)]
pub struct HeaderPatch {
    /// roID
    pub ro: Id,
    /// roSlug
    pub slug: Option<Slug>,
    /// roChannel
    pub channel: Option<Text>,
    /// roEdStart, a time that is kept as text
    pub ed_start: Option<Text>,
    /// roEdDur, a duration that is kept as text
    pub ed_dur: Option<Text>,
    /// roTrigger
    pub trigger: Option<Text>,
    /// macroIn
    pub macro_in: Option<Text>,
    /// macroOut
    pub macro_out: Option<Text>,
    /// mosExternalMetadata, each element as it was written
    pub metadata: Unreads,
    /// the elements of other names, in order, each as it was written
    pub others: Unreads,
}

impl HeaderPatch {
    /// The same header again, in memory of its own. The only error is that memory runs out.
    pub fn try_clone(&self) -> Result<Self, NoMemory>
        ensures { IfOk result (λ t. t ≡ self.now) }
    {
        let (
            ((ro, slug, channel), (ed_start, ed_dur)),
            ((trigger, macro_in, macro_out), (metadata, others)),
        ) = pair_ok(
            pair_ok(
                triple(&self.ro, &self.slug, &self.channel),
                pair(&self.ed_start, &self.ed_dur),
            ),
            pair_ok(
                triple(&self.trigger, &self.macro_in, &self.macro_out),
                pair(&self.metadata, &self.others),
            ),
        )?;
        Ok(HeaderPatch {
            ro,
            slug,
            channel,
            ed_start,
            ed_dur,
            trigger,
            macro_in,
            macro_out,
            metadata,
            others,
        })
    }
}
