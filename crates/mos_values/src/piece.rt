//! The fields of a record, for all that goes over them: writing, counting, looking at raw elements.

use crate::mos_ack::AckStatus;
use mos_fields::{Air, Field, MosTime, ObjType, OptId, Rev, Samples, Slug, Text, Unread};

/// A field of a record with its value. A record is an array of these, in the order of its table, and an optional field
/// that is absent adds nothing.

#[derive(Drop)]
pub enum Piece<'a> {
    /// a text
    Text(Field, &'a Text),
    OptionalText(Field, &'a Option<Text>),
    OptionalSlug(Field, &'a Option<Slug>),
    OptionalOptId(Field, &'a Option<OptId>),
    /// a number of samples
    Samples(Field, Samples),
    OptionalSamples(Field, Option<Samples>),
    OptionalRev(Field, Option<Rev>),
    /// a time
    Time(Field, &'a MosTime),
    OptionalTime(Field, &'a Option<MosTime>),
    /// a word
    Air(Field, Air),
    OptionalAir(Field, Option<Air>),
    OptionalObjType(Field, Option<ObjType>),
    AckStatus(Field, AckStatus),
    /// a raw element
    Raw(Field, &'a Unread),
    OptionalRaw(Field, &'a Option<Unread>),
    Raws(Field, &'a [Unread]),
}
