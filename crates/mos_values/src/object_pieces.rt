//! The fields of each record, in the order of its table.
ghost use Rattle.std.specs.Prelude.{◌≡◌};
ghost use Rattle.mos_values.specs.Pieces.{pieces_events};
ghost use Rattle.mos_values.specs.Views.{mos_obj_events, mach_head_events, mach_rest_events, mos_ack_events};

use crate::mach_info::MachInfo;
use crate::mos_ack::MosAck;
use crate::mos_obj::MosObj;
use crate::piece::Piece;
use mos_fields::Field;

/// The fields of a media object.
#[tactic(auto, unfolding(crate::specs::Views::mos_obj_events, crate::specs::Pieces::pieces_events))]
pub fn mos_obj_pieces(o: &MosObj) -> [Piece<'_>; 18]
    ensures { pieces_events result ≡ mos_obj_events o.now }
{
    [
        Piece::Text(Field::ObjID, o.id.text()),
        Piece::OptionalSlug(Field::ObjSlug, &o.slug),
        Piece::OptionalRaw(Field::MosAbstract, &o.mos_abstract),
        Piece::OptionalText(Field::ObjGroup, &o.group),
        Piece::OptionalObjType(Field::ObjType, o.obj_type),
        Piece::OptionalSamples(Field::ObjTB, o.time_base),
        Piece::OptionalRev(Field::ObjRev, o.rev),
        Piece::OptionalSamples(Field::ObjDur, o.dur),
        Piece::OptionalText(Field::Status, &o.status),
        Piece::OptionalAir(Field::ObjAir, o.air),
        Piece::OptionalRaw(Field::ObjPaths, &o.obj_paths),
        Piece::OptionalText(Field::CreatedBy, &o.created_by),
        Piece::OptionalText(Field::Created, &o.created),
        Piece::OptionalText(Field::ChangedBy, &o.changed_by),
        Piece::OptionalText(Field::Changed, &o.changed),
        Piece::OptionalRaw(Field::Description, &o.description),
        Piece::Raws(Field::Metadata, o.metadata.as_slice()),
        Piece::Raws(Field::Kept, o.others.as_slice()),
    ]
}

/// What a machine says of itself, before its profiles.
#[tactic(auto, unfolding(crate::specs::Views::mach_head_events, crate::specs::Pieces::pieces_events))]
pub fn mach_head_pieces(m: &MachInfo) -> [Piece<'_>; 10]
    ensures { pieces_events result ≡ mach_head_events m.now }
{
    [
        Piece::OptionalText(Field::Manufacturer, &m.manufacturer),
        Piece::OptionalText(Field::ModelTag, &m.model),
        Piece::OptionalText(Field::HwRev, &m.hw_rev),
        Piece::OptionalText(Field::SwRev, &m.sw_rev),
        Piece::OptionalText(Field::Dom, &m.dom),
        Piece::OptionalText(Field::SerialNumber, &m.serial_number),
        Piece::OptionalText(Field::MachineID, &m.id),
        Piece::OptionalTime(Field::TimeTag, &m.time),
        Piece::OptionalText(Field::OpTime, &m.op_time),
        Piece::OptionalText(Field::MosRev, &m.mos_rev),
    ]
}

/// What a machine says of itself, behind its profiles.
#[tactic(auto, unfolding(crate::specs::Views::mach_rest_events, crate::specs::Pieces::pieces_events))]
pub fn mach_rest_pieces(m: &MachInfo) -> [Piece<'_>; 3]
    ensures { pieces_events result ≡ mach_rest_events m.now }
{
    [
        Piece::Raws(Field::DefaultActiveX, m.default_active_x.as_slice()),
        Piece::Raws(Field::Metadata, m.metadata.as_slice()),
        Piece::Raws(Field::Kept, m.others.as_slice()),
    ]
}

/// The fields of an answer to a media object message.
#[tactic(auto, unfolding(crate::specs::Views::mos_ack_events, crate::specs::Pieces::pieces_events))]
pub fn mos_ack_pieces(a: &MosAck) -> [Piece<'_>; 4]
    ensures { pieces_events result ≡ mos_ack_events a.now }
{
    [
        Piece::Text(Field::ObjID, a.obj.text()),
        Piece::OptionalRev(Field::ObjRev, a.rev),
        Piece::AckStatus(Field::Status, a.status),
        Piece::OptionalText(Field::StatusDescription, &a.description),
    ]
}
