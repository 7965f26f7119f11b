//! The tables as data. Their order is the order of the fields in a canonical encoding.
use crate::aim::Aim;
use crate::column::{Column, Often, Shape};
use crate::table::Table;
use mos_fields::{Field, Form, Operation};

pub static ENVELOPE: [Column; 4] = [
    Column {
        field: Field::MosID,
        shape: Shape::Leaf(Form::Id),
        often: Often::One,
    },
    Column {
        field: Field::NcsID,
        shape: Shape::Leaf(Form::Id),
        often: Often::One,
    },
    Column {
        field: Field::MessageID,
        shape: Shape::Leaf(Form::OptId),
        often: Often::Optional,
    },
    Column {
        field: Field::Message,
        shape: Shape::Message,
        often: Often::Count(1),
    },
];

pub static BODY: [Column; 10] = [
    Column {
        field: Field::RoID,
        shape: Shape::Leaf(Form::Id),
        often: Often::One,
    },
    Column {
        field: Field::RoSlug,
        shape: Shape::Leaf(Form::Slug),
        often: Often::One,
    },
    Column {
        field: Field::RoChannel,
        shape: Shape::Leaf(Form::Text),
        often: Often::Optional,
    },
    Column {
        field: Field::RoEdStart,
        shape: Shape::Leaf(Form::Text),
        often: Often::Optional,
    },
    Column {
        field: Field::RoEdDur,
        shape: Shape::Leaf(Form::Text),
        often: Often::Optional,
    },
    Column {
        field: Field::RoTrigger,
        shape: Shape::Leaf(Form::Text),
        often: Often::Optional,
    },
    Column {
        field: Field::MacroIn,
        shape: Shape::Leaf(Form::Text),
        often: Often::Optional,
    },
    Column {
        field: Field::MacroOut,
        shape: Shape::Leaf(Form::Text),
        often: Often::Optional,
    },
    Column {
        field: Field::Metadata,
        shape: Shape::Raw,
        often: Often::Any,
    },
    Column {
        field: Field::StoryTag,
        shape: Shape::Record(Table::Story),
        often: Often::Any,
    },
];

pub static HEADER_PATCH: [Column; 9] = [
    Column {
        field: Field::RoID,
        shape: Shape::Leaf(Form::Id),
        often: Often::One,
    },
    Column {
        field: Field::RoSlug,
        shape: Shape::Leaf(Form::Slug),
        often: Often::Optional,
    },
    Column {
        field: Field::RoChannel,
        shape: Shape::Leaf(Form::Text),
        often: Often::Optional,
    },
    Column {
        field: Field::RoEdStart,
        shape: Shape::Leaf(Form::Text),
        often: Often::Optional,
    },
    Column {
        field: Field::RoEdDur,
        shape: Shape::Leaf(Form::Text),
        often: Often::Optional,
    },
    Column {
        field: Field::RoTrigger,
        shape: Shape::Leaf(Form::Text),
        often: Often::Optional,
    },
    Column {
        field: Field::MacroIn,
        shape: Shape::Leaf(Form::Text),
        often: Often::Optional,
    },
    Column {
        field: Field::MacroOut,
        shape: Shape::Leaf(Form::Text),
        often: Often::Optional,
    },
    Column {
        field: Field::Metadata,
        shape: Shape::Raw,
        often: Often::Any,
    },
];

pub static STORY: [Column; 5] = [
    Column {
        field: Field::StoryID,
        shape: Shape::Leaf(Form::Key),
        often: Often::One,
    },
    Column {
        field: Field::StorySlug,
        shape: Shape::Leaf(Form::Slug),
        often: Often::Optional,
    },
    Column {
        field: Field::StoryNum,
        shape: Shape::Leaf(Form::Text),
        often: Often::Optional,
    },
    Column {
        field: Field::Metadata,
        shape: Shape::Raw,
        often: Often::Any,
    },
    Column {
        field: Field::ItemTag,
        shape: Shape::Record(Table::Item),
        often: Often::Any,
    },
];

pub static ITEM: [Column; 14] = [
    Column {
        field: Field::ItemID,
        shape: Shape::Leaf(Form::Key),
        often: Often::One,
    },
    Column {
        field: Field::ItemSlug,
        shape: Shape::Leaf(Form::Slug),
        often: Often::Optional,
    },
    Column {
        field: Field::ObjID,
        shape: Shape::Leaf(Form::OptId),
        often: Often::One,
    },
    Column {
        field: Field::MosID,
        shape: Shape::Leaf(Form::OptId),
        often: Often::One,
    },
    Column {
        field: Field::MosAbstract,
        shape: Shape::Raw,
        often: Often::Optional,
    },
    Column {
        field: Field::ObjPaths,
        shape: Shape::Raw,
        often: Often::Optional,
    },
    Column {
        field: Field::ItemChannel,
        shape: Shape::Leaf(Form::Text),
        often: Often::Optional,
    },
    Column {
        field: Field::ItemEdStart,
        shape: Shape::Leaf(Form::Samples),
        often: Often::Optional,
    },
    Column {
        field: Field::ItemEdDur,
        shape: Shape::Leaf(Form::Samples),
        often: Often::Optional,
    },
    Column {
        field: Field::ItemUserTimingDur,
        shape: Shape::Leaf(Form::Samples),
        often: Often::Optional,
    },
    Column {
        field: Field::ItemTrigger,
        shape: Shape::Leaf(Form::Text),
        often: Often::Optional,
    },
    Column {
        field: Field::MacroIn,
        shape: Shape::Leaf(Form::Text),
        often: Often::Optional,
    },
    Column {
        field: Field::MacroOut,
        shape: Shape::Leaf(Form::Text),
        often: Often::Optional,
    },
    Column {
        field: Field::Metadata,
        shape: Shape::Raw,
        often: Often::Any,
    },
];

pub static MOS_OBJ: [Column; 17] = [
    Column {
        field: Field::ObjID,
        shape: Shape::Leaf(Form::Id),
        often: Often::One,
    },
    Column {
        field: Field::ObjSlug,
        shape: Shape::Leaf(Form::Slug),
        often: Often::Optional,
    },
    Column {
        field: Field::MosAbstract,
        shape: Shape::Raw,
        often: Often::Optional,
    },
    Column {
        field: Field::ObjGroup,
        shape: Shape::Leaf(Form::Text),
        often: Often::Optional,
    },
    Column {
        field: Field::ObjType,
        shape: Shape::Leaf(Form::ObjType),
        often: Often::Optional,
    },
    Column {
        field: Field::ObjTB,
        shape: Shape::Leaf(Form::Samples),
        often: Often::Optional,
    },
    Column {
        field: Field::ObjRev,
        shape: Shape::Leaf(Form::Rev),
        often: Often::Optional,
    },
    Column {
        field: Field::ObjDur,
        shape: Shape::Leaf(Form::Samples),
        often: Often::Optional,
    },
    Column {
        field: Field::Status,
        shape: Shape::Leaf(Form::Text),
        often: Often::Optional,
    },
    Column {
        field: Field::ObjAir,
        shape: Shape::Leaf(Form::Air),
        often: Often::Optional,
    },
    Column {
        field: Field::ObjPaths,
        shape: Shape::Raw,
        often: Often::Optional,
    },
    Column {
        field: Field::CreatedBy,
        shape: Shape::Leaf(Form::Text),
        often: Often::Optional,
    },
    Column {
        field: Field::Created,
        shape: Shape::Leaf(Form::Text),
        often: Often::Optional,
    },
    Column {
        field: Field::ChangedBy,
        shape: Shape::Leaf(Form::Text),
        often: Often::Optional,
    },
    Column {
        field: Field::Changed,
        shape: Shape::Leaf(Form::Text),
        often: Often::Optional,
    },
    Column {
        field: Field::Description,
        shape: Shape::Raw,
        often: Often::Optional,
    },
    Column {
        field: Field::Metadata,
        shape: Shape::Raw,
        often: Often::Any,
    },
];

pub static HEARTBEAT: [Column; 1] = [Column {
    field: Field::TimeTag,
    shape: Shape::Leaf(Form::Time),
    often: Often::One,
}];

pub static LIST_MACH_INFO: [Column; 13] = [
    Column {
        field: Field::Manufacturer,
        shape: Shape::Leaf(Form::Text),
        often: Often::Optional,
    },
    Column {
        field: Field::ModelTag,
        shape: Shape::Leaf(Form::Text),
        often: Often::Optional,
    },
    Column {
        field: Field::HwRev,
        shape: Shape::Leaf(Form::Text),
        often: Often::Optional,
    },
    Column {
        field: Field::SwRev,
        shape: Shape::Leaf(Form::Text),
        often: Often::Optional,
    },
    Column {
        field: Field::Dom,
        shape: Shape::Leaf(Form::Text),
        often: Often::Optional,
    },
    Column {
        field: Field::SerialNumber,
        shape: Shape::Leaf(Form::Text),
        often: Often::Optional,
    },
    Column {
        field: Field::MachineID,
        shape: Shape::Leaf(Form::Text),
        often: Often::Optional,
    },
    Column {
        field: Field::TimeTag,
        shape: Shape::Leaf(Form::Time),
        often: Often::Optional,
    },
    Column {
        field: Field::OpTime,
        shape: Shape::Leaf(Form::Text),
        often: Often::Optional,
    },
    Column {
        field: Field::MosRev,
        shape: Shape::Leaf(Form::Text),
        often: Often::Optional,
    },
    Column {
        field: Field::SupportedProfilesTag,
        shape: Shape::Record(Table::SupportedProfiles),
        often: Often::Optional,
    },
    Column {
        field: Field::DefaultActiveX,
        shape: Shape::Raw,
        often: Often::Any,
    },
    Column {
        field: Field::Metadata,
        shape: Shape::Raw,
        often: Often::Any,
    },
];

pub static SUPPORTED_PROFILES: [Column; 1] = [Column {
    field: Field::MosProfile,
    shape: Shape::Leaf(Form::Profile),
    often: Often::Any,
}];

pub static MOS_ACK: [Column; 4] = [
    Column {
        field: Field::ObjID,
        shape: Shape::Leaf(Form::OptId),
        often: Often::One,
    },
    Column {
        field: Field::ObjRev,
        shape: Shape::Leaf(Form::Rev),
        often: Often::Optional,
    },
    Column {
        field: Field::Status,
        shape: Shape::Leaf(Form::AckWord),
        often: Often::One,
    },
    Column {
        field: Field::StatusDescription,
        shape: Shape::Leaf(Form::Text),
        often: Often::Optional,
    },
];

pub static MOS_REQ_OBJ: [Column; 1] = [Column {
    field: Field::ObjID,
    shape: Shape::Leaf(Form::Id),
    often: Often::One,
}];

pub static MOS_REQ_ALL: [Column; 1] = [Column {
    field: Field::Pause,
    shape: Shape::Leaf(Form::Samples),
    often: Often::One,
}];

pub static MOS_LIST_ALL: [Column; 1] = [Column {
    field: Field::MosObjTag,
    shape: Shape::Record(Table::MosObj),
    often: Often::Any,
}];

pub static ONE_ORDER: [Column; 1] = [Column {
    field: Field::RoID,
    shape: Shape::Leaf(Form::Id),
    often: Often::One,
}];

pub static RO_LIST_ALL: [Column; 1] = [Column {
    field: Field::RoTag,
    shape: Shape::Record(Table::HeaderPatch),
    often: Often::Any,
}];

pub static ELEMENT_STAT: [Column; 7] = [
    Column {
        field: Field::RoID,
        shape: Shape::Leaf(Form::Id),
        often: Often::One,
    },
    Column {
        field: Field::StoryID,
        shape: Shape::Leaf(Form::OptId),
        often: Often::Optional,
    },
    Column {
        field: Field::ItemID,
        shape: Shape::Leaf(Form::OptId),
        often: Often::Optional,
    },
    Column {
        field: Field::ObjID,
        shape: Shape::Leaf(Form::OptId),
        often: Often::Optional,
    },
    Column {
        field: Field::ItemChannel,
        shape: Shape::Leaf(Form::Text),
        often: Often::Optional,
    },
    Column {
        field: Field::Status,
        shape: Shape::Leaf(Form::Text),
        often: Often::One,
    },
    Column {
        field: Field::TimeTag,
        shape: Shape::Leaf(Form::Time),
        often: Often::One,
    },
];

pub static INSERT_ACTION: [Column; 3] = [
    Column {
        field: Field::RoID,
        shape: Shape::Leaf(Form::Id),
        often: Often::One,
    },
    Column {
        field: Field::ElementTarget,
        shape: Shape::Record(Table::Target(Operation::Insert)),
        often: Often::One,
    },
    Column {
        field: Field::ElementSource,
        shape: Shape::Record(Table::Source(Operation::Insert, Aim::AtStory)),
        often: Often::One,
    },
];

pub static REPLACE_ACTION: [Column; 3] = [
    Column {
        field: Field::RoID,
        shape: Shape::Leaf(Form::Id),
        often: Often::One,
    },
    Column {
        field: Field::ElementTarget,
        shape: Shape::Record(Table::Target(Operation::Replace)),
        often: Often::One,
    },
    Column {
        field: Field::ElementSource,
        shape: Shape::Record(Table::Source(Operation::Replace, Aim::AtStory)),
        often: Often::One,
    },
];

pub static MOVE_ACTION: [Column; 3] = [
    Column {
        field: Field::RoID,
        shape: Shape::Leaf(Form::Id),
        often: Often::One,
    },
    Column {
        field: Field::ElementTarget,
        shape: Shape::Record(Table::Target(Operation::Move)),
        often: Often::One,
    },
    Column {
        field: Field::ElementSource,
        shape: Shape::Record(Table::Source(Operation::Move, Aim::AtStory)),
        often: Often::One,
    },
];

pub static DELETE_ACTION: [Column; 3] = [
    Column {
        field: Field::RoID,
        shape: Shape::Leaf(Form::Id),
        often: Often::One,
    },
    Column {
        field: Field::ElementTarget,
        shape: Shape::Record(Table::Target(Operation::Delete)),
        often: Often::Optional,
    },
    Column {
        field: Field::ElementSource,
        shape: Shape::Record(Table::Source(Operation::Delete, Aim::AtStory)),
        often: Often::One,
    },
];

pub static SWAP_ACTION: [Column; 3] = [
    Column {
        field: Field::RoID,
        shape: Shape::Leaf(Form::Id),
        often: Often::One,
    },
    Column {
        field: Field::ElementTarget,
        shape: Shape::Record(Table::Target(Operation::Swap)),
        often: Often::Optional,
    },
    Column {
        field: Field::ElementSource,
        shape: Shape::Record(Table::Source(Operation::Swap, Aim::AtStory)),
        often: Often::One,
    },
];

pub static TARGET: [Column; 2] = [
    Column {
        field: Field::StoryID,
        shape: Shape::Leaf(Form::OptId),
        often: Often::One,
    },
    Column {
        field: Field::ItemID,
        shape: Shape::Leaf(Form::OptId),
        often: Often::Optional,
    },
];

pub static STORY_TARGET: [Column; 2] = [
    Column {
        field: Field::StoryID,
        shape: Shape::Leaf(Form::OptId),
        often: Often::One,
    },
    Column {
        field: Field::ItemID,
        shape: Shape::Leaf(Form::OptId),
        often: Often::Count(0),
    },
];

pub static STORIES: [Column; 1] = [Column {
    field: Field::StoryTag,
    shape: Shape::Record(Table::Story),
    often: Often::Many,
}];

pub static ITEMS: [Column; 1] = [Column {
    field: Field::ItemTag,
    shape: Shape::Record(Table::Item),
    often: Often::Many,
}];

pub static STORY_IDS: [Column; 1] = [Column {
    field: Field::StoryID,
    shape: Shape::Leaf(Form::OptId),
    often: Often::Many,
}];

pub static ITEM_IDS: [Column; 1] = [Column {
    field: Field::ItemID,
    shape: Shape::Leaf(Form::OptId),
    often: Often::Many,
}];

pub static TWO_STORY_IDS: [Column; 1] = [Column {
    field: Field::StoryID,
    shape: Shape::Leaf(Form::OptId),
    often: Often::Count(2),
}];

pub static TWO_ITEM_IDS: [Column; 1] = [Column {
    field: Field::ItemID,
    shape: Shape::Leaf(Form::OptId),
    often: Often::Count(2),
}];

pub static READY_TO_AIR: [Column; 2] = [
    Column {
        field: Field::RoID,
        shape: Shape::Leaf(Form::Id),
        often: Often::One,
    },
    Column {
        field: Field::RoAir,
        shape: Shape::Leaf(Form::Air),
        often: Often::One,
    },
];

pub static RO_ACK: [Column; 7] = [
    Column {
        field: Field::RoID,
        shape: Shape::Leaf(Form::OptId),
        often: Often::One,
    },
    Column {
        field: Field::RoStatus,
        shape: Shape::Leaf(Form::Slug),
        often: Often::One,
    },
    Column {
        field: Field::StoryID,
        shape: Shape::Leaf(Form::OptId),
        often: Often::One,
    },
    Column {
        field: Field::ItemID,
        shape: Shape::Leaf(Form::OptId),
        often: Often::One,
    },
    Column {
        field: Field::ObjID,
        shape: Shape::Leaf(Form::OptId),
        often: Often::One,
    },
    Column {
        field: Field::ItemChannel,
        shape: Shape::Leaf(Form::Text),
        often: Often::Optional,
    },
    Column {
        field: Field::Status,
        shape: Shape::Leaf(Form::Text),
        often: Often::One,
    },
];

pub static STORY_SEND: [Column; 6] = [
    Column {
        field: Field::RoID,
        shape: Shape::Leaf(Form::Id),
        often: Often::One,
    },
    Column {
        field: Field::StoryID,
        shape: Shape::Leaf(Form::Id),
        often: Often::One,
    },
    Column {
        field: Field::StorySlug,
        shape: Shape::Leaf(Form::Slug),
        often: Often::Optional,
    },
    Column {
        field: Field::StoryNum,
        shape: Shape::Leaf(Form::Text),
        often: Often::Optional,
    },
    Column {
        field: Field::StoryBody,
        shape: Shape::Raw,
        often: Often::One,
    },
    Column {
        field: Field::Metadata,
        shape: Shape::Raw,
        often: Often::Any,
    },
];
