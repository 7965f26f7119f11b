//! The code units of running orders, of scripts, of lists of headers and of lists of objects.
ghost use Rattle.std.specs.Prelude.{◌≡◌, codes};
ghost use Rattle.mos_fields.specs.Fields.{name_of};
ghost use Rattle.mos_fields.specs.declared.field.Field.TheVariants as fields;
ghost use Rattle.mos_values.specs.Parts.{element};
ghost use Rattle.mos_values.specs.Units.{capped, list_all_events, list_events, send_events, units_in};
ghost use Rattle.mos_values.specs.Views.{body_events, header_events, headers_events, item_events, items_events, mos_obj_events, objects_events, patch_events, stories_events, story_events, story_send_events};

use crate::header::{Header, HeaderPatch};
use crate::item::Item;
use crate::mos_obj::MosObj;
use crate::object_pieces::mos_obj_pieces;
use crate::order_body::OrderBody;
use crate::order_pieces::{
    header_pieces, item_pieces, patch_pieces, story_head_pieces, story_send_pieces,
};
use crate::story::Story;
use crate::story_send::StorySend;
use crate::units::{element_units, pieces_units, plus};
use crate::{Headers, MosObjs};
use mos_fields::Field;

/// The code units of an element `item` in its canonical encoding, 2^64 - 1 where that is smaller.
pub fn item_units(item: &Item) -> u64
    ensures { result ≡ capped (units_in (element (name_of fields.ItemTag) (item_events item.now))) }
{
    element_units(Field::ItemTag, pieces_units(&item_pieces(item)))
}

/// The code units of these items' elements, 2^64 - 1 where that is smaller.
pub fn items_units(items: &[Item]) -> u64
    ensures { result ≡ capped (units_in (items_events items.now)) }
{
    let mut count = 0;
    for item in items {
        count = plus(count, item_units(item));
    }
    count
}

fn story_inside(story: &Story) -> u64
    ensures { result ≡ capped (units_in (story_events story.now)) }
{
    plus(
        pieces_units(&story_head_pieces(story)),
        items_units(story.items.as_slice()),
    )
}

/// The code units of an element `story` in its canonical encoding, 2^64 - 1 where that is smaller.
pub fn story_units(story: &Story) -> u64
    ensures { result ≡ capped (units_in (element (name_of fields.StoryTag) (story_events story.now))) }
{
    element_units(Field::StoryTag, story_inside(story))
}

/// The code units of these stories' elements, 2^64 - 1 where that is smaller.
pub fn stories_units(stories: &[Story]) -> u64
    ensures { result ≡ capped (units_in (stories_events stories.now)) }
{
    let mut count = 0;
    for story in stories {
        count = plus(count, story_units(story));
    }
    count
}

/// The code units of a header's fields in their canonical encoding, 2^64 - 1 where that is smaller.
pub fn header_units(header: &Header) -> u64
    ensures { result ≡ capped (units_in (header_events header.now)) }
{
    pieces_units(&header_pieces(header))
}

fn body_units(b: &OrderBody) -> u64
    ensures { result ≡ capped (units_in (body_events b.now)) }
{
    plus(header_units(&b.header), stories_units(b.stories.as_slice()))
}

/// The code units of the canonical roList element of a running order, 2^64 - 1 where that is smaller.
pub fn list_units(b: &OrderBody) -> u64
    ensures { result ≡ capped (units_in (list_events b.now)) }
{
    plus(17, body_units(b))
}

fn script_inside(script: &StorySend) -> u64
    ensures { result ≡ capped (units_in (story_send_events script.now)) }
{
    pieces_units(&story_send_pieces(script))
}

/// The code units of the canonical roStorySend element of a script, 2^64 - 1 where that is smaller.
pub fn send_units(script: &StorySend) -> u64
    ensures { result ≡ capped (units_in (send_events script.now)) }
{
    plus(27, script_inside(script))
}

fn patch_units(header: &HeaderPatch) -> u64
    ensures { result ≡ capped (units_in (element (name_of fields.RoTag) (patch_events header.now))) }
{
    element_units(Field::RoTag, pieces_units(&patch_pieces(header)))
}

fn patches_units(headers: &[HeaderPatch]) -> u64
    ensures { result ≡ capped (units_in (headers_events headers.now)) }
{
    let mut count = 0;
    for header in headers {
        count = plus(count, patch_units(header));
    }
    count
}

/// The code units of the canonical roListAll element of these headers, 2^64 - 1 where that is smaller.
pub fn list_all_units(h: &Headers) -> u64
    ensures { result ≡ capped (units_in (list_all_events h.now)) }
{
    plus(23, patches_units(h.as_slice()))
}

/// The code units of an element `mosObj` in its canonical encoding, 2^64 - 1 where that is smaller.
pub fn object_units(object: &MosObj) -> u64
    ensures { result ≡ capped (units_in (element (name_of fields.MosObjTag) (mos_obj_events object.now))) }
{
    element_units(Field::MosObjTag, pieces_units(&mos_obj_pieces(object)))
}

fn objects_units(objects: &[MosObj]) -> u64
    ensures { result ≡ capped (units_in (objects_events objects.now)) }
{
    let mut count = 0;
    for object in objects {
        count = plus(count, object_units(object));
    }
    count
}

/// The code units of the canonical mosListAll element of these objects, 2^64 - 1 where that is smaller.
pub fn object_list_units(objects: &MosObjs) -> u64
    ensures { result ≡ capped (units_in (element (codes "mosListAll") (objects_events objects.now))) }
{
    plus(25, objects_units(objects.as_slice()))
}
