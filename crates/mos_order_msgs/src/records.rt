//! Stories, items, headers and statuses as elements.
ghost use Rattle.std.specs.Prelude.{◌≡◌, ◌++◌, OnOk};
ghost use Rattle.mos_fields.specs.Characters.{units_of};
ghost use Rattle.mos_fields.specs.Fields.{name_of};
ghost use Rattle.mos_fields.specs.declared.field.Field.TheVariants as fields;
ghost use Rattle.mos_values.specs.Parts.{element};
ghost use Rattle.mos_values.specs.Views.{body_events, group_events, groups_events, headers_events, item_events, items_events, patch_events, ro_ack_events, stories_events, story_events};
ghost use Rattle.mos_writer.specs.Encoded.{encoded};

use mos_fields::{Field, NoMemory};
use mos_values::{
    AckGroup, HeaderPatch, Item, OrderBody, RoAck, Story, group_pieces, header_pieces, item_pieces,
    patch_pieces, story_head_pieces,
};
use mos_writer::{close, open, write_opt_id, write_pieces, write_slug};

fn write_item(out: &mut Vec<u8>, item: &Item) -> Result<(), NoMemory>
    ensures { OnOk result (out.new.items ≡ out.old.items ++ encoded (element (name_of fields.ItemTag) (item_events item.now))) }
{
    open(out, Field::ItemTag)?;
    write_pieces(out, &item_pieces(item))?;
    close(out, Field::ItemTag)?;
    Ok(())
}

/// Appends items, each an element.
pub fn write_items(out: &mut Vec<u8>, items: &[Item]) -> Result<(), NoMemory>
    ensures { OnOk result (out.new.items ≡ out.old.items ++ encoded (items_events items.now)) }
{
    for item in items {
        write_item(out, item)?;
    }
    Ok(())
}

fn write_story_inside(out: &mut Vec<u8>, story: &Story) -> Result<(), NoMemory>
    ensures { OnOk result (out.new.items ≡ out.old.items ++ encoded (story_events story.now)) }
{
    write_pieces(out, &story_head_pieces(story))?;
    write_items(out, story.items.as_slice())?;
    Ok(())
}

fn write_story(out: &mut Vec<u8>, story: &Story) -> Result<(), NoMemory>
    ensures { OnOk result (out.new.items ≡ out.old.items ++ encoded (element (name_of fields.StoryTag) (story_events story.now))) }
{
    open(out, Field::StoryTag)?;
    write_story_inside(out, story)?;
    close(out, Field::StoryTag)?;
    Ok(())
}

/// Appends stories, each an element.
pub fn write_stories(out: &mut Vec<u8>, stories: &[Story]) -> Result<(), NoMemory>
    ensures { OnOk result (out.new.items ≡ out.old.items ++ encoded (stories_events stories.now)) }
{
    for story in stories {
        write_story(out, story)?;
    }
    Ok(())
}

/// Appends the fields of a running order and its stories.
pub fn write_body(out: &mut Vec<u8>, b: &OrderBody) -> Result<(), NoMemory>
    ensures { OnOk result (out.new.items ≡ out.old.items ++ encoded (body_events b.now)) }
{
    write_pieces(out, &header_pieces(&b.header))?;
    write_stories(out, b.stories.as_slice())?;
    Ok(())
}

fn write_patch(out: &mut Vec<u8>, header: &HeaderPatch) -> Result<(), NoMemory>
    ensures { OnOk result (out.new.items ≡ out.old.items ++ encoded (element (name_of fields.RoTag) (patch_events header.now))) }
{
    open(out, Field::RoTag)?;
    write_pieces(out, &patch_pieces(header))?;
    close(out, Field::RoTag)?;
    Ok(())
}

/// Appends headers, each an element `ro`.
pub fn write_headers(out: &mut Vec<u8>, headers: &[HeaderPatch]) -> Result<(), NoMemory>
    ensures { OnOk result (out.new.items ≡ out.old.items ++ encoded (headers_events headers.now)) }
{
    for header in headers {
        write_patch(out, header)?;
    }
    Ok(())
}

fn write_group(out: &mut Vec<u8>, group: &AckGroup) -> Result<(), NoMemory>
    ensures { OnOk result (out.new.items ≡ out.old.items ++ encoded (group_events group.now)) }
{
    write_pieces(out, &group_pieces(group))
}

fn write_groups(out: &mut Vec<u8>, groups: &[AckGroup]) -> Result<(), NoMemory>
    ensures { OnOk result (out.new.items ≡ out.old.items ++ encoded (groups_events groups.now)) }
{
    for group in groups {
        write_group(out, group)?;
    }
    Ok(())
}

/// Appends what a roAck says.
pub fn write_ack(out: &mut Vec<u8>, ack: &RoAck) -> Result<(), NoMemory>
    ensures { OnOk result (out.new.items ≡ out.old.items ++ encoded (ro_ack_events ack.now)) }
{
    write_opt_id(out, Field::RoID, &ack.ro)?;
    write_slug(out, Field::RoStatus, &ack.status)?;
    write_groups(out, ack.groups.as_slice())?;
    Ok(())
}
