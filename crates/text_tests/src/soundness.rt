//! What is sound and what isn't, by values from outside.
use mos_edits::Edit;
use mos_fields::{Id, Name, NoMemory, OptId, OptIds, Slug, Unread, let_go, pair_ok, triple_ok};
use mos_soundness::{is_sound, is_sound_edit};
use mos_values::{Action, Boxed, Header, HeaderPatch, Item, Message, OrderBody, Story, Unreads};
use std::alloc::Global;
use std::test::Fail;

fn id(alloc: Global, letter: char) -> Result<Id, NoMemory> {
    Id::try_new(alloc, &[letter]).map_err(|_| NoMemory)
}

fn no_id(alloc: Global) -> Result<OptId, NoMemory> {
    OptId::try_new(alloc, &[]).map_err(|_| NoMemory)
}

fn slug(alloc: Global) -> Result<Slug, NoMemory> {
    Slug::try_new(alloc, &['S']).map_err(|_| NoMemory)
}

fn name(alloc: Global, text: &str) -> Result<Name, NoMemory> {
    let chars = text.chars().collect::<Vec<char>>(alloc)?;
    Name::try_new(alloc, &chars).map_err(|_| NoMemory)
}

fn unread(alloc: Global, text: &str) -> Result<Unread, NoMemory> {
    let chars = text.chars().collect::<Vec<char>>(alloc)?;
    Unread::try_new(alloc, &chars).map_err(|_| NoMemory)
}

/// A raw element, or none where the text is empty.
fn unreads(alloc: Global, text: &str) -> Result<Unreads, NoMemory> {
    let mut list = Unreads::new(alloc);
    if !text.is_empty() {
        list.push(unread(alloc, text)?)?;
    }
    Ok(list)
}

/// A header of the order R, with these raw elements.
fn patch(alloc: Global, metadata: &str, others: &str) -> Result<HeaderPatch, NoMemory> {
    let (ro, metadata, others) = triple_ok(
        id(alloc, 'R'),
        unreads(alloc, metadata),
        unreads(alloc, others),
    )?;
    Ok(HeaderPatch {
        ro,
        slug: None,
        channel: None,
        ed_start: None,
        ed_dur: None,
        trigger: None,
        macro_in: None,
        macro_out: None,
        metadata,
        others,
    })
}

/// Whether an edit is sound, which is let go.
fn is_sound_then(edit: Edit) -> bool {
    let answer = is_sound_edit(&edit);
    let_go(edit);
    answer
}

fn is_sound_patch(alloc: Global, metadata: &str, others: &str) -> Result<bool, NoMemory> {
    let patch = Boxed::new(alloc, patch(alloc, metadata, others)?)?;
    Ok(is_sound_then(Edit::Metadata(patch)))
}

/// Whether a message of this name with this raw text is sound.
fn is_sound_other(alloc: Global, word: &str, raw: &str) -> Result<bool, NoMemory> {
    let (name, raw) = pair_ok(name(alloc, word), unread(alloc, raw))?;
    let message = Message::Other { name, raw };
    let answer = is_sound(&message);
    let_go(message);
    Ok(answer)
}

/// An item with this element of another name.
fn item(alloc: Global, others: &str) -> Result<Item, NoMemory> {
    let ((id, obj, mos), (mos_abstract, metadata, others)) = pair_ok(
        triple_ok(id(alloc, 'i'), no_id(alloc), no_id(alloc)),
        triple_ok(
            unread(alloc, "<mosAbstract>a</mosAbstract>"),
            unreads(alloc, ""),
            unreads(alloc, others),
        ),
    )?;
    Ok(Item {
        id,
        slug: None,
        obj,
        mos,
        mos_abstract: Some(mos_abstract),
        obj_paths: None,
        channel: None,
        ed_start: None,
        ed_dur: None,
        user_timing_dur: None,
        trigger: None,
        macro_in: None,
        macro_out: None,
        metadata,
        others,
    })
}

fn header(alloc: Global, others: &str) -> Result<Header, NoMemory> {
    let ((ro, slug), (metadata, others)) = pair_ok(
        pair_ok(id(alloc, 'R'), slug(alloc)),
        pair_ok(unreads(alloc, ""), unreads(alloc, others)),
    )?;
    Ok(Header {
        ro,
        slug,
        channel: None,
        ed_start: None,
        ed_dur: None,
        trigger: None,
        macro_in: None,
        macro_out: None,
        metadata,
        others,
    })
}

/// A story of one item, which keeps this element.
fn story(alloc: Global, of_item: &str) -> Result<Story, NoMemory> {
    let (id, item) = pair_ok(id(alloc, 's'), item(alloc, of_item))?;
    let mut story = Story::new(alloc, id);
    match story.push_item(item) {
        Ok(()) => Ok(story),
        Err(_) => Err(NoMemory),
    }
}

/// Whether an order is sound whose header keeps the first element, and the item of whose only story the second.
fn is_sound_order(alloc: Global, of_header: &str, of_item: &str) -> Result<bool, NoMemory> {
    let (header, story) = pair_ok(header(alloc, of_header), story(alloc, of_item))?;
    let mut body = OrderBody::new(alloc, header);
    let pushed = body.push_story(story).is_ok();
    let body = Boxed::new(alloc, body)?;
    Ok(pushed && is_sound_then(Edit::Create(body)))
}

/// A patch with a raw element as metadata and one that is kept; another message with its name and its text; and an order
/// with an element that its header keeps and one that its item keeps; or nothing in an element's place.
const VALUES: &str = "\
patch;;;sound
patch;<mosExternalMetadata/>;;sound
patch;<mosExternalMetadata\t a='b'>x</mosExternalMetadata>;;sound
patch;<mosExternalMetadat/>;;not
patch;<mosExternalMetadata2/>;;not
patch;<x><mosExternalMetadata/></x>;;not
patch;;<roFlavour>x</roFlavour>;sound
patch;;<storyID/>;sound
patch;;<roSlug/>;not
patch;;<mosExternalMetadata/>;not
patch;;<story></story>;not
other;roStoryMove;<roStoryMove/>;sound
other;roStoryMov;<roStoryMove/>;not
other;heartbeat;<heartbeat/>;not
other;roStorySend;<roStorySend/>;not
other;mosID;<mosID>m</mosID>;not
other;messageID;<messageID/>;not
other;mos;<mos></mos>;sound
order;;;sound
order;<itemSlug/>;<roSlug/>;sound
order;;<itemSlug/>;not
order;<roSlug/>;;not
order;<story/>;;not";

fn is_sound_value(alloc: Global, kind: &str, a: &str, b: &str) -> Result<bool, NoMemory> {
    match kind {
        "patch" => is_sound_patch(alloc, a, b),
        "other" => is_sound_other(alloc, a, b),
        _ => is_sound_order(alloc, a, b),
    }
}

/// Whether a row says rightly whether its value is sound.
fn row_holds(alloc: Global, row: &str) -> Result<bool, NoMemory> {
    let mut parts = row.split(';');
    let kind = parts.next().unwrap_or("");
    let a = parts.next().unwrap_or("");
    let b = parts.next().unwrap_or("");
    let sound = parts.next() == Some("sound");
    Ok(is_sound_value(alloc, kind, a, b)? == sound)
}

#[test]
fn an_element_has_a_name_that_fits_where_it_stands(rt: HostRuntime) -> Result<(), Fail> {
    let mut rows = 0u64;
    for row in VALUES.lines() {
        assert!(rt; row_holds(rt.alloc(), row)?, "{row}");
        rows = rows.saturating_add(1);
    }
    assert_eq!(rt; rows, 23);
    Ok(())
}

/// So many sources.
fn sources(alloc: Global, count: u8) -> Result<OptIds, NoMemory> {
    let mut sources = OptIds::new(alloc);
    for _ in 0..count {
        sources.push(OptId::from_id(id(alloc, 's')?))?;
    }
    Ok(sources)
}

/// Whether the removal of so many stories is sound.
fn is_sound_removal(alloc: Global, count: u8) -> Result<bool, NoMemory> {
    let (ro, sources) = pair_ok(id(alloc, 'R'), sources(alloc, count))?;
    let action = Action::DeleteStories { sources };
    Ok(is_sound_then(Edit::Act { ro, action }))
}

#[test]
fn an_action_has_a_source(rt: HostRuntime) -> Result<(), Fail> {
    assert!(rt; !is_sound_removal(rt.alloc(), 0)?);
    assert!(rt; is_sound_removal(rt.alloc(), 1)?);
    assert!(rt; is_sound_removal(rt.alloc(), 2)?);
    Ok(())
}
