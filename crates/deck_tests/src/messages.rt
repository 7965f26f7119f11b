//! Messages of the server about the order R1. Its stories have one item each, whose mosID is `dev1`.
ghost use Rattle.std.specs.Prelude.{◌≡◌, IfOk};
ghost use Rattle.mos_tables.specs.declared.table.Table.TheVariants as tables;
ghost use Rattle.mos_values.specs.Sound.{AllFit, IsSoundBody, IsSoundItem, IsSoundStory};
ghost use Rattle.mos_values.specs.Views.{header_events};

use mos_fields::{Air, FieldFault, Id, OptId, Slug};
use mos_values::{Action, Boxed, Header, Item, Message, OrderBody, Story, Unreads};
use port_events::SoundMessage;
use std::alloc::Global;
use std::test::Fail;

pub fn id(alloc: Global, text: &str) -> Result<Id, FieldFault> {
    let chars = text.chars().collect::<Vec<char>>(alloc)?;
    Id::try_new(alloc, &chars)
}

fn opt_id(alloc: Global, text: &str) -> Result<OptId, FieldFault> {
    let chars = text.chars().collect::<Vec<char>>(alloc)?;
    OptId::try_new(alloc, &chars)
}

/// An item of the device dev1 with this objID.
pub fn item(alloc: Global, item: &str, obj: &str) -> Result<Item, FieldFault>
    ensures { IfOk result (λ i. IsSoundItem i) }
{
    let id = id(alloc, item)?;
    let obj = opt_id(alloc, obj)?;
    let mos = opt_id(alloc, "dev1")?;
    Ok(Item {
        id,
        slug: None,
        obj,
        mos,
        mos_abstract: None,
        obj_paths: None,
        channel: None,
        ed_start: None,
        ed_dur: None,
        user_timing_dur: None,
        trigger: None,
        macro_in: None,
        macro_out: None,
        metadata: Unreads::new(alloc),
        others: Unreads::new(alloc),
    })
}

/// The header of the order R1.
pub fn header(alloc: Global) -> Result<Header, FieldFault>
    ensures { IfOk result (λ h. AllFit tables.Body (header_events h)) }
{
    let ro = id(alloc, "R1")?;
    let slug = Slug::try_new(alloc, &[])?;
    Ok(Header {
        ro,
        slug,
        channel: None,
        ed_start: None,
        ed_dur: None,
        trigger: None,
        macro_in: None,
        macro_out: None,
        metadata: Unreads::new(alloc),
        others: Unreads::new(alloc),
    })
}

// A story with one item.
fn story(alloc: Global, id: Id, item: Item) -> Result<Story, Fail>
    requires { IsSoundItem item }
    ensures { IfOk result (λ s. IsSoundStory s) }
{
    let mut story = Story::new(alloc, id);
    story.push_item(item)?;
    Ok(story)
}

// The story A with the item 1, and the story B with the item 2.
fn story_a(alloc: Global) -> Result<Story, Fail>
    ensures { IfOk result (λ s. IsSoundStory s) }
{
    let id = id(alloc, "A")?;
    story(alloc, id, item(alloc, "1", "O1")?)
}

fn story_b(alloc: Global) -> Result<Story, Fail>
    ensures { IfOk result (λ s. IsSoundStory s) }
{
    let id = id(alloc, "B")?;
    story(alloc, id, item(alloc, "2", "O2")?)
}

// The order R1 of the story A.
fn short_body(alloc: Global) -> Result<OrderBody, Fail>
    ensures { IfOk result (λ b. IsSoundBody b) }
{
    let mut body = OrderBody::new(alloc, header(alloc)?);
    body.push_story(story_a(alloc)?)?;
    Ok(body)
}

// The order R1 of the stories A and B.
fn long_body(alloc: Global) -> Result<OrderBody, Fail>
    ensures { IfOk result (λ b. IsSoundBody b) }
{
    let mut body = short_body(alloc)?;
    body.push_story(story_b(alloc)?)?;
    Ok(body)
}

#[tactic(auto, unfolding(mos_values::specs::Sound::IsSound))]
fn create(alloc: Global, body: OrderBody) -> Result<SoundMessage, Fail>
    requires { IsSoundBody body }
{
    Ok(SoundMessage::new(Message::RoCreate(Boxed::new(alloc, body)?)))
}

/// roCreate of the order R1 with the story A.
pub fn create_short(alloc: Global) -> Result<SoundMessage, Fail> {
    create(alloc, short_body(alloc)?)
}

/// roCreate of the order R1 with the stories A and B.
pub fn create_long(alloc: Global) -> Result<SoundMessage, Fail> {
    create(alloc, long_body(alloc)?)
}

/// SWAP of its two stories.
#[tactic(auto, unfolding(mos_values::specs::Sound::IsSound))]
pub fn swap(alloc: Global) -> Result<SoundMessage, Fail> {
    let ro = id(alloc, "R1")?;
    let first = opt_id(alloc, "A")?;
    let second = opt_id(alloc, "B")?;
    let action = Action::SwapStories { first, second };
    Ok(SoundMessage::new(Message::RoElementAction { ro, action }))
}

/// READY or NOT READY of it.
#[tactic(auto, unfolding(mos_values::specs::Sound::IsSound))]
pub fn ready(alloc: Global, air: Air) -> Result<SoundMessage, Fail> {
    let ro = id(alloc, "R1")?;
    Ok(SoundMessage::new(Message::RoReadyToAir { ro, air }))
}
