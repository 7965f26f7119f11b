//! Events of the tests.
ghost use Rattle.std.specs.Prelude.{◌≡◌, ◌≤◌, length, IfOk};
ghost use Rattle.mos_tables.specs.declared.table.Table.TheVariants as tables;
ghost use Rattle.mos_values.specs.Sound.{AllFit, AreSoundStories, IsSound};
ghost use Rattle.mos_values.specs.Views.{header_events};

use mos_fields::{FieldFault, Id, MosTime, OptId, Slug, Zone};
use mos_values::{Action, Boxed, Header, Message, OrderBody, Stories, Story, Unreads};
use port_events::{PortEvent, Side, SoundMessage, What};
use std::alloc::Global;

/// The order of all tests.
fn order_id(alloc: Global) -> Result<Id, FieldFault> {
    Id::try_new(alloc, &['R'])
}

fn header(alloc: Global) -> Result<Header, FieldFault>
    ensures { IfOk result (λ h. AllFit tables.Body (header_events h)) }
{
    let ro = order_id(alloc)?;
    let slug = Slug::try_new(alloc, &['S'])?;
    Ok(Header {
        ro,
        slug,
        channel: None,
        ed_start: None,
        ed_dur: None,
        trigger: None,
        macro_in: None,
        macro_out: None,
        metadata: Unreads::new(alloc),
        others: Unreads::new(alloc),
    })
}

/// roCreate of the order, without stories.
#[tactic(auto, unfolding(mos_values::specs::Sound::IsSound))]
pub fn create(alloc: Global) -> Result<SoundMessage, FieldFault> {
    let header = header(alloc)?;
    let body = OrderBody::new(alloc, header);
    Ok(SoundMessage::new(Message::RoCreate(Boxed::new(alloc, body)?)))
}

/// The story D alone.
fn story_alone(alloc: Global) -> Result<Stories, FieldFault>
    ensures some { IfOk result (λ s. 1 ≤ length s) }
    ensures sound { IfOk result (λ s. AreSoundStories s) }
{
    let id = Id::try_new(alloc, &['D'])?;
    let mut stories = Stories::new(alloc);
    stories.push(Story::new(alloc, id))?;
    Ok(stories)
}

/// INSERT of it at the end of the order.
#[tactic(auto, unfolding(mos_values::specs::Sound::IsSound))]
pub fn insert(alloc: Global) -> Result<SoundMessage, FieldFault> {
    let ro = order_id(alloc)?;
    let target = OptId::try_new(alloc, &[])?;
    let sources = story_alone(alloc)?;
    let action = Action::InsertStories { target, sources };
    Ok(SoundMessage::new(Message::RoElementAction { ro, action }))
}

/// roReq of the order.
#[tactic(auto, unfolding(mos_values::specs::Sound::IsSound))]
pub fn request(alloc: Global) -> Result<SoundMessage, FieldFault> {
    let ro = order_id(alloc)?;
    Ok(SoundMessage::new(Message::RoReq(ro)))
}

/// roReqAll
#[tactic(auto, unfolding(mos_values::specs::Sound::IsSound))]
pub fn request_all() -> SoundMessage {
    SoundMessage::new(Message::RoReqAll)
}

/// The time of all tests.
pub fn time() -> MosTime {
    MosTime {
        year: 2000,
        month: 1,
        day: 1,
        hour: 0,
        minute: 0,
        second: 0,
        millis: None,
        zone: Zone::None,
    }
}

/// A heartbeat.
#[tactic(auto, unfolding(mos_values::specs::Sound::IsSound))]
pub fn heartbeat() -> SoundMessage {
    SoundMessage::new(Message::Heartbeat(time()))
}

/// At the port of device 0, on a connection.
pub fn at_upper(link: u64, what: What) -> PortEvent {
    PortEvent {
        side: Side::Upper,
        device: 0,
        link,
        what,
    }
}

/// At the port of a device of the server.
pub fn at_device(device: u32, link: u64, what: What) -> PortEvent {
    PortEvent {
        side: Side::Upper,
        device,
        link,
        what,
    }
}

/// At the editors' port.
pub fn at_editor(what: What) -> PortEvent {
    PortEvent {
        side: Side::Editor,
        device: 0,
        link: 0,
        what,
    }
}

/// At the lower port.
pub fn at_lower(what: What) -> PortEvent {
    PortEvent {
        side: Side::Lower,
        device: 0,
        link: 0,
        what,
    }
}
