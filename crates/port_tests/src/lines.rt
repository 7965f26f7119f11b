//! Answers as lines.
use mos_fields::{Id, NoMemory, OptId, Slug, let_go};
use mos_values::{Message, OrderBody, RoAck};
use port_events::PortAnswer;
use std::alloc::Global;

fn push_chars(out: &mut String, chars: &[char]) -> Result<(), NoMemory> {
    for c in chars {
        out.push(*c)?;
    }
    Ok(())
}

fn push_id(alloc: Global, out: &mut String, id: &Id) -> Result<(), NoMemory> {
    let mut chars = Vec::from_slice(alloc, &[' '])?;
    id.push_to(&mut chars)?;
    push_chars(out, &chars)
}

fn push_opt_id(alloc: Global, out: &mut String, id: &OptId) -> Result<(), NoMemory> {
    let mut chars = Vec::from_slice(alloc, &[' '])?;
    id.push_to(&mut chars)?;
    push_chars(out, &chars)
}

fn push_slug(alloc: Global, out: &mut String, slug: &Slug) -> Result<(), NoMemory> {
    let mut chars = Vec::from_slice(alloc, &[' '])?;
    slug.push_to(&mut chars)?;
    push_chars(out, &chars)
}

// `roAck`, the roID and the status.
fn push_ack(alloc: Global, out: &mut String, ack: &RoAck) -> Result<(), NoMemory> {
    out.push_str("roAck")?;
    push_opt_id(alloc, out, &ack.ro)?;
    push_slug(alloc, out, &ack.status)
}

// The message's name, the roID and the storyIDs.
fn push_list(
    alloc: Global,
    out: &mut String,
    name: &str,
    body: &OrderBody,
) -> Result<(), NoMemory> {
    out.push_str(name)?;
    push_id(alloc, out, &body.header.ro)?;
    for story in body.stories.as_slice() {
        push_id(alloc, out, &story.id)?;
    }
    Ok(())
}

fn push_message(alloc: Global, out: &mut String, message: &Message) -> Result<(), NoMemory> {
    match message {
        Message::RoAck(ack) => push_ack(alloc, out, ack),
        Message::RoCreate(body) => push_list(alloc, out, "roCreate", body.as_ref()),
        Message::RoList(body) => push_list(alloc, out, "roList", body.as_ref()),
        Message::RoListAll(headers) => push_word(out, list_word(headers.len())),
        Message::Heartbeat(_) => push_word(out, "heartbeat"),
        Message::MosAck(_) => push_word(out, "mosAck"),
        _ => push_word(out, "another message"),
    }
}

fn push_word(out: &mut String, word: &str) -> Result<(), NoMemory> {
    out.push_str(word)?;
    Ok(())
}

fn list_word(count: usize) -> &'static str {
    match count {
        0 => "roListAll of none",
        1 => "roListAll of one",
        _ => "roListAll of many",
    }
}

fn push_answer(alloc: Global, out: &mut String, answer: &PortAnswer) -> Result<(), NoMemory> {
    match answer {
        PortAnswer::Done => push_word(out, "done"),
        PortAnswer::Say(message) => push_message(alloc, out, message),
        PortAnswer::Nothing => push_word(out, "nothing"),
        PortAnswer::Taken => push_word(out, "taken"),
        PortAnswer::Unasked => push_word(out, "unasked"),
        PortAnswer::Stale => push_word(out, "stale"),
    }
}

/// The words that tell an answer, which is let go.
pub fn line(alloc: Global, answer: PortAnswer) -> Result<String, NoMemory> {
    let mut out = String::new(alloc);
    let pushed = push_answer(alloc, &mut out, &answer);
    let_go(answer);
    pushed?;
    Ok(out)
}
