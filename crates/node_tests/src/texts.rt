//! Messages as ASCII texts without their envelopes.
ghost use Rattle.std.specs.Prelude.{◌≡◌, [], true};

use mos_codec::Decoder;
use mos_fields::{Id, NoMemory, let_go, pair_ok};
use mos_messages::encode_with;
use mos_values::{Envelope, Message};
use port_events::SoundMessage;
use std::alloc::Global;

/// What stands before each message, and behind it.
const FRONT: &str = "<mos><mosID>dev</mosID><ncsID>ncs</ncsID>";

const BACK: &str = "</mos>";

/// The ID of this text, which is one.
pub fn id_of(alloc: Global, text: &str) -> Result<Id, NoMemory> {
    let chars = text.chars().collect::<Vec<char>>(alloc)?;
    match Id::try_new(alloc, &chars) {
        Ok(id) => Ok(id),
        Err(_) => Err(NoMemory),
    }
}

// Two bytes for each character.
fn push_wide(out: &mut Vec<u8>, text: &[u8]) -> Result<(), NoMemory> {
    for byte in text {
        out.extend_from_slice(&[0, *byte])?;
    }
    Ok(())
}

// The low byte of each pair.
fn push_narrow(out: &mut Vec<u8>, bytes: &[u8]) -> Result<(), NoMemory> {
    for (place, byte) in bytes.iter().enumerate() {
        if place % 2 == 1 {
            out.push(*byte)?;
        }
    }
    Ok(())
}

fn enveloped(alloc: Global, text: &[u8]) -> Result<Vec<u8>, NoMemory> {
    let mut bytes = Vec::new(alloc);
    push_wide(&mut bytes, FRONT.as_bytes())?;
    push_wide(&mut bytes, text)?;
    push_wide(&mut bytes, BACK.as_bytes())?;
    Ok(bytes)
}

// Whether no message is left to be handed out.
fn is_drained(decoder: &mut Decoder) -> bool
    ensures { result ≡ true → (decoder.new).ready ≡ [] }
{
    match decoder.next() {
        Some(envelope) => {
            let_go(envelope);
            false
        }
        None => true,
    }
}

// Feeds a decoder that is new, and bytes that are few, as they are here.
fn feed(decoder: &mut Decoder, bytes: &[u8]) {
    if is_drained(decoder) && decoder.place() < 100_000_000 && bytes.len() < 100_000_000 {
        let _fed = decoder.feed(bytes);
    }
}

// The message, out of its envelope.
fn message_of(envelope: Envelope) -> Message
    ensures { result ≡ envelope.message }
{
    envelope.message
}

fn first(decoder: &mut Decoder) -> Option<SoundMessage> {
    match decoder.next() {
        Some(envelope) => Some(SoundMessage::new(message_of(envelope))),
        None => None,
    }
}

/// The message that a text is; none where it is no message.
pub fn message_in(alloc: Global, text: &[u8]) -> Result<Option<SoundMessage>, NoMemory> {
    let bytes = enveloped(alloc, text)?;
    let mut decoder = Decoder::new(alloc);
    feed(&mut decoder, bytes.as_slice());
    let message = first(&mut decoder);
    let_go(decoder);
    Ok(message)
}

// The envelope of all messages, round one of them.
fn envelope(alloc: Global) -> Result<Envelope, NoMemory> {
    let (mos, ncs) = pair_ok(id_of(alloc, "dev"), id_of(alloc, "ncs"))?;
    Ok(Envelope {
        mos,
        ncs,
        message_id: None,
        message: Message::ReqMachInfo,
    })
}

fn without_envelope(text: &[u8]) -> &[u8] {
    let text = text.strip_prefix(FRONT.as_bytes()).unwrap_or(text);
    text.strip_suffix(BACK.as_bytes()).unwrap_or(text)
}

// The text in these bytes of a message with its envelope.
fn text_in(alloc: Global, bytes: &[u8]) -> Result<Vec<u8>, NoMemory> {
    let mut text = Vec::new(alloc);
    push_narrow(&mut text, bytes)?;
    Vec::from_slice(alloc, without_envelope(text.as_slice()))
}

/// The canonical text of a message.
pub fn text_of(alloc: Global, message: &Message) -> Result<Vec<u8>, NoMemory> {
    let envelope = envelope(alloc)?;
    let bytes = encode_with(alloc, &envelope, message);
    let_go(envelope);
    text_in(alloc, bytes?.as_slice())
}
