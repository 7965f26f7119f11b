//! Short forms of texts in the rows of plays.
use mos_fields::NoMemory;
use std::alloc::Global;

/// The heartbeat of the time of all plays.
const HEARTBEAT: &str = "<heartbeat><time>2009-04-11T14:22:07Z</time></heartbeat>";

fn bytes_of(alloc: Global, text: &str) -> Result<Vec<u8>, NoMemory> {
    Vec::from_slice(alloc, text.as_bytes())
}

// A word, and what stands behind the space after it.
fn first_word(text: &str) -> (&str, &str) {
    text.split_once(" ").unwrap_or((text, ""))
}

// `R1 OK`
fn order_answer(alloc: Global, text: &str) -> Result<Vec<u8>, NoMemory> {
    let (ro, status) = first_word(text);
    let text = format!(in alloc; "<roAck><roID>{ro}</roID><roStatus>{status}</roStatus></roAck>")?;
    bytes_of(alloc, text.as_str())
}

// `O1` or nothing, or `O1 MISSING O1`
fn object_answer(alloc: Global, status: &str, text: &str) -> Result<Vec<u8>, NoMemory> {
    let (object, description) = first_word(text);
    let text = format!(in alloc;
        "<mosAck><objID>{object}</objID><objRev>0</objRev><status>{status}</status><statusDescription>{description}</statusDescription></mosAck>"
    )?;
    bytes_of(alloc, text.as_str())
}

/// What a text of a row means: `^` what was said last, `*` the heartbeat, `@` and a roID and a status a roAck, `+` and perhaps an
/// objID the mosAck that it was taken, `-` and an objID and a description that it wasn't; any other text is meant as it stands.
pub fn meaning(alloc: Global, text: &str, last: &[u8]) -> Result<Vec<u8>, NoMemory> {
    if text == "^" {
        return Vec::from_slice(alloc, last);
    }
    if text == "*" {
        return bytes_of(alloc, HEARTBEAT);
    }
    acknowledged(alloc, text)
}

fn acknowledged(alloc: Global, text: &str) -> Result<Vec<u8>, NoMemory> {
    if let Some(answer) = text.strip_prefix("@") {
        return order_answer(alloc, answer);
    }
    if let Some(answer) = text.strip_prefix("+") {
        return object_answer(alloc, "ACK", answer);
    }
    match text.strip_prefix("-") {
        Some(answer) => object_answer(alloc, "NACK", answer),
        None => bytes_of(alloc, text),
    }
}
