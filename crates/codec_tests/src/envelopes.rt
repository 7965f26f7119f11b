//! An envelope as bytes, and back.
ghost use Rattle.std.specs.Prelude.{◌≡◌, [], true, IfOk};
ghost use Rattle.mos_values.specs.Sound.{IsSound};

use crate::units::bytes_of;
use mos_codec::{DecodeFault, Decoder, decoded, encoded};
use mos_fields::{FieldFault, Id, NoMemory, OptId, let_go};
use mos_lexer::Kind;
use mos_messages::encode;
use mos_values::{Envelope, Message};
use std::alloc::Global;
use std::test::Fail;

/// A request for the order `R<`, with the messageID 7.
#[tactic(auto, unfolding(mos_values::specs::Sound::IsSound))]
fn order_request(alloc: Global) -> Result<Envelope, FieldFault>
    ensures { IfOk result (λ e. IsSound e.message) }
{
    let mos = Id::try_new(alloc, &['m'])?;
    let ncs = Id::try_new(alloc, &['n'])?;
    let number = OptId::try_new(alloc, &['7'])?;
    let ro = Id::try_new(alloc, &['R', '<'])?;
    Ok(Envelope {
        mos,
        ncs,
        message_id: Some(number),
        message: Message::RoReq(ro),
    })
}

/// The encoding of the envelope that the bytes of another's encoding come back as.
fn encoded_twice(alloc: Global, e: &Envelope) -> Result<Vec<u8>, Fail>
    requires { IsSound e.now.message }
{
    let bytes = encoded(alloc, e)?;
    let again = decoded(alloc, bytes.as_slice())?;
    let bytes = encode(alloc, &again);
    let_go(again);
    Ok(bytes?)
}

#[test]
fn an_envelope_comes_back(rt: HostRuntime) -> Result<(), Fail> {
    let alloc = rt.alloc();
    let wanted = bytes_of(
        alloc,
        "<mos><mosID>m</mosID><ncsID>n</ncsID><messageID>7</messageID><roReq><roID>R&lt;</roID></roReq></mos>",
    )?;
    let request = order_request(alloc)?;
    let bytes = encoded_twice(alloc, &request);
    let_go(request);
    assert!(rt; bytes?.as_slice() == wanted.as_slice());
    Ok(())
}

/// What came of bytes: the encoding of a message, or why there is none.
#[derive(Drop)]
enum Told {
    Encoding(Vec<u8>),
    More,
    Rejected(usize, Kind),
    NoMemory,
}

/// The encoding of the message that is handed out next, or what feeding answered.
fn outcome(alloc: Global, decoder: &mut Decoder, fed: Result<(), DecodeFault>) -> Told {
    if let Some(envelope) = decoder.next() {
        let again = encode(alloc, &envelope);
        let_go(envelope);
        return match again {
            Ok(bytes) => Told::Encoding(bytes),
            Err(_) => Told::NoMemory,
        };
    }
    match fed {
        Ok(()) => Told::More,
        Err(DecodeFault::Refused { place, kind }) => Told::Rejected(place, kind),
        Err(DecodeFault::NoMemory) => Told::NoMemory,
    }
}

/// Lets go of the messages that weren't handed out yet: whether there were no more than a thousand.
fn drain(decoder: &mut Decoder) -> bool
    ensures { result ≡ true → (decoder.new).ready ≡ [] }
{
    for _ in 0..1000 {
        match decoder.next() {
            Some(envelope) => let_go(envelope),
            None => return true,
        }
    }
    false
}

/// Feeds bytes where no message is left, as it is in these tests.
fn feed(decoder: &mut Decoder, part: &[u8]) -> Result<(), DecodeFault> {
    if drain(decoder) && decoder.place() < 100_000_000 && part.len() < 100_000_000 {
        decoder.feed(part)
    } else {
        Ok(())
    }
}

/// The first message of the bytes, fed in pieces of so many, or why there is none.
fn first_of(alloc: Global, decoder: &mut Decoder, bytes: &[u8], piece: usize) -> Told {
    for part in bytes.chunks(piece.max(1)) {
        let fed = feed(decoder, part);
        match outcome(alloc, decoder, fed) {
            Told::More => {}
            first => return first,
        }
    }
    Told::More
}

fn first(alloc: Global, bytes: &[u8], piece: usize) -> Told {
    let mut decoder = Decoder::new(alloc);
    let first = first_of(alloc, &mut decoder, bytes, piece);
    let_go(decoder);
    first
}

/// Whether the bytes, fed in pieces of so many, are a message with this encoding.
fn comes_back(alloc: Global, bytes: &[u8], piece: usize) -> bool {
    match first(alloc, bytes, piece) {
        Told::Encoding(again) => again.as_slice() == bytes,
        _ => false,
    }
}

/// A message of an element of another name, with so many letters; it has 50 code units more.
fn letters(alloc: Global, count: usize) -> Result<Vec<u8>, NoMemory> {
    let mut bytes = bytes_of(alloc, "<mos><mosID>m</mosID><ncsID>n</ncsID><z>")?;
    for _ in 0..count {
        bytes.extend_from_slice(&[0, b'a'])?;
    }
    bytes.extend_from_slice(bytes_of(alloc, "</z></mos>")?.as_slice())?;
    Ok(bytes)
}

#[test]
fn the_longest_message(rt: HostRuntime) -> Result<(), Fail> {
    let alloc = rt.alloc();
    let longest = letters(alloc, 8_388_558)?;
    assert_eq!(rt; longest.len(), 16_777_216);
    assert!(rt; comes_back(alloc, longest.as_slice(), 65_536));
    let longer = letters(alloc, 8_388_559)?;
    let place = match first(alloc, longer.as_slice(), 65_536) {
        Told::Rejected(place, Kind::TooLong) => place,
        _ => 0,
    };
    assert_eq!(rt; place, 8_388_608);
    Ok(())
}

#[test]
fn a_million_units_in_pieces_of_one_byte(rt: HostRuntime) -> Result<(), Fail> {
    let alloc = rt.alloc();
    let long = letters(alloc, 999_950)?;
    assert_eq!(rt; long.len(), 2_000_000);
    assert!(rt; comes_back(alloc, long.as_slice(), 1));
    Ok(())
}

/// Appends the places of the messages that weren't handed out yet.
fn push_places(alloc: Global, decoder: &mut Decoder, out: &mut String) -> Result<(), NoMemory> {
    for _ in 0..1000 {
        match decoder.next() {
            Some(envelope) => let_go(envelope),
            None => return Ok(()),
        }
        out.push_str(format!(in alloc; "<{}>", decoder.began())?.as_str())?;
    }
    Ok(())
}

/// Appends a fault of feeding.
fn push_fault(
    alloc: Global,
    fed: Result<(), DecodeFault>,
    out: &mut String,
) -> Result<(), NoMemory> {
    match fed {
        Ok(()) => Ok(()),
        Err(DecodeFault::Refused { place, .. }) => {
            out.push_str(format!(in alloc; "!{place}")?.as_str())
        }
        Err(DecodeFault::NoMemory) => Err(NoMemory),
    }
}

/// Appends what is told of a stream: each message by its place, what feeding answered, and what stands behind.
fn push_trace(
    alloc: Global,
    decoder: &mut Decoder,
    bytes: &[u8],
    piece: usize,
    out: &mut String,
) -> Result<(), NoMemory> {
    for part in bytes.chunks(piece.max(1)) {
        let fed = feed(decoder, part);
        push_places(alloc, decoder, out)?;
        push_fault(alloc, fed, out)?;
    }
    let place = decoder.place();
    let behind = decoder.behind();
    let empty = decoder.is_empty();
    out.push_str(format!(in alloc; " {place} {behind} {empty}")?.as_str())
}

/// What is told of a stream.
fn trace(alloc: Global, bytes: &[u8], piece: usize) -> Result<String, NoMemory> {
    let mut decoder = Decoder::new(alloc);
    let mut out = String::new(alloc);
    let pushed = push_trace(alloc, &mut decoder, bytes, piece, &mut out);
    let_go(decoder);
    pushed?;
    Ok(out)
}

/// 57 code units
const REQUEST: &str = "<mos><mosID>d</mosID><ncsID>n</ncsID><reqMachInfo/></mos>";

#[test]
fn what_stands_behind_the_last_message(rt: HostRuntime) -> Result<(), Fail> {
    let alloc = rt.alloc();
    let mut bytes = bytes_of(alloc, REQUEST)?;
    assert_eq!(rt; trace(alloc, &[], 1)?.as_str(), " 0 0 true");
    assert_eq!(rt;
        trace(alloc, bytes.as_slice(), 7)?.as_str(),
        "<0> 57 0 true"
    );
    bytes.extend_from_slice(&[0, 32, 0xFE, 0xFF])?;
    assert_eq!(rt;
        trace(alloc, bytes.as_slice(), 1000)?.as_str(),
        "<0> 59 4 true"
    );
    bytes.push(0)?;
    assert_eq!(rt;
        trace(alloc, bytes.as_slice(), 3)?.as_str(),
        "<0> 59 5 false"
    );
    bytes.push(60)?;
    assert_eq!(rt;
        trace(alloc, bytes.as_slice(), 1000)?.as_str(),
        "<0> 60 6 false"
    );
    Ok(())
}

#[test]
fn messages_before_a_rejection_come(rt: HostRuntime) -> Result<(), Fail> {
    let alloc = rt.alloc();
    let mut bytes = bytes_of(alloc, REQUEST)?;
    bytes.extend_from_slice(bytes_of(alloc, REQUEST)?.as_slice())?;
    bytes.extend_from_slice(bytes_of(alloc, "</mos>")?.as_slice())?;
    let whole = trace(alloc, bytes.as_slice(), 1000)?;
    assert_eq!(rt; whole.as_str(), "<0><57>!114 120 12 false");
    // The last code unit alone shows the rejection.
    let pieces = trace(alloc, bytes.as_slice(), 238)?;
    assert_eq!(rt; pieces.as_str(), "<0><57>!114 120 12 false");
    Ok(())
}

/// Whether no message is left to be handed out.
fn hands_nothing(decoder: &mut Decoder) -> bool {
    match decoder.next() {
        Some(envelope) => {
            let_go(envelope);
            false
        }
        None => true,
    }
}

/// Whether feeding finds no memory, changes no place and makes no message.
fn wants_memory(decoder: &mut Decoder, part: &[u8]) -> bool {
    let place = decoder.place();
    match feed(decoder, part) {
        Err(DecodeFault::NoMemory) => decoder.place() == place && hands_nothing(decoder),
        _ => false,
    }
}

/// Whether a decoder that found no memory for a piece finds none from then on; true where it found memory for all.
fn keeps_want(decoder: &mut Decoder, bytes: &[u8]) -> bool {
    for part in bytes.chunks(50) {
        match feed(decoder, part) {
            Ok(()) => {}
            Err(DecodeFault::NoMemory) => return wants_memory(decoder, part),
            Err(DecodeFault::Refused { .. }) => return false,
        }
    }
    true
}

/// To be run with each allocation refused in turn.
#[test]
fn want_of_memory_is_kept(rt: HostRuntime) -> Result<(), Fail> {
    let alloc = rt.alloc();
    let Ok(mut bytes) = bytes_of(alloc, REQUEST) else {
        return Ok(());
    };
    let Ok(more) = bytes_of(
        alloc,
        "<mos><mosID>d</mosID><ncsID>n</ncsID><roDelete><roID>R</roID></roDelete></mos>",
    ) else {
        return Ok(());
    };
    if bytes.extend_from_slice(more.as_slice()).is_err() {
        return Ok(());
    }
    let mut decoder = Decoder::new(alloc);
    let is_kept = keeps_want(&mut decoder, bytes.as_slice());
    let_go(decoder);
    assert!(rt; is_kept);
    Ok(())
}

/// The metadata of an item, of 2,000 characters: a comment, a reference, an end tag in CDATA, a line feed, and letters.
fn metadata(alloc: Global) -> Result<Vec<u8>, NoMemory> {
    let mut raw = bytes_of(
        alloc,
        "<mosExternalMetadata><!-- a -->1 &amp; 2<![CDATA[</b>]]>",
    )?;
    raw.extend_from_slice(&[0, b'\n'])?;
    for _ in 0..1921 {
        raw.extend_from_slice(&[0, b'x'])?;
    }
    raw.extend_from_slice(bytes_of(alloc, "</mosExternalMetadata>")?.as_slice())?;
    Ok(raw)
}

/// Adds a story of three items, each with this metadata.
fn push_story(alloc: Global, bytes: &mut Vec<u8>, story: u32, raw: &[u8]) -> Result<(), NoMemory> {
    let head = format!(in alloc; "<story><storyID>{story}</storyID>")?;
    bytes.extend_from_slice(bytes_of(alloc, head.as_str())?.as_slice())?;
    for item in 0..3u32 {
        let front = format!(in alloc;
            "<item><itemID>{item}</itemID><objID>O</objID><mosID>d</mosID>"
        )?;
        bytes.extend_from_slice(bytes_of(alloc, front.as_str())?.as_slice())?;
        bytes.extend_from_slice(raw)?;
        bytes.extend_from_slice(bytes_of(alloc, "</item>")?.as_slice())?;
    }
    bytes.extend_from_slice(bytes_of(alloc, "</story>")?.as_slice())?;
    Ok(())
}

/// A roCreate of 40 stories with 120 items in all.
fn long_order(alloc: Global) -> Result<Vec<u8>, NoMemory> {
    let raw = metadata(alloc)?;
    let mut bytes = bytes_of(
        alloc,
        "<mos><mosID>d</mosID><ncsID>n</ncsID><roCreate><roID>R</roID><roSlug>S</roSlug>",
    )?;
    for story in 0..40u32 {
        push_story(alloc, &mut bytes, story, raw.as_slice())?;
    }
    bytes.extend_from_slice(bytes_of(alloc, "</roCreate></mos>")?.as_slice())?;
    Ok(bytes)
}

#[test]
fn a_long_order_comes_back(rt: HostRuntime) -> Result<(), Fail> {
    let alloc = rt.alloc();
    assert_eq!(rt; metadata(alloc)?.len(), 4_000);
    let order = long_order(alloc)?;
    assert!(rt; comes_back(alloc, order.as_slice(), 65_536));
    assert!(rt; comes_back(alloc, order.as_slice(), 1));
    Ok(())
}
