//! What the texts of roAcks say.
ghost use Rattle.std.specs.Prelude.{◌≡◌};
ghost use Rattle.std.specs.Str.{bytes_eq};
ghost use Rattle.mos_edits.specs.Texts.{same_id};
ghost use Rattle.server_peer.specs.Parts.{says_taken as says_taken_of};
ghost use Rattle.std.specs.Prelude.{codes};

use mos_fields::{Id, OptId, Slug};

// Whether a roID, which may be empty, is that of an order.
pub fn is_id(ro: &OptId, id: &Id) -> bool
    ensures { result ≡ same_id ro.now id.now }
{
    ro.text().is(id.text())
}

// OK and NO DECK, in code units.
const OKAY: [u16; 2] = [79, 75];

const NO_DECK: [u16; 7] = [78, 79, 32, 68, 69, 67, 75];

fn is_okay(status: &Slug) -> bool
    ensures { result ≡ same_id status.now (codes "OK") }
{
    status.text().units() == OKAY.as_slice()
}

fn is_no_deck(status: &Slug) -> bool
    ensures { result ≡ same_id status.now (codes "NO DECK") }
{
    status.text().units() == NO_DECK.as_slice()
}

// Whether a status says that an edit was taken: `OK`, and `NO DECK` to a READY.
pub fn says_taken(is_ready: bool, status: &Slug) -> bool
    ensures { result ≡ says_taken_of is_ready status.now }
{
    is_okay(status) || is_ready && is_no_deck(status)
}
