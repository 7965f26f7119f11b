//! The texts that the gateway compares.
ghost use Rattle.std.specs.Prelude.{◌≡◌};
ghost use Rattle.mos_edits.specs.Texts.{same_id};
ghost use Rattle.mos_machines.specs.Device.{is_for as is_for_of};
ghost use Rattle.gateway_core.specs.Parts.{asking_of};
ghost use Rattle.gateway_core.specs.Gots.{says_no_order as says_no_order_of};

use crate::asking::Asking;
use mos_fields::{Id, OptId, Slug};

// Whether a roID, which may be empty, is that of an order.
fn is_id(ro: &OptId, id: &Id) -> bool
    ensures { result ≡ same_id ro.now id.now }
{
    ro.text().is(id.text())
}

// Whether it is that of the order that is asked for.
pub fn is_for_any(ro: &OptId, out: &Asking) -> bool
    ensures { result ≡ is_for_of ro.now (asking_of out.now) }
{
    match out {
        Asking::Order(asked) => is_id(ro, asked),
        _ => false,
    }
}

// NO RUNNING ORDER, in code units.
const NO_RUNNING_ORDER: [u16; 16] = [
    78, 79, 32, 82, 85, 78, 78, 73, 78, 71, 32, 79, 82, 68, 69, 82,
];

// Whether a status says that there is no such order.
pub fn says_no_order(status: &Slug) -> bool
    ensures { result ≡ says_no_order_of status.now }
{
    status.text().units() == NO_RUNNING_ORDER.as_slice()
}
