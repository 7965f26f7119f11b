//! The numbers by which elements and orders are looked up.
ghost use Rattle.std.specs.Prelude.{◌≡◌};
ghost use Rattle.status_board.specs.Board.{level_number as level_number_of};
ghost use Rattle.status_board.specs.Numbers.{element_number as element_number_of, mix as mix_of, mix_all as mix_all_of, mix_text as mix_text_of, order_number as order_number_of};

use mos_fields::{Level, Text};

// A mark that no code unit is.
const MARK: u64 = 65_536;

// An odd number, which spreads what is mixed in over all bits.
const SPREAD: u64 = 6_364_136_223_846_793_005;

/// The number of a level.
pub(crate) fn level_number(level: Level) -> u64
    ensures { result ≡ level_number_of level }
{
    match level {
        Level::Ro => 0,
        Level::Story => 1,
        Level::Item => 2,
    }
}

// A number with one more mixed in.
#[tactic(auto, unfolding(crate::specs::Numbers::mix))]
fn mix(n: u64, m: u64) -> u64
    ensures { result ≡ mix_of n m }
{
    n.wrapping_mul(SPREAD).wrapping_add(m)
}

// A number with each of these mixed in.
fn mix_all(n: u64, units: &[u16]) -> u64
    ensures { result ≡ mix_all_of n units.now }
{
    let mut mixed = n;
    let mut rest = units;
    'next: while let [unit, more @ ..] = rest {
        mixed = mix(mixed, u64::from(*unit));
        rest = more;
    }
    mixed
}

// A number with a text mixed in.
fn mix_text(n: u64, text: &Text) -> u64
    ensures { result ≡ mix_text_of n text.now }
{
    mix_all(mix(n, MARK), text.units())
}

/// The number of an order, by the device that reports on it.
pub(crate) fn order_number(d: u32, ro: &Text) -> u64
    ensures { result ≡ order_number_of d ro.now }
{
    mix_text(u64::from(d), ro)
}

/// The number of an element.
pub(crate) fn element_number(d: u32, ro: &Text, level: Level, story: &Text, item: &Text) -> u64
    ensures { result ≡ element_number_of d ro.now level story.now item.now }
{
    let order = mix(order_number(d, ro), level_number(level));
    mix_text(mix_text(order, story), item)
}
