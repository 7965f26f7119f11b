//! Numbers and connections between made events.
ghost use Rattle.std.specs.Prelude.{◌≡◌, ◌+◌, ◌<◌, ◌≤◌, ◌^◌};
ghost use Rattle.world_scripts.specs.Made.{last_of, next_number as next_number_of, opened as opened_of, set_last};

use crate::made_verb::MadeVerb;

/// For each of the two devices a connection, or 0.
#[derive(Clone, Copy)]
pub struct Lasts {
    pub one: u64,
    pub two: u64,
}

impl Lasts {
    /// The connection of device `d`.
    pub fn last(self, d: u32) -> u64
        ensures { result ≡ last_of d self }
    {
        if d == 1 { self.one } else { self.two }
    }

    /// The same with another connection of device `d`.
    fn with(self, d: u32, c: u64) -> Lasts
        ensures { result ≡ set_last d c self }
    {
        if d == 1 {
            Lasts {
                one: c,
                two: self.two,
            }
        } else {
            Lasts {
                one: self.one,
                two: c,
            }
        }
    }
}

/// What stands between two made events.
#[derive(Clone, Copy)]
pub struct Making {
    /// the last number
    pub number: u64,
    /// how many connections were opened
    pub count: u64,
    /// the last connection that the server opened to each device
    pub to: Lasts,
    /// the last connection that each device opened
    pub from: Lasts,
}

/// The number behind another.
#[tactic(auto, using(crate::proofs::MadeLemmas::wrapped))]
pub fn next_number(x: u64) -> u64
    ensures { result ≡ next_number_of x }
{
    x.wrapping_mul(6_364_136_223_846_793_005)
        .wrapping_add(1_442_695_040_888_963_407)
}

/// What stands behind an event at device `d`: a connection more, where it opens one.
pub fn opened(verb: MadeVerb, d: u32, making: Making) -> Making
    requires { making.count + 1 < 2 ^ 64 }
    ensures value { result ≡ opened_of verb d making }
    ensures bound { result.count ≤ making.count + 1 }
{
    match verb {
        MadeVerb::Open => Making {
            number: making.number,
            count: making.count + 1,
            to: making.to.with(d, making.count + 1),
            from: making.from,
        },
        MadeVerb::Dial => Making {
            number: making.number,
            count: making.count + 1,
            to: making.to,
            from: making.from.with(d, making.count + 1),
        },
        _ => making,
    }
}
