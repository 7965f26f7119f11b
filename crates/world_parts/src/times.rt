//! The time of heartbeats.
ghost use Rattle.std.specs.Prelude.{◌≡◌};
ghost use Rattle.world_laws.specs.World.{own_time as own_time_of};

use mos_fields::{MosTime, Zone};

/// The time of every heartbeat that an end of a world sends of itself: `2000-01-01T00:00:00`.
pub fn own_time() -> MosTime
    ensures { result ≡ own_time_of }
{
    MosTime {
        year: 2000,
        month: 1,
        day: 1,
        hour: 0,
        minute: 0,
        second: 0,
        millis: None,
        zone: Zone::None,
    }
}
