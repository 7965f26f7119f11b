//! The outside of the programs: connections over TCP, the system's time, and pauses that last. They stand for what the
//! contracts can't see, and are trusted to do what their texts say.
#![tactic(auto)]

mod at_port;
mod cause;
mod clock;
mod common;
mod counting;
mod dialer;
mod ending;
mod few;
mod pacer;
mod port;
mod stream;

pub use clock::SystemClock;
pub use common::Common;
pub use dialer::TcpDialer;
pub use few::Few;
pub use pacer::SleepPacer;
pub use port::TcpPort;
pub use stream::{TcpHalf, TcpSink, TcpSource};
