//! What a person is told of settings: where a fault is and what is allowed there, and what else may be a mistake.
//!
//! ```text
//! NotToml: ncs.toml, line 6: invalid basic string, expected `"`
//! Missing(host): ncs.toml, devices table 1 (dev1)
//! BadValue(upper): ncs.toml, devices table 2 (m2): a port is a whole number from 1 to 65535
//! ncs.toml: key editr isn't known and isn't used
//! ```
//!
//! What a line says is pinned, for the place that it is told; a place's table is the one that can't be read.
#![tactic(auto)]

mod explaining;
mod faults;
mod finding;
mod known;
mod names;
mod notes;
mod parts;
mod place;
mod starts;
mod unknown;

pub use explaining::{explain, explained_line};
pub use faults::allowed;
pub use finding::place_of;
pub use known::{Program, known_keys, table_keys};
pub use notes::{gate_notes, server_notes};
pub use place::Place;
pub use starts::{gate_start_line, server_start_line};
pub use unknown::unknown_lines;
