//! How a serving call of a server or of a gateway ended.
#![tactic(auto)]

mod serve_end;

pub use serve_end::ServeEnd;
