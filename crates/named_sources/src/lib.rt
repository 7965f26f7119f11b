//! Connections that say whose they are: sources that listen to what is read of them, and say it on standard error.
#![tactic(auto)]

mod first;
mod hearing;
mod named;
mod naming;

pub use named::NamedSource;
pub use naming::Naming;
