//! A worker that dials: it opens a connection, drives it at a port, pauses, and dials again, until its pacer stops it.
#![tactic(auto)]

mod dialing;

pub use dialing::dial_all;
