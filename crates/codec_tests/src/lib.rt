//! Tests of streams: their elements, events and envelopes.
#![tactic(auto)]

#[cfg(test)]
mod elements;
#[cfg(test)]
mod envelopes;
#[cfg(test)]
mod events;
#[cfg(test)]
mod reader;
#[cfg(test)]
mod told;
#[cfg(test)]
mod units;
