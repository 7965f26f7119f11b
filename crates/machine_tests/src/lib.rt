//! Tests of running orders, of the journal, of a device as the server sees it, and of the server's machine.
#![tactic(auto)]

#[cfg(test)]
mod actions;
#[cfg(test)]
mod commands;
#[cfg(test)]
mod edits;
#[cfg(test)]
mod journal;
#[cfg(test)]
mod letters;
#[cfg(test)]
mod long_order;
#[cfg(test)]
mod peer;
