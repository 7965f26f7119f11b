//! Tests of what a person is told of settings.
#![tactic(auto)]

#[cfg(test)]
mod lines;
#[cfg(test)]
mod read;
