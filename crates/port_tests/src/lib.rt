//! Tests of machines that threads share, and of the server at its ports.
#![tactic(auto)]

#[cfg(test)]
mod events;
#[cfg(test)]
mod jobs;
#[cfg(test)]
mod lines;
#[cfg(test)]
mod ports;
#[cfg(test)]
mod register;
#[cfg(test)]
mod shared;
#[cfg(test)]
mod threads;
