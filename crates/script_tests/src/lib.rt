//! Tests of scripts: their lines, whole scripts, worked scripts that are played, with their listings; and of the call that the
//! program `mos_replay` makes, over inputs and outputs in memory.
#![tactic(auto)]

#[cfg(test)]
mod events;
#[cfg(test)]
mod golden;
#[cfg(test)]
mod plays;
#[cfg(test)]
mod reading;
#[cfg(test)]
mod runs;
