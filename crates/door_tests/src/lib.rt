//! Tests of doors over listeners, dialers and spawners in memory: which jobs they start, how they end, and what becomes of a
//! connection; and of connections that fail at each read and at each write.
#![tactic(auto)]

#[cfg(test)]
mod doors;
#[cfg(test)]
mod faults;
#[cfg(test)]
mod fresh;
#[cfg(test)]
mod jobs;
#[cfg(test)]
mod names;
#[cfg(test)]
mod noting;
#[cfg(test)]
mod plans;
#[cfg(test)]
mod serving;
#[cfg(test)]
mod texts;
