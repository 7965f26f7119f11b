//! Tests of a journal on a disk: what an open leaves of a file, appends of which a call fails, and a journal on a file of the
//! system.
#![tactic(auto)]

#[cfg(test)]
mod damages;
#[cfg(test)]
mod failing;
#[cfg(test)]
mod keepers;
#[cfg(test)]
mod on_a_file;
#[cfg(test)]
mod opening;
#[cfg(test)]
mod records;
