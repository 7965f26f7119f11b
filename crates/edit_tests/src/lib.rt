//! Tests of an editor's runs, over input, connections and output in memory: what is sent for each line or each message of a
//! file, what is told of its answer, and how the run ends; and of the program's runs, with a dialer in memory.
#![tactic(auto)]

#[cfg(test)]
mod dialed;
#[cfg(test)]
mod ends;
#[cfg(test)]
mod giving;
#[cfg(test)]
mod lines;
#[cfg(test)]
mod messages;
#[cfg(test)]
mod play;
#[cfg(test)]
mod program;
