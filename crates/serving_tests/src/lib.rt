//! Tests of connections: of a server that serves by threads, over listeners, connections and dialers in memory; of sessions over TCP
//! on this machine, and what numbers they have; and of the lines that programs say of connections.
#![tactic(auto)]

#[cfg(test)]
mod dialer;
#[cfg(test)]
mod dials;
#[cfg(test)]
mod ended;
#[cfg(test)]
mod ends;
#[cfg(test)]
mod lines;
#[cfg(test)]
mod pauses;
#[cfg(test)]
mod ports;
#[cfg(test)]
mod server;
#[cfg(test)]
mod serving;
#[cfg(test)]
mod signs;
#[cfg(test)]
mod sockets;
#[cfg(test)]
mod talks;
#[cfg(test)]
mod words;
