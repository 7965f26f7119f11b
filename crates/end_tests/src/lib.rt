//! Tests of what both ends stand on beside their machines: settings, what the ends say of themselves, the objects that a gateway
//! reads from a stream, the keeper in a file, each over files of its own, and what the server and the gateway print as they end.
#![tactic(auto)]

#[cfg(test)]
mod cuts;
#[cfg(test)]
mod ends;
#[cfg(test)]
mod entries;
#[cfg(test)]
mod gate;
#[cfg(test)]
mod infos;
#[cfg(test)]
mod objects;
#[cfg(test)]
mod refusals;
#[cfg(test)]
mod refused_entries;
#[cfg(test)]
mod server;
#[cfg(test)]
mod tails;
#[cfg(test)]
mod texts;
#[cfg(test)]
mod weak;
#[cfg(test)]
mod writes;
