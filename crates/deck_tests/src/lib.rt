//! Tests of decks, of the table of objects, and of a gateway's node with decks: what is loaded, which deck is dropped when, what a
//! deck writes, how a table fills up, and how a READY is answered.
#![tactic(auto)]

#[cfg(test)]
mod decks;
#[cfg(test)]
mod lines;
#[cfg(test)]
mod messages;
#[cfg(test)]
mod nodes;
#[cfg(test)]
mod objects;
#[cfg(test)]
mod orders;
#[cfg(test)]
mod rack_lines;
#[cfg(test)]
mod racks;
#[cfg(test)]
mod shared_deck;
