//! Tests of connections that are served in memory: of what says which device one belongs to, of what gives again what was read,
//! and of the two loops that serve one, over sources, sinks and pacers in memory.
#![tactic(auto)]

#[cfg(test)]
mod again;
#[cfg(test)]
mod ends;
#[cfg(test)]
mod looks;
#[cfg(test)]
mod names;
#[cfg(test)]
mod plays;
#[cfg(test)]
mod scripted;
#[cfg(test)]
mod tests;
#[cfg(test)]
mod texts;
