//! Tests of texts and values: fields, times, characters, tokens, sources and sinks, and which values are sound.
#![tactic(auto)]

#[cfg(test)]
mod fields;
#[cfg(test)]
mod scanner;
#[cfg(test)]
mod soundness;
#[cfg(test)]
mod sources;
#[cfg(test)]
mod texts;
#[cfg(test)]
mod times;
