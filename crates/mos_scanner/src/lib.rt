//! From code units to tokens, character after character.
//!
//! The code units of a stream are held by the caller. The scanner keeps only where in them the parts of the token
//! that is being read stand, and what references stand for.
#![tactic(auto)]

mod character;
mod chars;
mod declaration;
mod end;
mod mode;
mod number;
mod plain;
mod reference;
mod resolved;
mod runs;
mod scanned;
mod scanner;
mod starts;
mod tag;
mod tail;
mod text;
mod value;

pub use character::{Character, character_at};
pub use scanned::{Kind, Scanned};
pub use scanner::Scanner;
