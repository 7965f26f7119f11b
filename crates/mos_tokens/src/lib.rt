//! The tokens of a stream, as the scanner lends them.
//!
//! A token owns nothing: it lends the code units of a stream that are held, the attributes of a tag, and the text with
//! its references resolved.
#![tactic(auto)]

mod attribute;
mod token;

pub use attribute::Attribute;
pub use token::Token;
