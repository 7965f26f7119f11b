//! Writing the canonical encoding of records: no white space, the fields in the order of their table, absent ones left
//! out, UTF-16 with the high byte first.
#![tactic(auto)]

mod bytes;
mod fields;
mod values;

pub use bytes::{push_ascii, push_escaped, push_units};
pub use fields::{
    close, open, push_end, push_start, push_start_with, push_word, write_air, write_id,
    write_number, write_opt_id, write_pieces, write_raw, write_slug, write_text, write_time,
};
pub use values::{
    answer_word, device_type_word, digit_word, level_word, operation_word, push_decimal,
};
