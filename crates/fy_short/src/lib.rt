//! Short texts of types and of data, for people who read them.
#![tactic(auto)]

mod bytes;
mod data;
mod types;

pub use bytes::{is_same, put, put_cut, put_number};
pub use data::{
    data_word, datum_level, left_level, operator_level, put_datum, put_string, put_word,
};
pub use types::{
    name_bytes, print_short_type, put_alternatives, put_name, put_type, sequence_word,
    variable_word, word_of,
};
