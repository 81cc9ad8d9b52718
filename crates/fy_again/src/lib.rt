//! Texts that are shown, read again: laws.
#![tactic(auto)]

mod laws;

pub use laws::{
    phrases_are_read_again, programs_are_read_again, short_data_are_read_again,
    short_strings_are_read_again, short_types_are_read_again,
};
