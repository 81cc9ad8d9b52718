//! Units: parts of a program that are typed apart under interfaces and then linked without a new search for types.
#![tactic(auto)]

mod bytes;
mod causes;
mod compile;
mod composed;
mod error;
mod header;
mod joined;
mod laws;
mod linking;
mod source;
mod unit;
mod written;

pub use bytes::{read_unit, write_unit};
pub use compile::compile_unit;
pub use error::{LinkError, UnitReadError};
pub use laws::{units_are_judged_one_way, units_are_linked};
pub use linking::{Linked, link};
pub use unit::{Unit, UnitList};
