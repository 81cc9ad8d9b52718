//! Why a program has no type.
#![tactic(auto)]

mod around;
mod causes;
mod ends;
mod error;
mod found;
mod hollow;
mod laws;
mod least;
mod parts;
mod told;

pub use around::{Around, Bound, Occurrence, Variable};
pub use causes::{Cause, Missed, first_missed};
pub use laws::{
    blame_stops, blamed_phrases_stand_at_their_places, causes_are_so, only_some_forms_are_blamed,
    second_causes_are_so,
};
pub use parts::Part;
pub use told::{Explained, Second, Told, least_at, why_of};
