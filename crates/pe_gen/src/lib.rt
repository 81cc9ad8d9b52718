//! Push-enter code of a phrase, from the demand shapes of a derivation.
#![tactic(auto)]

mod constants;
mod copying;
mod generating;
mod handing;
mod items;
mod laws;
mod listing;
mod manners;
mod nodes;
mod plan;
mod postfix;
mod scope;
mod sites;
mod steps;
mod straightening;
mod thunks;

pub use generating::generate;
pub use handing::direct;
pub use laws::{laid_out_code_is_one, straightened_code_is_one};
pub use straightening::straighten;
