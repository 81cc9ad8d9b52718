//! Derivations by the typing rules, what they conclude, and their text.
#![tactic(auto)]

mod atoms;
mod below;
mod context;
mod derivation;
mod error;
mod fits;
mod judgement;
mod kind;
mod laws;
mod members;
mod node;
mod parts;
mod placed;
mod print;
mod reading;
mod rules;
mod sizes;
mod table;

pub use atoms::{
    acceptor_atom, binary_atom, data_atom, datum_atom, is_acceptor, operand_atom, put_atom, takes,
    unary_atom,
};
pub use below::is_below;
pub use context::{Context, under};
pub use derivation::{Derivation, DerivationList};
pub use error::DeriveError;
pub use fits::is_atom;
pub use judgement::{check, check_as, judge, judge_each};
pub use kind::{Demand, demand_of};
pub use laws::{
    judged_programs_are_never_stuck, judging_is_typing, typed_programs_are_never_stuck,
};
pub use node::TypeNode;
pub use parts::{alternative, operands};
pub use placed::derivations_are_kept;
pub use print::print_derivation;
pub use reading::number_of_type;
pub use sizes::{nesting_of, nodes_of};
pub use table::TypeTable;
