//! The operators on data as code of the word machine: what is made of the operands, and the faults.
#![tactic(auto)]

mod emission;
mod labels;
mod laws;

pub use emission::operators;
pub use labels::{OPERATOR_COUNT, label_of_binary, label_of_unary};
pub use laws::{
    binary_operators_work, operators_are_disciplined, operators_are_few, operators_are_held,
    operators_read_no_table, results_fit, unary_operators_work,
};
