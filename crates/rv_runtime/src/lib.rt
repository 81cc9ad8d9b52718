//! Routines of compiled programs, as code of the word machine: output of integers and truth values, the
//! end where the stack is exhausted, and the making of frames.
#![tactic(auto)]

mod emission;
mod labels;
mod laws;

pub use emission::{add_fault, routines};
pub use labels::{
    COPY_DISPLAY, EXHAUSTED, FIRST_FREE, GO, MAKE_FRAME, MEET, PUT_FALSE, PUT_INT, PUT_TRUE,
};
pub use laws::{
    displays_are_copied, exhaustion_is_told, faults_are_told, frames_are_made, ints_are_put,
    routines_are_disciplined, routines_are_few, routines_are_uniform, truths_are_put,
};
