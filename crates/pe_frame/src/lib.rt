//! How frames and contexts lie in the words of the stack.
#![tactic(auto)]

mod frames;

pub use frames::{FramePlan, context_words, plan_frame};
