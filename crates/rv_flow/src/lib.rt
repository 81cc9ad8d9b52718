//! From code for the word machine to images: what its micro-operations become, and that the image
//! does what the word machine does, and is guarded.
#![tactic(auto)]

mod laws;
mod lowering;

pub use laws::{
    code_can_be_assembled, code_is_short, images_are_guarded, images_follow, images_never_trap,
    images_reach,
};
pub use lowering::{disciplined_are_near, lower, lower_all, lower_block, lower_entries};
