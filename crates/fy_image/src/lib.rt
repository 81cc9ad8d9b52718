//! Images: the code that a compiled program runs, and the form in which a file keeps it.
#![tactic(auto)]

mod error;
mod fields;
mod image;
mod laws;
mod read;
mod short;
mod version;
mod write;

pub use error::ImageError;
pub use fields::double_of;
pub use image::Image;
pub use laws::laws_of_images;
pub use read::read_image;
pub use write::{put_doubles, put_words, write_image};
