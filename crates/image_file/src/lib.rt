//! Image files: the bytes of an image, and the image of some bytes.
#![tactic(auto)]

mod entries;
mod error;
mod fields;
mod head;
mod laws;
mod layout;
mod lists;
mod puts;
mod raw;
mod reading;
mod tests_of_fields;
mod typed;
mod writing;

pub use error::ImageError;
pub use laws::images_with_the_same_bytes_are_the_same;
pub use raw::{Head, RawImage, RawMark, RawSymbol};
pub use reading::read_image;
pub use writing::write_image;
