//! The machine's instructions, decoded, encoded and listed, and the image that holds them.
#![tactic(auto)]

mod checks;
mod encoding;
mod entries;
mod fields;
mod image;
mod instr;
mod listing;
mod mark;
mod marks;
mod names;
mod parts;
mod span;
mod unnamed;

pub use checks::{banks_pass, first_bad_word, first_too_large, version_passes};
pub use encoding::{decode, encode};
pub use entries::{first_bad_peripheral, first_bad_symbol};
pub use image::Image;
pub use instr::Instr;
pub use listing::list_word;
pub use mark::{Mark, MarkKind};
pub use marks::first_bad_mark;
pub use names::is_symbol_name;
pub use parts::{Scheme, Symbol, kind_code, kind_of};
pub use unnamed::unnamed_image;
