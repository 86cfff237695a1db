//! A place of an array.

/// A place of an array, both by number from 0.
#[derive(Clone, Copy, PartialEq, Eq)]
pub struct Place {
    pub array: u32,
    pub index: u32,
}
