//! Places in a text, and peripherals by name and number.
use crate::list::Text;

/// A place in a text: line and column, both from 1, the column in bytes.
#[derive(Clone, Copy, Debug, PartialEq, Eq)]
pub struct Pos {
    pub line: u32,
    pub column: u32,
}

/// A peripheral of a program or an image.
#[derive(Debug, Drop)]
pub struct Peripheral {
    pub name: Text,
    pub number: u8,
}
