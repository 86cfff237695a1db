//! An image's fields as they stand in a file, before any of them is tested.
use ease_base::{List, Peripheral, Text, Words};

/// A symbol whose kind may be any byte.
#[derive(Drop)]
pub struct RawSymbol {
    pub name: Text,
    pub kind: u8,
    pub base: u32,
    pub length: u32,
}

/// A mark whose kind may be any byte; its task is 0 in version 1.
#[derive(Clone, Copy)]
pub struct RawMark {
    pub at: u32,
    pub kind: u8,
    pub site: u8,
    pub task: u8,
}

/// The fields in front, which have a fixed length.
#[derive(Clone, Copy)]
pub struct Head {
    pub version: u8,
    pub scheme: u8,
    pub state: u16,
    pub stride: u16,
    pub keep: u16,
    pub keep_words: u16,
}

/// All fields of an image.
#[derive(Drop)]
pub struct RawImage {
    pub head: Head,
    pub code: Words,
    pub fram: Words,
    pub symbols: List<RawSymbol>,
    pub peripherals: List<Peripheral>,
    pub marks: List<RawMark>,
}
