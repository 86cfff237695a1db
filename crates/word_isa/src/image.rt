//! The image of a program, which always meets the tests that reading makes.
ghost use Rattle.word_isa.specs.ImageTests.{PassesTests};

use crate::mark::Mark;
use crate::parts::{Scheme, Symbol};
use ease_base::{List, Peripheral, Words};

/// A program's code, the words that it begins with, and what they are called. Addresses count words. docs/MACHINE.md says
/// what each part is, and which tests they meet.
#[derive(Drop)]
pub struct Image {
    /// 1, in which marks name no tasks, or 2.
    pub version: u8,
    pub scheme: Scheme,
    /// The address of the state word, whose lowest bit is the bank.
    pub state: u16,
    /// How far above the first bank the second lies; 0 where there is one.
    pub stride: u16,
    /// The address of the words that are kept aside, and their number.
    pub keep: u16,
    pub keep_words: u16,
    pub code: Words,
    /// The words of FRAM from address 0; the rest are 0.
    pub fram: Words,
    pub symbols: List<Symbol>,
    pub peripherals: List<Peripheral>,
    pub marks: List<Mark>,
    pub ghost tested: { PassesTests version scheme stride keep keep_words code fram symbols peripherals marks },
}
