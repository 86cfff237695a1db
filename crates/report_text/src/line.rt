//! The lines of a report, their names as they stand in it.
ghost use Rattle.std.specs.Prelude.{◌≡◌};

use devices::{Args, RunEnd};
use std::marker::Model;

/// A name as a report spells it.
#[derive(Drop)]
pub struct Name<'a> {
    bytes: &'a [u8],
}

impl<'a> Model for Name<'a> {
    ghost use Rattle.std.specs.Prelude.{ℕ, List};

    ghost Value = { List ℕ };

    ghost view = { λ n. n.bytes.now };
}

impl<'a> Name<'a> {
    /// The name with these bytes.
    pub fn new(bytes: &'a [u8]) -> Name<'a>
        ensures { result ≡ bytes.now }
    {
        Name { bytes }
    }

    /// Its bytes.
    pub fn as_slice(&self) -> &[u8]
        ensures { result.now ≡ self.now }
    {
        self.bytes
    }
}

/// Where the words of a copy come from or go.
#[derive(Drop)]
pub enum ReportPlace<'a> {
    /// The word of this place, from 0, of the array with the name.
    Cell(Name<'a>, u32),
    /// The words kept for the copy.
    Keep,
    /// A bare address.
    Address(u32),
}

/// What a line says behind its number.
#[derive(Drop)]
pub enum LineText<'a> {
    /// The boot of this number begins.
    Boot(u32),
    /// A task begins.
    Begin(u32),
    /// A site looks at the clock, which shows this time.
    Look(u32, u32),
    /// A site takes the result that it kept.
    Kept(u32, u32),
    /// The record of a site is dropped.
    Drop(u32),
    /// A site issues a peripheral, by its name or by `#` and its number, with these arguments, and gets this reading.
    Issue(u32, Name<'a>, Args, u32),
    /// The record of a site is made.
    Seal(u32),
    /// A site has copied: from where, to where, and how many words.
    Copy(u32, ReportPlace<'a>, ReportPlace<'a>, u32),
    /// A task ends, and the next one is named, or 0 where the program stops.
    Commit(u32),
    /// The program traps with this code.
    Trap(u32),
    /// The run has ended.
    End(RunEnd),
}

/// A line of a full report: the number of steps, and its text.
#[derive(Drop)]
pub struct ReportLine<'a> {
    pub steps: u32,
    pub text: LineText<'a>,
}
