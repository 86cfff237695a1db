//! The events that lines tell, by the names of a program.
ghost use Rattle.std.specs.Prelude.{◌≡◌, option_map};
ghost use Rattle.report_text.specs.Events as spec;

use crate::line::{LineText, ReportPlace};
use devices::Args;
use ease_base::Peripheral;
use task_ast::{Array, Core};

/// Where the words of a copy come from or go.
#[derive(Clone, Copy, Debug, PartialEq, Eq)]
pub enum EventPlace {
    /// A word, from 0, of an array of the program, by its place in order from 0.
    Cell(usize, u32),
    /// The words kept for the copy.
    Keep,
    /// A bare address.
    Address(u32),
}

/// An event of a journal.
#[derive(Clone, Copy, Debug, PartialEq, Eq)]
pub enum ReportEvent {
    /// A task begins.
    Begin(u32),
    /// A site looks at the clock, which shows this time.
    Look(u32, u32),
    /// A site takes the result that it kept.
    Kept(u32, u32),
    /// The record of a site is dropped.
    Drop(u32),
    /// A site issues the peripheral of this number with these arguments, and gets this reading.
    Issue(u32, u8, Args, u32),
    /// The record of a site is made.
    Seal(u32),
    /// A site has copied: from where, to where, and how many words.
    Copy(u32, EventPlace, EventPlace, u32),
    /// A task ends, and the next one is named, or 0 where the program stops.
    Commit(u32),
    /// The program traps with this code.
    Trap(u32),
}

/// The event that a text tells, with the names of the program; None where it tells none, or no such name is there.
pub fn event_in<'a>(core: &Core, text: &LineText<'a>) -> Option<ReportEvent>
    ensures { option_map spec.journal_event result ≡ spec.event_in core.now text.now }
{
    match text {
        LineText::Boot(_) | LineText::End(_) => None,
        LineText::Begin(task) => Some(ReportEvent::Begin(*task)),
        LineText::Look(site, time) => Some(ReportEvent::Look(*site, *time)),
        LineText::Kept(site, value) => Some(ReportEvent::Kept(*site, *value)),
        LineText::Drop(site) => Some(ReportEvent::Drop(*site)),
        LineText::Issue(site, name, args, reading) => {
            let peripheral = peripheral_named(core.peripherals.as_slice(), name.as_slice())?;
            Some(ReportEvent::Issue(*site, peripheral, *args, *reading))
        }
        LineText::Seal(site) => Some(ReportEvent::Seal(*site)),
        LineText::Copy(site, from, to, words) => {
            let from = place_named(core.arrays.as_slice(), from)?;
            let to = place_named(core.arrays.as_slice(), to)?;
            Some(ReportEvent::Copy(*site, from, to, *words))
        }
        LineText::Commit(next) => Some(ReportEvent::Commit(*next)),
        LineText::Trap(code) => Some(ReportEvent::Trap(*code)),
    }
}

// The number of the first peripheral with the name.
fn peripheral_named(peripherals: &[Peripheral], name: &[u8]) -> Option<u8>
    ensures { result ≡ spec.peripheral_named peripherals.now name.now }
{
    match peripherals.split_first() {
        Some((peripheral, others)) => {
            if peripheral.name.as_slice() == name {
                Some(peripheral.number)
            } else {
                peripheral_named(others, name)
            }
        }
        None => None,
    }
}

// An end of a copy, with the names of the arrays.
fn place_named<'a>(arrays: &[Array], place: &ReportPlace<'a>) -> Option<EventPlace>
    ensures { option_map spec.journal_place result ≡ spec.place_named arrays.now place.now }
{
    match place {
        ReportPlace::Cell(name, index) => {
            let array = array_named(arrays, name.as_slice())?;
            Some(EventPlace::Cell(array, *index))
        }
        ReportPlace::Keep => Some(EventPlace::Keep),
        ReportPlace::Address(at) => Some(EventPlace::Address(*at)),
    }
}

// The place of the first array with the name, from 0.
fn array_named(arrays: &[Array], name: &[u8]) -> Option<usize>
    ensures { result ≡ spec.array_named arrays.now name.now }
{
    arrays
        .iter()
        .position(|array| array.name.as_slice() == name)
}
