//! The lines of a report.
ghost use Rattle.std.specs.Prelude.{◌≡◌, ◌++◌, codes, decimal, [], ◌∷◌, if◌then◌else◌};
ghost use Rattle.devices.specs.Journal.{placed, traps};
ghost use Rattle.power_trace.specs.Put.{IsPut};
ghost use Rattle.power_trace.specs.Report as spec;
ghost use Rattle.power_trace.specs.Short.{IsWordEnd};
ghost use Rattle.word_isa.specs.declared.image.Image.{Image};

use crate::event_text::{put_event, put_named};
use crate::line::Line;
use devices::{Event, RunEnd};
use word_isa::Image;

/// The line of an event that came with this step, with the names of the image; in brief without the step, and a look without
/// its time.
pub fn event_line(image: &Image, brief: bool, step: u32, event: Event) -> Line
    ensures { result ≡ spec.line (spec.style_of image.now brief) step (spec.event_text (spec.style_of image.now brief) (placed (spec.place_in image.now) event)) }
{
    let mut line = Line::new();
    put_head(&mut line, brief, step);
    put_event(&mut line, image, brief, event);
    line.put(b"\n");
    line
}

/// The line with which the boot of this number begins, where so many steps are done; in brief without the steps.
pub fn boot_line(brief: bool, steps: u32, number: u64) -> Line
    ensures { (image : Image) → result ≡ spec.line (spec.style_of image brief) steps (codes "boot" ++ spec.number number) }
{
    let mut line = Line::new();
    put_head(&mut line, brief, steps);
    line.put(b"boot ");
    line.put_number(number);
    line.put(b"\n");
    line
}

/// The line of a trap in this step; in brief without the step.
pub fn trap_line(brief: bool, step: u32, code: u32) -> Line
    ensures { (image : Image) → result ≡ spec.line (spec.style_of image brief) step (spec.event_text (spec.style_of image brief) (traps code)) }
{
    let mut line = Line::new();
    put_head(&mut line, brief, step);
    put_named(&mut line, b"trap", code);
    line.put(b"\n");
    line
}

/// The last line, which says how a run ended and after how many steps; in brief without the steps.
pub fn end_line(brief: bool, steps: u32, end: RunEnd) -> Line
    ensures { (image : Image) → result ≡ spec.line (spec.style_of image brief) steps (spec.end_text end) }
{
    let mut line = Line::new();
    put_head(&mut line, brief, steps);
    put_end(&mut line, end);
    line.put(b"\n");
    line
}

// Puts how a run ended.
#[tactic(auto, using(crate::specs::LineLaws::put_more))]
fn put_end(line: &mut Line, end: RunEnd)
    ensures text { IsPut line.old line.new (spec.end_text end) }
    ensures words { IsWordEnd end }
{
    match end {
        RunEnd::Halted => line.put(b"end halted"),
        RunEnd::Trapped(code) => put_named(line, b"end trapped", code),
        RunEnd::Power => line.put(b"end power"),
    }
}

// Puts the number of steps done and a space, but in brief nothing.
#[tactic(auto, using(crate::specs::LineLaws::put_more))]
fn put_head(line: &mut Line, brief: bool, steps: u32)
    ensures { IsPut line.old line.new (if brief then [] else decimal steps ++ codes " ") }
{
    if brief {
        line.put(b"");
    } else {
        line.put_number(u64::from(steps));
        line.put(b" ");
    }
}
