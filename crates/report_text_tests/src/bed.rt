//! What each test stands on: the answer of `read_report` as a line.
use devices::{Args, RunEnd};
use ease_base::NoMemory;
use report_text::{LineText, Name, ReportError, ReportPlace, read_report};
use std::alloc::{AllocError, Global};
use std::str;

// The name between quotes.
fn name_line<'a>(alloc: Global, name: &Name<'a>) -> Result<String, AllocError> {
    let text = str::from_utf8(name.as_slice()).unwrap_or("");
    format!(in alloc; "'{text}'")
}

fn place_line<'a>(alloc: Global, place: &ReportPlace<'a>) -> Result<String, AllocError> {
    match place {
        ReportPlace::Cell(name, index) => {
            let name = name_line(alloc, name)?;
            format!(in alloc; "{name} at {index}")
        }
        ReportPlace::Keep => format!(in alloc; "kept words"),
        ReportPlace::Address(at) => format!(in alloc; "address {at}"),
    }
}

// How many arguments there are, and the four places.
fn args_line(alloc: Global, args: &Args) -> Result<String, AllocError> {
    format!(in alloc;
        "{} of {} {} {} {}",
        args.count, args.a0, args.a1, args.a2, args.a3
    )
}

fn end_line(alloc: Global, end: &RunEnd) -> Result<String, AllocError> {
    match end {
        RunEnd::Halted => format!(in alloc; "halted"),
        RunEnd::Trapped(code) => format!(in alloc; "trapped {code}"),
        RunEnd::Power => format!(in alloc; "power"),
    }
}

fn issue_line<'a>(
    alloc: Global,
    site: u32,
    name: &Name<'a>,
    args: &Args,
    reading: u32,
) -> Result<String, AllocError> {
    let name = name_line(alloc, name)?;
    let args = args_line(alloc, args)?;
    format!(in alloc; "Issue {site} {name} {args} gives {reading}")
}

fn copy_line<'a>(
    alloc: Global,
    site: u32,
    from: &ReportPlace<'a>,
    to: &ReportPlace<'a>,
    words: u32,
) -> Result<String, AllocError> {
    let from = place_line(alloc, from)?;
    let to = place_line(alloc, to)?;
    format!(in alloc; "Copy {site} from {from} to {to} of {words}")
}

fn text_line<'a>(alloc: Global, text: &LineText<'a>) -> Result<String, AllocError> {
    match text {
        LineText::Boot(n) => format!(in alloc; "Boot {n}"),
        LineText::Begin(task) => format!(in alloc; "Begin {task}"),
        LineText::Look(site, time) => format!(in alloc; "Look {site} at {time}"),
        LineText::Kept(site, value) => format!(in alloc; "Kept {site} with {value}"),
        LineText::Drop(site) => format!(in alloc; "Drop {site}"),
        LineText::Issue(site, name, args, reading) => issue_line(
            alloc, *site, name, args, *reading,
        ),
        LineText::Seal(site) => format!(in alloc; "Seal {site}"),
        LineText::Copy(site, from, to, words) => copy_line(alloc, *site, from, to, *words),
        LineText::Commit(next) => format!(in alloc; "Commit {next}"),
        LineText::Trap(code) => format!(in alloc; "Trap {code}"),
        LineText::End(end) => end_line(alloc, end),
    }
}

fn error_line(alloc: Global, error: ReportError) -> Result<String, AllocError> {
    match error {
        ReportError::Line(n) => format!(in alloc; "line {n}"),
        ReportError::NoMemory => format!(in alloc; "no memory"),
    }
}

/// What the lines tell, each behind its number and with a `;`, or the line that is refused.
pub fn told(alloc: Global, bytes: &[u8]) -> Result<String, NoMemory> {
    match read_report(alloc, bytes) {
        Ok(lines) => {
            let mut all = String::new(alloc);
            for line in lines.as_slice() {
                let text = text_line(alloc, &line.text)?;
                all.push_str(format!(in alloc; "{}: {text};", line.steps)?.as_str())?;
            }
            Ok(all)
        }
        Err(error) => Ok(error_line(alloc, error)?),
    }
}

/// The line that is refused, or why else there are no lines; None where they are read.
pub fn refusal(alloc: Global, bytes: &[u8]) -> Option<ReportError> {
    match read_report(alloc, bytes) {
        Ok(_) => None,
        Err(error) => Some(error),
    }
}
