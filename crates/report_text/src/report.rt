//! A report, line by line.
ghost use Rattle.std.specs.Prelude.{◌≡◌, ℕ, suc, List, false, IfOk, IfErr};
ghost use Rattle.report_text.specs.Grammar.{is_end, IsRefused, IsReport, ReadsAs, TellsFirst, TellsLine};
ghost use Rattle.report_text.specs.Parts.{split_at};
ghost use Rattle.report_text.specs.Reading as spec;
ghost use Rattle.report_text.specs.declared.line.ReportLine.{ReportLine};

use crate::error::ReportError;
use crate::line::{LineText, ReportLine};
use crate::line_text::line_in;
use crate::words::cut;
use ease_base::{List, NoMemory};
use std::alloc::Global;

// Whether a text says how the run ended.
fn is_end<'a>(text: &LineText<'a>) -> bool
    ensures { result ≡ is_end text.now }
{
    match text {
        LineText::End(_) => true,
        _ => false,
    }
}

// The next line, and what stands behind it; None where no line may stand, or none does.
fn next_line<'a>(ended: bool, text: &'a [u8]) -> Option<(ReportLine<'a>, &'a [u8])>
    ensures next { spec.IsNext ended (split_at 10 text.now) result }
    ensures shorter { spec.IsShorter text.now result }
{
    if ended {
        return None;
    }
    let (bytes, behind) = cut(text, b'\n');
    let behind = behind?;
    match line_in(bytes) {
        Some(line) => Some((line, behind)),
        None => None,
    }
}

// The lines of a report.
fn read_lines<'a>(alloc: Global, bytes: &'a [u8]) -> Result<List<ReportLine<'a>>, ReportError>
    ensures read { spec.Reads (spec.report_of false 0 (split_at 10 bytes.now)) result }
{
    let mut lines = List::new(alloc);
    let mut left = bytes;
    let mut ended = false;
    let mut number = 1u32;
    'lines: while !left.is_empty() {
        let Some((line, behind)) = next_line(ended, left) else {
            return Err(ReportError::Line(number));
        };
        ended = is_end(&line.text);
        lines.push(line)?;
        number = number.checked_add(1).ok_or(NoMemory)?;
        left = behind;
    }
    if ended {
        Ok(lines)
    } else {
        Err(ReportError::Line(number))
    }
}

/// Reads a full report: lines that end with a line feed, each a number, a space and a text, of which the last, and only the
/// last, says how the run ended. Else the first line that may not stand is told, from 1.
pub fn read_report<'a>(alloc: Global, bytes: &'a [u8]) -> Result<List<ReportLine<'a>>, ReportError>
    // what is read are the lines of which the bytes are the report
    ensures found { IfOk result (λ lines. IsReport bytes.now lines) }
    // no report is refused, and none is read otherwise
    ensures only { (lines : List ReportLine) → IsReport bytes.now lines → ReadsAs lines result }
    // the line that is told is the first that may not stand
    ensures refused { IfErr result (λ e. TellsFirst bytes.now e) }
    // the first line that may not stand is told
    ensures told { (before : ℕ) → IsRefused false bytes.now before → TellsLine (suc before) result }
{
    read_lines(alloc, bytes)
}
