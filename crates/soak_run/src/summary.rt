//! The text of a summary.
ghost use Rattle.std.specs.Prelude.{◌≡◌, ◌++◌, [], ◌∷◌, codes, IfOk, OnOk};
ghost use Rattle.power_trace.specs.Report.{end_text};
ghost use Rattle.soak_run.specs.Summary as spec;

use crate::counts::Counts;
use devices::RunEnd;
use ease_base::{NoMemory, Text, put_number};
use std::alloc::Global;

/// The lines of these counts, of the word of `n`, and of how the run ended.
#[tactic(auto, using(std::proofs::Common::append_assoc))]
pub fn summary_text(alloc: Global, counts: Counts, n: u32, end: RunEnd) -> Result<Text, NoMemory>
    ensures { IfOk result (λ text. text ≡ spec.summary_text counts n end) }
{
    let mut out = Text::new(alloc);
    put_counts(&mut out, counts)?;
    put_line(&mut out, b"n = ", u64::from(n))?;
    put_end(&mut out, end)?;
    Ok(out)
}

// Puts the lines of counts.
#[tactic(auto, using(std::proofs::Common::append_assoc))]
fn put_counts(out: &mut Text, counts: Counts) -> Result<(), NoMemory>
    ensures { OnOk result (out.new ≡ out.old ++ spec.counts_text counts) }
{
    put_line(out, b"boots ", counts.boots)?;
    put_line(out, b"commits ", counts.commits)?;
    put_line(out, b"issued ", counts.issued)?;
    put_line(out, b"kept ", counts.kept)?;
    put_line(out, b"copies ", counts.copies)
}

// Puts a number behind what it counts, and ends the line.
#[tactic(auto, using(std::proofs::Common::append_assoc))]
fn put_line(out: &mut Text, front: &[u8], n: u64) -> Result<(), NoMemory>
    ensures { OnOk result (out.new ≡ out.old ++ spec.line front.now n) }
{
    out.extend(front)?;
    put_number(out, n)?;
    out.extend(b"\n")
}

// Puts how a run ended, as a report tells it.
#[tactic(auto, using(std::proofs::Common::append_assoc))]
fn put_end(out: &mut Text, end: RunEnd) -> Result<(), NoMemory>
    ensures { OnOk result (out.new ≡ out.old ++ (end_text end ++ codes "\n")) }
{
    match end {
        RunEnd::Halted => out.extend(b"end halted\n"),
        RunEnd::Trapped(code) => put_line(out, b"end trapped ", u64::from(code)),
        RunEnd::Power => out.extend(b"end power\n"),
    }
}
