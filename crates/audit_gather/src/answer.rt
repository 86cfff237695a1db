//! The answer by how many lines are right.
ghost use Rattle.std.specs.Prelude.{◌≡◌, ◌≤◌, ℕ, Bool, IfOk, IfSome};
ghost use Rattle.devices.specs.declared.event.RunEnd.{RunEnd};
ghost use Rattle.audit_check.specs.Journal.{boots_of};
ghost use Rattle.audit_check.specs.Lines.{lines_of};
ghost use Rattle.audit_laws.specs.Gathered.{ends_well, right_lines};
ghost use Rattle.audit_laws.specs.Verdict.{answer_by};
ghost use Rattle.audit_gather.specs.Told.{answer_of};

use audit_check::ReportBoot;
use devices::RunEnd;
use ease_base::NoMemory;

/// Whether a report is a journal that the rules allow.
#[derive(Clone, Copy, PartialEq, Eq)]
pub enum Verdict {
    Legal,
    /// The first line, from 1, with which the lines are no journal that is allowed.
    Illegal(u32),
}

/// How many lines boots have. No report that is read has so many that they can't be counted.
#[tactic(auto, using(crate::proofs::GatherLaws::events_counted))]
pub fn line_count(boots: &[ReportBoot]) -> Result<u32, NoMemory>
    ensures { IfOk result (λ n. n ≡ lines_of (boots_of boots.now)) }
{
    let mut lines = 0u32;
    'boots: for boot in boots {
        let events = u32::try_from(boot.events.len()).map_err(|_| NoMemory)?;
        let own = events.checked_add(1).ok_or(NoMemory)?;
        lines = lines.checked_add(own).ok_or(NoMemory)?;
    }
    Ok(lines)
}

// The lines of an end that counts if it fits.
fn ends_well(ending: Option<(u32, RunEnd)>, well: bool) -> u64
    ensures well { (fits : ℕ × RunEnd → Bool) → IfSome ending (λ e. fits e ≡ well) → result ≡ ends_well ending fits }
    ensures few { result ≤ 1 }
{
    match ending {
        None => 0,
        Some(_) => { if well { 1 } else { 0 } }
    }
}

// How many first lines are right.
fn right_lines(allowed: u64, all: u32, ending: Option<(u32, RunEnd)>, well: bool) -> u64
    requires { allowed ≤ all }
    ensures right { (fits : ℕ × RunEnd → Bool) → IfSome ending (λ e. fits e ≡ well) → result ≡ right_lines allowed all ending fits }
    ensures few { result ≤ 4294967296 }
{
    if allowed == u64::from(all) {
        u64::from(all) + ends_well(ending, well)
    } else {
        allowed
    }
}

/// The answer on so many lines, of which those of the boots are so many, and so many of these are allowed; and of an end that fits or
/// doesn't.
pub fn judge(
    allowed: u64,
    all: u32,
    ending: Option<(u32, RunEnd)>,
    well: bool,
    lines: u32,
) -> Verdict
    requires all { allowed ≤ all }
    requires lines { right_lines allowed all ending (λ _. well) ≤ lines }
    ensures { (fits : ℕ × RunEnd → Bool) → IfSome ending (λ e. fits e ≡ well) → answer_of result ≡ answer_by (right_lines allowed all ending fits) lines }
{
    let right = right_lines(allowed, all, ending, well);
    if right == u64::from(lines) {
        Verdict::Legal
    } else {
        Verdict::Illegal((right + 1) as u32)
    }
}
