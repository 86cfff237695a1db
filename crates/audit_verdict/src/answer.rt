//! The answer of an audit.
ghost use Rattle.std.specs.Prelude.{◌≡◌, false, List, IfOk, IfSome};
ghost use Rattle.task_ast.specs.WellFormed.{IsWellFormed};
ghost use Rattle.devices.specs.World.{IsWithinLimits};
ghost use Rattle.report_text.specs.declared.line.ReportLine.{ReportLine};
ghost use Rattle.report_text.specs.Grammar.{AreLines, IsReport};
ghost use Rattle.audit_laws.specs.Answers.{Answer, IsAnswer};
ghost use Rattle.audit_verdict.specs.Answered.{answer_in, IsJudged};
ghost use Rattle.audit_verdict.specs.Judged.{AreAlong, IsVerdict};

use crate::error::{AuditError, unread};
use crate::verdict::judged;
use audit_check::{ReportBoot, lines_along};
use audit_gather::{Verdict, arounds, gather, tables};
use devices::World;
use ease_base::NoMemory;
use report_text::{ReportLine, read_report};
use std::alloc::Global;
use task_ast::Core;

// How many first lines of boots go along the rules.
#[tactic(auto, using(crate::proofs::AuditLaws::tasks_of))]
fn along(alloc: Global, c: &Core, world: &World, boots: &[ReportBoot]) -> Result<u64, NoMemory>
    requires { IsWellFormed c.now }
    ensures { IfOk result (AreAlong c.now world.now boots.now) }
{
    let tables = tables(alloc, c)?;
    let tasks = arounds(alloc, c, tables.as_slice())?;
    lines_along(alloc, tasks.as_slice(), c, world.feeds.as_slice(), boots)
}

// The verdict on the lines of a report.
fn verdict_on<'a>(
    alloc: Global,
    c: &Core,
    world: &World,
    lines: &[ReportLine<'a>],
) -> Result<Verdict, NoMemory>
    requires program { IsWellFormed c.now }
    requires limits { IsWithinLimits world.now }
    requires lines { AreLines false lines.now }
    ensures { IfOk result (IsVerdict c.now world.now lines.now) }
{
    let told = gather(alloc, c, lines)?;
    let along = along(alloc, c, world, told.boots.as_slice())?;
    judged(c, world, lines, &told, along)
}

/// Whether the bytes of a full report, of at most 67,108,864, are the report of a journal that the rules allow a program in a world;
/// else the first line with which they aren't, or the first that no report has. No machine is run.
pub fn audit(alloc: Global, c: &Core, world: &World, report: &[u8]) -> Result<Verdict, AuditError>
    requires program { IsWellFormed c.now }
    requires limits { IsWithinLimits world.now }
    // what is told is the answer on these bytes
    ensures right { IfSome (answer_in result) (IsAnswer c.now world.now report.now) }
    // and there is no other
    ensures only { (a : Answer) → IsAnswer c.now world.now report.now a → IfSome (answer_in result) (λ told. told ≡ a) }
    // no report is refused
    ensures judged { (lines : List ReportLine) → IsReport report.now lines → IsJudged result }
{
    match read_report(alloc, report) {
        Ok(lines) => Ok(verdict_on(alloc, c, world, lines.as_slice())?),
        Err(fault) => Err(unread(fault)),
    }
}
