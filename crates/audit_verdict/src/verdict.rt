//! The answer on the lines of a report, by how many of them go along the rules.
ghost use Rattle.std.specs.Prelude.{◌≡◌, ◌≤◌, false, min, length, IfOk, IfSome};
ghost use Rattle.task_ast.specs.WellFormed.{IsWellFormed};
ghost use Rattle.devices.specs.World.{IsWithinLimits};
ghost use Rattle.report_text.specs.Grammar.{AreLines};
ghost use Rattle.audit_check.specs.Allowed.{IsAllowed};
ghost use Rattle.audit_check.specs.Ended.{end_fits};
ghost use Rattle.audit_check.specs.Journal.{boots_of};
ghost use Rattle.audit_check.specs.Lines.{Reaches, lines_of};
ghost use Rattle.audit_verdict.specs.Judged.{AreAllowed, AreAlong, AreTelling, IsTold, IsVerdict};

use audit_check::{ReportBoot, fitting_lines};
use audit_gather::{Told, Verdict, judge, line_count};
use audit_laws::{
    a_walk_finds_the_lines_that_are_allowed, the_lines_that_are_right_tell_the_answer,
};
use audit_report::end_fits;
use devices::World;
use ease_base::NoMemory;
use report_text::ReportLine;
use task_ast::Core;

// How many lines there are. No report that is read has so many that they can't be counted.
fn line_number<'a>(lines: &[ReportLine<'a>]) -> Result<u32, NoMemory>
    ensures { IfOk result (λ n. n ≡ length lines.now) }
{
    u32::try_from(lines.len()).map_err(|_| NoMemory)
}

// Whether a run may end as it is told.
fn ends_well(world: &World, told: &Told) -> bool
    requires { IsWithinLimits world.now }
    ensures { IfSome told.now.ending (λ e. end_fits world.now.power told.now.boots e.0 e.1 ≡ result) }
{
    match told.ending {
        None => false,
        Some((steps, ending)) => end_fits(world, told.boots.as_slice(), steps, ending),
    }
}

// The lesser of two numbers.
fn lesser(a: u64, b: u64) -> u64
    ensures { result ≡ min a b }
{
    if a < b { a } else { b }
}

// How many lines of boots are allowed, of which so many go along the rules.
fn allowed_lines(c: &Core, world: &World, boots: &[ReportBoot], along: u64) -> u64
    requires program { IsWellFormed c.now }
    requires limits { IsWithinLimits world.now }
    requires few { lines_of (boots_of boots.now) ≤ 4294967295 }
    requires along { AreAlong c.now world.now boots.now along }
    ensures { Reaches (IsAllowed c.now world.now) (boots_of boots.now) result }
{
    a_walk_finds_the_lines_that_are_allowed(c, world);
    lesser(fitting_lines(world, boots), along)
}

// By how many lines are allowed the answer is told.
fn the_right_lines_tell_the_answer<'a>(
    c: &Core,
    world: &World,
    lines: &[ReportLine<'a>],
    boots: &[ReportBoot],
    allowed: u64,
)
    requires program { IsWellFormed c.now }
    requires lines { AreLines false lines.now }
    requires allowed { AreAllowed c.now world.now lines.now boots.now allowed }
    ensures { AreTelling c.now world.now lines.now boots.now allowed }
{
    the_lines_that_are_right_tell_the_answer(c, world);
}

/// The answer on the lines of a report, of whose boots so many lines go along the rules.
pub fn judged<'a>(
    c: &Core,
    world: &World,
    lines: &[ReportLine<'a>],
    told: &Told,
    along: u64,
) -> Result<Verdict, NoMemory>
    requires program { IsWellFormed c.now }
    requires limits { IsWithinLimits world.now }
    requires lines { AreLines false lines.now }
    requires told { IsTold c.now lines.now told.now }
    requires along { AreAlong c.now world.now told.now.boots along }
    ensures { IfOk result (IsVerdict c.now world.now lines.now) }
{
    let boots = told.boots.as_slice();
    let count = line_number(lines)?;
    let all = line_count(boots)?;
    let allowed = allowed_lines(c, world, boots, along);
    the_right_lines_tell_the_answer(c, world, lines, boots, allowed);
    let well = ends_well(world, told);
    Ok(judge(allowed, all, told.ending, well, count))
}
