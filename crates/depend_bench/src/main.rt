//! Works out the dependence and the regions of each task of a program so many times, so that their host instructions can be
//! counted: `FILE TIMES`. It prints the pairs of a site and a later one that depends on it. bench/depend calls it.
#![tactic(auto)]

ghost use Rattle.std.specs.Prelude.{IfSome, Contains};
ghost use Rattle.task_ast.specs.WellFormed.{IsWellFormed};

use ease_base::{Cabinet, FileCabinet, NoMemory};
use io_depend::{Depends, depend};
use region_split::split;
use std::alloc::Global;
use std::env;
use std::env::Env;
use std::process::ExitCode;
use task_ast::{Core, CoreTask};
use task_check::check;
use task_text::read_program;

/// The most bytes of a source.
const SOURCE_LIMIT: usize = 65_536;

/// One more than the most sites of a task.
const BEHIND_THE_LAST_SITE: u32 = 129;

fn main(rt: HostRuntime) -> ExitCode {
    let Some((name, times)) = request(&rt) else {
        return ExitCode::from(1);
    };
    let Some(core) = program_in(rt.alloc(), &mut FileCabinet::make(&rt), name.as_str()) else {
        return ExitCode::from(2);
    };
    match worked(rt.alloc(), &core, times) {
        Ok(pairs) => {
            let _ = println!(rt; "{pairs}");
            ExitCode::from(0)
        }
        Err(NoMemory) => ExitCode::from(8),
    }
}

// The two words of the command.
fn request<R: Env + AllocGlobal>(rt: &R) -> Option<(String, u32)> {
    let mut words = env::args(rt).ok()?;
    let _program = words.next();
    let name = words.next()?;
    let times = words.next()?.parse::<u32>().ok()?;
    Some((name, times))
}

// The checked form of the program in a file; None where there is none.
fn program_in<C: Cabinet>(alloc: Global, files: &mut C, name: &str) -> Option<Core>
    ensures { IfSome result IsWellFormed }
{
    let mut bytes = Vec::new(alloc);
    files.fetch(alloc, name, SOURCE_LIMIT, &mut bytes).ok()?;
    let program = read_program(alloc, bytes.as_slice()).ok()?;
    check(alloc, &program).ok()
}

// The pairs of all tasks, each worked out so many times.
fn worked(alloc: Global, core: &Core, times: u32) -> Result<u64, NoMemory>
    requires { IsWellFormed core.now }
{
    let mut found = 0;
    for _ in 0..times {
        found = pairs(alloc, core)?;
    }
    Ok(found)
}

// The pairs of all tasks.
fn pairs(alloc: Global, core: &Core) -> Result<u64, NoMemory>
    requires { IsWellFormed core.now }
{
    let mut found = 0u64;
    for number in 0..core.tasks.len() {
        if let Some(task) = core.tasks.get(number) {
            found = found.wrapping_add(pairs_in(alloc, core, task)?);
        }
    }
    Ok(found)
}

// The pairs of one task, whose regions are worked out too.
fn pairs_in(alloc: Global, core: &Core, task: &CoreTask) -> Result<u64, NoMemory>
    requires well_formed { IsWellFormed core.now }
    requires task { Contains core.now.tasks task.now }
{
    let d = depend(alloc, task, core)?;
    let _regions = split(alloc, task, core, &d)?;
    Ok(pairs_of(&d))
}

// The pairs of a site and a later one that depends on it.
fn pairs_of(d: &Depends) -> u64 {
    let mut found = 0u64;
    for site in 1..BEHIND_THE_LAST_SITE {
        found = found.wrapping_add(dependents_of(d, site));
    }
    found
}

// How many sites depend on one.
fn dependents_of(d: &Depends, site: u32) -> u64 {
    let mut found = 0u64;
    for k in 1..BEHIND_THE_LAST_SITE {
        if d.later(site, k) {
            found = found.wrapping_add(1);
        }
    }
    found
}
