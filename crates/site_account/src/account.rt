//! The account of a whole program.
ghost use Rattle.std.specs.Prelude.{◌≡◌, ◌++◌, ◌+◌, ◌<◌, [], IfOk, OnOk, Contains, slice_index_or};
ghost use Rattle.io_depend.specs.Told.{Tells};
ghost use Rattle.site_account.specs.Account.{account_of, body_lines, facts_of, task_text};
ghost use Rattle.site_account.specs.Places.{program_places};
ghost use Rattle.task_ast.specs.WellFormed.{IsWellFormed};

use crate::parts::{put_numbered, put_spaced};
use crate::places::{SitePlace, site_places};
use crate::regions::put_regions;
use crate::sites::put_body;
use crate::view::View;
use ease_base::{List, NoMemory, Text};
use io_depend::{Depends, depend};
use region_split::split;
use std::alloc::Global;
use task_ast::{Core, CoreTask, Program};

/// The account of a program's sites by its checked form, with the places that they have in its tree: a line for each
/// site of each task, and each task's regions. The lines stand in docs/COMMANDS.md, "Sites".
#[tactic(auto, using(std::proofs::Common::append_assoc), unfolding(crate::specs::Account::account_of))]
pub fn account_text(alloc: Global, core: &Core, program: &Program) -> Result<Text, NoMemory>
    requires { IsWellFormed core.now }
    ensures { IfOk result (λ text. text ≡ account_of core.now (program_places program.now)) }
{
    let mut out = Text::new(alloc);
    'tasks: for (number, task) in core.tasks.as_slice().iter().enumerate() {
        let places = places_at(alloc, program, number)?;
        put_task(alloc, core, number, task, places.as_slice(), &mut out)?;
    }
    out.extend(b"end\n")?;
    Ok(out)
}

// The places of the sites of a task, by its number from 0; none where it isn't there.
fn places_at(alloc: Global, program: &Program, number: usize) -> Result<List<SitePlace>, NoMemory>
    ensures { IfOk result (λ places. places ≡ slice_index_or (program_places program.now) number []) }
{
    match program.tasks.get(number) {
        Some(task) => site_places(alloc, task.body.as_slice()),
        None => Ok(List::new(alloc)),
    }
}

// A task, by its number from 0.
#[tactic(auto, using(std::proofs::Common::append_assoc), unfolding(crate::specs::Account::task_text))]
fn put_task(
    alloc: Global,
    core: &Core,
    number: usize,
    task: &CoreTask,
    places: &[SitePlace],
    out: &mut Text,
) -> Result<(), NoMemory>
    requires well_formed { IsWellFormed core.now }
    requires task { Contains core.now.tasks task.now }
    requires small { number < 4294967295 }
    ensures { OnOk result (out.new ≡ out.old ++ task_text core.now (number + 1) task.now places.now) }
{
    let depends = depend(alloc, task, core)?;
    let regions = split(alloc, task, core, &depends)?;
    put_numbered(out, b"task ", number as u64 + 1)?;
    put_spaced(out, task.name.as_slice())?;
    out.push(b'\n')?;
    put_sites(alloc, core, task, places, &depends, out)?;
    put_regions(&core.arrays, &regions, out)
}

// The lines of a task's sites.
fn put_sites(
    alloc: Global,
    core: &Core,
    task: &CoreTask,
    places: &[SitePlace],
    depends: &Depends,
    out: &mut Text,
) -> Result<(), NoMemory>
    requires well_formed { IsWellFormed core.now }
    requires task { Contains core.now.tasks task.now }
    requires told { Tells core.now task.now depends.now }
    ensures { OnOk result (out.new ≡ out.old ++ body_lines (facts_of core.now task.now places.now) task.now.body) }
{
    let view = View {
        core,
        task,
        places,
        count: task.sites.len() as u32,
        depends,
    };
    put_body(alloc, &view, task.body.as_slice(), out)
}
