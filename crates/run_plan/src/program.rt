//! The plan of a program.
ghost use Rattle.std.specs.Prelude.{◌≡◌, [], ◌∷◌, ◌++◌, map, max, min, slice_index_or, IfOk, OnOk, Contains, length};
ghost use Rattle.std.specs.List.{range_with_len};
ghost use Rattle.task_ast.specs.WellFormed.{IsWellFormed};
ghost use Rattle.io_depend.specs.Told.{Tells};
ghost use Rattle.region_split.specs.Regions.{regions};
ghost use Rattle.region_split.specs.Owners.{all_first};
ghost use Rattle.run_plan.specs.PlanOf.{task_acts, tasks_acts, restore_acts, most_regions, plan_of};
ghost use Rattle.run_plan.specs.declared.act.Act.TheVariants as act;

use crate::act::Act;
use crate::parts::Plan;
use crate::statements::{Surroundings, plan_body, plan_exit, save};
use ease_base::{List, NoMemory, Words};
use io_depend::{Depends, depend};
use region_split::{Regions, split};
use std::alloc::Global;
use task_ast::{Core, CoreTask};
use word_isa::Scheme;

// The acts of the task of a number, of which `depend` told this.
fn plan_task(
    alloc: Global,
    c: &Core,
    scheme: Scheme,
    number: u32,
    t: &CoreTask,
    depends: &Depends,
) -> Result<List<Act>, NoMemory>
    requires well_formed { IsWellFormed c.now }
    requires task { Contains c.now.tasks t.now }
    requires told { Tells c.now t.now depends.now }
    ensures { IfOk result (λ acts. acts ≡ task_acts scheme number t.now) }
{
    let around = Surroundings {
        scheme,
        sites: t.sites.as_slice(),
        many: t.sites.len() as u32,
        depends,
    };
    let mut acts = List::new(alloc);
    acts.push(Act::Begin(number))?;
    save(scheme, 0, &mut acts)?;
    plan_body(alloc, &around, t.body.as_slice(), &mut acts)?;
    acts.push(plan_exit(alloc, &t.exit)?)?;
    Ok(acts)
}

// The arrays that each region of a task may write first.
fn firsts_of(alloc: Global, regions: &Regions) -> Result<List<Words>, NoMemory>
    ensures { IfOk result (λ firsts. firsts ≡ regions.now) }
{
    let mut firsts = List::new(alloc);
    'regions: for r in 0..regions.count() {
        firsts.push(Words::from_slice(alloc, regions.first(r))?)?;
    }
    Ok(firsts)
}

// Each of so many regions is restored.
fn restore_each(count: u32, acts: &mut List<Act>) -> Result<(), NoMemory>
    ensures { OnOk result (acts.new ≡ acts.old ++ map act.Restore (range_with_len 0 count)) }
{
    'regions: for r in 0..count {
        acts.push(Act::Restore(r))?;
    }
    Ok(())
}

// What a boot restores, where no task has more regions.
fn plan_boot(alloc: Global, scheme: Scheme, count: u32) -> Result<List<Act>, NoMemory>
    ensures { IfOk result (λ acts. acts ≡ restore_acts scheme count) }
{
    let mut acts = List::new(alloc);
    match scheme {
        Scheme::Undo => restore_each(count, &mut acts)?,
        Scheme::Bank => {}
    }
    Ok(acts)
}

// The greater of two numbers.
fn greater(a: u32, b: u32) -> u32
    ensures { result ≡ max a b }
{
    if a < b { b } else { a }
}

/// The plan of a program under a scheme (docs/PLAN.md).
pub fn plan(alloc: Global, c: &Core, scheme: Scheme) -> Result<Plan, NoMemory>
    requires { IsWellFormed c.now }
    ensures { IfOk result (λ p. p ≡ plan_of c.now scheme) }
{
    let mut tasks = List::new(alloc);
    let mut firsts = List::new(alloc);
    let mut most = 0;
    'tasks: for (index, t) in c.tasks.as_slice().iter().enumerate() {
        let depends = depend(alloc, t, c)?;
        let regions = split(alloc, t, c, &depends)?;
        tasks.push(plan_task(alloc, c, scheme, index as u32 + 1, t, &depends)?)?;
        firsts.push(firsts_of(alloc, &regions)?)?;
        most = greater(most, regions.count());
    }
    let boot = plan_boot(alloc, scheme, most)?;
    Ok(Plan {
        scheme,
        boot,
        tasks,
        firsts,
    })
}
