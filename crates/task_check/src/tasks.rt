//! Tasks: the faults of their names, statements, exits and closing braces, and their checked forms.
ghost use Rattle.std.specs.Prelude.{◌≡◌, ◌+◌, ◌++◌, ◌<◌, ◌≤◌, ◌^◌, IfOk, length, map, sum_by};
ghost use Rattle.std.specs.List.{AllByRecursion};
ghost use Rattle.task_ast.specs.Readable.{IsReadableTask};
ghost use Rattle.task_ast.specs.Sizes.{task_size};
ghost use Rattle.task_ast.specs.WellFormed.{site_words};
ghost use Rattle.task_check.specs.Bearers.{other_bearer};
ghost use Rattle.task_check.specs.CheckedForm.{core_task};
ghost use Rattle.task_check.specs.Counted.{name_at, tasks_at};
ghost use Rattle.task_check.specs.Faults.{body_faults, close_faults, exit_faults, inner_faults};
ghost use Rattle.task_check.specs.Finds.{Finds};
ghost use Rattle.task_check.specs.Limits.{IsSmall, kept_limit, node_limit, sites_limit};
ghost use Rattle.task_check.specs.Nodes.{nodes_of_task};
ghost use Rattle.task_check.specs.Sites.{body_sites};
ghost use Rattle.task_check.specs.Table.{around_of, copied, meanings};

use crate::addresses::points_of;
use crate::around::Surroundings;
use crate::error::{CheckError, Limit};
use crate::exits::check_exit;
use crate::form_expr::form_exit;
use crate::form_stmt::form_body;
use crate::limits::{name_fits, names_fit, tasks_fit, within};
use crate::names::{Meaning, Names, number};
use crate::nodes::{count_task, plus};
use crate::site_counts::count_body;
use crate::statements::check_body;
use ease_base::{List, NoMemory};
use std::alloc::Global;
use task_ast::limits::{MOST_KEPT_WORDS, MOST_NODES, MOST_SITES};
use task_ast::{Array, CoreTask, Name, Task};

/// That the name stands for the task of this number, so that no earlier one has it.
fn own_name(names: &Names, number: u32, x: &Name) -> Result<(), CheckError>
    ensures { Finds (other_bearer x.now.at number (meanings names.now x.now.text)) (λ _. Unit {0}) result }
{
    match names.find(x.text.as_slice()) {
        Some(Meaning::Task(first)) if first == number => Ok(()),
        Some(
            Meaning::Task(_)
            | Meaning::Scalar(..)
            | Meaning::Array(..)
            | Meaning::Pointer(_)
            | Meaning::Peripheral(_),
        )
        | None => Err(CheckError::TwiceNamed(x.at)),
    }
}

/// That the name of the task of this number is its own and within the limits, behind so many declarations.
fn check_name(names: &Names, words: usize, number: u32, x: &Name) -> Result<(), CheckError>
    ensures { Finds (name_at (meanings names.now) words number x.now) (λ _. Unit {0}) result }
{
    own_name(names, number, x)?;
    tasks_fit(x.at, u128::from(number))?;
    names_fit(x.at, words as u128 + u128::from(number))?;
    name_fits(x)
}

/// That the statements and the exit of a task have no fault.
fn check_inside(alloc: Global, around: &Surroundings, t: &Task) -> Result<(), CheckError>
    ensures { Finds (body_faults (around_of around.now) t.now.body ++ exit_faults (around_of around.now).names t.now.exit) (λ _. Unit {0}) result }
{
    check_body(alloc, around, t.body.as_slice())?;
    check_exit(around.names, &t.exit)
}

/// So many nodes with those of a task behind them, if its sites, its kept words and they are within the limits.
fn check_close(around: &Surroundings, nodes: u128, t: &Task) -> Result<u128, CheckError>
    requires few { nodes ≤ 32768 }
    requires counted { nodes_of_task t.now < 2 ^ 127 }
    requires arrays { AllByRecursion IsSmall around.now.arrays.now }
    ensures { Finds (sites_limit t.now.close (length (body_sites (copied around.now) t.now.body))
        ++ kept_limit t.now.close (sum_by site_words (body_sites (copied around.now) t.now.body))
        ++ node_limit t.now.close (nodes + nodes_of_task t.now))
        (λ n. (n ≡ nodes + nodes_of_task t.now) × (n ≤ 32768)) result }
{
    let counts = count_body(around, t.body.as_slice());
    within(Limit::Sites, MOST_SITES, t.close, counts.sites)?;
    within(Limit::KeptWords, MOST_KEPT_WORDS, t.close, counts.kept)?;
    let nodes = plus(nodes, count_task(t));
    within(Limit::Nodes, MOST_NODES, t.close, nodes)?;
    Ok(nodes)
}

/// The nodes with those of a task behind them, if it has no fault: it is the one of this number, behind so many
/// declarations and nodes.
fn check_task(
    alloc: Global,
    names: &Names,
    arrays: &[Array],
    words: usize,
    number: u32,
    nodes: u128,
    t: &Task,
) -> Result<u128, CheckError>
    requires few { nodes ≤ 32768 }
    requires readable { IsReadableTask t.now }
    requires size { task_size t.now < 2 ^ 32 }
    requires arrays { AllByRecursion IsSmall arrays.now }
    ensures { Finds (name_at (meanings names.now) words number t.now.name ++ inner_faults (meanings names.now) arrays.now t.now
        ++ close_faults (meanings names.now) arrays.now nodes t.now)
        (λ n. (n ≡ nodes + nodes_of_task t.now) × (n ≤ 32768)) result }
{
    check_name(names, words, number, &t.name)?;
    let points = points_of(alloc, names, t.body.as_slice())?;
    let around = Surroundings {
        names,
        arrays,
        points: &points,
        barred: &[],
        level: 0,
        branched: false,
    };
    check_inside(alloc, &around, t)?;
    check_close(&around, nodes, t)
}

/// That tasks, which are numbered from 1, have no fault, behind so many declarations.
pub fn check_tasks(
    alloc: Global,
    names: &Names,
    arrays: &[Array],
    words: usize,
    tasks: &[Task],
) -> Result<(), CheckError>
    requires readable { AllByRecursion IsReadableTask tasks.now }
    requires size { sum_by task_size tasks.now < 2 ^ 32 }
    requires arrays { AllByRecursion IsSmall arrays.now }
    ensures { Finds (tasks_at (meanings names.now) arrays.now words 0 0 tasks.now) (λ _. Unit {0}) result }
{
    let mut nodes = 0;
    for (at, t) in tasks.iter().enumerate() {
        nodes = check_task(alloc, names, arrays, words, number(at + 1)?, nodes, t)?;
    }
    Ok(())
}

/// The checked form of a task.
fn form_task(alloc: Global, names: &Names, arrays: &[Array], t: &Task) -> Result<CoreTask, NoMemory>
    ensures { IfOk result (λ c. c ≡ core_task (meanings names.now) arrays.now t.now) }
{
    let points = points_of(alloc, names, t.body.as_slice())?;
    let around = Surroundings {
        names,
        arrays,
        points: &points,
        barred: &[],
        level: 0,
        branched: false,
    };
    let mut sites = List::new(alloc);
    let mut body = List::new(alloc);
    form_body(alloc, &around, t.body.as_slice(), &mut sites, &mut body)?;
    let exit = form_exit(alloc, names, &t.exit)?;
    Ok(CoreTask {
        name: List::from_slice(alloc, t.name.text.as_slice())?,
        body,
        exit,
        sites,
    })
}

/// The checked forms of tasks.
pub fn form_tasks(
    alloc: Global,
    names: &Names,
    arrays: &[Array],
    tasks: &[Task],
) -> Result<List<CoreTask>, NoMemory>
    ensures { IfOk result (λ ts. ts ≡ map (core_task (meanings names.now) arrays.now) tasks.now) }
{
    let mut done = List::new(alloc);
    for t in tasks {
        done.push(form_task(alloc, names, arrays, t)?)?;
    }
    Ok(done)
}
