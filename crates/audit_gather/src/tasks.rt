//! What the walk goes by in each task of a program.
ghost use Rattle.std.specs.Prelude.{◌≡◌, IfOk};
ghost use Rattle.task_ast.specs.WellFormed.{IsWellFormed};
ghost use Rattle.audit_laws.specs.Right.{AreAround};
ghost use Rattle.audit_gather.specs.Tasks.{AreTables, AreOfTasks};

use audit_check::Around;
use ease_base::{List, NoMemory};
use io_depend::{Depends, depend};
use std::alloc::Global;
use task_ast::Core;

/// Which sites of each task depend on which.
pub fn tables(alloc: Global, c: &Core) -> Result<List<Depends>, NoMemory>
    requires { IsWellFormed c.now }
    ensures { IfOk result (λ ds. AreTables c.now c.now.tasks ds) }
{
    let mut tables = List::new(alloc);
    'tasks: for t in c.tasks.as_slice() {
        tables.push(depend(alloc, t, c)?)?;
    }
    Ok(tables)
}

/// What the walk goes by in each task, with the tables of a program.
#[tactic(auto, using(crate::proofs::TaskLaws::around_each))]
pub fn arounds<'a>(
    alloc: Global,
    c: &'a Core,
    tables: &'a [Depends],
) -> Result<List<Around<'a>>, NoMemory>
    requires { AreTables c.now c.now.tasks tables.now }
    ensures { IfOk result (λ tasks. AreAround c.now tasks) }
{
    let mut tasks = List::new(alloc);
    let mut left = tables;
    'tasks: for task in c.tasks.as_slice() {
        let Some((depends, rest)) = left.split_first() else {
            return Err(NoMemory);
        };
        tasks.push(Around {
            core: c,
            task,
            depends,
        })?;
        left = rest;
    }
    Ok(tasks)
}
