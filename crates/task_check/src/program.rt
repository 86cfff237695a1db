//! The check of a whole program: first its faults alone, then, where it has none, its checked form.
ghost use Rattle.std.specs.Prelude.{◌≡◌, ◌≢◌, Some, IfOk, IfErr};
ghost use Rattle.task_ast.specs.Readable.{IsReadable};
ghost use Rattle.task_ast.specs.WellFormed.{IsWellFormed};
ghost use Rattle.task_check.specs.CheckedForm.{core_of};
ghost use Rattle.task_check.specs.Faults.{Accepted, first_fault};

use crate::arrays::{arrays, peripherals, pointers};
use crate::declarations::{declare_tasks, declare_words};
use crate::error::CheckError;
use crate::tasks::{check_tasks, form_tasks};
use std::alloc::Global;
use task_ast::{Core, Program};

/// The checked form of an accepted program, else the first fault in text order; at one place the
/// earlier refusal of `CheckError`. The rules and the limits stand in docs/LANGUAGE.md.
#[tactic(auto, unfolding(crate::specs::Faults::faults, crate::specs::CheckedForm::core_of))]
pub fn check(alloc: Global, p: &Program) -> Result<Core, CheckError>
    requires readable { IsReadable p.now }
    ensures accepted { IfOk result (λ c. (Accepted p.now) × (c ≡ core_of p.now)) }
    ensures refused { IfErr result (λ e. e ≢ CheckError.NoMemory → first_fault p.now ≡ Some e) }
    ensures well_formed { IfOk result IsWellFormed }
{
    let decls = p.decls.as_slice();
    let mut names = declare_words(alloc, decls)?;
    declare_tasks(&mut names, p.tasks.as_slice())?;
    let arrays = arrays(alloc, decls)?;
    check_tasks(
        alloc,
        &names,
        arrays.as_slice(),
        decls.len(),
        p.tasks.as_slice(),
    )?;
    let tasks = form_tasks(alloc, &names, arrays.as_slice(), p.tasks.as_slice())?;
    Ok(Core {
        pointers: pointers(alloc, decls)?,
        peripherals: peripherals(alloc, decls)?,
        arrays,
        tasks,
    })
}
