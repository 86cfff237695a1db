//! The code of all tasks, behind the head and the stubs.
ghost use Rattle.std.specs.Prelude.{◌≡◌, ◌+◌, ◌≤◌, ◌<◌, ◌++◌, length, IfOk, OnOk};
ghost use Rattle.word_code.specs.CodeOf as spec;
ghost use Rattle.word_code.specs.FitPlan.{IsFitJob, KeepsFew};

use crate::act_lines::{Ahead, acts};
use crate::heads::head;
use crate::job::Built;
use crate::simple::jump;
use crate::sizes::acts_size;
use ease_base::NoMemory;
use line_code::Code;
use std::alloc::Global;
use task_ast::CoreTask;
use word_isa::Instr;

// A stub for each task, where a boot enters it.
fn boot_stubs(code: &mut Code, b: &Built, first: u32) -> Result<(), NoMemory>
    requires room { first + spec.jobs_size b.now.plan (spec.jobs_of b.now.plan b.now.core) ≤ 4194304 }
    ensures lines { OnOk result (code.new ≡ code.old ++ spec.boot_stubs b.now.plan (spec.jobs_of b.now.plan b.now.core) first) }
    ensures count { OnOk result (length code.new ≡ length code.old + length b.now.core.tasks) }
{
    let mut at = first;
    'tasks: for (number, task) in b.core.tasks.as_slice().iter().enumerate() {
        let f = b.frame(number, task);
        jump(code, at)?;
        at = at + b.boot_size(&f) + acts_size(&f, b.acts(number));
    }
    Ok(())
}

// A stub for each task, where a commit enters it.
fn task_stubs(code: &mut Code, b: &Built, first: u32) -> Result<(), NoMemory>
    requires room { first + spec.jobs_size b.now.plan (spec.jobs_of b.now.plan b.now.core) ≤ 4194304 }
    ensures lines { OnOk result (code.new ≡ code.old ++ spec.task_stubs b.now.plan (spec.jobs_of b.now.plan b.now.core) first) }
    ensures count { OnOk result (length code.new ≡ length code.old + length b.now.core.tasks) }
{
    let mut at = first;
    'tasks: for (number, task) in b.core.tasks.as_slice().iter().enumerate() {
        let f = b.frame(number, task);
        at += b.boot_size(&f);
        jump(code, at)?;
        at += acts_size(&f, b.acts(number));
    }
    Ok(())
}

// The code of a task: what a boot restores, and its acts.
fn task_code(code: &mut Code, b: &Built, number: usize, task: &CoreTask) -> Result<(), NoMemory>
    requires number { number < 64 }
    requires kept { KeepsFew task.now }
    requires fit { IsFitJob b.now.plan (spec.job b.now.plan b.now.core number task.now) }
    requires room { length code.old + spec.job_size b.now.plan (spec.job b.now.plan b.now.core number task.now) ≤ 4194304 }
    ensures lines { OnOk result (code.new ≡ code.old ++ spec.job_code b.now.plan (spec.job b.now.plan b.now.core number task.now) (length code.old)) }
    ensures count { OnOk result (length code.new ≡ length code.old + spec.job_size b.now.plan (spec.job b.now.plan b.now.core number task.now)) }
{
    let f = b.frame(number, task);
    let next = code.at() + b.boot_size(&f);
    let boot = Ahead { keeps: false, next };
    acts(code, &f, boot, b.plan.boot.as_slice())?;
    let last = Ahead {
        keeps: false,
        next: 0,
    };
    acts(code, &f, last, b.acts(number))
}

// The code of all tasks.
fn tasks_code(code: &mut Code, b: &Built) -> Result<(), NoMemory>
    requires room { length code.old + spec.jobs_size b.now.plan (spec.jobs_of b.now.plan b.now.core) ≤ 4194304 }
    ensures lines { OnOk result (code.new ≡ code.old ++ spec.jobs_code b.now.plan (spec.jobs_of b.now.plan b.now.core) (length code.old)) }
    ensures count { OnOk result (length code.new ≡ length code.old + spec.jobs_size b.now.plan (spec.jobs_of b.now.plan b.now.core)) }
{
    'tasks: for (number, task) in b.core.tasks.as_slice().iter().enumerate() {
        task_code(code, b, number, task)?;
    }
    Ok(())
}

/// The code of a plan.
pub fn plan_code(alloc: Global, b: &Built) -> Result<Code, NoMemory>
    requires room { spec.first_at b.now.core + spec.jobs_size b.now.plan (spec.jobs_of b.now.plan b.now.core) ≤ 4194304 }
    ensures lines { IfOk result (λ code. code ≡ spec.code_of b.now.plan b.now.core) }
    ensures short { IfOk result (λ code. length code ≤ 4194304) }
{
    let tasks = b.core.tasks.len() as u32;
    let first = 21 + 7 * tasks;
    let mut code = Code::new(alloc);
    head(&mut code, b.plan.scheme, tasks)?;
    code.put(Instr::Halt)?;
    boot_stubs(&mut code, b, first)?;
    task_stubs(&mut code, b, first)?;
    tasks_code(&mut code, b)?;
    Ok(code)
}
