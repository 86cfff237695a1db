//! A task's acts, and what their code goes by.
ghost use Rattle.std.specs.Prelude.{◌≡◌, ◌+◌, ◌-◌, ◌^◌, ◌≤◌, ◌<◌, ◌++◌, min, length, slice_index_or, [], OnOk};
ghost use Rattle.word_code.specs.CodeOf as spec;
ghost use Rattle.word_code.specs.FitPlan.{IsFitJob, KeepsFew};
ghost use Rattle.word_code.specs.Fitting.{AreFit};

use crate::act_lines::{Ahead, acts};
use crate::frame::Frame;
use crate::sizes::acts_size;
use ease_base::{NoMemory, Words};
use line_code::{Code, Placed};
use run_plan::{Act, Plan};
use std::marker::Model;
use task_ast::{Core, CoreTask};

/// A plan, its program, and where the arrays lie.
#[derive(Drop)]
pub struct Built<'a> {
    pub plan: &'a Plan,
    pub core: &'a Core,
    pub areas: &'a [Placed],
}

impl<'a> Model for Built<'a> {
    ghost use Rattle.word_code.specs.FitPlan.{Built as Held, IsBuilt};
    ghost use Rattle.task_ast.specs.contracts.core_form.CoreExpr as exprs;
    ghost use Rattle.task_ast.specs.contracts.core_form.CoreStmt as stmts;
    ghost use Rattle.task_ast.specs.contracts.core_form.CoreExit as exits;
    ghost use Rattle.run_plan.specs.contracts.act.Act as plans;
    ghost use Rattle.std.specs.Coded.{codes};

    ghost Value = { Held };

    ghost coded = { Prim.hlevel (codes, exprs.the_row.coded, stmts.the_row.coded, exits.the_row.coded, plans.the_row.coded) };

    ghost view = { λ b. record { plan = b.plan.now; core = b.core.now } };

    ghost invariant = { λ b. IsBuilt b.plan.now b.core.now b.areas.now };
}

impl<'a> Built<'a> {
    // What each region of a task may write first.
    fn firsts(&self, number: usize) -> &'a [Words]
        ensures { result.now ≡ slice_index_or self.now.plan.firsts number [] }
    {
        match self.plan.firsts.as_slice().get(number) {
            Some(firsts) => firsts.as_slice(),
            None => &[],
        }
    }

    /// The acts of a task.
    pub fn acts(&self, number: usize) -> &'a [Act]
        ensures { result.now ≡ slice_index_or self.now.plan.tasks number [] }
    {
        match self.plan.tasks.as_slice().get(number) {
            Some(acts) => acts.as_slice(),
            None => &[],
        }
    }

    /// What the code of a task goes by.
    pub fn frame(&self, number: usize, task: &'a CoreTask) -> Frame<'a>
        requires number { number < 64 }
        requires kept { KeepsFew task.now }
        ensures { result ≡ spec.frame_at self.now.plan self.now.core number task.now }
    {
        Frame {
            core: self.core,
            areas: self.areas,
            task,
            number: number as u8 + 1,
            scheme: self.plan.scheme,
            firsts: self.firsts(number),
        }
    }

    /// The lines of what a boot restores for a task.
    pub fn boot_size(&self, f: &Frame) -> u32
        requires { AreFit f.now self.now.plan.boot }
        ensures { result ≡ min (spec.boot_lines self.now.plan f.now) (2 ^ 32 - 1) }
    {
        acts_size(f, self.plan.boot.as_slice())
    }
}
