//! The image of a plan.
ghost use Rattle.std.specs.Prelude.{◌≡◌, IfOk};
ghost use Rattle.std.specs.List.{AllByRecursion};
ghost use Rattle.run_plan.specs.PlanOf.{plan_of};
ghost use Rattle.task_ast.specs.WellFormed.{IsWellFormed};
ghost use Rattle.word_code.specs.CodeOf as spec;
ghost use Rattle.word_code.specs.FitPlan.{IsFitPlan, KeepsFew};
ghost use Rattle.word_code.specs.ImageOf.{IsImageOf, HasImage};

use crate::frame::kept_in;
use crate::heads::stride;
use crate::job::Built;
use crate::laws::every_plan_is_within_its_formulas;
use crate::lines::{marks_of, words_of};
use crate::parts::{copy_peripherals, fram_of, symbols_of};
use crate::tasks::plan_code;
use ease_base::NoMemory;
use line_code::areas_of;
use run_plan::Plan;
use std::alloc::Global;
use task_ast::{Core, CoreTask};
use word_isa::Image;

/// The image of the plan of a checked form.
pub fn lower(alloc: Global, p: &Plan, c: &Core) -> Result<Image, NoMemory>
    requires well_formed { IsWellFormed c.now }
    requires plan { p.now ≡ plan_of c.now p.now.scheme }
    ensures { IfOk result (λ i. IsImageOf p.now c.now i) }
{
    every_plan_is_within_its_formulas(c, p.scheme);
    image_of(alloc, p, c)
}

// The image of a plan that has one.
fn image_of(alloc: Global, p: &Plan, c: &Core) -> Result<Image, NoMemory>
    requires fit { IsFitPlan p.now c.now }
    requires passes { HasImage p.now c.now }
    ensures { IfOk result (λ i. IsImageOf p.now c.now i) }
{
    let arrays = c.arrays.as_slice();
    let areas = areas_of(alloc, arrays)?;
    let built = Built {
        plan: p,
        core: c,
        areas: areas.as_slice(),
    };
    let code = plan_code(alloc, &built)?;
    let words = words_of(alloc, code.as_slice())?;
    let marks = marks_of(alloc, code.as_slice())?;
    let fram = fram_of(alloc, arrays)?;
    let symbols = symbols_of(alloc, arrays, areas.as_slice())?;
    let peripherals = copy_peripherals(alloc, c.peripherals.as_slice())?;
    Ok(Image {
        version: 2,
        scheme: p.scheme,
        state: 0,
        stride: stride(p.scheme),
        keep: 7042,
        keep_words: most_kept(c.tasks.as_slice()),
        code: words,
        fram,
        symbols,
        peripherals,
        marks,
    })
}

// The kept words of the task that has the most.
fn most_kept(tasks: &[CoreTask]) -> u16
    requires { AllByRecursion KeepsFew tasks.now }
    ensures { result ≡ spec.most_kept tasks.now }
{
    let mut most = 0;
    'tasks: for task in tasks {
        most = most.max(kept_in(task.sites.as_slice()));
    }
    most
}
