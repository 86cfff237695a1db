//! The marks of runs and the tasks that they name, as the contracts of functions that do nothing.
ghost use Rattle.std.specs.Prelude.{◌≡◌, ℕ, List, [], ◌∷◌, None, Some};
ghost use Rattle.code_places.specs.Placed.{program_by};
ghost use Rattle.devices.specs.declared.event.Event.{Event};
ghost use Rattle.devices.specs.declared.world.PowerRow.{PowerRow};
ghost use Rattle.run_plan.specs.PlanOf.{plan_of};
ghost use Rattle.task_ast.specs.WellFormed.{IsWellFormed};
ghost use Rattle.task_marks.specs.Small.{begin_of_one, copying, looking, of_two, small_run};
ghost use Rattle.task_marks.specs.Told.{AtTheirTasks, marks_on, site_in, told_at};
ghost use Rattle.word_code.specs.CodeOf.{code_of, marks_of};
ghost use Rattle.word_isa.specs.declared.mark.MarkKind.TheVariants as mark;
ghost use Rattle.word_machine.specs.Events.{event_next, site_of};
ghost use Rattle.word_machine.specs.State as machine;

use plan_laws::every_act_is_of_its_task;
use task_ast::Core;
use word_code::every_plan_is_within_its_formulas;
use word_isa::Scheme;

/// Over all power rows, each event of a plan's code that comes from a mark of another kind than a begin's comes from one whose
/// task is that of the last begin before it. This holds of every program, under either scheme.
pub fn every_mark_of_a_run_names_the_task_that_began_last(c: &Core, scheme: Scheme)
    requires { IsWellFormed c.now }
    ensures { (values : ℕ → List ℕ) (rows : List PowerRow) (fram : List ℕ)
        → AtTheirTasks None (marks_on (marks_of 0 (code_of (plan_of c.now scheme) c.now)) (program_by (plan_of c.now scheme) c.now values) rows (machine.start fram)) }
{
    every_plan_is_within_its_formulas(c, scheme);
    every_act_is_of_its_task(c, scheme);
}

/// On any code, the event of a step has the site of the mark that it is said to come from, and site 0 where there is none.
#[tactic(auto, using(crate::proofs::Sites::site_told))]
pub fn an_event_has_the_site_of_its_mark()
    ensures { (p : machine.Program) (s : machine.State) (e : Event) → event_next p s ≡ Some e → site_in e ≡ site_of (p.mark (told_at s)) }
{}

/// A look and a copy of one task whose marks name another are refused, and so is a mark before any begin.
#[tactic(auto, using(crate::proofs::Examples::wrong_look, crate::proofs::Examples::wrong_copy, crate::proofs::Examples::early_mark))]
pub fn marks_of_another_task_are_refused()
    ensures look { (values : ℕ → List ℕ) (fram : List ℕ) → AtTheirTasks None (small_run looking (begin_of_one ∷ of_two mark.Look 1 ∷ []) values fram 2) → ⊥ }
    ensures copy { (values : ℕ → List ℕ) (fram : List ℕ) → AtTheirTasks None (small_run copying (begin_of_one ∷ of_two mark.Copy 2 ∷ []) values fram 4) → ⊥ }
    ensures early { AtTheirTasks None (of_two mark.Commit 0 ∷ []) → ⊥ }
{}
