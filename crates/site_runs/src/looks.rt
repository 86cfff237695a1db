//! Looks lead on, as the contract of a function that does nothing (docs/CODE.md, "What is proved").
ghost use Rattle.std.specs.Prelude.{◌≡◌, ℕ, List, Some, false, suc};
ghost use Rattle.act_refines.specs.Does.{frame_of};
ghost use Rattle.devices.specs.Journal.{Place};
ghost use Rattle.line_laws.specs.Standing.{Lie};
ghost use Rattle.run_plan.specs.Runs.{Onward, act_steps, straight};
ghost use Rattle.run_plan.specs.Small.{Doing, core_of};
ghost use Rattle.run_plan.specs.declared.act.Act.TheVariants as act;
ghost use Rattle.site_runs.specs.InAttempts.{In, IsLooked, LeadsOn, With};
ghost use Rattle.task_ast.specs.WellFormed.{IsWellFormed};
ghost use Rattle.task_attempts.specs.Boots.{task_of};
ghost use Rattle.word_code.specs.ActCode.{act_code};
ghost use Rattle.word_machine.specs.State.{Program};

use act_laws::a_look_keeps_the_time;
use act_refines::a_look_is_as_planned;
use code_cuts::a_look_is_cut_well;

/// A look leads on in an attempt, inside any blocks, cut anywhere: where it is seen it was due, and behind it its time isn't of
/// the future, and no stamp is later than it.
pub fn looks_lead_on()
    ensures { (p : Program) (place_of : ℕ → Place) (d : Doing) (number : ℕ) → IsWellFormed (core_of d) → task_of (core_of d) number ≡ Some d.setting.task
        → (k : ℕ) (blocks : List ℕ) (most at next : ℕ) (go : Onward) → Lie p at (act_code (frame_of d number) false (act.Look k) at next)
        → LeadsOn p place_of d (With (In p place_of d number blocks) IsLooked) (suc most) next go
        → LeadsOn p place_of d (In p place_of d number blocks) (suc most) at (act_steps d (act.Look k) (straight go)) }
{
    a_look_keeps_the_time();
    a_look_is_as_planned();
    a_look_is_cut_well();
}
