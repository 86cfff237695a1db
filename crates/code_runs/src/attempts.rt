//! What a boot restores, and an attempt, as the contracts of functions that do nothing (docs/CODE.md, "What is proved").
ghost use Rattle.std.specs.Prelude.{◌≡◌, ◌+◌, ℕ, List, length, map, suc};
ghost use Rattle.act_refines.specs.Does.{frame_of};
ghost use Rattle.code_cuts.specs.Lasting.{Lasts};
ghost use Rattle.code_runs.specs.Attempts.{AttemptRuns, LeadsFirst, RegionsRun, attempt};
ghost use Rattle.code_runs.specs.Claims.{Common, GoesWell};
ghost use Rattle.code_runs.specs.Following.{LeadsAgain};
ghost use Rattle.code_runs.specs.Stubs.{AllStubsRun};
ghost use Rattle.devices.specs.Journal.{Place};
ghost use Rattle.region_split.specs.Regions.{regions};
ghost use Rattle.run_plan.specs.Runs.{Onward, Planned, acts_run, attempts, doing, nothing};
ghost use Rattle.run_plan.specs.Small.{Doing};
ghost use Rattle.run_plan.specs.declared.act.Act.{Act};
ghost use Rattle.run_plan.specs.declared.act.Act.TheVariants as act;
ghost use Rattle.task_ast.specs.declared.core_form.CoreExit.{CoreExit};
ghost use Rattle.task_ast.specs.declared.core_form.CoreTask.{CoreTask};
ghost use Rattle.word_code.specs.Sizes.{acts_size};
ghost use Rattle.word_machine.specs.State.{Program};

/// Where each region's code restores it at its place, a boot restores the regions that the task has, one after another, and
/// comes to what lies behind their code.
pub fn a_boot_restores_as_planned()
    ensures { (p : Program) (place_of : ℕ → Place) (d : Doing) (number most : ℕ) (again : Onward) (rs : List ℕ) (at next : ℕ) (go : Onward) → length d.firsts ≡ regions d.setting.task
        → next ≡ at + acts_size (frame_of d number) (map act.Restore rs) → RegionsRun p place_of d number (Lasts p d.setting.rules d.scheme) (Common p place_of d.setting.rules d.scheme number) rs at next
        → LeadsFirst p place_of d (Lasts p d.setting.rules d.scheme) (Common p place_of d.setting.rules d.scheme number) (suc most) next go
        → LeadsFirst p place_of d (Lasts p d.setting.rules d.scheme) (Common p place_of d.setting.rules d.scheme number) (suc most) at (acts_run d again (map act.Restore rs) go) }
{}

/// An attempt from its beginning to its exit does on the machine what the plan's attempt says, cut anywhere, and goes on with
/// the attempt of the task to which it commits.
pub fn an_attempt_runs_as_planned()
    ensures { (p : Program) (place_of : ℕ → Place) (d : Doing) (number most : ℕ) (again : Onward) → LeadsAgain p place_of d (Lasts p d.setting.rules d.scheme) (Common p place_of d.setting.rules d.scheme) most again
        → (t : ℕ) (acts : List Act) (e : CoreExit) (at next : ℕ) → AttemptRuns p place_of d number (Lasts p d.setting.rules d.scheme) (Common p place_of d.setting.rules d.scheme) (GoesWell p place_of d.setting.rules d.scheme number d.setting.task) t acts e at next
        → LeadsFirst p place_of d (Lasts p d.setting.rules d.scheme) (Common p place_of d.setting.rules d.scheme number) (suc most) at (acts_run d again (attempt t acts e) nothing) }
{}

/// Attempts run one after another as planned: a commit goes through the stub of its task to that task's attempt, and where there
/// is none the machine halts.
pub fn attempts_run_as_planned()
    ensures { (p : Program) (place_of : ℕ → Place) (x : Planned) (number : ℕ) (task : CoreTask) → AllStubsRun p place_of x
        → (most : ℕ) → LeadsAgain p place_of (doing x number task) (Lasts p x.rules x.plan.scheme) (Common p place_of x.rules x.plan.scheme) most (attempts x most) }
{}
