//! Acts in a row, as the contracts of functions that do nothing (docs/CODE.md, "What is proved").
ghost use Rattle.std.specs.Prelude.{◌≡◌, ℕ, List, suc};
ghost use Rattle.act_refines.specs.Between.{AreRelated};
ghost use Rattle.act_refines.specs.Does.{has_begun};
ghost use Rattle.code_cuts.specs.Lasting.{Lasts};
ghost use Rattle.code_runs.specs.Claims.{Claim, Claimed, Common, GoesWell};
ghost use Rattle.code_runs.specs.Cutting.{FitsThere};
ghost use Rattle.code_runs.specs.Following.{ActsRun, AnyWay, Leads, LeadsAgain, RunsIn};
ghost use Rattle.devices.specs.Journal.{Place};
ghost use Rattle.run_plan.specs.Cells.{State};
ghost use Rattle.run_plan.specs.Runs.{Onward, acts_run};
ghost use Rattle.run_plan.specs.Small.{Doing};
ghost use Rattle.run_plan.specs.declared.act.Act.{Act};
ghost use Rattle.word_code.specs.ActCode.{acts_entry};
ghost use Rattle.word_machine.specs.State.{Program};
ghost use Rattle.word_machine.specs.Straight.{Spot};

/// The code of an act that does its act, and is cut well, from each state of which something is known before it, runs it at its
/// place: so many steps from its top, the machine has shown just what a front of the act's small steps shows, in fewer steps than
/// it may take, and what outlives a failure stands for the state behind them; or it has gone its way, and what is known behind the
/// act is so; or its trap is seen.
pub fn an_act_runs_at_its_place()
    ensures { (p : Program) (place_of : ℕ → Place) (d : Doing) (number : ℕ) (before after : Claim) (most : State → ℕ) (a : Act) (at next : ℕ)
        → ((n : ℕ) (m : Spot) (s : State) → m.pc ≡ at → AreRelated p d (has_begun a) m s → Claimed p place_of d.setting.rules d.scheme before n m s → FitsThere p place_of d number (Lasts p d.setting.rules d.scheme) (AnyWay (Claimed p place_of d.setting.rules d.scheme after)) n (most s) a at next m s)
        → RunsIn p place_of d number (Lasts p d.setting.rules d.scheme) (Claimed p place_of d.setting.rules d.scheme before) (AnyWay (Claimed p place_of d.setting.rules d.scheme after)) most a at next }
{}

/// Acts whose code each does its act at its place, cut anywhere, do so in a row: from where the row is entered the machine's
/// steps follow the run's small steps through the lists that acts choose, up to a trap, a commit or what comes behind the row.
pub fn acts_in_a_row_run_as_planned()
    ensures { (p : Program) (place_of : ℕ → Place) (d : Doing) (number : ℕ) (most : ℕ) (again : Onward) → LeadsAgain p place_of d (Lasts p d.setting.rules d.scheme) (Common p place_of d.setting.rules d.scheme) most again
        → (acts : List Act) (at next : ℕ) (go : Onward) → ActsRun p place_of d number (Lasts p d.setting.rules d.scheme) (Common p place_of d.setting.rules d.scheme) (GoesWell p place_of d.setting.rules d.scheme number d.setting.task) acts at next
        → Leads p place_of d (Lasts p d.setting.rules d.scheme) (GoesWell p place_of d.setting.rules d.scheme number d.setting.task) (suc most) next go
        → Leads p place_of d (Lasts p d.setting.rules d.scheme) (GoesWell p place_of d.setting.rules d.scheme number d.setting.task) (suc most) (acts_entry acts at next) (acts_run d again acts go) }
{}
