//! What holds of every program and state, as the contracts of functions that do nothing.
ghost use Rattle.std.specs.Prelude.{◌≡◌, ◌+◌, ◌++◌, ◌≤◌, ℕ, List, length};
ghost use Rattle.word_isa.specs.declared.instr.Instr.{Instr};
ghost use Rattle.devices.specs.Clock.{off_ticks};
ghost use Rattle.devices.specs.World.{steps_of};
ghost use Rattle.devices.specs.declared.world.PowerRow.{PowerRow};
ghost use Rattle.word_machine.specs.Runs.{powered};
ghost use Rattle.word_machine.specs.State.{Program, State};
ghost use Rattle.word_machine.specs.Step.{exec};
ghost use Rattle.word_machine.specs.Straight.{Stands, Straight, Spot, live, line, line_writes};
ghost use Rattle.word_machine.specs.TraceLaws.{IsAlike};
ghost use Rattle.word_machine.specs.declared.ending.Ending.TheVariants.{Running};
ghost use Rattle.word_machine.specs.Traces.{trace, applied, writes_next};

/// More steps are steps and then the others, in state and trace.
pub fn runs_add_up()
    ensures state { (p : Program) (n m : ℕ) (s : State) → exec p (n + m) s ≡ exec p m (exec p n s) }
    ensures trace { (p : Program) (n m : ℕ) (s : State) → trace p (n + m) s ≡ trace p n s ++ trace p m (exec p n s) }
{}

/// FRAM after any number of steps is FRAM before them with the writes of their trace, and a step writes at most one word.
pub fn fram_is_what_was_written()
    ensures words { (p : Program) (n : ℕ) (s : State) → IsAlike (exec p n s).store (applied (trace p n s) s.store) }
    ensures one { (p : Program) (s : State) → length (writes_next p s) ≤ 1 }
{}

/// Instructions that stand in a row, and neither jump nor end nor trap, take a step each, with the effect and the writes of all.
pub fn a_straight_line_runs()
    ensures state { (p : Program) (is : List Instr) (s : Spot) → Stands p s.pc is → Straight p is s → exec p (length is) (live s) ≡ live (line p is s) }
    ensures trace { (p : Program) (is : List Instr) (s : Spot) → Stands p s.pc is → Straight p is s → trace p (length is) (live s) ≡ line_writes p is s }
{}

/// After so many steps on power rows, a machine that goes on has ticked once a step and for the time without power of each
/// failure before its next step.
pub fn the_clock_counts_steps_and_failures()
    ensures { (p : Program) (rows : List PowerRow) (n : ℕ) (s : State) → n ≤ steps_of rows → (powered p rows n s).ending ≡ Running
        → (powered p rows n s).clock ≡ s.clock + n + off_ticks rows n }
{}
