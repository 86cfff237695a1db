//! Acts that are cut anywhere, as the contracts of functions that do nothing (docs/CODE.md, "What is proved").
ghost use Rattle.std.specs.Prelude.{◌≡◌, ◌≤◌, ℕ, List};
ghost use Rattle.act_refines.specs.Does.{GoesOn, RelatedBehind, Stops};
ghost use Rattle.act_refines.specs.Seen.{IsFront, Seen, addresses, cells_written, steps_seen, trace_seen};
ghost use Rattle.devices.specs.Journal.{Place};
ghost use Rattle.run_plan.specs.Cells.{State};
ghost use Rattle.run_plan.specs.Small.{Atom, Doing};
ghost use Rattle.run_plan.specs.declared.act.Act.{Act};
ghost use Rattle.task_ast.specs.declared.core_form.Core.{Core};
ghost use Rattle.word_isa.specs.declared.parts.Scheme.{Scheme};
ghost use Rattle.word_machine.specs.State.{Program};
ghost use Rattle.word_machine.specs.Straight.{Spot, live};
ghost use Rattle.word_machine.specs.Traces.{trace};

/// Where the power fails within an act that goes on, the machine has shown a front of what the act shows.
pub fn every_cut_shows_a_front()
    ensures { (p : Program) (place_of : ℕ → Place) (most : ℕ) (m : Spot) (pc : ℕ) (seen : List Seen) (d : Doing) (a : Act) (s : State) (g : GoesOn p place_of most m pc seen (λ there. RelatedBehind p d a there s)) (n : ℕ) → n ≤ g.steps
        → IsFront (trace_seen place_of (trace p n (live m))) seen }
{}

/// And so it has within one that traps.
pub fn every_cut_before_a_trap_shows_a_front()
    ensures { (p : Program) (place_of : ℕ → Place) (most : ℕ) (m : Spot) (code : ℕ) (seen : List Seen) (g : Stops p place_of most m code seen) (n : ℕ) → n ≤ g.steps
        → IsFront (trace_seen place_of (trace p n (live m))) seen }
{}

/// Each word of FRAM that an act's small steps show is the word of the cell that the small step writes, in their order.
#[tactic(auto, using(crate::proofs::Cuts::written_cells))]
pub fn each_word_is_of_a_cell()
    ensures { (c : Core) (scheme : Scheme) (atoms : List Atom) (s : State) → addresses (steps_seen c scheme atoms s) ≡ cells_written c scheme atoms s }
{}
