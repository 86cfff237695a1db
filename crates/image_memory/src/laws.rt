//! What an image's memory stands for, as the contracts of functions that do nothing (docs/CODE.md, "What is proved").
ghost use Rattle.std.specs.Prelude.{◌≡◌, ℕ, List, false, slice_index};
ghost use Rattle.act_refines.specs.Between.{IsTidy, MemoryStands};
ghost use Rattle.cell_laws.specs.Standing.{HasStore};
ghost use Rattle.code_cuts.specs.Lasting.{doing_of};
ghost use Rattle.devices.specs.Reading.{values_in};
ghost use Rattle.devices.specs.declared.world.World.{World};
ghost use Rattle.line_code.specs.Areas.{areas_from, free_at_first};
ghost use Rattle.run_plan.specs.Cells.{State, first_state};
ghost use Rattle.run_plan.specs.Runs.{committed_words};
ghost use Rattle.task_ast.specs.WellFormed.{IsWellFormed};
ghost use Rattle.task_ast.specs.declared.core_form.Core.{Core};
ghost use Rattle.task_ast.specs.declared.core_form.CoreTask.{CoreTask};
ghost use Rattle.task_attempts.specs.Boots.{rules_of};
ghost use Rattle.word_code.specs.CodeOf.{fram_of, symbols_from};
ghost use Rattle.word_code.specs.Frames.{stride};
ghost use Rattle.word_isa.specs.declared.parts.Scheme.{Scheme};
ghost use Rattle.word_machine.specs.Places.{bank_offset, nv_words};
ghost use Rattle.word_machine.specs.State.{Program};

/// The first words of FRAM stand for the state with which a plan's run begins, whichever task may run next: the declared words of
/// homes, in the bank that a boot finds, constants at their places, and nothing in any cell.
pub fn an_image_begins_with_the_first_state()
    ensures { (p : Program) (c : Core) (world : World) (scheme : Scheme) (times : List ℕ) → IsWellFormed c → ((q : ℕ) → p.values q ≡ values_in world.feeds q) → (t : CoreTask)
        → MemoryStands p (doing_of (rules_of c world) scheme t) false (slice_index (fram_of c.arrays)) (λ _. 0) (first_state c scheme times) }
{}

/// What the nonvolatile symbols show, in the bank that the state word says, are the committed words.
#[tactic(auto, using(crate::proofs::Shown::committed_shown))]
pub fn the_symbols_show_what_is_committed()
    ensures { (c : Core) (scheme : Scheme) (m : ℕ → ℕ) (s : State) → HasStore c scheme m s → IsTidy c scheme s
        → nv_words (symbols_from (areas_from free_at_first c.arrays) 0 c.arrays) (bank_offset 0 (stride scheme) m) m ≡ committed_words scheme c s }
{}
