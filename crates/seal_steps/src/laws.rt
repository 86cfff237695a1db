//! Seals, as the contracts of functions that do nothing (docs/ATTEMPTS.md, "What a right journal is").
ghost use Rattle.std.specs.Prelude.{◌≡◌, ℕ, List};
ghost use Rattle.std.specs.List.{AllByRecursion};
ghost use Rattle.devices.specs.Journal.{Place};
ghost use Rattle.devices.specs.declared.world.PowerRow.{PowerRow};
ghost use Rattle.code_places.specs.Placed.{IsPlaced};
ghost use Rattle.run_plan.specs.PlanOf.{plan_of};
ghost use Rattle.seal_steps.specs.Places.{TellsMemory};
ghost use Rattle.seal_steps.specs.Soon.{AllFollow, AreSealedNext};
ghost use Rattle.task_ast.specs.WellFormed.{IsWellFormed};
ghost use Rattle.task_attempts.specs.Boots.{expect};
ghost use Rattle.task_attempts.specs.Journals.{all_events, cuts_of, looks_of};
ghost use Rattle.task_attempts.specs.Sound.{AllSealed, ends_from};
ghost use Rattle.task_attempts.specs.State.{Rules};
ghost use Rattle.word_code.specs.ImageOf.{IsImageOf};
ghost use Rattle.word_isa.specs.declared.image.Image.{Image};
ghost use Rattle.word_machine.specs.Places.{place_of};
ghost use Rattle.word_machine.specs.Runs.{journal};
ghost use Rattle.word_machine.specs.State.{Program};
ghost use Rattle.word_machine.specs.Straight.{Spot, live};

use task_ast::Core;
use word_code::every_plan_is_within_its_formulas;
use word_isa::Scheme;

/// In the boots that the rules expect the next event behind one whose record must be sealed, if there is one, is its seal.
#[tactic(auto, using(crate::proofs::LogSeals::expected_sealed))]
pub fn the_rules_tell_a_seal_next()
    ensures { (rules : Rules) (cuts looks : List ℕ) → AllByRecursion (AreSealedNext rules.core) (expect rules cuts looks) }
{}

/// A machine in whose program the code of a plan lies, from address 0 on and whatever its memory and its registers have, tells
/// something behind each such event within the steps that the seal may take.
pub fn something_is_told_soon_behind_what_must_be_sealed(c: &Core, scheme: Scheme)
    requires { IsWellFormed c.now }
    ensures { (p : Program) (place_of : ℕ → Place) → IsPlaced p (plan_of c.now scheme) c.now → TellsMemory c.now place_of → (n : ℕ) (m : Spot) → m.pc ≡ 0 → AllFollow c.now place_of p n (live m) }
{
    every_plan_is_within_its_formulas(c, scheme);
}

/// So where its journal has the events of the rules, each record of it is sealed in time, or the boot ends before.
pub fn a_journal_of_the_rules_is_sealed_in_time(c: &Core, scheme: Scheme)
    requires { IsWellFormed c.now }
    ensures { (p : Program) (place_of : ℕ → Place) → IsPlaced p (plan_of c.now scheme) c.now → TellsMemory c.now place_of
        → (rules : Rules) → rules.core ≡ c.now → (rows : List PowerRow) (m : Spot) → m.pc ≡ 0
        → all_events (journal place_of p rows (live m)) ≡ expect rules (cuts_of (journal place_of p rows (live m))) (looks_of (journal place_of p rows (live m)))
        → AllSealed c.now (journal place_of p rows (live m)).boots (ends_from (journal place_of p rows (live m)).boots (journal place_of p rows (live m)).steps) }
{
    every_plan_is_within_its_formulas(c, scheme);
}

/// The places that the image of a plan tells are of the memory in which their addresses lie.
pub fn the_places_of_an_image_tell_memory(c: &Core, scheme: Scheme)
    requires { IsWellFormed c.now }
    ensures { (i : Image) → IsImageOf (plan_of c.now scheme) c.now i → TellsMemory c.now (place_of i.symbols i.stride i.keep i.keep_words) }
{}
