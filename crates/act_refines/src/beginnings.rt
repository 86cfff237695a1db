//! What the code of an attempt's beginning does of its act under `bank`, as the contract of a function that does nothing
//! (docs/CODE.md, "What is proved").
ghost use Rattle.std.specs.Prelude.{◌≡◌, ℕ, Bool};
ghost use Rattle.act_refines.specs.Does.{DoesAct, Nothing};
ghost use Rattle.devices.specs.Journal.{Place};
ghost use Rattle.run_plan.specs.declared.act.Act.TheVariants as act;
ghost use Rattle.run_plan.specs.Small.{Doing};
ghost use Rattle.word_isa.specs.declared.parts.Scheme.TheVariants.{Bank};
ghost use Rattle.word_machine.specs.State.{Program};

use crate::memory::{a_write_keeps_memory, same_fram_keeps_cells};
use act_laws::an_attempt_begins;
use ram_laws::words_in_between_leave_ram;

/// That of an attempt's beginning does, under `bank`: it shows its event, then each home of the working bank as it comes level with
/// the committed bank, and behind it RAM stands for volatile words as they are declared, pointers at nothing, and the mode Own.
pub fn an_attempt_begins_under_bank_as_planned()
    ensures { (p : Program) (place_of : ℕ → Place) (d : Doing) (number : ℕ) (keeps : Bool) (task : ℕ) → d.scheme ≡ Bank → DoesAct p place_of d number keeps (act.Begin task) Nothing }
{
    an_attempt_begins();
    a_write_keeps_memory();
    same_fram_keeps_cells();
    words_in_between_leave_ram();
}
