//! Laws on every program that a text has.
ghost use Rattle.std.specs.Prelude.{◌≡◌, ◌⊎◌, Some};
ghost use Rattle.std.specs.List.{AllByRecursion};
ghost use Rattle.task_check.specs.declared.error.CheckError.{CheckError};
ghost use Rattle.task_check.specs.Faults.{faults, first_fault};
ghost use Rattle.task_check.specs.Order.{program_places, Rise, IsEarlier};
ghost use Rattle.task_text.specs.Reads.{Reads};

use task_ast::Program;
use task_check::the_first_fault_is_at_the_least_place;

/// The places in a program that a text has stand in the order of the text.
pub fn the_places_of_a_program_rise(text: &[u8], p: &Program)
    requires reads { Reads text.now p.now }
    ensures { Rise (program_places p.now) }
{}

/// The fault that is answered for a program that a text has is the one at the first place in the text, and there of the
/// first row of the tables (docs/LANGUAGE.md, "What is refused").
pub fn the_first_fault_of_a_text_is_the_least(text: &[u8], p: &Program)
    requires reads { Reads text.now p.now }
    ensures { (e : CheckError) → first_fault p.now ≡ Some e → AllByRecursion (λ f. (e ≡ f) ⊎ IsEarlier e f) (faults p.now) }
{
    the_places_of_a_program_rise(text, p);
    the_first_fault_is_at_the_least_place(p);
}
