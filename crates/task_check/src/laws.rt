//! What holds of every program, as the contracts of functions that do nothing.
ghost use Rattle.std.specs.Prelude.{◌≡◌, ◌⊎◌, ◌++◌, ◌∷◌, [], Some, true};
ghost use Rattle.std.specs.List.{AllByRecursion, flat_map, range_with_len};
ghost use Rattle.task_check.specs.CheckedForm.{core_body, core_stmts, setting};
ghost use Rattle.task_check.specs.Faults.{faults, first_fault};
ghost use Rattle.task_check.specs.Names.{array_number, names_of};
ghost use Rattle.task_check.specs.Order.{IsEarlier, Rise, program_places};
ghost use Rattle.task_check.specs.Sites.{body_has_sites};

use crate::error::CheckError;
use ease_base::{List, Pos};
use task_ast::{Name, Program, Stmt};

/// A loop with sites becomes its turns, one after another: in turn j its variable is set to j, and then comes what its
/// body becomes. Behind the last turn the variable is set to the number of turns.
pub fn a_loop_with_sites_becomes_its_turns(
    p: &Program,
    i: &Name,
    turns: u32,
    at: Pos,
    body: &List<Stmt>,
    word: Pos,
)
    requires { body_has_sites body.now ≡ true }
    ensures { core_stmts (names_of p.now) (Stmt.For i.now turns at body.now word)
        ≡ flat_map (λ j. setting (array_number (names_of p.now i.now.text)) j ∷ core_body (names_of p.now) body.now) (range_with_len 0 turns)
        ++ setting (array_number (names_of p.now i.now.text)) turns ∷ [] }
{}

/// Where the places of a program rise in the order of its text, its first fault is at the least place of all its faults,
/// and of those at that place of the earliest row.
#[tactic(auto, using(crate::proofs::OrderLaws::first_is_earliest))]
pub fn the_first_fault_is_at_the_least_place(p: &Program)
    requires rising { Rise (program_places p.now) }
    ensures { (e : CheckError) → first_fault p.now ≡ Some e → AllByRecursion (λ f. (e ≡ f) ⊎ IsEarlier e f) (faults p.now) }
{}
