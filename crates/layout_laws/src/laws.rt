//! Where the words of a program lie, and what follows for its code, as the contracts of functions that do nothing
//! (docs/CODE.md, "What is proved").
ghost use Rattle.std.specs.Prelude.{◌≤◌, ℕ, Bool, List};
ghost use Rattle.layout_laws.specs.Layouts.{layout_of, HasOwnPlaces, LieInAreas, StatementWorks};
ghost use Rattle.line_laws.specs.Relation.{IsApart};
ghost use Rattle.line_laws.specs.Suits.{Suits};
ghost use Rattle.task_ast.specs.WellFormed.{IsCoreStmt, IsWellFormed, scope_of};
ghost use Rattle.task_ast.specs.declared.core_form.Core.{Core};
ghost use Rattle.task_ast.specs.declared.core_form.CoreStmt.{CoreStmt};
ghost use Rattle.task_ast.specs.declared.core_form.CoreTask.{CoreTask};
ghost use Rattle.word_machine.specs.State.{Program};

use line_laws::the_code_of_a_statement_does_what_the_source_says;

/// In every program, over either bank, two places that have one address are one place.
pub fn no_two_places_share_an_address()
    ensures { (c : Core) (bank : ℕ) → IsWellFormed c → bank ≤ 2048 → IsApart (layout_of c bank) }
{}

/// Each place's address is a memory's, and none of the cells that the code has for itself.
pub fn no_place_is_a_cell_of_the_code()
    ensures { (c : Core) (bank : ℕ) → IsWellFormed c → bank ≤ 2048 → HasOwnPlaces (layout_of c bank) }
{}

/// Each place lies in the area of its array's kind: homes in their bank, constants and volatile words in theirs.
pub fn each_place_lies_in_its_area()
    ensures { (c : Core) (bank : ℕ) → IsWellFormed c → bank ≤ 2048 → LieInAreas (layout_of c bank) }
{}

/// A statement of a checked form has what the laws on its code ask of it: its numbers fit their operands, its words in between
/// have cells, and a loop's body leaves the loop's variable.
pub fn every_statement_suits_its_layout()
    ensures { (c : Core) (bank : ℕ) (t : CoreTask) (level : ℕ) (branched : Bool) (turning : List ℕ) (s : CoreStmt) → IsWellFormed c
        → IsCoreStmt (scope_of c t) level branched turning s → Suits (layout_of c bank) (scope_of c t) s }
{}

/// In every program, wherever the code of a statement without sites stands, it does on the machine what the source says, within
/// the steps of the table of costs.
pub fn every_statement_of_a_program_does_what_the_source_says()
    ensures { (p : Program) (c : Core) (bank : ℕ) (t : CoreTask) (level : ℕ) (branched : Bool) (turning : List ℕ) (s : CoreStmt) → IsWellFormed c → bank ≤ 2048
        → IsCoreStmt (scope_of c t) level branched turning s → StatementWorks p c bank t s }
{
    the_code_of_a_statement_does_what_the_source_says();
    no_two_places_share_an_address();
    every_statement_suits_its_layout();
}
