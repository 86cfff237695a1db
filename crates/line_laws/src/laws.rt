//! What the code of expressions, places and statements without sites does on the machine, as the contracts of functions that
//! do nothing (docs/CODE.md, "What is proved").
ghost use Rattle.std.specs.Prelude.{ℕ};
ghost use Rattle.line_laws.specs.Relation.{Layout};
ghost use Rattle.line_laws.specs.Works.{Works, CellWorks, TargetWorks, StmtWorks};
ghost use Rattle.task_ast.specs.WellFormed.{Scope};
ghost use Rattle.task_ast.specs.declared.core_form.CoreExpr.{CoreExpr};
ghost use Rattle.task_ast.specs.declared.core_form.CoreStmt.{CoreStmt};
ghost use Rattle.task_ast.specs.declared.core_form.CoreTarget.{CoreTarget};
ghost use Rattle.walk_run.specs.Store.{Store};
ghost use Rattle.word_machine.specs.State.{Program};

/// Wherever the code of an expression stands, from related memory it comes behind itself with the expression's value in
/// register 1, or to the value's trap: within 12 steps a node and 12 more an index through a pointer, with no event and no
/// write of FRAM. Only registers 1 to 3 and the cells for words in between change.
#[tactic(auto, using(crate::proofs::ExpressionWorks::expr_works))]
pub fn the_code_of_an_expression_gives_its_value()
    ensures { (p : Program) (scope : Scope) (l : Layout) (store : Store) (e : CoreExpr) → Works p scope l store e }
{}

/// The code of a place of an array comes with its address in register 1 and the room up to the array's end in register 2, or
/// to the trap of its index.
#[tactic(auto, using(crate::proofs::Placing::cell_place_gives))]
pub fn the_code_of_a_place_gives_its_address()
    ensures { (p : Program) (scope : Scope) (l : Layout) (store : Store) (array : ℕ) (i : CoreExpr) → CellWorks p scope l store array i }
{}

/// So does that of a target, through a pointer too.
#[tactic(auto, using(crate::proofs::Placing::target_gives))]
pub fn the_code_of_a_target_gives_its_address()
    ensures { (p : Program) (scope : Scope) (l : Layout) (store : Store) (x : CoreTarget) → TargetWorks p scope l store x }
{}

/// Wherever the code of a statement without sites stands, from related memory it makes the statement's writes of FRAM in
/// their order, each once, and comes behind itself with memory related to the store that the statement leaves, or to its trap:
/// within the statement's steps as the table of costs counts them.
#[tactic(auto, using(crate::proofs::PlainWorks::statement_works))]
pub fn the_code_of_a_statement_does_what_the_source_says()
    ensures { (p : Program) (scope : Scope) (l : Layout) (s : CoreStmt) → StmtWorks p scope l s }
{}
