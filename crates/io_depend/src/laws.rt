//! What holds of dependence in every task, as the contracts of functions that do nothing.
ghost use Rattle.std.specs.Prelude.{◌≡◌, ◌<◌, ◌≤◌, ℕ, List, ◌++◌, Bool, true, false, length};
ghost use Rattle.task_ast.specs.declared.core_form.CoreStmt.{CoreStmt as Statement};
ghost use Rattle.task_ast.specs.CoreSites.{all_numbers};
ghost use Rattle.task_ast.specs.Pointing.{Pointing, pointing};
ghost use Rattle.io_depend.specs.Sets.{has};
ghost use Rattle.io_depend.specs.Flow.{Carrying, passed};
ghost use Rattle.io_depend.specs.Depend.{depends, points};
ghost use Rattle.io_depend.specs.Laws.{Grows, Ascends};

use task_ast::{Core, CoreStmt, CoreTask};

/// No statement removes a site: what carries a word of some sites goes on carrying it behind the statement, and a site
/// that was found to depend stays found.
#[tactic(auto, using(crate::proofs::Growing::grows))]
pub fn no_statement_removes_a_site(s: &CoreStmt)
    ensures { (points : Pointing) (sources : ℕ → Bool) (around : Bool) (c : Carrying) → Grows c (passed points sources s.now around c) }
{}

/// A site never depends on itself or on a later one.
pub fn dependents_come_later(t: &CoreTask)
    ensures { (site k : ℕ) → depends t.now site k ≡ true → site < k }
{}

/// Statements added behind a site change none of what the site depends on, where they point no pointer to a new array:
/// a pointer may point to what is assigned to it anywhere in its task.
#[tactic(auto, using(crate::proofs::Behind::same_before))]
pub fn statements_behind_a_site_change_nothing(t: &CoreTask, longer: &CoreTask)
    ensures { (more : List Statement) → longer.now.body ≡ t.now.body ++ more → ((p : ℕ) → pointing longer.now p ≡ pointing t.now p)
        → length t.now.sites ≤ length longer.now.sites
        → (site k : ℕ) → k ≤ length t.now.sites → has (all_numbers more) k ≡ false → depends longer.now site k ≡ depends t.now site k }
{}

/// The arrays to which a pointer may point ascend, so none stands twice.
#[tactic(auto, using(crate::specs::RangeLaws::filter_ascends))]
pub fn pointed_arrays_ascend(c: &Core, t: &CoreTask)
    ensures { (pointer : ℕ) → Ascends (points c.now t.now pointer) }
{}
