//! What holds of a walk beside the rules, as the contracts of functions that do nothing.
ghost use Rattle.std.specs.Prelude.{◌≡◌, ◌<◌, ℕ, List, Bool, filter, Option};
ghost use Rattle.std.specs.List.{range_with_len};
ghost use Rattle.task_ast.specs.declared.core_form.CoreExpr.{CoreExpr};
ghost use Rattle.task_ast.specs.declared.core_form.CoreTarget.{CoreTarget};
ghost use Rattle.task_ast.specs.declared.core_form.CoreEnd.{CoreEnd};
ghost use Rattle.task_ast.specs.declared.core_form.CoreStmt.{CoreStmt};
ghost use Rattle.task_ast.specs.CoreSites.{site_numbers, all_numbers};
ghost use Rattle.task_attempts.specs.State.{Setting, Record, Standing, Here, Rest};
ghost use Rattle.task_attempts.specs.Told.{drop_one, drop_all, seal, look};
ghost use Rattle.task_attempts.specs.Values.{value};
ghost use Rattle.task_attempts.specs.Calls.{issue, call_log};
ghost use Rattle.task_attempts.specs.Blocks.{block_log};
ghost use Rattle.task_attempts.specs.Copies.{copy_log};
ghost use Rattle.task_attempts.specs.Attempts.{statement_log, exit_log, commit, attempt_log};
ghost use Rattle.audit_check.specs.Walked.{setting_of, DropsRight, SitesRight, number_at, call_walked, block_walked, copy_walked, statement_walked, exit_walked, commit_walked, attempt_walked};
ghost use Rattle.audit_check.specs.Leads.{Reached};
ghost use Rattle.audit_check.specs.Tracks.{events, Knows, from_here, Follows, Tracks, kept_of};
ghost use Rattle.audit_check.specs.Walking.{Walking as Walk, Way, dropped, dropped_from, sealed, looked, issued_now, word};

use crate::around::Around;
use devices::{Feed, World};

/// A record is dropped as the rules drop it.
pub fn a_drop_goes_along(feeds: &[Feed])
    ensures { (k : ℕ) → Tracks feeds.now (λ go. drop_one k (go tt)) (dropped k) }
{}

/// Records are dropped one after another as the rules drop them.
pub fn drops_go_along(feeds: &[Feed])
    ensures { (wanted : ℕ → Bool) (k left : ℕ) → Tracks feeds.now (λ go. drop_all (filter wanted (range_with_len k left)) (go tt)) (dropped_from wanted k left) }
{}

/// A record is sealed as the rules seal it.
pub fn a_seal_goes_along(feeds: &[Feed])
    ensures { (k : ℕ) (r : Record) → Tracks feeds.now (λ go. seal k r (go tt)) (sealed k (kept_of r)) }
{}

/// A site looks at the clock as the rules let it, at the time that the journal tells.
pub fn a_look_goes_along(feeds: &[Feed])
    ensures { (k : ℕ) → Tracks feeds.now (λ go. look k go) (looked k) }
{}

/// A peripheral is issued as the rules issue it, and gives the reading that they give.
pub fn an_issue_goes_along(feeds: &[Feed])
    ensures { (setting : Setting) (k p : ℕ) (args : List ℕ) → p < 256 → setting.rules.world.feeds ≡ feeds.now
        → Tracks feeds.now (λ go. issue setting k p args go) (issued_now k p args) }
{}

/// A word is valued as the rules value it, or its trap ends the boot.
pub fn a_word_goes_along(feeds: &[Feed])
    ensures { (e : CoreExpr) → Tracks feeds.now (λ go. value e go) (word e) }
{}

/// A call goes along the rules: it keeps its record's value or issues anew, as they say, and its reading goes to its target.
pub fn a_call_goes_along(world: &World, around: &Around)
    ensures { ((p : ℕ) → number_at around.now p < 256) → (k : ℕ) (onto : Option CoreTarget) (p : ℕ) (args : List CoreExpr) → k < 129 → DropsRight around.now k
        → Tracks world.now.feeds (λ go. call_log (setting_of world.now around.now) k onto p args (go tt)) (call_walked around.now k onto p args) }
{}

/// A block goes along the rules, if its body does: it is sealed where they say so, and its calls see the mode that they say.
pub fn a_block_goes_along(world: &World, around: &Around)
    ensures { (k : ℕ) (body : Rest → Rest) (step : Walk → Way (Unit {0})) → k < 129 → Tracks world.now.feeds (λ go. body (go tt)) step
        → Tracks world.now.feeds (λ go. block_log (setting_of world.now around.now) k body (go tt)) (block_walked around.now k step) }
{}

/// A copy goes along the rules: by its record where it has one, and by its class where it has none.
pub fn a_copy_goes_along(world: &World, around: &Around)
    ensures { (k : ℕ) (to from : CoreEnd) (words : CoreExpr) → k < 129
        → Tracks world.now.feeds (λ go. copy_log (setting_of world.now around.now) k to from words (go tt)) (copy_walked around.now k to from words) }
{}

/// A statement goes along the rules, with all that stands in it.
pub fn a_statement_goes_along(world: &World, around: &Around)
    ensures { ((p : ℕ) → number_at around.now p < 256) → (s : CoreStmt) → SitesRight around.now (site_numbers s)
        → Tracks world.now.feeds (λ go. statement_log (setting_of world.now around.now) s (go tt)) (statement_walked around.now s) }
{}

/// The exit of a task goes along the rules, to the task that they give.
pub fn an_exit_goes_along(world: &World, around: &Around)
    ensures { Tracks world.now.feeds (λ go. exit_log around.now.task.now.exit go) (exit_walked around.now) }
{}

/// A commit goes along the rules: it commits the store as it is, and no record lives over it.
pub fn a_commit_goes_along(feeds: &[Feed])
    ensures { (next : ℕ) → Tracks feeds.now (λ go. commit (go tt) next) (commit_walked next) }
{}

/// An attempt goes along the rules from its begin to its commit or its trap, from whatever store the boot has.
pub fn an_attempt_goes_along(world: &World, around: &Around)
    ensures { ((p : ℕ) → number_at around.now p < 256) → SitesRight around.now (all_numbers around.now.task.now.body)
        → (w : Walk) (here : Here) (s : Standing) (go : Unit {0} → Rest) → Knows world.now.feeds w here.standing → Knows world.now.feeds w s
        → Reached (events w.rest) s (from_here (attempt_log (setting_of world.now around.now) (go tt)) here) (Follows world.now.feeds (attempt_walked around.now w) go) }
{}
