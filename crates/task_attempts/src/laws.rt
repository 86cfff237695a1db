//! What holds of every run over power failures, as the contracts of functions that do nothing.
ghost use Rattle.std.specs.Prelude.{◌≡◌, ◌+◌, ◌≤◌, ℕ, List, [], ◌∷◌, map, take};
ghost use Rattle.task_ast.specs.declared.core_form.CoreTask.{CoreTask};
ghost use Rattle.task_ast.specs.declared.core_form.CoreStmt.{CoreStmt};
ghost use Rattle.task_ast.specs.CoreSites.{site_numbers};
ghost use Rattle.word_isa.specs.declared.parts.Scheme.{Scheme};
ghost use Rattle.task_attempts.specs.State.{Standing, Here, Rest, start};
ghost use Rattle.task_attempts.specs.Attempts.{statement_log, attempt_log};
ghost use Rattle.task_attempts.specs.Values.{plain_log};
ghost use Rattle.task_attempts.specs.Along.{setting_of};
ghost use Rattle.task_attempts.specs.Boots.{rules_of, task_of, boot_steps, boot_log, after, cut_boot, left_by, boots_from, events_in, expect};
ghost use Rattle.task_attempts.specs.Journals.{retained, readings};
ghost use Rattle.task_attempts.specs.Laws.{Rises, IsWhole, LeaveNoRecord, AllStay, EndsByCommit, first_two_as_one};

use devices::World;
use task_ast::Core;

/// An attempt has at least two events. It ends by a commit or a trap.
pub fn an_attempt_ends_by_a_commit_or_a_trap(c: &Core, world: &World)
    ensures { (t : CoreTask) (here : Here) → IsWhole (attempt_log (setting_of (rules_of c.now world.now) t) (λ behind. []) here) }
{}

/// Behind a commit no site has a record, whatever records there were before.
#[tactic(auto, using(crate::proofs::AttemptLaws::boot_clears))]
pub fn a_commit_leaves_no_record(c: &Core, world: &World)
    ensures { (events : ℕ) (s : Standing) → LeaveNoRecord (boot_log (rules_of c.now world.now) events s) }
{}

/// Store and next task are those of the last commit; no other event changes them.
#[tactic(auto, using(crate::proofs::AttemptLaws::boot_stays))]
pub fn only_a_commit_changes_what_is_committed(c: &Core, world: &World)
    ensures { (events : ℕ) (s : Standing) → AllStay s.committed s.next (boot_log (rules_of c.now world.now) events s) }
{}

/// What a boot leaves depends on its first events alone, up to the failure, and not on what it would have done behind them.
#[tactic(auto, using(crate::proofs::AttemptLaws::longer_boot))]
pub fn a_boot_leaves_what_its_first_events_leave(c: &Core, world: &World)
    ensures events { (events longer : ℕ) (s : Standing) → events ≤ longer
        → take events (boot_log (rules_of c.now world.now) longer s) ≡ cut_boot (rules_of c.now world.now) events s }
    ensures left { (events longer : ℕ) (s : Standing) → events ≤ longer
        → after s (take events (boot_log (rules_of c.now world.now) longer s)) ≡ left_by (rules_of c.now world.now) events s }
{}

/// A failure right behind a commit changes no event: the boot behind it goes on as the one before it would have.
#[tactic(auto, using(crate::proofs::CutLaws::cut_behind_commit))]
pub fn a_failure_behind_a_commit_changes_no_event(c: &Core, world: &World)
    ensures { (s : Standing) (first second : ℕ) (cuts : List ℕ) → EndsByCommit (cut_boot (rules_of c.now world.now) first s)
        → map events_in (boots_from (rules_of c.now world.now) ((first + second) ∷ cuts) s)
        ≡ first_two_as_one (map events_in (boots_from (rules_of c.now world.now) (first ∷ second ∷ cuts) s)) }
{}

/// A run without failures, up to a commit, retains all its readings.
#[tactic(auto, using(crate::proofs::RetainedLaws::unbroken_retains))]
pub fn an_unbroken_run_retains_all_readings(c: &Core, world: &World)
    ensures { (cut : ℕ) (times : List ℕ) → EndsByCommit (cut_boot (rules_of c.now world.now) cut (start c.now times))
        → retained c.now (expect (rules_of c.now world.now) (cut ∷ []) times) ≡ readings c.now (expect (rules_of c.now world.now) (cut ∷ []) times) }
{}

/// The steps by which the events of a boot must have come never fall, and are at least those of the boot itself.
#[tactic(auto, using(crate::proofs::AttemptLaws::boot_rises))]
pub fn the_steps_allowed_never_fall(c: &Core, world: &World)
    ensures { (scheme : Scheme) (events : ℕ) (s : Standing) → Rises scheme (boot_steps c.now (task_of c.now s.next) s.account.furthest scheme) (boot_log (rules_of c.now world.now) events s) }
{}

/// A statement without sites shows no event but a trap. What it does, and the steps that it may take, are told by the
/// store alone, as in the unbroken run.
#[tactic(auto, using(crate::proofs::PlainLaws::plain_statement))]
pub fn a_statement_without_sites_shows_no_event(c: &Core, world: &World)
    ensures { (t : CoreTask) (s : CoreStmt) → site_numbers s ≡ [] → (go : Rest) (here : Here)
        → statement_log (setting_of (rules_of c.now world.now) t) s go here ≡ plain_log s go here }
{}
