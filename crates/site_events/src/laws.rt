//! What plans meet in every run, write by write, site by site and as a whole, as the contracts of functions that do nothing
//! of their own.
ghost use Rattle.std.specs.Prelude.{◌≡◌, ℕ, ◌+◌, List, [], Option, Some, None, map, flat_map};
ghost use Rattle.task_ast.specs.declared.core_form.Site.{Site};
ghost use Rattle.task_ast.specs.WellFormed.{IsWellFormed};
ghost use Rattle.task_attempts.specs.State.{Record};
ghost use Rattle.task_attempts.specs.Changes.{put};
ghost use Rattle.task_attempts.specs.Calls.{site_at};
ghost use Rattle.task_attempts.specs.Boots.{rules_of, expect, costs};
ghost use Rattle.task_attempts.specs.Sound.{AreWalked};
ghost use Rattle.run_plan.specs.Cells.{State, CellWrite, puts_flag, puts_state, after_write};
ghost use Rattle.run_plan.specs.Runs.{plan_run, started, event_weights, commit_states};
ghost use Rattle.run_plan.specs.Sound.{shown, counts, TrapsAreWalked, AllWithin, GoesOn, IsSoundRun};
ghost use Rattle.plan_restore.specs.Kept.{planned};
ghost use Rattle.site_events.specs.Records.{view, Says, kept_from, AreRecords};
ghost use Rattle.site_events.specs.SiteLaws.{IsCellOf, CallsDo, BlocksDo, CopiesDo};
ghost use Rattle.site_events.specs.Standing.{IsNumbered};

use attempt_laws::{
    a_record_that_is_followed_agrees, a_trap_is_that_of_the_unbroken_run,
    what_is_committed_is_what_an_unbroken_run_does,
};
use devices::World;
use plan_restore::{a_boot_finds_the_committed_store, a_run_s_failure_leaves_what_one_may};
use task_ast::Core;
use task_attempts::a_statement_without_sites_shows_no_event;
use word_isa::Scheme;

/// Where a site has no record, a write of any cell of its record but the flag changes no record: so a seal may be cut
/// anywhere before its flag.
#[tactic(auto, using(crate::proofs::SiteProofs::cell_says_nothing))]
pub fn a_cell_says_nothing_before_its_flag(c: &Core)
    ensures { (sites : List Site) (records : ℕ → Option Record) (s : State) (k : ℕ) (w : CellWrite) → IsCellOf k w → records k ≡ None
        → AreRecords sites (view s) records → AreRecords sites (view (after_write c.now.arrays w s)) records }
{}

/// Where the cells say what a record is, the write of the flag makes it, and no other.
#[tactic(auto, using(crate::proofs::SiteProofs::flag_makes))]
pub fn a_flag_makes_its_record(c: &Core)
    ensures { (sites : List Site) (records : ℕ → Option Record) (s : State) (k : ℕ) (r : Record) → Says (view s) (kept_from sites k) k r (site_at sites k)
        → AreRecords sites (view s) records → AreRecords sites (view (after_write c.now.arrays (puts_flag k s.epoch) s)) (put k (Some r) records) }
{}

/// A flag that is cleared drops its record, whatever the other cells hold, and no other.
#[tactic(auto, using(crate::proofs::SiteProofs::flag_drops))]
pub fn a_cleared_flag_drops_its_record(c: &Core)
    ensures { (sites : List Site) (records : ℕ → Option Record) (s : State) (k : ℕ) → IsNumbered (view s)
        → AreRecords sites (view s) records → AreRecords sites (view (after_write c.now.arrays (puts_flag k 0) s)) (put k None records) }
{}

/// The one write of a commit drops all records, and leaves none to the next task, whatever its sites are.
#[tactic(auto, using(crate::proofs::SiteProofs::epoch_drops))]
pub fn a_new_epoch_drops_every_record(c: &Core)
    ensures { (sites : List Site) (s : State) (n bank : ℕ) → IsNumbered (view s)
        → AreRecords sites (view (after_write c.now.arrays (puts_state (s.epoch + 1) n bank) s)) (λ k. None) }
{}

/// The acts of a call do what the rules say of it, cut behind whatever small step: its events are the next of the log, each
/// within its steps, and behind each small step there are the records, looks and issues that the rules have there.
pub fn the_acts_of_a_call_do_what_the_rules_say(c: &Core, world: &World, scheme: Scheme)
    ensures { CallsDo (planned c.now world.now scheme) }
{}

/// The acts of a block do what the rules say of it, if those of its body do: with the mode inside for its body, and behind
/// it the mode outside again.
pub fn the_acts_of_a_block_do_what_the_rules_say(c: &Core, world: &World, scheme: Scheme)
    ensures { BlocksDo (planned c.now world.now scheme) }
{}

/// The acts of a copy do what the rules say of it, cut behind whatever small step: it goes by its record, or by its class as
/// it was valued; its words are kept and its record sealed; and its region is reached with its first event.
pub fn the_acts_of_a_copy_do_what_the_rules_say(c: &Core, world: &World, scheme: Scheme)
    ensures { CopiesDo (planned c.now world.now scheme) }
{}

/// The events of each boot are those that the rules expect, behind however many small steps each power failure comes and
/// whatever the looks show.
pub fn a_plan_shows_what_the_rules_expect(c: &Core, world: &World, scheme: Scheme)
    requires { IsWellFormed c.now }
    ensures { (numbers looks : List ℕ) → shown (plan_run (planned c.now world.now scheme) numbers looks)
        ≡ expect (rules_of c.now world.now) (counts (plan_run (planned c.now world.now scheme) numbers looks)) looks }
{
    a_boot_finds_the_committed_store(c, world, scheme);
    a_run_s_failure_leaves_what_one_may(c);
    a_statement_without_sites_shows_no_event(c, world);
}

/// The weights of the acts that have begun in a boot up to each event are within the steps by which the event must have
/// come.
pub fn a_plan_stays_within_the_steps(c: &Core, world: &World, scheme: Scheme)
    requires { IsWellFormed c.now }
    ensures { (numbers looks : List ℕ) → AllWithin (map event_weights (plan_run (planned c.now world.now scheme) numbers looks))
        (costs (rules_of c.now world.now) scheme (counts (plan_run (planned c.now world.now scheme) numbers looks)) looks) }
{
    a_boot_finds_the_committed_store(c, world, scheme);
    a_run_s_failure_leaves_what_one_may(c);
    a_statement_without_sites_shows_no_event(c, world);
}

/// A run goes on: each boot does its small steps, unless no task is next before, or it traps. So no act misses a mode, a time,
/// a place or a word.
pub fn a_plan_goes_on(c: &Core, world: &World, scheme: Scheme)
    requires { IsWellFormed c.now }
    ensures { (numbers looks : List ℕ) → GoesOn (planned c.now world.now scheme) numbers (started (planned c.now world.now scheme) looks) }
{
    a_boot_finds_the_committed_store(c, world, scheme);
    a_run_s_failure_leaves_what_one_may(c);
    a_statement_without_sites_shows_no_event(c, world);
}

/// What is committed is what the unbroken run does that is fed the retained readings: behind the i-th commit the next task
/// and the nonvolatile words are those behind its i-th task.
pub fn what_a_plan_commits_is_walked(c: &Core, world: &World, scheme: Scheme)
    requires { IsWellFormed c.now }
    ensures { (numbers looks : List ℕ) → AreWalked c.now (shown (plan_run (planned c.now world.now scheme) numbers looks))
        (flat_map (commit_states (planned c.now world.now scheme)) (plan_run (planned c.now world.now scheme) numbers looks)) }
{
    a_boot_finds_the_committed_store(c, world, scheme);
    a_run_s_failure_leaves_what_one_may(c);
    a_statement_without_sites_shows_no_event(c, world);
    what_is_committed_is_what_an_unbroken_run_does(c, world);
}

/// A trap of a boot is that of the unbroken run that is fed the readings retained so far, and those of the attempt that
/// traps.
pub fn a_trap_of_a_plan_is_walked(c: &Core, world: &World, scheme: Scheme)
    requires { IsWellFormed c.now }
    ensures { (numbers looks : List ℕ) → TrapsAreWalked c.now [] (shown (plan_run (planned c.now world.now scheme) numbers looks)) }
{
    a_boot_finds_the_committed_store(c, world, scheme);
    a_run_s_failure_leaves_what_one_may(c);
    a_statement_without_sites_shows_no_event(c, world);
    a_trap_is_that_of_the_unbroken_run(c, world);
}

/// All of it: every run of the plan of every program is sound, in every world and under both schemes. That its saving stands
/// in its place is a law on every plan (`saving_stands_in_its_place` in plan_laws).
pub fn every_run_of_a_plan_is_sound(c: &Core, world: &World, scheme: Scheme)
    requires { IsWellFormed c.now }
    ensures { (numbers looks : List ℕ) → IsSoundRun (planned c.now world.now scheme) numbers looks }
{
    what_a_plan_commits_is_walked(c, world, scheme);
    a_trap_of_a_plan_is_walked(c, world, scheme);
    a_plan_shows_what_the_rules_expect(c, world, scheme);
    a_record_that_is_followed_agrees(c, world);
    a_plan_stays_within_the_steps(c, world, scheme);
    a_plan_goes_on(c, world, scheme);
}
