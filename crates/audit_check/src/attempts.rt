//! The walk of attempts: begins, exits and commits, and attempts one after another.
ghost use Rattle.std.specs.Prelude.{◌≡◌};
ghost use Rattle.std.specs.Option.{option_copied};
ghost use Rattle.walk_run.specs.Exits.{next_of};
ghost use Rattle.audit_check.specs.Booted as boots;
ghost use Rattle.audit_check.specs.Fit.{AreAlike, AreStores, AreStoresOf};
ghost use Rattle.audit_check.specs.Walked as steps;
ghost use Rattle.audit_check.specs.Walking.{Gives};

use crate::around::Around;
use crate::walking::{Kept, Stop, Walking};
use io_annot::Mode;
use std::alloc::Global;
use task_ast::CoreExit;
use walk_run::{Live, Trap};

// The task to which an exit leads, 0 for `STOP`.
fn next_task(exit: &CoreExit, live: &Live) -> Result<u32, Trap>
    ensures { result ≡ next_of exit.now live.now }
{
    match exit {
        CoreExit::Next(task) => Ok(*task),
        CoreExit::Stop => Ok(0),
        CoreExit::Choose(condition, yes_part, no_part) => {
            if live.value(condition)? != 0 {
                next_task(yes_part.get(), live)
            } else {
                next_task(no_part.get(), live)
            }
        }
    }
}

// What the walk goes by in a task, by its number from 1.
#[tactic(auto, using(crate::proofs::AttemptCode::task_there))]
fn task_of<'b, 'c>(tasks: &'b [Around<'c>], number: u32) -> Option<&'b Around<'c>>
    ensures { option_copied result ≡ boots.task_at tasks.now number }
{
    if number == 0 {
        return None;
    }
    tasks.get(number as usize - 1)
}

// No record is left.
fn drop_all(records: &mut Vec<Option<Kept>>)
    ensures { records.new.items ≡ steps.none_kept records.old.items }
{
    'records: for site in 0..records.len() {
        records[site] = None;
    }
}

impl<'a> Walking<'a> {
    // The store is made anew from the committed one, and no block is open.
    fn renew(&mut self, around: &Around)
        requires { AreStores around.now.core.now self.old }
        ensures { self.new ≡ steps.begun around.now self.old }
    {
        self.live.set_to(&self.committed);
        self.live.begin(around.core);
        self.mode = Mode::Own;
    }

    // The next event begins the next task.
    #[tactic(auto, unfolding(crate::specs::Walked::begin_walked))]
    fn begin(&mut self, around: &Around) -> Result<(), Stop>
        requires { AreStores around.now.core.now self.old }
        ensures { Gives (steps.begin_walked around.now self.old) result self.new }
    {
        self.take_begin(self.next)?;
        self.renew(around);
        Ok(())
    }

    // Finds the task that comes next.
    #[tactic(auto, unfolding(crate::specs::Walked::exit_walked))]
    fn exit(&mut self, around: &Around) -> Result<u32, Stop>
        ensures { Gives (steps.exit_walked around.now self.old) result self.new }
    {
        match next_task(&around.task.exit, &self.live) {
            Ok(next) => Ok(next),
            Err(why) => {
                self.trap(why);
                Err(Stop::Parted)
            }
        }
    }

    // The store is committed, and no record lives over it.
    fn settle(&mut self, next: u32)
        requires { AreAlike self.old }
        ensures { self.new ≡ steps.committed_by next self.old }
    {
        self.committed.set_to(&self.live);
        self.next = next;
        drop_all(&mut self.records);
    }

    // The next event commits.
    #[tactic(auto, unfolding(crate::specs::Walked::commit_walked))]
    fn commit(&mut self, around: &Around, next: u32) -> Result<(), Stop>
        requires { AreStores around.now.core.now self.old }
        ensures { Gives (steps.commit_walked next self.old) result self.new }
    {
        self.take_commit(next)?;
        self.settle(next);
        Ok(())
    }

    // An attempt of a task.
    #[tactic(auto, unfolding(crate::specs::Walked::attempt_walked))]
    fn attempt(&mut self, alloc: Global, around: &Around) -> Result<(), Stop>
        requires { AreStores around.now.core.now self.old }
        ensures { Gives (steps.attempt_walked around.now self.old) result self.new }
    {
        self.begin(around)?;
        self.body(alloc, around, around.task.body.as_slice())?;
        let next = self.exit(around)?;
        self.commit(around, next)
    }

    // An attempt of the next task; the walk stops where there is none.
    fn attempt_next(&mut self, alloc: Global, tasks: &[Around]) -> Result<(), Stop>
        requires { AreStoresOf tasks.now self.old }
        ensures { Gives (boots.attempt_if_there (boots.task_at tasks.now self.old.next) self.old) result self.new }
    {
        match task_of(tasks, self.next) {
            Some(around) => self.attempt(alloc, around),
            None => Err(Stop::Parted),
        }
    }

    /// At most so many attempts, one after another, until the walk stops.
    pub fn attempts(&mut self, alloc: Global, tasks: &[Around], attempts: usize) -> Result<(), Stop>
        requires { AreStoresOf tasks.now self.old }
        ensures { Gives (boots.attempts_walked tasks.now attempts self.old) result self.new }
    {
        'attempts: for _done in 0..attempts {
            self.attempt_next(alloc, tasks)?;
        }
        Err(Stop::Parted)
    }
}
