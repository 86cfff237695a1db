//! How often a run shows what a summary counts.
ghost use Rattle.std.specs.Prelude.{◌≡◌, ◌+◌, ◌<◌, ℕ};
ghost use Rattle.soak_run.specs.Counts as spec;
ghost use Rattle.soak_run.specs.Steps.{AreWithin, with_shown, with_told};

use devices::Event;
use word_machine::Stepped;

/// How many boots, commits, issues, readings that were kept, and copies a run has.
#[derive(Clone, Copy, Debug, PartialEq, Eq)]
pub struct Counts {
    pub boots: u64,
    pub commits: u64,
    pub issued: u64,
    pub kept: u64,
    pub copies: u64,
}

impl Counts {
    /// Nothing yet.
    pub fn nothing() -> Counts
        ensures { result ≡ spec.nothing }
    {
        Counts {
            boots: 0,
            commits: 0,
            issued: 0,
            kept: 0,
            copies: 0,
        }
    }

    /// Counts a boot.
    pub fn boot(&mut self)
        requires { self.old.boots < 18446744073709551615 }
        ensures { self.new ≡ spec.with_boot self.old }
    {
        self.boots += 1;
    }

    /// Counts what a step answers.
    pub fn tell(&mut self, told: Stepped)
        requires { AreWithin 4194304 self.old }
        ensures { self.new ≡ with_told told self.old }
    {
        match told {
            Stepped::Ran(Some(event)) => self.show(event),
            Stepped::Ran(None) | Stepped::Halted | Stepped::Trapped(_) => {}
        }
    }

    // Counts an event.
    fn show(&mut self, event: Event)
        requires { AreWithin 4194304 self.old }
        ensures { self.new ≡ with_shown event self.old }
    {
        match event {
            Event::Begin(_) | Event::Look(_, _) | Event::Dropped(_) | Event::Sealed(_) => {}
            Event::Kept(_, _) => self.kept += 1,
            Event::Issued(_, _, _, _) => self.issued += 1,
            Event::Copied(_, _, _, _) => self.copies += 1,
            Event::Commit(_) => self.commits += 1,
        }
    }
}
