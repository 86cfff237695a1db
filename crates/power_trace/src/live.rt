//! A machine on its way, with what is outside it and the number of its steps.
ghost use Rattle.std.specs.Prelude.{◌≡◌, ◌+◌, ◌<◌, ◌≤◌, IfOk, OnOk};
ghost use Rattle.power_trace.specs.Live.{state_of, program_in_live};
ghost use Rattle.word_machine.specs.Events.{stepped_next};
ghost use Rattle.word_machine.specs.Runs.{fail_behind};
ghost use Rattle.word_machine.specs.Step.{step};
ghost use Rattle.word_machine.specs.declared.ending.Ending.TheVariants as ending;

use devices::{Outside, PowerRow};
use word_machine::{Machine, Stepped};

/// A machine, what is outside it, and how many steps are done.
#[derive(Drop)]
pub struct Live {
    pub machine: Machine,
    pub outside: Outside,
    pub steps: u32,
}

impl Live {
    /// Does one step, and counts it.
    pub fn step(&mut self) -> Stepped
        requires clock { self.old.outside.clock < 4294967295 }
        requires steps { self.old.steps < 4194304 }
        ensures state { state_of self.new ≡ step (program_in_live self.old) (state_of self.old) }
        ensures answer { result ≡ stepped_next (program_in_live self.old) (state_of self.old) }
        ensures program { program_in_live self.new ≡ program_in_live self.old }
        ensures steps { self.new.steps ≡ self.old.steps + 1 }
    {
        let told = self.machine.step(&mut self.outside);
        self.steps += 1;
        told
    }

    /// The power failure behind a row.
    pub fn fail(&mut self, row: PowerRow)
        requires running { (state_of self.old).ending ≡ ending.Running }
        requires clock { self.old.outside.clock + row.off ≤ 4294967295 }
        ensures state { state_of self.new ≡ fail_behind row (state_of self.old) }
        ensures program { program_in_live self.new ≡ program_in_live self.old }
        ensures steps { self.new.steps ≡ self.old.steps }
    {
        self.machine.fail(row.fill);
        self.outside.clock.off(row.off);
    }
}
