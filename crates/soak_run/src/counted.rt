//! The boots of a run: row by row, step by step, each event counted.
ghost use Rattle.std.specs.Prelude.{◌≡◌, ◌+◌, ◌≤◌, OnOk};
ghost use Rattle.devices.specs.World.{steps_of, ticks_of};
ghost use Rattle.power_trace.specs.Live.{state_of, program_in_live};
ghost use Rattle.power_trace.specs.Run.{end_in, end_told as end_of_answer};
ghost use Rattle.soak_run.specs.Ends.{last_state};
ghost use Rattle.soak_run.specs.Steps.{AreWithin, with_steps, with_rows};
ghost use Rattle.word_machine.specs.Runs.{end_of, last_ending};
ghost use Rattle.word_machine.specs.Step.{exec};
ghost use Rattle.word_machine.specs.declared.ending.Ending.TheVariants as ending;

use crate::counts::Counts;
use devices::{PowerRow, RunEnd};
use power_trace::Live;
use word_machine::Stepped;

/// Runs a machine on these power rows and counts what its boots show. It ends with the power, or where the machine halts or
/// traps.
pub fn count_rows(live: &mut Live, counts: &mut Counts, rows: &[PowerRow]) -> RunEnd
    requires running { (state_of live.old).ending ≡ ending.Running }
    requires clock { live.old.outside.clock + ticks_of rows.now ≤ 4294967295 }
    requires steps { live.old.steps + steps_of rows.now ≤ 4194304 }
    requires within { AreWithin live.old.steps counts.old }
    requires boots { counts.old.boots ≡ 0 }
    ensures counts { counts.new ≡ with_rows (program_in_live live.old) rows.now (state_of live.old) counts.old }
    ensures end { result ≡ end_of (last_ending (program_in_live live.old) rows.now (state_of live.old)) }
    ensures state { state_of live.new ≡ last_state (program_in_live live.old) rows.now (state_of live.old) }
{
    'boots: for row in rows {
        counts.boot();
        if let Some(end) = count_row(live, counts, row.on) {
            return end;
        }
        live.fail(*row);
    }
    RunEnd::Power
}

// Runs so many steps, or fewer where the machine ends, and counts their events. It gives the machine's end.
fn count_row(live: &mut Live, counts: &mut Counts, on: u32) -> Option<RunEnd>
    requires running { (state_of live.old).ending ≡ ending.Running }
    requires clock { live.old.outside.clock + on ≤ 4294967295 }
    requires steps { live.old.steps + on ≤ 4194304 }
    requires within { AreWithin live.old.steps counts.old }
    ensures counts { counts.new ≡ with_steps (program_in_live live.old) on (state_of live.old) counts.old }
    ensures state { state_of live.new ≡ exec (program_in_live live.old) on (state_of live.old) }
    ensures end { result ≡ end_in (exec (program_in_live live.old) on (state_of live.old)).ending }
    ensures program { program_in_live live.new ≡ program_in_live live.old }
    ensures steps { live.new.steps ≤ live.old.steps + on }
    ensures within { AreWithin live.new.steps counts.new }
    ensures boots { counts.new.boots ≡ counts.old.boots }
{
    'each_step: for _done in 0..on {
        let told = live.step();
        counts.tell(told);
        if let Some(end) = end_told(told) {
            return Some(end);
        }
    }
    None
}

// The end that a step's answer tells.
fn end_told(told: Stepped) -> Option<RunEnd>
    ensures { result ≡ end_of_answer told }
{
    match told {
        Stepped::Ran(_) => None,
        Stepped::Halted => Some(RunEnd::Halted),
        Stepped::Trapped(code) => Some(RunEnd::Trapped(code)),
    }
}
