//! I/O calls: their arguments are valued, and then a reading is taken.
ghost use Rattle.std.specs.Prelude.{◌≡◌};
ghost use Rattle.walk_run.specs.Outcome.{ended, halted, outcome_of};
ghost use Rattle.walk_run.specs.Walk.{each_valued, with_reading, call_walk};

use crate::live::Live;
use crate::readings::Readings;
use crate::walked::EarlyEnd;
use task_ast::{CoreExpr, CoreTarget};

/// Does a call: its target is found, then its arguments are valued, then a reading is taken and written.
pub fn call(
    target: &Option<CoreTarget>,
    args: &[CoreExpr],
    live: &mut Live,
    readings: &mut Readings,
) -> Result<(), EarlyEnd>
    ensures { outcome_of result live.new readings.new ≡ call_walk halted target.now args.now (ended tt) live.old readings.old }
{
    match target {
        None => {
            take(args, live, readings)?;
            Ok(())
        }
        Some(target) => {
            let at = live.target(target)?;
            let word = take(args, live, readings)?;
            live.set(at.array, at.index, word);
            Ok(())
        }
    }
}

// Values the arguments from left to right, of which only the traps count, and takes the next reading.
fn take(args: &[CoreExpr], live: &Live, readings: &mut Readings) -> Result<u32, EarlyEnd>
    ensures { outcome_of result live.now readings.new ≡ each_valued halted args.now (with_reading halted ended) live.now readings.old }
{
    'arguments: for argument in args {
        live.value(argument)?;
    }
    match readings.take() {
        Some(word) => Ok(word),
        None => Err(EarlyEnd::NoReading),
    }
}
