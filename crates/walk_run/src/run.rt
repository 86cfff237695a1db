//! The loop over tasks.
ghost use Rattle.std.specs.Prelude.{◌≡◌, ◌≤◌, IfOk};
ghost use Rattle.task_ast.specs.WellFormed.{IsWellFormed};
ghost use Rattle.walk_run.specs.Walk.{end_of, walk_of};

use crate::live::Live;
use crate::readings::Readings;
use crate::task::run_task;
use crate::walked::{EarlyEnd, State, WalkEnd, Walked};
use ease_base::{List, NoMemory};
use std::alloc::Global;
use task_ast::Core;

/// The unbroken run of at most `tasks` tasks from the declared words, task 1 first. Each call takes the next of the
/// `readings`, and annotations don't count. The meaning of a program stands in docs/LANGUAGE.md.
pub fn walk(alloc: Global, c: &Core, readings: &[u32], tasks: u32) -> Result<Walked, NoMemory>
    requires few { tasks ≤ 1000 }
    requires well_formed { IsWellFormed c.now }
    ensures { IfOk result (λ w. w ≡ walk_of c.now readings.now tasks) }
{
    let mut live = Live::make(alloc, c)?;
    let mut readings = Readings::new(readings);
    let mut states = List::new(alloc);
    let mut next = 1;
    'tasks: for _ended in 0..tasks {
        let task = &c.tasks.as_slice()[next as usize - 1];
        next = match run_task(c, task, &mut live, &mut readings) {
            Ok(number) => number,
            Err(why) => return Ok(Walked {
                states,
                end: end_of(why),
            }),
        };
        let words = live.shown(alloc, c)?;
        states.push(State { next, words })?;
        if next == 0 {
            return Ok(Walked {
                states,
                end: WalkEnd::Stopped,
            });
        }
    }
    Ok(Walked {
        states,
        end: WalkEnd::Limit,
    })
}

// How a run ends that ends within a task.
fn end_of(why: EarlyEnd) -> WalkEnd
    ensures { result ≡ end_of why }
{
    match why {
        EarlyEnd::Trapped(trap) => WalkEnd::Trapped(trap),
        EarlyEnd::NoReading => WalkEnd::NoReading,
    }
}
