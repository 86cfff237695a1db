//! The run of a task: its statements with the readings that are left, then its exit.
ghost use Rattle.std.specs.Prelude.{◌≡◌, IfOk};
ghost use Rattle.task_ast.specs.WellFormed.{IsWellFormed};
ghost use Rattle.walk_run.specs.Exits.{next_of};
ghost use Rattle.walk_run.specs.Outcome.{outcome_of, statement_outcome, body_outcome, task_outcome};
ghost use Rattle.walk_run.specs.Store.{Fits};

use crate::calls::call;
use crate::live::Live;
use crate::readings::Readings;
use crate::trap::Trap;
use crate::walked::EarlyEnd;
use task_ast::{Core, CoreExit, CoreStmt, CoreTask};

/// Runs a task, which begins with volatile arrays as declared and pointers at nothing. Gives the next task, 0 for
/// `STOP`.
pub fn run_task(
    c: &Core,
    task: &CoreTask,
    live: &mut Live,
    readings: &mut Readings,
) -> Result<u32, EarlyEnd>
    requires { Fits c.now live.old }
    ensures { outcome_of result live.new readings.new ≡ task_outcome c.now task.now live.old readings.old }
{
    live.begin(c);
    run_body(task.body.as_slice(), live, readings)?;
    let next = next_task(&task.exit, live)?;
    Ok(next)
}

#[cycle(statements)]
fn run_body(body: &[CoreStmt], live: &mut Live, readings: &mut Readings) -> Result<(), EarlyEnd>
    ensures { outcome_of result live.new readings.new ≡ body_outcome body.now live.old readings.old }
{
    'statements: for statement in body {
        run_statement(statement, live, readings)?;
    }
    Ok(())
}

#[cycle(statements)]
fn run_statement(s: &CoreStmt, live: &mut Live, readings: &mut Readings) -> Result<(), EarlyEnd>
    ensures { outcome_of result live.new readings.new ≡ statement_outcome s.now live.old readings.old }
{
    match s {
        CoreStmt::Assign(_, _) | CoreStmt::Point(_, _, _) | CoreStmt::Loop(_, _, _) => {
            live.plain(s)?;
            Ok(())
        }
        CoreStmt::If(condition, yes_part, no_part) => {
            let word = live.value(condition)?;
            if word != 0 {
                run_body(yes_part.as_slice(), live, readings)
            } else {
                run_body(no_part.as_slice(), live, readings)
            }
        }
        CoreStmt::Io(_, target, _, args) => call(target, args.as_slice(), live, readings),
        CoreStmt::Block(_, body) => run_body(body.as_slice(), live, readings),
        CoreStmt::Copy(_, to, from, words) => {
            live.copy(to, from, words)?;
            Ok(())
        }
    }
}

// The task to which an exit leads, 0 for `STOP`.
fn next_task(exit: &CoreExit, live: &Live) -> Result<u32, Trap>
    ensures { result ≡ next_of exit.now live.now }
{
    match exit {
        CoreExit::Next(task) => Ok(*task),
        CoreExit::Stop => Ok(0),
        CoreExit::Choose(condition, yes_part, no_part) => {
            if live.value(condition)? != 0 {
                next_task(yes_part.get(), live)
            } else {
                next_task(no_part.get(), live)
            }
        }
    }
}
