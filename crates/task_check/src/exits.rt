//! Exits: the faults of their names and conditions in text order.
ghost use Rattle.std.specs.Prelude.{◌≡◌};
ghost use Rattle.task_check.specs.Finds.{Finds};
ghost use Rattle.task_check.specs.Faults.{exit_faults};
ghost use Rattle.task_check.specs.Table.{meanings};

use crate::error::CheckError;
use crate::expressions::check_expr;
use crate::names::Names;
use crate::uses;
use task_ast::Exit;

/// That an exit has no fault.
pub fn check_exit(names: &Names, e: &Exit) -> Result<(), CheckError>
    ensures { Finds (exit_faults (meanings names.now) e.now) (λ _. Unit {0}) result }
{
    match e {
        Exit::Next(x) => uses::task(x.at, names.find(x.text.as_slice())),
        Exit::Stop => Ok(()),
        Exit::Choose(c, left, right) => {
            check_expr(names, c)?;
            check_exit(names, left.get())?;
            check_exit(names, right.get())
        }
    }
}
