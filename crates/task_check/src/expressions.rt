//! Expressions: the faults of their names, from left to right.
ghost use Rattle.std.specs.Prelude.{◌≡◌};
ghost use Rattle.std.specs.List.{flat_map};
ghost use Rattle.task_check.specs.Finds.{Finds};
ghost use Rattle.task_check.specs.Faults.{expr_faults};
ghost use Rattle.task_check.specs.Table.{meanings};

use crate::error::CheckError;
use crate::names::Names;
use crate::uses;
use task_ast::Expr;

/// That an expression has no fault.
pub fn check_expr(names: &Names, e: &Expr) -> Result<(), CheckError>
    ensures { Finds (expr_faults (meanings names.now) e.now) (λ _. Unit {0}) result }
{
    match e {
        Expr::Number(..) => Ok(()),
        Expr::Read(x) => uses::scalar(x.at, names.find(x.text.as_slice())),
        Expr::Index(x, index) => {
            uses::array_or_pointer(x.at, names.find(x.text.as_slice()))?;
            check_expr(names, index.get())
        }
        Expr::Paren(inner) => check_expr(names, inner.get()),
        Expr::One(_, inner) => check_expr(names, inner.get()),
        Expr::Two(_, left, right) => {
            check_expr(names, left.get())?;
            check_expr(names, right.get())
        }
    }
}

/// That expressions have no fault.
pub fn check_exprs(names: &Names, es: &[Expr]) -> Result<(), CheckError>
    ensures { Finds (flat_map (expr_faults (meanings names.now)) es.now) (λ _. Unit {0}) result }
{
    for e in es {
        check_expr(names, e)?;
    }
    Ok(())
}
