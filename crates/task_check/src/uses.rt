//! The rules on names that are used: what a name stands for must be what its use needs.
ghost use Rattle.std.specs.Prelude.{◌≡◌, ◌++◌};
ghost use Rattle.std.specs.List.{list_any};
ghost use Rattle.task_ast.specs.WellFormed.{is_turning};
ghost use Rattle.task_check.specs.Finds.{Finds};
ghost use Rattle.task_check.specs.Names.{array_number};
ghost use Rattle.task_check.specs.Reach.{is_const};
ghost use Rattle.task_check.specs.Refusals.{const_written, not_array, not_array_or_pointer, not_peripheral, not_pointer, not_scalar, not_task, not_variable, unknown_name, variable_written};
ghost use Rattle.task_check.specs.Table.{around_of};

use crate::around::Surroundings;
use crate::error::CheckError;
use crate::names::Meaning;
use crate::points::is_among;
use ease_base::Pos;
use task_ast::{Array, Kind};

/// That a bare name stands for a scalar.
pub fn scalar(at: Pos, m: Option<Meaning>) -> Result<(), CheckError>
    ensures { Finds (unknown_name at m ++ not_scalar at m) (λ _. Unit {0}) result }
{
    match m {
        None => Err(CheckError::UnknownName(at)),
        Some(Meaning::Scalar(..)) => Ok(()),
        Some(
            Meaning::Array(..) | Meaning::Pointer(_) | Meaning::Peripheral(_) | Meaning::Task(_),
        ) => Err(CheckError::WrongKind(at)),
    }
}

/// That a name that is indexed behind `&` stands for an array.
pub fn array(at: Pos, m: Option<Meaning>) -> Result<(), CheckError>
    ensures { Finds (unknown_name at m ++ not_array at m) (λ _. Unit {0}) result }
{
    match m {
        None => Err(CheckError::UnknownName(at)),
        Some(Meaning::Array(..)) => Ok(()),
        Some(
            Meaning::Scalar(..) | Meaning::Pointer(_) | Meaning::Peripheral(_) | Meaning::Task(_),
        ) => Err(CheckError::WrongKind(at)),
    }
}

/// That an indexed name, or a copy's bare end, stands for an array or a pointer.
pub fn array_or_pointer(at: Pos, m: Option<Meaning>) -> Result<(), CheckError>
    ensures { Finds (unknown_name at m ++ not_array_or_pointer at m) (λ _. Unit {0}) result }
{
    match m {
        None => Err(CheckError::UnknownName(at)),
        Some(Meaning::Array(..) | Meaning::Pointer(_)) => Ok(()),
        Some(Meaning::Scalar(..) | Meaning::Peripheral(_) | Meaning::Task(_)) => {
            Err(CheckError::WrongKind(at))
        }
    }
}

/// That a name that is given an address stands for a pointer.
pub fn pointer(at: Pos, m: Option<Meaning>) -> Result<(), CheckError>
    ensures { Finds (unknown_name at m ++ not_pointer at m) (λ _. Unit {0}) result }
{
    match m {
        None => Err(CheckError::UnknownName(at)),
        Some(Meaning::Pointer(_)) => Ok(()),
        Some(
            Meaning::Scalar(..) | Meaning::Array(..) | Meaning::Peripheral(_) | Meaning::Task(_),
        ) => Err(CheckError::WrongKind(at)),
    }
}

/// That the name in a call stands for a peripheral.
pub fn peripheral(at: Pos, m: Option<Meaning>) -> Result<(), CheckError>
    ensures { Finds (unknown_name at m ++ not_peripheral at m) (λ _. Unit {0}) result }
{
    match m {
        None => Err(CheckError::UnknownName(at)),
        Some(Meaning::Peripheral(_)) => Ok(()),
        Some(Meaning::Scalar(..) | Meaning::Array(..) | Meaning::Pointer(_) | Meaning::Task(_)) =>
            Err(CheckError::WrongKind(at)),
    }
}

/// That a name after NEXT stands for a task.
pub fn task(at: Pos, m: Option<Meaning>) -> Result<(), CheckError>
    ensures { Finds (unknown_name at m ++ not_task at m) (λ _. Unit {0}) result }
{
    match m {
        None => Err(CheckError::UnknownName(at)),
        Some(Meaning::Task(_)) => Ok(()),
        Some(
            Meaning::Scalar(..) | Meaning::Array(..) | Meaning::Pointer(_) | Meaning::Peripheral(_),
        ) => Err(CheckError::WrongKind(at)),
    }
}

/// The number of a loop's variable, which stands for a volatile scalar.
fn volatile_scalar(at: Pos, m: Option<Meaning>) -> Result<u32, CheckError>
    ensures { Finds (unknown_name at m ++ not_variable at m) (λ a. a ≡ array_number m) result }
{
    match m {
        None => Err(CheckError::UnknownName(at)),
        Some(Meaning::Scalar(variable, Kind::Vol)) => Ok(variable),
        Some(
            Meaning::Scalar(_, Kind::Nv | Kind::Const)
            | Meaning::Array(..)
            | Meaning::Pointer(_)
            | Meaning::Peripheral(_)
            | Meaning::Task(_),
        ) => Err(CheckError::WrongKind(at)),
    }
}

/// Whether one of the variables is one of these arrays.
fn one_is_among(arrays: &[u32], variables: &[u32]) -> bool
    ensures { result ≡ list_any (is_turning arrays.now) variables.now }
{
    variables.iter().any(|variable| is_among(arrays, *variable))
}

/// Whether the array of this number is constant.
fn is_constant(arrays: &[Array], array: u32) -> bool
    ensures { result ≡ is_const arrays.now array }
{
    match arrays.get(array as usize) {
        None => false,
        Some(found) => match found.kind {
            Kind::Const => true,
            Kind::Nv | Kind::Vol => false,
        },
    }
}

/// Whether one of these arrays is constant.
fn one_is_constant(arrays: &[Array], numbers: &[u32]) -> bool
    ensures { result ≡ list_any (is_const arrays.now) numbers.now }
{
    numbers.iter().any(|array| is_constant(arrays, *array))
}

/// That what is written is no variable of a loop around, and may be none through a pointer.
fn no_variable(around: &Surroundings, at: Pos, m: Option<Meaning>) -> Result<(), CheckError>
    ensures { Finds (variable_written (around_of around.now).reach around.now.barred.now at m) (λ _. Unit {0}) result }
{
    let written = match m {
        Some(Meaning::Scalar(array, _) | Meaning::Array(array, _)) => {
            is_among(around.barred, array)
        }
        Some(Meaning::Pointer(p)) => one_is_among(around.points.arrays(p), around.barred),
        Some(Meaning::Peripheral(_) | Meaning::Task(_)) | None => false,
    };
    if written {
        return Err(CheckError::WrongKind(at));
    }
    Ok(())
}

/// That what is written isn't constant, and may not be through a pointer.
pub fn no_constant(around: &Surroundings, at: Pos, m: Option<Meaning>) -> Result<(), CheckError>
    ensures { Finds (const_written (around_of around.now).reach at m) (λ _. Unit {0}) result }
{
    let written = match m {
        Some(Meaning::Scalar(_, kind) | Meaning::Array(_, kind)) => match kind {
            Kind::Const => true,
            Kind::Nv | Kind::Vol => false,
        },
        Some(Meaning::Pointer(p)) => one_is_constant(around.arrays, around.points.arrays(p)),
        Some(Meaning::Peripheral(_) | Meaning::Task(_)) | None => false,
    };
    if written {
        return Err(CheckError::ConstWritten(at));
    }
    Ok(())
}

/// That what is assigned may be written.
pub fn writable(around: &Surroundings, at: Pos, m: Option<Meaning>) -> Result<(), CheckError>
    ensures { Finds (variable_written (around_of around.now).reach around.now.barred.now at m ++ const_written (around_of around.now).reach at m) (λ _. Unit {0}) result }
{
    no_variable(around, at, m)?;
    no_constant(around, at, m)
}

/// The number of a loop's variable, which may be one at its place.
pub fn variable(around: &Surroundings, at: Pos, m: Option<Meaning>) -> Result<u32, CheckError>
    ensures { Finds (unknown_name at m ++ not_variable at m ++ variable_written (around_of around.now).reach around.now.barred.now at m)
        (λ a. a ≡ array_number m) result }
{
    let variable = volatile_scalar(at, m)?;
    no_variable(around, at, m)?;
    Ok(variable)
}
