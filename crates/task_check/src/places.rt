//! Targets, copies' ends and addresses: the faults of their names and then of their indexes.
ghost use Rattle.std.specs.Prelude.{◌≡◌, ◌++◌};
ghost use Rattle.task_check.specs.CheckedForm.{place_name};
ghost use Rattle.task_check.specs.Finds.{Finds};
ghost use Rattle.task_check.specs.Faults.{destination_faults, place_faults, place_index_faults, place_name_faults, reading_faults, target_faults};
ghost use Rattle.task_check.specs.Table.{around_of, meanings};

use crate::around::Surroundings;
use crate::error::CheckError;
use crate::expressions::check_expr;
use crate::names::Names;
use crate::uses;
use task_ast::{Name, Place, Target};

/// That a target may be assigned.
pub fn check_target(around: &Surroundings, x: &Target) -> Result<(), CheckError>
    ensures { Finds (target_faults (around_of around.now) x.now) (λ _. Unit {0}) result }
{
    match x {
        Target::Scalar(x) => {
            let meaning = around.names.find(x.text.as_slice());
            uses::scalar(x.at, meaning)?;
            uses::writable(around, x.at, meaning)
        }
        Target::Element(x, index) => {
            let meaning = around.names.find(x.text.as_slice());
            uses::array_or_pointer(x.at, meaning)?;
            uses::writable(around, x.at, meaning)?;
            check_expr(around.names, index)
        }
    }
}

/// That a reading's target, if there is one, may be assigned.
pub fn check_reading(around: &Surroundings, x: &Option<Target>) -> Result<(), CheckError>
    ensures { Finds (reading_faults (around_of around.now) x.now) (λ _. Unit {0}) result }
{
    match x {
        None => Ok(()),
        Some(x) => check_target(around, x),
    }
}

/// The name of a copy's end, or of what a pointer is set to.
pub fn name_of(place: &Place) -> &Name
    ensures { result.now ≡ place_name place.now }
{
    match place {
        Place::Bare(x) | Place::Scalar(x) | Place::Element(x, _) => x,
    }
}

/// That the name of a place stands for what its form needs.
fn check_name(names: &Names, place: &Place) -> Result<(), CheckError>
    ensures { Finds (place_name_faults (meanings names.now) place.now) (λ _. Unit {0}) result }
{
    match place {
        Place::Bare(x) => uses::array_or_pointer(x.at, names.find(x.text.as_slice())),
        Place::Scalar(x) => uses::scalar(x.at, names.find(x.text.as_slice())),
        Place::Element(x, _) => uses::array(x.at, names.find(x.text.as_slice())),
    }
}

/// That the index of a place, if it has one, has no fault.
fn check_index(names: &Names, place: &Place) -> Result<(), CheckError>
    ensures { Finds (place_index_faults (meanings names.now) place.now) (λ _. Unit {0}) result }
{
    match place {
        Place::Bare(_) | Place::Scalar(_) => Ok(()),
        Place::Element(_, index) => check_expr(names, index),
    }
}

/// That a copy's source, or what a pointer is set to, has no fault.
pub fn check_place(names: &Names, place: &Place) -> Result<(), CheckError>
    ensures { Finds (place_faults (meanings names.now) place.now) (λ _. Unit {0}) result }
{
    check_name(names, place)?;
    check_index(names, place)
}

/// That a copy's destination has no fault and may be written.
pub fn check_destination(around: &Surroundings, place: &Place) -> Result<(), CheckError>
    ensures { Finds (destination_faults (around_of around.now) place.now) (λ _. Unit {0}) result }
{
    check_name(around.names, place)?;
    let x = name_of(place);
    uses::no_constant(around, x.at, around.names.find(x.text.as_slice()))?;
    check_index(around.names, place)
}
