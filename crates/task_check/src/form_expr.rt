//! The checked form of expressions, targets, places and exits, whatever their names stand for.
ghost use Rattle.std.specs.Prelude.{◌≡◌, IfOk, map};
ghost use Rattle.std.specs.Option.{option_map};
ghost use Rattle.task_check.specs.CheckedForm.{core_exit, core_expr, end_of, indexed, place_index, target_of};
ghost use Rattle.task_check.specs.Table.{meanings};

use crate::names::{Names, array_number, pointer_of, task_number};
use ease_base::{Boxed, List, NoMemory};
use std::alloc::Global;
use task_ast::{CoreEnd, CoreExit, CoreExpr, CoreTarget, Exit, Expr, Op1, Op2, Place, Target};

fn cell(alloc: Global, array: u32, index: CoreExpr) -> Result<CoreExpr, NoMemory>
    ensures { IfOk result (λ c. c ≡ CoreExpr.Cell array index) }
{
    Ok(CoreExpr::Cell(array, Boxed::new(alloc, index)?))
}

/// An index through a pointer, if there is one, else into an array.
fn element(
    alloc: Global,
    pointer: Option<u32>,
    array: u32,
    index: CoreExpr,
) -> Result<CoreExpr, NoMemory>
    ensures { IfOk result (λ c. c ≡ indexed pointer array index) }
{
    match pointer {
        None => cell(alloc, array, index),
        Some(pointer) => Ok(CoreExpr::Through(pointer, Boxed::new(alloc, index)?)),
    }
}

fn one(alloc: Global, op: Op1, inner: CoreExpr) -> Result<CoreExpr, NoMemory>
    ensures { IfOk result (λ c. c ≡ CoreExpr.One op inner) }
{
    Ok(CoreExpr::One(op, Boxed::new(alloc, inner)?))
}

fn two(alloc: Global, op: Op2, left: CoreExpr, right: CoreExpr) -> Result<CoreExpr, NoMemory>
    ensures { IfOk result (λ c. c ≡ CoreExpr.Two op left right) }
{
    let left = Boxed::new(alloc, left)?;
    let right = Boxed::new(alloc, right)?;
    Ok(CoreExpr::Two(op, left, right))
}

/// The checked form of an expression.
pub fn form_expr(alloc: Global, names: &Names, e: &Expr) -> Result<CoreExpr, NoMemory>
    ensures { IfOk result (λ c. c ≡ core_expr (meanings names.now) e.now) }
{
    match e {
        Expr::Number(n, _) => Ok(CoreExpr::Number(*n)),
        Expr::Read(x) => {
            let array = array_number(names.find(x.text.as_slice()));
            cell(alloc, array, CoreExpr::Number(0))
        }
        Expr::Index(x, index) => {
            let meaning = names.find(x.text.as_slice());
            let index = form_expr(alloc, names, index.get())?;
            element(alloc, pointer_of(meaning), array_number(meaning), index)
        }
        Expr::Paren(inner) => form_expr(alloc, names, inner.get()),
        Expr::One(op, inner) => {
            let inner = form_expr(alloc, names, inner.get())?;
            one(alloc, *op, inner)
        }
        Expr::Two(op, left, right) => {
            let left = form_expr(alloc, names, left.get())?;
            let right = form_expr(alloc, names, right.get())?;
            two(alloc, *op, left, right)
        }
    }
}

/// The checked forms of expressions.
pub fn form_exprs(alloc: Global, names: &Names, es: &[Expr]) -> Result<List<CoreExpr>, NoMemory>
    ensures { IfOk result (λ cs. cs ≡ map (core_expr (meanings names.now)) es.now) }
{
    let mut forms = List::new(alloc);
    for e in es {
        forms.push(form_expr(alloc, names, e)?)?;
    }
    Ok(forms)
}

/// The checked form of a target.
pub fn form_target(alloc: Global, names: &Names, x: &Target) -> Result<CoreTarget, NoMemory>
    ensures { IfOk result (λ t. t ≡ target_of (meanings names.now) x.now) }
{
    match x {
        Target::Scalar(x) => {
            let array = array_number(names.find(x.text.as_slice()));
            Ok(CoreTarget::Cell(array, CoreExpr::Number(0)))
        }
        Target::Element(x, index) => {
            let meaning = names.find(x.text.as_slice());
            let index = form_expr(alloc, names, index)?;
            match pointer_of(meaning) {
                None => Ok(CoreTarget::Cell(array_number(meaning), index)),
                Some(pointer) => Ok(CoreTarget::Through(pointer, index)),
            }
        }
    }
}

/// The checked form of a reading's target, if it has one.
pub fn form_reading(
    alloc: Global,
    names: &Names,
    x: &Option<Target>,
) -> Result<Option<CoreTarget>, NoMemory>
    ensures { IfOk result (λ t. t ≡ option_map (target_of (meanings names.now)) x.now) }
{
    match x {
        None => Ok(None),
        Some(x) => Ok(Some(form_target(alloc, names, x)?)),
    }
}

/// The index of a place: the number 0 where none is written.
pub fn form_index(alloc: Global, names: &Names, place: &Place) -> Result<CoreExpr, NoMemory>
    ensures { IfOk result (λ i. i ≡ place_index (meanings names.now) place.now) }
{
    match place {
        Place::Bare(_) | Place::Scalar(_) => Ok(CoreExpr::Number(0)),
        Place::Element(_, index) => form_expr(alloc, names, index),
    }
}

/// The checked form of a copy's end.
pub fn form_end(alloc: Global, names: &Names, place: &Place) -> Result<CoreEnd, NoMemory>
    ensures { IfOk result (λ e. e ≡ end_of (meanings names.now) place.now) }
{
    match place {
        Place::Bare(x) => {
            let meaning = names.find(x.text.as_slice());
            match pointer_of(meaning) {
                None => Ok(CoreEnd::Cell(array_number(meaning), CoreExpr::Number(0))),
                Some(pointer) => Ok(CoreEnd::Pointer(pointer)),
            }
        }
        Place::Scalar(x) => {
            let array = array_number(names.find(x.text.as_slice()));
            Ok(CoreEnd::Cell(array, CoreExpr::Number(0)))
        }
        Place::Element(x, index) => {
            let array = array_number(names.find(x.text.as_slice()));
            Ok(CoreEnd::Cell(array, form_expr(alloc, names, index)?))
        }
    }
}

fn choose(alloc: Global, c: CoreExpr, left: CoreExit, right: CoreExit) -> Result<CoreExit, NoMemory>
    ensures { IfOk result (λ e. e ≡ CoreExit.Choose c left right) }
{
    let left = Boxed::new(alloc, left)?;
    let right = Boxed::new(alloc, right)?;
    Ok(CoreExit::Choose(c, left, right))
}

/// The checked form of an exit.
pub fn form_exit(alloc: Global, names: &Names, e: &Exit) -> Result<CoreExit, NoMemory>
    ensures { IfOk result (λ c. c ≡ core_exit (meanings names.now) e.now) }
{
    match e {
        Exit::Next(x) => Ok(CoreExit::Next(task_number(names.find(x.text.as_slice())))),
        Exit::Stop => Ok(CoreExit::Stop),
        Exit::Choose(c, left, right) => {
            let c = form_expr(alloc, names, c)?;
            let left = form_exit(alloc, names, left.get())?;
            let right = form_exit(alloc, names, right.get())?;
            choose(alloc, c, left, right)
        }
    }
}
