//! Statements and expressions again, for a plan of its own.
ghost use Rattle.std.specs.Prelude.{◌≡◌, IfOk};

use ease_base::{Boxed, List, NoMemory};
use std::alloc::Global;
use task_ast::{CoreEnd, CoreExpr, CoreStmt, CoreTarget};

/// The same expression.
pub fn copy_expr(alloc: Global, e: &CoreExpr) -> Result<CoreExpr, NoMemory>
    ensures { IfOk result (λ copy. copy ≡ e.now) }
{
    match e {
        CoreExpr::Number(word) => Ok(CoreExpr::Number(*word)),
        CoreExpr::Cell(array, index) => {
            let index = copy_expr(alloc, index.get())?;
            Ok(CoreExpr::Cell(*array, Boxed::new(alloc, index)?))
        }
        CoreExpr::Through(pointer, index) => {
            let index = copy_expr(alloc, index.get())?;
            Ok(CoreExpr::Through(*pointer, Boxed::new(alloc, index)?))
        }
        CoreExpr::One(op, e) => {
            let e = copy_expr(alloc, e.get())?;
            Ok(CoreExpr::One(*op, Boxed::new(alloc, e)?))
        }
        CoreExpr::Two(op, left, right) => {
            let left = copy_expr(alloc, left.get())?;
            let right = copy_expr(alloc, right.get())?;
            Ok(CoreExpr::Two(*op, Boxed::new(alloc, left)?, Boxed::new(alloc, right)?))
        }
    }
}

// The same expressions.
fn copy_exprs(alloc: Global, exprs: &[CoreExpr]) -> Result<List<CoreExpr>, NoMemory>
    ensures { IfOk result (λ copy. copy ≡ exprs.now) }
{
    let mut copy = List::new(alloc);
    'exprs: for e in exprs {
        copy.push(copy_expr(alloc, e)?)?;
    }
    Ok(copy)
}

// The same target.
fn copy_target(alloc: Global, target: &CoreTarget) -> Result<CoreTarget, NoMemory>
    ensures { IfOk result (λ copy. copy ≡ target.now) }
{
    match target {
        CoreTarget::Cell(array, index) => Ok(CoreTarget::Cell(*array, copy_expr(alloc, index)?)),
        CoreTarget::Through(pointer, index) => {
            Ok(CoreTarget::Through(*pointer, copy_expr(alloc, index)?))
        }
    }
}

// The same target of a reading, if there is one.
fn copy_reading(alloc: Global, target: &Option<CoreTarget>) -> Result<Option<CoreTarget>, NoMemory>
    ensures { IfOk result (λ copy. copy ≡ target.now) }
{
    match target {
        None => Ok(None),
        Some(target) => Ok(Some(copy_target(alloc, target)?)),
    }
}

// The same end of a copy.
fn copy_end(alloc: Global, end: &CoreEnd) -> Result<CoreEnd, NoMemory>
    ensures { IfOk result (λ copy. copy ≡ end.now) }
{
    match end {
        CoreEnd::Cell(array, index) => Ok(CoreEnd::Cell(*array, copy_expr(alloc, index)?)),
        CoreEnd::Pointer(pointer) => Ok(CoreEnd::Pointer(*pointer)),
    }
}

/// The same statement.
#[cycle(copy_stmts)]
pub fn copy_stmt(alloc: Global, s: &CoreStmt) -> Result<CoreStmt, NoMemory>
    ensures { IfOk result (λ copy. copy ≡ s.now) }
{
    match s {
        CoreStmt::Assign(target, e) => {
            let target = copy_target(alloc, target)?;
            Ok(CoreStmt::Assign(target, copy_expr(alloc, e)?))
        }
        CoreStmt::Point(pointer, array, index) => {
            Ok(CoreStmt::Point(*pointer, *array, copy_expr(alloc, index)?))
        }
        CoreStmt::If(c, yes_part, no_part) => {
            let c = copy_expr(alloc, c)?;
            let yes_part = copy_body(alloc, yes_part.as_slice())?;
            let no_part = copy_body(alloc, no_part.as_slice())?;
            Ok(CoreStmt::If(c, yes_part, no_part))
        }
        CoreStmt::Loop(variable, turns, body) => {
            let body = copy_body(alloc, body.as_slice())?;
            Ok(CoreStmt::Loop(*variable, *turns, body))
        }
        CoreStmt::Io(site, target, peripheral, args) => {
            let target = copy_reading(alloc, target)?;
            let args = copy_exprs(alloc, args.as_slice())?;
            Ok(CoreStmt::Io(*site, target, *peripheral, args))
        }
        CoreStmt::Block(site, body) => {
            let body = copy_body(alloc, body.as_slice())?;
            Ok(CoreStmt::Block(*site, body))
        }
        CoreStmt::Copy(site, to, from, words) => {
            let to = copy_end(alloc, to)?;
            let from = copy_end(alloc, from)?;
            Ok(CoreStmt::Copy(*site, to, from, copy_expr(alloc, words)?))
        }
    }
}

// The same statements.
#[cycle(copy_stmts)]
fn copy_body(alloc: Global, body: &[CoreStmt]) -> Result<List<CoreStmt>, NoMemory>
    ensures { IfOk result (λ copy. copy ≡ body.now) }
{
    let mut copy = List::new(alloc);
    'statements: for s in body {
        copy.push(copy_stmt(alloc, s)?)?;
    }
    Ok(copy)
}
