//! The addresses that are given to the pointers of a task, as far as its loops with sites have turns.
ghost use Rattle.std.specs.Prelude.{◌≡◌, ◌==◌, ◌&&◌, [], IfOk, OnOk};
ghost use Rattle.task_check.specs.CheckedForm.{core_body, core_stmts};
ghost use Rattle.task_check.specs.Sites.{body_has_sites as body_has};
ghost use Rattle.task_check.specs.Table.{held, meanings, with_addresses, with_given};

use crate::names::{Names, array_of, pointer_of};
use crate::places::name_of;
use crate::points::Points;
use crate::sites::body_has_sites;
use ease_base::NoMemory;
use std::alloc::Global;
use task_ast::Stmt;

/// Notes an address that is given, where there are a pointer and an array.
fn note(
    alloc: Global,
    pointer: Option<u32>,
    array: Option<u32>,
    points: &mut Points,
) -> Result<(), NoMemory>
    ensures { OnOk result (held points.new ≡ with_given (held points.old) pointer array) }
{
    match (pointer, array) {
        (Some(pointer), Some(array)) => points.add(alloc, pointer, array),
        (None, None | Some(_)) | (Some(_), None) => Ok(()),
    }
}

/// Whether a loop is unrolled to no turn at all.
fn never_turns(turns: u32, body: &[Stmt]) -> bool
    ensures { result ≡ ((turns == 0) && body_has body.now) }
{
    turns == 0 && body_has_sites(body)
}

/// Notes the addresses that a statement gives.
#[cycle(note_stmts)]
fn note_stmt(alloc: Global, names: &Names, s: &Stmt, points: &mut Points) -> Result<(), NoMemory>
    ensures { OnOk result (held points.new ≡ with_addresses (held points.old) (core_stmts (meanings names.now) s.now)) }
{
    match s {
        Stmt::Assign(..) | Stmt::Io(..) | Stmt::Dma(..) => Ok(()),
        Stmt::Point(p, to) => {
            let pointer = pointer_of(names.find(p.text.as_slice()));
            let array = array_of(names.find(name_of(to).text.as_slice()));
            note(alloc, pointer, array, points)
        }
        Stmt::If(_, yes_part, no_part) => {
            note_body(alloc, names, yes_part.as_slice(), points)?;
            note_body(alloc, names, no_part.as_slice(), points)
        }
        Stmt::For(_, turns, _, body, _) => {
            if never_turns(*turns, body.as_slice()) {
                return Ok(());
            }
            note_body(alloc, names, body.as_slice(), points)
        }
        Stmt::Block(_, body, _) => note_body(alloc, names, body.as_slice(), points),
    }
}

/// Notes the addresses that the statements of a body give.
#[cycle(note_stmts)]
fn note_body(
    alloc: Global,
    names: &Names,
    body: &[Stmt],
    points: &mut Points,
) -> Result<(), NoMemory>
    ensures { OnOk result (held points.new ≡ with_addresses (held points.old) (core_body (meanings names.now) body.now)) }
{
    for s in body {
        note_stmt(alloc, names, s, points)?;
    }
    Ok(())
}

/// What the pointers of a task may point to.
pub fn points_of(alloc: Global, names: &Names, body: &[Stmt]) -> Result<Points, NoMemory>
    ensures { IfOk result (λ points. held points ≡ with_addresses (held []) (core_body (meanings names.now) body.now)) }
{
    let mut points = Points::new(alloc);
    note_body(alloc, names, body, &mut points)?;
    Ok(points)
}
