//! Statements and bodies: their faults in text order.
ghost use Rattle.std.specs.Prelude.{◌≡◌, ◌∷◌, ◌++◌, ◌+◌, IfOk, length, if◌then◌else◌};
ghost use Rattle.std.specs.List.{flat_map};
ghost use Rattle.task_check.specs.Faults.{body_faults, destination_faults, expr_faults, head_faults, peripheral_faults, place_faults, reading_faults, stmt_faults};
ghost use Rattle.task_check.specs.Finds.{Finds};
ghost use Rattle.task_check.specs.Names.{array_number};
ghost use Rattle.task_check.specs.Refusals.{copy_under_if, too_many_arguments};
ghost use Rattle.task_check.specs.Table.{around_of};

use crate::around::Surroundings;
use crate::error::CheckError;
use crate::expressions::{check_expr, check_exprs};
use crate::limits::{loops_fit, turns_fit};
use crate::places::{check_destination, check_place, check_reading, check_target};
use crate::sites::body_has_sites;
use crate::uses;
use ease_base::{List, NoMemory, Pos, Words};
use std::alloc::Global;
use task_ast::limits::MOST_ARGUMENTS;
use task_ast::{Expr, Name, Place, Stmt, Target};

/// An assignment.
fn check_assignment(around: &Surroundings, x: &Target, value: &Expr) -> Result<(), CheckError>
    ensures { Finds (stmt_faults (around_of around.now) (Stmt.Assign x.now value.now)) (λ _. Unit {0}) result }
{
    check_target(around, x)?;
    check_expr(around.names, value)
}

/// An address that is given to a pointer.
fn check_point(around: &Surroundings, p: &Name, to: &Place) -> Result<(), CheckError>
    ensures { Finds (stmt_faults (around_of around.now) (Stmt.Point p.now to.now)) (λ _. Unit {0}) result }
{
    uses::pointer(p.at, around.names.find(p.text.as_slice()))?;
    check_place(around.names, to)
}

/// That a call hasn't too many arguments; the word `IO` stands at the place.
fn few_arguments(word: Pos, count: usize) -> Result<(), CheckError>
    ensures { Finds (too_many_arguments word count) (λ _. Unit {0}) result }
{
    if count > MOST_ARGUMENTS {
        return Err(CheckError::TooMany(word));
    }
    Ok(())
}

/// A call, with the word `IO` at the place.
fn check_call(
    around: &Surroundings,
    x: &Option<Target>,
    p: &Name,
    args: &[Expr],
    word: Pos,
) -> Result<(), CheckError>
    ensures { Finds (reading_faults (around_of around.now) x.now ++ too_many_arguments word (length args.now)
        ++ peripheral_faults (around_of around.now).names p.now ++ flat_map (expr_faults (around_of around.now).names) args.now) (λ _. Unit {0}) result }
{
    check_reading(around, x)?;
    few_arguments(word, args.len())?;
    uses::peripheral(p.at, around.names.find(p.text.as_slice()))?;
    check_exprs(around.names, args)
}

/// That no `if` is around a copy, with the word `DMA` at the place.
fn no_branch(branched: bool, word: Pos) -> Result<(), CheckError>
    ensures { Finds (copy_under_if branched word) (λ _. Unit {0}) result }
{
    if branched {
        return Err(CheckError::DmaUnderIf(word));
    }
    Ok(())
}

/// A copy, with the word `DMA` at the place.
fn check_copy(
    around: &Surroundings,
    to: &Place,
    from: &Place,
    length: &Expr,
    word: Pos,
) -> Result<(), CheckError>
    ensures { Finds (copy_under_if around.now.branched word ++ destination_faults (around_of around.now) to.now
        ++ place_faults (around_of around.now).names from.now ++ expr_faults (around_of around.now).names length.now) (λ _. Unit {0}) result }
{
    no_branch(around.branched, word)?;
    check_destination(around, to)?;
    check_place(around.names, from)?;
    check_expr(around.names, length)
}

/// A variable before those of the loops around it.
fn barred_with(alloc: Global, variable: u32, barred: &[u32]) -> Result<Words, NoMemory>
    ensures { IfOk result (λ ws. ws ≡ variable ∷ barred.now) }
{
    let mut variables = List::new(alloc);
    variables.push(variable)?;
    variables.extend(barred)?;
    Ok(variables)
}

/// The body of a loop: the variables of the loops around it, and how many pure loops these are.
#[derive(Drop)]
struct Inside {
    barred: Words,
    level: u32,
}

/// The head of a loop, by its variable and the number of its turns; the number and the word `for` stand at the places.
fn check_head(
    alloc: Global,
    around: &Surroundings,
    unrolled: bool,
    i: &Name,
    turns: u32,
    at: Pos,
    word: Pos,
) -> Result<Inside, CheckError>
    ensures { Finds (head_faults (around_of around.now) unrolled i.now turns at word)
        (λ x. (x.barred ≡ array_number ((around_of around.now).names i.now.text) ∷ around.now.barred.now)
        × (x.level ≡ (if unrolled then around.now.level else around.now.level + 1))) result }
{
    let level = loops_fit(unrolled, word, around.level)?;
    let variable = uses::variable(around, i.at, around.names.find(i.text.as_slice()))?;
    turns_fit(unrolled, at, turns)?;
    let barred = barred_with(alloc, variable, around.barred)?;
    Ok(Inside { barred, level })
}

/// That a statement has no fault.
#[cycle(check_stmts)]
fn check_stmt(alloc: Global, around: &Surroundings, s: &Stmt) -> Result<(), CheckError>
    ensures { Finds (stmt_faults (around_of around.now) s.now) (λ _. Unit {0}) result }
{
    match s {
        Stmt::Assign(x, value) => check_assignment(around, x, value),
        Stmt::Point(p, to) => check_point(around, p, to),
        Stmt::If(c, yes_part, no_part) => {
            check_expr(around.names, c)?;
            let inside = Surroundings {
                branched: true,
                ..*around
            };
            check_body(alloc, &inside, yes_part.as_slice())?;
            check_body(alloc, &inside, no_part.as_slice())
        }
        Stmt::For(i, turns, at, body, word) => {
            let unrolled = body_has_sites(body.as_slice());
            let inside = check_head(alloc, around, unrolled, i, *turns, *at, *word)?;
            let within = Surroundings {
                barred: inside.barred.as_slice(),
                level: inside.level,
                ..*around
            };
            check_body(alloc, &within, body.as_slice())
        }
        Stmt::Io(x, p, _, args, word) => check_call(around, x, p, args.as_slice(), *word),
        Stmt::Block(_, body, _) => check_body(alloc, around, body.as_slice()),
        Stmt::Dma(to, from, length, word) => check_copy(around, to, from, length, *word),
    }
}

/// That the statements of a body have no fault.
#[cycle(check_stmts)]
pub fn check_body(alloc: Global, around: &Surroundings, body: &[Stmt]) -> Result<(), CheckError>
    ensures { Finds (body_faults (around_of around.now) body.now) (λ _. Unit {0}) result }
{
    for s in body {
        check_stmt(alloc, around, s)?;
    }
    Ok(())
}
