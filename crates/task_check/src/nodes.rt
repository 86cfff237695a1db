//! The nodes of a program as it has them when its loops with sites are unrolled, worked out as products. A count stays at
//! 2 ^ 128 - 1 once it is there.
ghost use Rattle.std.specs.Prelude.{◌≡◌, ◌+◌, ◌*◌, sum_by};
ghost use Rattle.task_check.specs.Capped.{capped};
ghost use Rattle.task_check.specs.Nodes.{nodes_of_exit, nodes_of_expr, nodes_of_loop, nodes_of_place, nodes_of_reading, nodes_of_stmt, nodes_of_target, nodes_of_task};

use crate::sites::body_has_sites;
use task_ast::{Exit, Expr, Place, Stmt, Target, Task};

pub fn plus(a: u128, b: u128) -> u128
    ensures { result ≡ capped (a + b) }
{
    a.saturating_add(b)
}

pub fn times(a: u128, b: u128) -> u128
    ensures { result ≡ capped (a * b) }
{
    a.saturating_mul(b)
}

/// The nodes of an expression: each part counts 1, and parentheses count as their inside.
fn count_expr(e: &Expr) -> u128
    ensures { result ≡ capped (nodes_of_expr e.now) }
{
    match e {
        Expr::Number(..) | Expr::Read(_) => 1,
        Expr::Index(_, index) => plus(1, count_expr(index.get())),
        Expr::One(_, inner) => plus(1, count_expr(inner.get())),
        Expr::Paren(inner) => count_expr(inner.get()),
        Expr::Two(_, left, right) => {
            let left = plus(1, count_expr(left.get()));
            plus(left, count_expr(right.get()))
        }
    }
}

/// The nodes of expressions.
fn count_exprs(es: &[Expr]) -> u128
    ensures { result ≡ capped (sum_by nodes_of_expr es.now) }
{
    let mut total = 0;
    for e in es {
        total = plus(total, count_expr(e));
    }
    total
}

/// The nodes of a target: it counts 1, and an element's index besides.
fn count_target(x: &Target) -> u128
    ensures { result ≡ capped (nodes_of_target x.now) }
{
    match x {
        Target::Scalar(_) => 1,
        Target::Element(_, index) => plus(1, count_expr(index)),
    }
}

/// The nodes of a reading's target, if it has one.
fn count_reading(x: &Option<Target>) -> u128
    ensures { result ≡ capped (nodes_of_reading x.now) }
{
    match x {
        None => 0,
        Some(x) => count_target(x),
    }
}

/// The nodes of a place: it counts 1, and an index besides.
fn count_place(place: &Place) -> u128
    ensures { result ≡ capped (nodes_of_place place.now) }
{
    match place {
        Place::Bare(_) | Place::Scalar(_) => 1,
        Place::Element(_, index) => plus(1, count_expr(index)),
    }
}

/// The nodes of a loop, by those of its body.
fn count_loop(unrolled: bool, turns: u32, body: u128) -> u128
    ensures { result ≡ capped (nodes_of_loop unrolled turns body) }
{
    if unrolled {
        let settings = 3 * (u128::from(turns) + 1);
        plus(times(u128::from(turns), body), settings)
    } else {
        plus(1, body)
    }
}

/// The nodes of a statement that has no body, by those of its three parts.
fn count_parts(first: u128, second: u128, third: u128) -> u128
    ensures { result ≡ capped (1 + first + second + third) }
{
    plus(plus(plus(1, first), second), third)
}

/// The nodes of a statement: it counts 1 and its parts, and an unrolled loop its turns and settings.
#[cycle(count_stmts)]
fn count_stmt(s: &Stmt) -> u128
    ensures { result ≡ capped (nodes_of_stmt s.now) }
{
    match s {
        Stmt::Assign(x, value) => plus(plus(1, count_target(x)), count_expr(value)),
        Stmt::Point(_, to) => plus(1, count_place(to)),
        Stmt::If(c, yes_part, no_part) => {
            let c = count_expr(c);
            let first = count_body(yes_part.as_slice());
            count_parts(c, first, count_body(no_part.as_slice()))
        }
        Stmt::For(_, turns, _, body, _) => {
            let unrolled = body_has_sites(body.as_slice());
            count_loop(unrolled, *turns, count_body(body.as_slice()))
        }
        Stmt::Io(x, _, _, args, _) => plus(plus(1, count_reading(x)), count_exprs(args.as_slice())),
        Stmt::Block(_, body, _) => plus(1, count_body(body.as_slice())),
        Stmt::Dma(to, from, length, _) => {
            count_parts(count_place(to), count_place(from), count_expr(length))
        }
    }
}

/// The nodes of a body.
#[cycle(count_stmts)]
fn count_body(body: &[Stmt]) -> u128
    ensures { result ≡ capped (sum_by nodes_of_stmt body.now) }
{
    let mut total = 0;
    for s in body {
        total = plus(total, count_stmt(s));
    }
    total
}

/// The nodes of an exit: it counts 1 and its parts.
fn count_exit(e: &Exit) -> u128
    ensures { result ≡ capped (nodes_of_exit e.now) }
{
    match e {
        Exit::Next(_) | Exit::Stop => 1,
        Exit::Choose(c, left, right) => {
            let c = count_expr(c);
            let first = count_exit(left.get());
            count_parts(c, first, count_exit(right.get()))
        }
    }
}

/// The nodes of a task: those of its statements and of its exit.
pub fn count_task(t: &Task) -> u128
    ensures { result ≡ capped (nodes_of_task t.now) }
{
    plus(count_body(t.body.as_slice()), count_exit(&t.exit))
}
