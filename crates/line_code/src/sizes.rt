//! How many lines code has, wherever it stands. Sizes stop at the greatest `u32`.
ghost use Rattle.std.specs.Prelude.{◌≡◌, ◌-◌, ◌^◌, min};
ghost use Rattle.line_code.specs.Sizes as spec;

use task_ast::{CoreExpr, CoreStmt, CoreTarget, Op1, Op2};

fn one_size(op: Op1) -> u32
    ensures { result ≡ spec.one_size op }
{
    match op {
        Op1::Not => 1,
        Op1::Inv => 4,
        Op1::Neg => 3,
    }
}

fn two_size(op: Op2) -> u32
    ensures { result ≡ spec.two_size op }
{
    match op {
        Op2::Add | Op2::Sub | Op2::Mul | Op2::Div | Op2::Rem => 4,
        Op2::And | Op2::Or | Op2::Xor | Op2::Shl | Op2::Shr => 4,
        Op2::Eq | Op2::Lt | Op2::Either => 4,
        Op2::Ne | Op2::Gt | Op2::Ge | Op2::Both => 5,
        Op2::Le => 6,
    }
}

/// The lines of an expression.
pub fn expr_size(e: &CoreExpr) -> u32
    ensures { result ≡ min (spec.expr_size e.now) (2 ^ 32 - 1) }
{
    match e {
        CoreExpr::Number(_) => 2,
        CoreExpr::Cell(_, index) => expr_size(index.get()).saturating_add(10),
        CoreExpr::Through(_, index) => expr_size(index.get()).saturating_add(14),
        CoreExpr::One(op, e) => expr_size(e.get()).saturating_add(one_size(*op)),
        CoreExpr::Two(op, left, right) => {
            let sides = expr_size(left.get()).saturating_add(expr_size(right.get()));
            sides.saturating_add(two_size(*op))
        }
    }
}

/// The lines of a target's place.
pub fn target_size(target: &CoreTarget) -> u32
    ensures { result ≡ min (spec.target_size target.now) (2 ^ 32 - 1) }
{
    match target {
        CoreTarget::Cell(_, index) => expr_size(index).saturating_add(9),
        CoreTarget::Through(_, index) => expr_size(index).saturating_add(13),
    }
}

/// The lines of a statement without sites.
#[cycle(statements)]
pub fn statement_size(s: &CoreStmt) -> u32
    ensures { result ≡ min (spec.statement_size s.now) (2 ^ 32 - 1) }
{
    match s {
        CoreStmt::Assign(target, e) => {
            let target = target_size(target);
            target.saturating_add(expr_size(e)).saturating_add(3)
        }
        CoreStmt::Point(_, _, index) => expr_size(index).saturating_add(11),
        CoreStmt::If(c, yes_part, no_part) => {
            let front = expr_size(c).saturating_add(statements_size(yes_part.as_slice()));
            let no_part = statements_size(no_part.as_slice());
            front.saturating_add(no_part).saturating_add(4)
        }
        CoreStmt::Loop(_, _, body) => statements_size(body.as_slice()).saturating_add(12),
        CoreStmt::Io(..) | CoreStmt::Block(..) | CoreStmt::Copy(..) => 0,
    }
}

/// The lines of statements without sites.
#[cycle(statements)]
pub fn statements_size(body: &[CoreStmt]) -> u32
    ensures { result ≡ min (spec.body_size body.now) (2 ^ 32 - 1) }
{
    let mut size = 0u32;
    'statements: for s in body {
        size = size.saturating_add(statement_size(s));
    }
    size
}
