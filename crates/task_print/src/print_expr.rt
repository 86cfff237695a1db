//! Expressions and targets in their printed form.
ghost use Rattle.std.specs.Prelude.{◌++◌, OnOk};
ghost use Rattle.task_print.specs.Printed.{Puts, mark, named, bracketed, parenthesized, expr_tokens, target_tokens};

use crate::operator::{prefix_of, sign_of};
use crate::put::{put_name, put_numeral, put_sign};
use ease_base::{NoMemory, Text};
use task_ast::{Expr, Name, Target};
use task_tokens::Sign;

/// An expression, with the parentheses that it has.
#[tactic(auto, using(crate::proofs::PrintSteps::at_index, crate::proofs::PrintSteps::at_paren, crate::proofs::PrintSteps::at_one, crate::proofs::PrintSteps::two_put))]
#[cycle(expr)]
pub fn put_expr(out: &mut Text, e: &Expr) -> Result<(), NoMemory>
    ensures { OnOk result (Puts out.old (expr_tokens e.now) out.new) }
{
    match e {
        Expr::Number(n, _) => put_numeral(out, *n),
        Expr::Read(x) => put_name(out, x),
        Expr::Index(x, index) => put_indexed(out, x, index.get()),
        Expr::Paren(inner) => put_parenthesized(out, inner.get()),
        Expr::One(op, operand) => put_behind(out, prefix_of(*op), operand.get()),
        Expr::Two(op, left, right) => {
            put_expr(out, left.get())?;
            put_behind(out, sign_of(*op), right.get())
        }
    }
}

// `x [ index ]`
#[tactic(auto, using(crate::proofs::PrintSteps::puts, crate::proofs::PrintSteps::puts_last))]
#[cycle(expr)]
pub fn put_indexed(out: &mut Text, x: &Name, index: &Expr) -> Result<(), NoMemory>
    ensures { OnOk result (Puts out.old (named x.now ++ bracketed (expr_tokens index.now)) out.new) }
{
    put_name(out, x)?;
    put_sign(out, Sign::BracketOpen)?;
    put_expr(out, index)?;
    put_sign(out, Sign::BracketClose)
}

// `( e )`
#[tactic(auto, using(crate::proofs::PrintSteps::puts, crate::proofs::PrintSteps::puts_last))]
#[cycle(expr)]
pub fn put_parenthesized(out: &mut Text, e: &Expr) -> Result<(), NoMemory>
    ensures { OnOk result (Puts out.old (parenthesized (expr_tokens e.now)) out.new) }
{
    put_sign(out, Sign::ParenOpen)?;
    put_expr(out, e)?;
    put_sign(out, Sign::ParenClose)
}

// `sign e`
#[tactic(auto, using(crate::proofs::PrintSteps::puts, crate::proofs::PrintSteps::puts_last))]
#[cycle(expr)]
fn put_behind(out: &mut Text, sign: Sign, e: &Expr) -> Result<(), NoMemory>
    ensures { OnOk result (Puts out.old (mark sign ++ expr_tokens e.now) out.new) }
{
    put_sign(out, sign)?;
    put_expr(out, e)
}

/// A target: a name, or a name with an index.
pub fn put_target(out: &mut Text, x: &Target) -> Result<(), NoMemory>
    ensures { OnOk result (Puts out.old (target_tokens x.now) out.new) }
{
    match x {
        Target::Scalar(x) => put_name(out, x),
        Target::Element(x, index) => put_indexed(out, x, index),
    }
}
