//! Statements and exits in their printed form.
ghost use Rattle.std.specs.Prelude.{◌++◌, OnOk};
ghost use Rattle.task_print.specs.Printed.{Puts, word, mark, parenthesized, braced, expr_tokens, target_tokens, setting, testing, stepping, head_tokens, else_tokens, stmt_tokens, body_tokens, exit_tokens};
ghost use Rattle.task_tokens.specs.declared.token.Keyword.TheVariants as keyword;
ghost use Rattle.task_tokens.specs.declared.token.Sign.TheVariants as sign;

use crate::print_expr::{put_expr, put_parenthesized, put_target};
use crate::print_site::{put_copy, put_io, put_opening, put_pointing};
use crate::put::{put_name, put_numeral, put_sign, put_word};
use ease_base::{NoMemory, Text};
use task_ast::{Exit, Expr, Name, Stmt, Target};
use task_tokens::{Keyword, Sign};

/// A statement.
#[tactic(auto, using(crate::proofs::PrintSteps::if_put, crate::proofs::PrintSteps::for_put))]
#[cycle(statements)]
pub fn put_stmt(out: &mut Text, s: &Stmt) -> Result<(), NoMemory>
    ensures { OnOk result (Puts out.old (stmt_tokens s.now) out.new) }
{
    match s {
        Stmt::Assign(x, e) => put_assignment(out, x, e),
        Stmt::If(c, yes_part, no_part) => {
            put_test(out, c)?;
            put_braced(out, yes_part.as_slice())?;
            put_else(out, no_part.as_slice())
        }
        Stmt::For(i, turns, _, body, _) => {
            put_head(out, i, *turns)?;
            put_braced(out, body.as_slice())
        }
        Stmt::Point(p, to) => put_pointing(out, p, to),
        Stmt::Io(x, p, annotation, args, _) => put_io(out, x, p, *annotation, args),
        Stmt::Block(annotation, body, _) => {
            put_opening(out, *annotation)?;
            put_braced(out, body.as_slice())
        }
        Stmt::Dma(to, from, length, _) => put_copy(out, to, from, length),
    }
}

/// Statements, one after another.
#[cycle(statements)]
pub fn put_body(out: &mut Text, body: &[Stmt]) -> Result<(), NoMemory>
    ensures { OnOk result (Puts out.old (body_tokens body.now) out.new) }
{
    'body: for s in body {
        put_stmt(out, s)?;
    }
    Ok(())
}

// `{ statements }`
#[tactic(auto, using(crate::proofs::PrintSteps::puts, crate::proofs::PrintSteps::puts_last))]
#[cycle(statements)]
fn put_braced(out: &mut Text, body: &[Stmt]) -> Result<(), NoMemory>
    ensures { OnOk result (Puts out.old (braced (body_tokens body.now)) out.new) }
{
    put_sign(out, Sign::BraceOpen)?;
    put_body(out, body)?;
    put_sign(out, Sign::BraceClose)
}

// Nothing for no statements, else `else { statements }`.
#[tactic(auto, using(crate::proofs::PrintSteps::else_none, crate::proofs::PrintSteps::else_put))]
#[cycle(statements)]
fn put_else(out: &mut Text, body: &[Stmt]) -> Result<(), NoMemory>
    ensures { OnOk result (Puts out.old (else_tokens body.now) out.new) }
{
    if body.is_empty() {
        return Ok(());
    }
    put_word(out, Keyword::Else)?;
    put_braced(out, body)
}

#[tactic(auto, using(crate::proofs::PrintSteps::puts, crate::proofs::PrintSteps::puts_last))]
fn put_assignment(out: &mut Text, x: &Target, e: &Expr) -> Result<(), NoMemory>
    ensures { OnOk result (Puts out.old (target_tokens x.now ++ mark sign.Equal ++ expr_tokens e.now ++ mark sign.Semicolon) out.new) }
{
    put_target(out, x)?;
    put_sign(out, Sign::Equal)?;
    put_expr(out, e)?;
    put_sign(out, Sign::Semicolon)
}

// `if ( c )`
#[tactic(auto, using(crate::proofs::PrintSteps::puts, crate::proofs::PrintSteps::puts_last))]
fn put_test(out: &mut Text, c: &Expr) -> Result<(), NoMemory>
    ensures { OnOk result (Puts out.old (word keyword.If ++ parenthesized (expr_tokens c.now)) out.new) }
{
    put_word(out, Keyword::If)?;
    put_parenthesized(out, c)
}

// `for ( i = 0 ; i < turns ; i ++ )`
#[tactic(auto, using(crate::proofs::PrintSteps::puts, crate::proofs::PrintSteps::puts_last))]
fn put_head(out: &mut Text, i: &Name, turns: u32) -> Result<(), NoMemory>
    ensures { OnOk result (Puts out.old (head_tokens i.now turns) out.new) }
{
    put_setting(out, i)?;
    put_testing(out, i, turns)?;
    put_stepping(out, i)
}

// `for ( i = 0 ;`
#[tactic(auto, using(crate::proofs::PrintSteps::puts, crate::proofs::PrintSteps::puts_last))]
fn put_setting(out: &mut Text, i: &Name) -> Result<(), NoMemory>
    ensures { OnOk result (Puts out.old (setting i.now) out.new) }
{
    put_word(out, Keyword::For)?;
    put_sign(out, Sign::ParenOpen)?;
    put_name(out, i)?;
    put_sign(out, Sign::Equal)?;
    put_numeral(out, 0)?;
    put_sign(out, Sign::Semicolon)
}

// `i < turns ;`
#[tactic(auto, using(crate::proofs::PrintSteps::puts, crate::proofs::PrintSteps::puts_last))]
fn put_testing(out: &mut Text, i: &Name, turns: u32) -> Result<(), NoMemory>
    ensures { OnOk result (Puts out.old (testing i.now turns) out.new) }
{
    put_name(out, i)?;
    put_sign(out, Sign::Less)?;
    put_numeral(out, turns)?;
    put_sign(out, Sign::Semicolon)
}

// `i ++ )`
#[tactic(auto, using(crate::proofs::PrintSteps::puts, crate::proofs::PrintSteps::puts_last))]
fn put_stepping(out: &mut Text, i: &Name) -> Result<(), NoMemory>
    ensures { OnOk result (Puts out.old (stepping i.now) out.new) }
{
    put_name(out, i)?;
    put_sign(out, Sign::PlusPlus)?;
    put_sign(out, Sign::ParenClose)
}

/// An exit.
pub fn put_exit(out: &mut Text, e: &Exit) -> Result<(), NoMemory>
    ensures { OnOk result (Puts out.old (exit_tokens e.now) out.new) }
{
    match e {
        Exit::Next(x) => put_next(out, x),
        Exit::Stop => put_stop(out),
        Exit::Choose(c, first, second) => {
            put_test(out, c)?;
            put_exit(out, first.get())?;
            put_word(out, Keyword::Else)?;
            put_exit(out, second.get())
        }
    }
}

#[tactic(auto, using(crate::proofs::PrintSteps::puts, crate::proofs::PrintSteps::puts_last))]
fn put_next(out: &mut Text, x: &Name) -> Result<(), NoMemory>
    ensures { OnOk result (Puts out.old (exit_tokens (Exit.Next x.now)) out.new) }
{
    put_word(out, Keyword::Next)?;
    put_sign(out, Sign::ParenOpen)?;
    put_name(out, x)?;
    put_sign(out, Sign::ParenClose)?;
    put_sign(out, Sign::Semicolon)
}

#[tactic(auto, using(crate::proofs::PrintSteps::puts, crate::proofs::PrintSteps::puts_last))]
fn put_stop(out: &mut Text) -> Result<(), NoMemory>
    ensures { OnOk result (Puts out.old (word keyword.Stop ++ mark sign.Semicolon) out.new) }
{
    put_word(out, Keyword::Stop)?;
    put_sign(out, Sign::Semicolon)
}
