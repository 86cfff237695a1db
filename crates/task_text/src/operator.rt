//! The signs of operators, and how tightly each binds.
ghost use Rattle.std.specs.Prelude.{◌≡◌, ◌≤◌};
ghost use Rattle.task_text.specs.Grammar as grammar;
ghost use Rattle.task_text.specs.ReadingExpr as spec;

use task_ast::{Op1, Op2};
use task_tokens::{Lexeme, Sign};

/// How tightly prefixes bind: tighter than every binary operator.
pub const PREFIX_BINDS: u32 = 10;

/// How tightly a binary operator binds, from 0.
pub fn binds(op: Op2) -> u32
    ensures value { result ≡ grammar.binds op }
    ensures below { result ≤ 9 }
{
    match op {
        Op2::Either => 0,
        Op2::Both => 1,
        Op2::Or => 2,
        Op2::Xor => 3,
        Op2::And => 4,
        Op2::Eq | Op2::Ne => 5,
        Op2::Lt | Op2::Le | Op2::Gt | Op2::Ge => 6,
        Op2::Shl | Op2::Shr => 7,
        Op2::Add | Op2::Sub => 8,
        Op2::Mul | Op2::Div | Op2::Rem => 9,
    }
}

/// The binary operator that a sign is.
fn binary(sign: Sign) -> Option<Op2>
    ensures { result ≡ spec.binary sign }
{
    match sign {
        Sign::BarBar => Some(Op2::Either),
        Sign::AmpersandAmpersand => Some(Op2::Both),
        Sign::Bar => Some(Op2::Or),
        Sign::Caret => Some(Op2::Xor),
        Sign::Ampersand => Some(Op2::And),
        Sign::EqualEqual => Some(Op2::Eq),
        Sign::BangEqual => Some(Op2::Ne),
        Sign::Less => Some(Op2::Lt),
        Sign::LessEqual => Some(Op2::Le),
        Sign::Greater => Some(Op2::Gt),
        Sign::GreaterEqual => Some(Op2::Ge),
        Sign::LessLess => Some(Op2::Shl),
        Sign::GreaterGreater => Some(Op2::Shr),
        Sign::Plus => Some(Op2::Add),
        Sign::Minus => Some(Op2::Sub),
        Sign::Star => Some(Op2::Mul),
        Sign::Slash => Some(Op2::Div),
        Sign::Percent => Some(Op2::Rem),
        _ => None,
    }
}

/// The prefix that a sign is.
fn unary(sign: Sign) -> Option<Op1>
    ensures { result ≡ spec.unary sign }
{
    match sign {
        Sign::Bang => Some(Op1::Not),
        Sign::Tilde => Some(Op1::Inv),
        Sign::Minus => Some(Op1::Neg),
        _ => None,
    }
}

pub fn binary_of(lexeme: &Lexeme) -> Option<Op2>
    ensures { result ≡ spec.binary_of lexeme.now }
{
    match lexeme {
        Lexeme::Symbol(sign) => binary(*sign),
        _ => None,
    }
}

pub fn unary_of(lexeme: &Lexeme) -> Option<Op1>
    ensures { result ≡ spec.unary_of lexeme.now }
{
    match lexeme {
        Lexeme::Symbol(sign) => unary(*sign),
        _ => None,
    }
}

/// Whether there is an operator, and it binds at least so tightly.
pub fn is_tight(level: u32, op: Option<Op2>) -> bool
    ensures { result ≡ spec.is_tight level op }
{
    match op {
        Some(op) => level <= binds(op),
        None => false,
    }
}
