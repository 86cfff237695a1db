//! The signs of operators.
ghost use Rattle.std.specs.Prelude.{◌≡◌};
ghost use Rattle.task_text.specs.Grammar as grammar;

use task_ast::{Op1, Op2};
use task_tokens::Sign;

/// The sign of a binary operator.
pub fn sign_of(op: Op2) -> Sign
    ensures { result ≡ grammar.sign_of op }
{
    match op {
        Op2::Either => Sign::BarBar,
        Op2::Both => Sign::AmpersandAmpersand,
        Op2::Or => Sign::Bar,
        Op2::Xor => Sign::Caret,
        Op2::And => Sign::Ampersand,
        Op2::Eq => Sign::EqualEqual,
        Op2::Ne => Sign::BangEqual,
        Op2::Lt => Sign::Less,
        Op2::Le => Sign::LessEqual,
        Op2::Gt => Sign::Greater,
        Op2::Ge => Sign::GreaterEqual,
        Op2::Shl => Sign::LessLess,
        Op2::Shr => Sign::GreaterGreater,
        Op2::Add => Sign::Plus,
        Op2::Sub => Sign::Minus,
        Op2::Mul => Sign::Star,
        Op2::Div => Sign::Slash,
        Op2::Rem => Sign::Percent,
    }
}

/// The sign of a prefix.
pub fn prefix_of(op: Op1) -> Sign
    ensures { result ≡ grammar.prefix_of op }
{
    match op {
        Op1::Not => Sign::Bang,
        Op1::Inv => Sign::Tilde,
        Op1::Neg => Sign::Minus,
    }
}
