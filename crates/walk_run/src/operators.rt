//! The operators on words.
ghost use Rattle.std.specs.Prelude.{◌≡◌};
ghost use Rattle.walk_run.specs.Operators.{truth, one_word, two_words, decided, shifted, divided};

use crate::trap::Trap;
use task_ast::{Op1, Op2};

/// What an operator gives where its left side decides: `&&` and `||` don't value their right side then.
pub fn decided(op: Op2, left: u32) -> Option<u32>
    ensures { result ≡ decided op left }
{
    match op {
        Op2::Both => if left == 0 { Some(0) } else { None },
        Op2::Either => if left == 0 { None } else { Some(1) },
        Op2::Add | Op2::Sub | Op2::Mul | Op2::Div | Op2::Rem => None,
        Op2::And | Op2::Or | Op2::Xor | Op2::Shl | Op2::Shr => None,
        Op2::Eq | Op2::Ne | Op2::Lt | Op2::Le | Op2::Gt | Op2::Ge => None,
    }
}

/// A prefix operator on a word.
pub fn of_one(op: Op1, word: u32) -> u32
    ensures { result ≡ one_word op word }
{
    match op {
        Op1::Not => bit(word == 0),
        Op1::Inv => u32::MAX - word,
        Op1::Neg => 0u32.wrapping_sub(word),
    }
}

/// A binary operator on two words: sums, differences and products wrap, and a shift by 32 or more gives 0.
pub fn of_two(op: Op2, left: u32, right: u32) -> Result<u32, Trap>
    ensures { result ≡ two_words op left right }
{
    match op {
        Op2::Add => Ok(left.wrapping_add(right)),
        Op2::Sub => Ok(left.wrapping_sub(right)),
        Op2::Mul => Ok(left.wrapping_mul(right)),
        Op2::Div => left.checked_div(right).ok_or(Trap::Divisor),
        Op2::Rem => left.checked_rem(right).ok_or(Trap::Divisor),
        Op2::And => Ok(left & right),
        Op2::Or => Ok(left | right),
        Op2::Xor => Ok(left ^ right),
        Op2::Shl => Ok(if right < 32 {
            ((u64::from(left) << right) % (1 << 32)) as u32
        } else {
            0
        }),
        Op2::Shr => Ok(if right < 32 { left >> right } else { 0 }),
        Op2::Eq => Ok(bit(left == right)),
        Op2::Ne => Ok(bit(left != right)),
        Op2::Lt => Ok(bit(left < right)),
        Op2::Le => Ok(bit(left <= right)),
        Op2::Gt => Ok(bit(left > right)),
        Op2::Ge => Ok(bit(left >= right)),
        Op2::Both => Ok(bit(left != 0 && right != 0)),
        Op2::Either => Ok(bit(left != 0 || right != 0)),
    }
}

// A truth as a word.
fn bit(b: bool) -> u32
    ensures { result ≡ truth b }
{
    if b { 1 } else { 0 }
}
