//! The numbers of a line.
ghost use Rattle.std.specs.Prelude.{◌≡◌, ◌<◌, ◌^◌, ℕ, decimal, IfSome, IfNone};
ghost use Rattle.report_text.specs.Parts.{rest_of};
ghost use Rattle.report_text.specs.Reading as spec;

use crate::words::{cut, only_part};
use ease_base::digits;
use std::str;

/// The number, of 32 bits, whose decimal digits the word is.
pub fn number_in(word: &[u8]) -> Option<u32>
    ensures { result ≡ spec.number_in word.now }
{
    number_of(word)
}

// The same, by the digits of each number.
fn number_of(word: &[u8]) -> Option<u32>
    ensures found { IfSome result (λ n. (n < 2 ^ 32) × (word.now ≡ decimal n)) }
    ensures none { IfNone result ((n : ℕ) → n < 2 ^ 32 → word.now ≡ decimal n → ⊥) }
{
    let Ok(text) = str::from_utf8(word) else {
        return None;
    };
    let Ok(n) = text.parse::<u32>() else {
        return None;
    };
    let mut spelled = [0; 20];
    let count = digits(u64::from(n), &mut spelled);
    if &spelled[..count] != word {
        return None;
    }
    Some(n)
}

/// The number that is the only word of what is left of a line.
pub fn one_in(rest: Option<&[u8]>) -> Option<u32>
    ensures { result ≡ spec.one_in (rest_of 32 rest.entry) }
{
    number_in(only_part(rest, b' ')?)
}

/// The two numbers that are the words of what is left of a line.
pub fn two_in(rest: Option<&[u8]>) -> Option<(u32, u32)>
    ensures { result ≡ spec.two_in (rest_of 32 rest.entry) }
{
    let (first, behind) = cut(rest?, b' ');
    let n = number_in(first)?;
    let m = one_in(behind)?;
    Some((n, m))
}
