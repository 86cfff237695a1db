//! The words of a script's lines.
ghost use Rattle.std.specs.Prelude.{◌≡◌, ◌≤◌, ◌==◌, ℕ, List, [], ◌∷◌, ◌<◌, length, decimal, IfSome, IfNone, option_map};
ghost use Rattle.std.specs.List.{slice_split, position};
ghost use Rattle.ease_debug.specs.Reading as spec;
ghost use Rattle.ease_debug.specs.Words.{split_at, rest_of};

use ease_base::digits;
use std::str;

/// The part of a text before the first of these bytes, and what stands behind it; None where the byte doesn't stand there.
pub fn cut(text: &[u8], at: u8) -> (&[u8], Option<&[u8]>)
    ensures parts { split_at at text.now ≡ result.0.now ∷ rest_of at result.1 }
    ensures shorter { IfSome result.1 (λ rest. length rest.now < length text.now) }
{
    match place_of(text, at) {
        Some(place) => (&text[..place], Some(&text[place + 1..])),
        None => (text, None),
    }
}

// The first place of a byte.
fn place_of(text: &[u8], at: u8) -> Option<usize>
    ensures { result ≡ position (λ b. b == at) text.now }
{
    text.iter().position(|b| *b == at)
}

/// The number, at most `most`, whose decimal digits the word is.
pub fn number_in(word: &[u8], most: u32) -> Option<u32>
    ensures number { result ≡ spec.number_in most word.now }
    ensures few { IfSome result (λ n. n ≤ most) }
{
    number_of(word, most)
}

// The same, by the digits of each number.
fn number_of(word: &[u8], most: u32) -> Option<u32>
    ensures found { IfSome result (λ n. (n ≤ most) × (word.now ≡ decimal n)) }
    ensures none { IfNone result ((n : ℕ) → n ≤ most → word.now ≡ decimal n → ⊥) }
{
    let Ok(text) = str::from_utf8(word) else {
        return None;
    };
    let Ok(n) = text.parse::<u32>() else {
        return None;
    };
    let mut spelled = [0; 20];
    let count = digits(u64::from(n), &mut spelled);
    if n > most || &spelled[..count] != word {
        return None;
    }
    Some(n)
}

/// The only word of what is left of a line; None where there is none, or a second one.
pub fn only_word(rest: Option<&[u8]>) -> Option<&[u8]>
    ensures { option_map (λ w. w.now) result ≡ spec.only_word (rest_of 32 rest.entry) }
{
    match cut(rest?, b' ') {
        (word, None) => Some(word),
        (_, Some(_)) => None,
    }
}
