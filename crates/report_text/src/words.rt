//! The words of a line, and the parts of a word.
ghost use Rattle.std.specs.Prelude.{◌≡◌, ◌==◌, ◌∷◌, ◌<◌, length, IfSome, option_map};
ghost use Rattle.std.specs.List.{position};
ghost use Rattle.report_text.specs.Parts.{split_at, rest_of, only_part};

/// The part of a text before the first of these bytes, and what stands behind it; None where the byte doesn't stand there.
pub fn cut(text: &[u8], at: u8) -> (&[u8], Option<&[u8]>)
    ensures parts { split_at at text.now ≡ result.0.now ∷ rest_of at result.1 }
    ensures shorter { IfSome result.1 (λ rest. length rest.now < length text.now) }
{
    match place_of(text, at) {
        Some(place) => (&text[..place], Some(&text[place + 1..])),
        None => (text, None),
    }
}

// The first place of a byte.
fn place_of(text: &[u8], at: u8) -> Option<usize>
    ensures { result ≡ position (λ b. b == at) text.now }
{
    text.iter().position(|b| *b == at)
}

/// What is left of a text, where this byte doesn't stand in it.
pub fn only_part(rest: Option<&[u8]>, at: u8) -> Option<&[u8]>
    ensures { option_map (λ w. w.now) result ≡ only_part (rest_of at rest.entry) }
{
    match cut(rest?, at) {
        (word, None) => Some(word),
        (_, Some(_)) => None,
    }
}
