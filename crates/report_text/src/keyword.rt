//! The words with which the texts of lines begin.
ghost use Rattle.std.specs.Prelude.{◌≡◌};
ghost use Rattle.std.specs.Str.{bytes_eq};
ghost use Rattle.report_text.specs.Reading as spec;

/// The first word of a line's text.
#[derive(Clone, Copy)]
pub enum Keyword {
    Boot,
    Begin,
    Look,
    Kept,
    Drop,
    Issue,
    Seal,
    Copy,
    Commit,
    Trap,
    End,
}

/// Whether the word is this text.
pub fn is_text(word: &[u8], text: &[u8]) -> bool
    ensures { result ≡ bytes_eq word.now text.now }
{
    word == text
}

/// The keyword that the word is.
pub fn keyword_in(word: &[u8]) -> Option<Keyword>
    ensures { result ≡ spec.keyword_in word.now }
{
    if is_text(word, b"boot") {
        return Some(Keyword::Boot);
    }
    if is_text(word, b"begin") {
        return Some(Keyword::Begin);
    }
    if is_text(word, b"look") {
        return Some(Keyword::Look);
    }
    if is_text(word, b"kept") {
        return Some(Keyword::Kept);
    }
    if is_text(word, b"drop") {
        return Some(Keyword::Drop);
    }
    if is_text(word, b"issue") {
        return Some(Keyword::Issue);
    }
    last_keyword(word)
}

// The same among the last five.
fn last_keyword(word: &[u8]) -> Option<Keyword>
    ensures { result ≡ spec.find_key spec.last_keywords word.now }
{
    if is_text(word, b"seal") {
        return Some(Keyword::Seal);
    }
    if is_text(word, b"copy") {
        return Some(Keyword::Copy);
    }
    if is_text(word, b"commit") {
        return Some(Keyword::Commit);
    }
    if is_text(word, b"trap") {
        return Some(Keyword::Trap);
    }
    if is_text(word, b"end") {
        return Some(Keyword::End);
    }
    None
}
