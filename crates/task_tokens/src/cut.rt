//! Cuts the piece at the front of a text: white space, a comment or a token.
ghost use Rattle.std.specs.Prelude.{◌≡◌, ◌≤◌, ◌+◌, ◌-◌, ◌^◌, ◌==◌, IfOk, IfSome, length, min, not, drop};
ghost use Rattle.std.specs.Char.{is_ascii_digit, is_ascii_hexdigit};
ghost use Rattle.std.specs.List.{list_all, take_while};
ghost use Rattle.std.specs.Option.{option_map};
ghost use Rattle.task_ast.specs.NameToken as names;
ghost use Rattle.task_tokens.specs.Spelling as spelling;
ghost use Rattle.task_tokens.specs.Division as division;
ghost use Rattle.task_tokens.specs.Cutting as spec;

use crate::token::{KEYWORDS, Keyword, Lexeme, SIGNS, Sign};
use ease_base::{List, NoMemory};
use std::alloc::Global;

/// The first number that is too wide for a word.
const WIDE: u64 = 1 << 32;

/// How many bytes a piece has, and its token; None is white space or a comment.
#[derive(Drop)]
pub struct Cut {
    pub len: usize,
    pub lexeme: Option<Lexeme>,
}

fn is_white(b: u8) -> bool
    ensures { result ≡ division.is_white b }
{
    b == b' ' || b == b'\t' || b == b'\n' || b == b'\r'
}

fn is_word_byte(b: u8) -> bool
    ensures { result ≡ names.is_word_byte b }
{
    b.is_ascii_alphanumeric() || b == b'_'
}

fn digit_value(b: u8) -> u64
    ensures { result ≡ spelling.digit_value b }
{
    if b <= b'9' {
        return u64::from(b.saturating_sub(b'0'));
    }
    if b <= b'F' {
        return u64::from(b.saturating_sub(55));
    }
    u64::from(b.saturating_sub(87))
}

/// The value of the digits, or 2^32 where it is above.
fn value(base: u64, digits: &[u8]) -> u64
    requires { base ≤ 16 }
    ensures { result ≡ min (spelling.value base digits.now) (2 ^ 32) }
{
    let mut total = 0;
    for b in digits {
        total = (base * total + digit_value(*b)).min(WIDE);
    }
    total
}

fn are_digits(bytes: &[u8]) -> bool
    ensures { result ≡ list_all is_ascii_digit bytes.now }
{
    bytes.iter().all(|b| b.is_ascii_digit())
}

fn are_hex_digits(bytes: &[u8]) -> bool
    ensures { result ≡ list_all is_ascii_hexdigit bytes.now }
{
    bytes.iter().all(|b| b.is_ascii_hexdigit())
}

fn is_decimal(bytes: &[u8]) -> bool
    ensures { result ≡ spelling.is_decimal bytes.now }
{
    let Some((first, rest)) = bytes.split_first() else {
        return false;
    };
    if rest.is_empty() {
        return first.is_ascii_digit();
    }
    *first != b'0' && are_digits(bytes)
}

fn is_hexadecimal(bytes: &[u8]) -> bool
    ensures { result ≡ spelling.is_hexadecimal bytes.now }
{
    if bytes.len() < 3 {
        return false;
    }
    if bytes[0] != b'0' {
        return false;
    }
    if bytes[1] != b'x' {
        return false;
    }
    let (_, digits) = bytes.split_at(2);
    are_hex_digits(digits)
}

/// The number that the bytes spell, or 2^32 where it is above.
fn numeral(bytes: &[u8]) -> Option<u64>
    ensures { result ≡ option_map (λ n. min n (2 ^ 32)) (spelling.numeral bytes.now) }
{
    if is_decimal(bytes) {
        return Some(value(10, bytes));
    }
    if is_hexadecimal(bytes) {
        let (_, digits) = bytes.split_at(2);
        return Some(value(16, digits));
    }
    None
}

#[tactic(auto, unfolding(crate::specs::Cutting::keyword_of))]
fn keyword_of(word: &[u8]) -> Option<Keyword>
    ensures { result ≡ spec.keyword_of word.now }
{
    KEYWORDS.iter().copied().find(|k| k.letters() == word)
}

/// The same; a word of one byte is no keyword.
#[tactic(auto, using(crate::proofs::Tables::short_free))]
fn longer_keyword(word: &[u8]) -> Option<Keyword>
    ensures { result ≡ spec.keyword_of word.now }
{
    if word.len() < 2 {
        return None;
    }
    keyword_of(word)
}

#[tactic(auto, unfolding(crate::specs::Cutting::sign_of))]
fn sign_of(text: &[u8]) -> Option<Sign>
    ensures { result ≡ spec.sign_of text.now }
{
    SIGNS.iter().copied().find(|s| text.starts_with(s.marks()))
}

#[tactic(auto, unfolding(crate::specs::Cutting::run_lexeme))]
fn run_lexeme(alloc: Global, first: u8, run: &[u8]) -> Result<Option<Lexeme>, NoMemory>
    ensures { IfOk result (λ x. x ≡ spec.run_lexeme first run.now) }
{
    if first.is_ascii_digit() {
        return Ok(number_lexeme(run));
    }
    if let Some(k) = longer_keyword(run) {
        return Ok(Some(Lexeme::Reserved(k)));
    }
    Ok(Some(Lexeme::Name(List::from_slice(alloc, run)?)))
}

fn number_lexeme(run: &[u8]) -> Option<Lexeme>
    ensures { result ≡ option_map spec.number_lexeme (spelling.numeral run.now) }
{
    let n = numeral(run)?;
    if n < WIDE {
        return Some(Lexeme::Number(n as u32));
    }
    Some(Lexeme::TooWide)
}

/// How many bytes there are at the front of letters, digits and `_`.
fn run_len(text: &[u8]) -> usize
    ensures value { result ≡ length (take_while names.is_word_byte text.now) }
    ensures within { result ≤ length text.now }
{
    text.iter().take_while(|b| is_word_byte(**b)).count()
}

/// How many bytes there are at the front before a line feed.
fn line_len(text: &[u8]) -> usize
    ensures value { result ≡ length (take_while (λ b. not (b == 10)) text.now) }
    ensures within { result ≤ length text.now }
{
    text.iter().take_while(|b| **b != b'\n').count()
}

fn ends_comment(first: u8, second: u8) -> bool
    ensures { result ≡ spec.ends_comment first second }
{
    first == b'*' && second == b'/'
}

/// How far the first `*/` goes.
fn end_len(text: &[u8]) -> Option<usize>
    ensures value { result ≡ spec.end_len text.now }
    ensures within { IfSome result (λ n. n ≤ length text.now) }
{
    let mut at = 0;
    while at + 1 < text.len() {
        if ends_comment(text[at], text[at + 1]) {
            return Some(at + 2);
        }
        at += 1;
    }
    None
}

#[tactic(auto, unfolding(crate::specs::Cutting::run_cut))]
fn run_cut(alloc: Global, first: u8, text: &[u8]) -> Result<Option<Cut>, NoMemory>
    ensures { IfOk result (λ c. c ≡ spec.run_cut first text.now) }
{
    let len = run_len(text);
    let (run, _) = text.split_at(len);
    let Some(lexeme) = run_lexeme(alloc, first, run)? else {
        return Ok(None);
    };
    Ok(Some(Cut {
        len,
        lexeme: Some(lexeme),
    }))
}

#[tactic(auto, unfolding(crate::specs::Cutting::mark_cut))]
fn mark_cut(text: &[u8]) -> Option<Cut>
    ensures { result ≡ spec.mark_cut text.now }
{
    if text.starts_with(b"//") {
        return Some(Cut {
            len: line_len(text),
            lexeme: None,
        });
    }
    if text.starts_with(b"/*") {
        let (_, body) = text.split_at(2);
        let n = end_len(body)?;
        return Some(Cut {
            len: n + 2,
            lexeme: None,
        });
    }
    let sign = sign_of(text)?;
    Some(Cut {
        len: sign.marks().len(),
        lexeme: Some(Lexeme::Symbol(sign)),
    })
}

/// The piece at the front of the text, if one begins there.
#[tactic(auto, unfolding(crate::specs::Cutting::first_cut))]
pub fn first_cut(alloc: Global, text: &[u8]) -> Result<Option<Cut>, NoMemory>
    ensures { IfOk result (λ c. c ≡ spec.first_cut text.now) }
{
    let Some(first) = text.first() else {
        return Ok(None);
    };
    if is_white(*first) {
        return Ok(Some(Cut {
            len: 1,
            lexeme: None,
        }));
    }
    if is_word_byte(*first) {
        return run_cut(alloc, *first, text);
    }
    Ok(mark_cut(text))
}
