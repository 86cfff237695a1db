//! A line of a report, read word by word.
ghost use Rattle.std.specs.Prelude.{◌≡◌, codes};
ghost use Rattle.report_text.specs.Parts.{split_at, rest_of};
ghost use Rattle.report_text.specs.Reading as spec;

use crate::keyword::{Keyword, is_text, keyword_in};
use crate::line::{LineText, ReportLine};
use crate::numbers::{number_in, one_in, two_in};
use crate::place::{issued_name, place_in};
use crate::words::{cut, only_part};
use devices::{Args, RunEnd};

/// The line with these bytes, without its line feed; None where it isn't of the grammar.
#[tactic(auto, unfolding(crate::specs::Reading::line_of))]
pub fn line_in<'a>(line: &'a [u8]) -> Option<ReportLine<'a>>
    ensures { result ≡ spec.line_of (split_at 32 line.now) }
{
    let (first, rest) = cut(line, b' ');
    let steps = number_in(first)?;
    let (word, behind) = cut(rest?, b' ');
    let keyword = keyword_in(word)?;
    match text_in(keyword, behind) {
        Some(text) => Some(ReportLine { steps, text }),
        None => None,
    }
}

// The text with this first word, by what stands behind it.
fn text_in<'a>(keyword: Keyword, rest: Option<&'a [u8]>) -> Option<LineText<'a>>
    ensures { result ≡ spec.text_in keyword (rest_of 32 rest.entry) }
{
    match keyword {
        Keyword::Boot => Some(LineText::Boot(one_in(rest)?)),
        Keyword::Begin => Some(LineText::Begin(one_in(rest)?)),
        Keyword::Drop => Some(LineText::Drop(one_in(rest)?)),
        Keyword::Seal => Some(LineText::Seal(one_in(rest)?)),
        Keyword::Commit => Some(LineText::Commit(one_in(rest)?)),
        Keyword::Trap => Some(LineText::Trap(one_in(rest)?)),
        Keyword::Look => look_in(rest),
        Keyword::Kept => kept_in(rest),
        Keyword::Issue => issue_in(rest),
        Keyword::Copy => copy_in(rest),
        Keyword::End => Some(LineText::End(end_in(rest)?)),
    }
}

fn look_in<'a>(rest: Option<&'a [u8]>) -> Option<LineText<'a>>
    ensures { result ≡ spec.look_in (rest_of 32 rest.entry) }
{
    let (site, time) = two_in(rest)?;
    Some(LineText::Look(site, time))
}

fn kept_in<'a>(rest: Option<&'a [u8]>) -> Option<LineText<'a>>
    ensures { result ≡ spec.kept_in (rest_of 32 rest.entry) }
{
    let (site, value) = two_in(rest)?;
    Some(LineText::Kept(site, value))
}

// An issue: its site, the peripheral's name, the arguments and the reading.
fn issue_in<'a>(rest: Option<&'a [u8]>) -> Option<LineText<'a>>
    ensures { result ≡ spec.issue_in (rest_of 32 rest.entry) }
{
    let (first, behind) = cut(rest?, b' ');
    let site = number_in(first)?;
    let (word, left) = cut(behind?, b' ');
    let (args, reading) = issued_in(NO_ARGS, left)?;
    match issued_name(word) {
        Some(name) => Some(LineText::Issue(site, name, args, reading)),
        None => None,
    }
}

/// No arguments.
const NO_ARGS: Args = Args {
    count: 0,
    a0: 0,
    a1: 0,
    a2: 0,
    a3: 0,
};

// The arguments up to `=`, behind those before, and the reading behind it.
fn issued_in(before: Args, rest: Option<&[u8]>) -> Option<(Args, u32)>
    ensures { result ≡ spec.issued_in before (rest_of 32 rest.entry) }
{
    let (word, behind) = cut(rest?, b' ');
    if is_text(word, b"=") {
        let reading = one_in(behind)?;
        return Some((before, reading));
    }
    let argument = number_in(word)?;
    issued_in(one_more(before, argument)?, behind)
}

// One argument behind others, where they are at most three.
fn one_more(args: Args, argument: u32) -> Option<Args>
    ensures { result ≡ spec.one_more args argument }
{
    match args.count {
        0 => Some(Args {
            count: 1,
            a0: argument,
            ..args
        }),
        1 => Some(Args {
            count: 2,
            a1: argument,
            ..args
        }),
        2 => Some(Args {
            count: 3,
            a2: argument,
            ..args
        }),
        3 => Some(Args {
            count: 4,
            a3: argument,
            ..args
        }),
        _ => None,
    }
}

// A copy: its site, both ends and the number of words.
fn copy_in<'a>(rest: Option<&'a [u8]>) -> Option<LineText<'a>>
    ensures { result ≡ spec.copy_in (rest_of 32 rest.entry) }
{
    let (first, behind) = cut(rest?, b' ');
    let site = number_in(first)?;
    let (source, left) = cut(behind?, b' ');
    let (target, last) = cut(left?, b' ');
    let words = one_in(last)?;
    let Some(from) = place_in(source) else {
        return None;
    };
    match place_in(target) {
        Some(to) => Some(LineText::Copy(site, from, to, words)),
        None => None,
    }
}

// How the run ended.
fn end_in(rest: Option<&[u8]>) -> Option<RunEnd>
    ensures { result ≡ spec.end_in (rest_of 32 rest.entry) }
{
    let (word, behind) = cut(rest?, b' ');
    if is_text(word, b"trapped") {
        return Some(RunEnd::Trapped(one_in(behind)?));
    }
    end_word(only_part(rest, b' ')?)
}

// The end that is one word.
fn end_word(word: &[u8]) -> Option<RunEnd>
    ensures { result ≡ spec.end_word word.now }
{
    if is_text(word, b"halted") {
        return Some(RunEnd::Halted);
    }
    if is_text(word, b"power") {
        return Some(RunEnd::Power);
    }
    None
}
