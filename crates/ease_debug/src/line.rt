//! A line of a script: the command that it gives.
ghost use Rattle.std.specs.Prelude.{◌≡◌, ◌<◌, ◌&&◌, length, IfSome};
ghost use Rattle.std.specs.List.{list_any, position};
ghost use Rattle.std.specs.Str.{bytes_eq};
ghost use Rattle.ease_debug.specs.Commands as commands;
ghost use Rattle.ease_debug.specs.Reading as spec;
ghost use Rattle.ease_debug.specs.Words.{rest_of};
ghost use Rattle.ease_debug.specs.declared.command.Command.TheVariants as command;
ghost use Rattle.op_table.specs.Places.{place_of};
ghost use Rattle.op_table.specs.Table.{HasTwins, entries, names as table_names};
ghost use Rattle.word_isa.specs.declared.parts.Symbol.{Symbol};

use crate::command::Command;
use crate::words::{cut, number_in, only_word};
use op_table::{Row, Table, rows};
use std::str;
use word_isa::{Image, Mark, MarkKind, Symbol};

/// The command that a line gives for an image; None where it gives none.
#[tactic(auto, unfolding(crate::specs::Reading::command_of))]
pub fn command_in(image: &Image, line: &[u8]) -> Option<Command>
    ensures { result ≡ spec.command_of image.now (commands.words_of line.now) }
{
    let (word, rest) = cut(line, b' ');
    let place = place_in_words(word)?;
    command_at(image, place, rest)
}

// The command with the first word of this place among those of commands.
fn command_at(image: &Image, place: usize, rest: Option<&[u8]>) -> Option<Command>
    ensures { result ≡ spec.command_at image.now place (rest_of 32 rest.entry) }
{
    match place {
        0 => step_in(image, rest),
        1 => fail_in(image, rest),
        2 => to_in(image, rest),
        3 => at_in(image, rest),
        4 => show_in(image, rest),
        5 => regs_in(rest),
        6 => why_in(image, rest),
        _ => None,
    }
}

fn step_in(image: &Image, rest: Option<&[u8]>) -> Option<Command>
    ensures { result ≡ spec.with_one image.now 4294967295 command.Step (rest_of 32 rest.entry) }
{
    let count = number_in(only_word(rest)?, u32::MAX)?;
    if_accepted(image, Command::Step(count))
}

fn fail_in(image: &Image, rest: Option<&[u8]>) -> Option<Command>
    ensures { result ≡ spec.with_two image.now 4294967295 command.Fail (rest_of 32 rest.entry) }
{
    let (first, behind) = cut(rest?, b' ');
    let off = number_in(first, u32::MAX)?;
    let fill = number_in(only_word(behind)?, u32::MAX)?;
    if_accepted(image, Command::Fail(off, fill))
}

fn to_in(image: &Image, rest: Option<&[u8]>) -> Option<Command>
    ensures { result ≡ spec.with_one image.now 255 command.To (rest_of 32 rest.entry) }
{
    let site = small_in(only_word(rest)?)?;
    if_accepted(image, Command::To(site))
}

fn at_in(image: &Image, rest: Option<&[u8]>) -> Option<Command>
    ensures { result ≡ spec.with_two image.now 255 command.At (rest_of 32 rest.entry) }
{
    let (first, behind) = cut(rest?, b' ');
    let task = small_in(first)?;
    let site = small_in(only_word(behind)?)?;
    if_accepted(image, Command::At(task, site))
}

fn show_in(image: &Image, rest: Option<&[u8]>) -> Option<Command>
    ensures { result ≡ spec.with_name image.now (rest_of 32 rest.entry) }
{
    let place = symbol_named(image.symbols.as_slice(), only_word(rest)?)?;
    Some(Command::Show(place as u32))
}

fn regs_in(rest: Option<&[u8]>) -> Option<Command>
    ensures { result ≡ spec.with_none (rest_of 32 rest.entry) }
{
    match rest {
        None => Some(Command::Regs),
        Some(_) => None,
    }
}

fn why_in(image: &Image, rest: Option<&[u8]>) -> Option<Command>
    ensures { result ≡ spec.with_one image.now 255 command.Why (rest_of 32 rest.entry) }
{
    let site = small_in(only_word(rest)?)?;
    if_accepted(image, Command::Why(site))
}

// A number that fits a byte.
fn small_in(word: &[u8]) -> Option<u8>
    ensures { result ≡ spec.number_in 255 word.now }
{
    let n = number_in(word, 255)?;
    Some(n as u8)
}

// The command, where it may be given.
fn if_accepted(image: &Image, command: Command) -> Option<Command>
    ensures { result ≡ spec.if_accepted image.now command }
{
    if accepts(image, command) {
        Some(command)
    } else {
        None
    }
}

// Whether a command may be given for an image.
fn accepts(image: &Image, command: Command) -> bool
    ensures { result ≡ commands.accepts image.now command }
{
    match command {
        Command::Step(n) => is_from_to(1, 4_194_304, n),
        Command::Fail(off, fill) => off <= u32::MAX && fill <= u32::MAX,
        Command::To(site) | Command::Why(site) => is_site(image, site),
        Command::At(task, site) => is_site_of(image, task, site),
        Command::Show(place) => (place as usize) < image.symbols.len(),
        Command::Regs => true,
    }
}

fn is_from_to(least: u32, most: u32, n: u32) -> bool
    ensures { result ≡ commands.is_from_to least most n }
{
    least <= n && n <= most
}

fn is_site(image: &Image, site: u8) -> bool
    ensures { result ≡ (commands.is_from_to 1 255 site && commands.has_site image.now site) }
{
    is_from_to(1, 255, u32::from(site)) && has_site(image.marks.as_slice(), site)
}

fn is_site_of(image: &Image, task: u8, site: u8) -> bool
    ensures { result ≡ (commands.is_from_to 1 64 task && commands.is_from_to 1 255 site && commands.has_site_of image.now task site) }
{
    is_from_to(1, 64, u32::from(task))
        && is_from_to(1, 255, u32::from(site))
        && has_site_of(image.marks.as_slice(), task, site)
}

// Whether the site stands in one of the marks.
fn has_site(marks: &[Mark], site: u8) -> bool
    ensures { result ≡ list_any (commands.names site) marks.now }
{
    marks.iter().any(|mark| names(*mark, site))
}

// The same for a mark of the task.
fn has_site_of(marks: &[Mark], task: u8, site: u8) -> bool
    ensures { result ≡ list_any (commands.names_of task site) marks.now }
{
    marks.iter().any(|mark| names_of(*mark, task, site))
}

fn names(mark: Mark, site: u8) -> bool
    ensures { result ≡ commands.names site mark }
{
    if !is_of_site(mark.kind) {
        return false;
    }
    mark.site == site
}

fn names_of(mark: Mark, task: u8, site: u8) -> bool
    ensures { result ≡ commands.names_of task site mark }
{
    if !is_of_site(mark.kind) {
        return false;
    }
    mark.task == task && mark.site == site
}

fn is_of_site(kind: MarkKind) -> bool
    ensures { result ≡ commands.is_of_site kind }
{
    match kind {
        MarkKind::Begin | MarkKind::Commit => false,
        MarkKind::Look
        | MarkKind::Kept
        | MarkKind::Drop
        | MarkKind::Issue
        | MarkKind::Seal
        | MarkKind::Copy => true,
    }
}

// The first symbol with the name.
fn symbol_named(symbols: &[Symbol], name: &[u8]) -> Option<usize>
    ensures place { result ≡ position (λ (s : Symbol). bytes_eq s.name name.now) symbols.now }
    ensures within { IfSome result (λ k. k < length symbols.now) }
{
    symbols
        .iter()
        .position(|symbol| symbol.name.as_slice() == name)
}

// The place of a word among those of commands.
fn place_in_words(word: &[u8]) -> Option<usize>
    ensures { result ≡ place_of bytes_eq word.now spec.command_words }
{
    let words = rows! {
        0 "step" 0;
        1 "fail" 0;
        2 "to" 0;
        3 "at" 0;
        4 "show" 0;
        5 "regs" 0;
        6 "why" 0;
    };
    match str::from_utf8(word) {
        Ok(text) => place_in(&words, text),
        Err(_) => None,
    }
}

// The place of a name in the table of these rows.
fn place_in(rows: &[Row], name: &str) -> Option<usize>
    requires seven { length rows.now ≡ 7 }
    requires clear { ¬ HasTwins (entries rows.now) }
    ensures { result ≡ place_of bytes_eq name.now (table_names (entries rows.now)) }
{
    let Some(table) = Table::<7>::new(rows) else {
        unreachable!()
    };
    table.find_name(name)
}
