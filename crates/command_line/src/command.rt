//! What a command line asks for: one row for each command; docs/COMMANDS.md lists them.
ghost use Rattle.std.specs.Prelude.{◌≡◌, ◌≤◌, ◌||◌, ℕ, Some, is_some, map, slice_get, decimal, option_map, string_bytes, IfOk, IfSome, IfNone};
ghost use Rattle.command_line.specs.Line.{Line};
ghost use Rattle.command_line.specs.Parsed.{IsLine};
ghost use Rattle.command_line.specs.Form as spec;

use crate::line::{Words, read_words};
use ease_base::{NoMemory, digits};
use std::alloc::Global;
use word_isa::Scheme;

/// What a command line asks for, with the names of its files in the order of the words.
#[derive(Clone, Copy, Debug, PartialEq, Eq)]
pub enum Command<'a> {
    /// `walk PROGRAM N [WORLD]`: at most so many tasks, 0 to 1,000.
    Walk {
        program: &'a str,
        tasks: u32,
        world: Option<&'a str>,
    },
    /// `run IMAGE WORLD [--brief]`.
    Run {
        image: &'a str,
        world: &'a str,
        brief: bool,
    },
    /// `build PROGRAM [--scheme undo|bank]`; `undo` where no scheme is named.
    Build {
        program: &'a str,
        scheme: Scheme,
    },
    /// `sites PROGRAM`.
    Sites {
        program: &'a str,
    },
    /// `debug IMAGE WORLD SCRIPT`.
    Debug {
        image: &'a str,
        world: &'a str,
        script: &'a str,
    },
    /// `audit PROGRAM WORLD REPORT`.
    Audit {
        program: &'a str,
        world: &'a str,
        report: &'a str,
    },
    /// `soak NUMBER`: 0 to 4,294,967,295.
    Soak {
        number: u32,
    },
}

/// What the words of a command line ask for; None exactly where they are none of the forms. A walk is of at most 1,000 tasks.
#[tactic(auto, using(crate::proofs::FormLaws::form_of_line, crate::proofs::FormLaws::form_of_none))]
pub fn command_of<'a>(alloc: Global, words: &'a [String]) -> Result<Option<Command<'a>>, NoMemory>
    ensures form { IfOk result (λ c. option_map spec.seen c ≡ spec.form_of (map string_bytes words.now)) }
    ensures few { IfOk result (λ c. IfSome c spec.HasFewTasks) }
{
    match read_words(alloc, words)? {
        Some(read) => Ok(command_in(&read)),
        None => Ok(None),
    }
}

// What a line asks for, by its first positional.
fn command_in<'a>(words: &Words<'a>) -> Option<Command<'a>>
    ensures form { (l : Line) → IsLine words.now l → option_map spec.seen result ≡ spec.form_in l }
    ensures few { IfSome result spec.HasFewTasks }
{
    match words.command {
        Some(command) => asked_by(command, words),
        None => None,
    }
}

// What a command asks for with its options.
fn asked_by<'a>(command: &str, words: &Words<'a>) -> Option<Command<'a>>
    ensures form { option_map spec.seen result ≡ spec.asked_by command.now (map (λ s. s.now) words.now.args.items) words.now.brief (option_map (λ s. s.now) words.now.scheme) }
    ensures few { IfSome result spec.HasFewTasks }
{
    let args = words.args.as_slice();
    if command == "walk" {
        if has_option(words) {
            return None;
        }
        return walk_in(args);
    }
    if command == "run" {
        if words.scheme.is_some() {
            return None;
        }
        return run_in(args, words.brief);
    }
    if command == "build" {
        if words.brief {
            return None;
        }
        return build_in(args, words.scheme);
    }
    if command == "sites" {
        if has_option(words) {
            return None;
        }
        return sites_in(args);
    }
    if command == "debug" {
        if has_option(words) {
            return None;
        }
        return debug_in(args);
    }
    if command == "audit" {
        if has_option(words) {
            return None;
        }
        return audit_in(args);
    }
    if command == "soak" {
        if has_option(words) {
            return None;
        }
        return soak_in(args);
    }
    None
}

// Whether an option stands among the words.
fn has_option(words: &Words) -> bool
    ensures { result ≡ (words.now.brief || is_some (option_map (λ s. s.now) words.now.scheme)) }
{
    words.brief || words.scheme.is_some()
}

#[tactic(auto, unfolding(crate::specs::Form::walk_in))]
fn walk_in<'a>(args: &[&'a str]) -> Option<Command<'a>>
    ensures form { option_map spec.seen result ≡ spec.walk_in (map (λ s. s.now) args.now) }
    ensures few { IfSome result spec.HasFewTasks }
{
    if args.len() > 3 {
        return None;
    }
    let program = text_at(args, 0)?;
    let tasks = number_in(text_at(args, 1)?, 1000)?;
    Some(Command::Walk {
        program,
        tasks,
        world: text_at(args, 2),
    })
}

#[tactic(auto, unfolding(crate::specs::Form::run_in))]
fn run_in<'a>(args: &[&'a str], brief: bool) -> Option<Command<'a>>
    ensures form { option_map spec.seen result ≡ spec.run_in (map (λ s. s.now) args.now) brief }
    ensures few { IfSome result spec.HasFewTasks }
{
    if args.len() > 2 {
        return None;
    }
    let image = text_at(args, 0)?;
    let world = text_at(args, 1)?;
    Some(Command::Run {
        image,
        world,
        brief,
    })
}

#[tactic(auto, unfolding(crate::specs::Form::build_in))]
fn build_in<'a>(args: &[&'a str], name: Option<&'a str>) -> Option<Command<'a>>
    ensures form { option_map spec.seen result ≡ spec.build_in (map (λ s. s.now) args.now) (option_map (λ s. s.now) name.entry) }
    ensures few { IfSome result spec.HasFewTasks }
{
    if args.len() > 1 {
        return None;
    }
    let program = text_at(args, 0)?;
    let scheme = scheme_of(name)?;
    Some(Command::Build { program, scheme })
}

// The scheme of a name; `undo` where none is named.
fn scheme_of(name: Option<&str>) -> Option<Scheme>
    ensures { result ≡ spec.scheme_of (option_map (λ s. s.now) name.entry) }
{
    match name {
        None => Some(Scheme::Undo),
        Some(name) => scheme_named(name),
    }
}

// The scheme of a name.
fn scheme_named(name: &str) -> Option<Scheme>
    ensures { result ≡ spec.scheme_of (Some name.now) }
{
    if name == "undo" {
        return Some(Scheme::Undo);
    }
    if name == "bank" {
        return Some(Scheme::Bank);
    }
    None
}

#[tactic(auto, unfolding(crate::specs::Form::sites_in))]
fn sites_in<'a>(args: &[&'a str]) -> Option<Command<'a>>
    ensures form { option_map spec.seen result ≡ spec.sites_in (map (λ s. s.now) args.now) }
    ensures few { IfSome result spec.HasFewTasks }
{
    if args.len() > 1 {
        return None;
    }
    let program = text_at(args, 0)?;
    Some(Command::Sites { program })
}

#[tactic(auto, unfolding(crate::specs::Form::debug_in))]
fn debug_in<'a>(args: &[&'a str]) -> Option<Command<'a>>
    ensures form { option_map spec.seen result ≡ spec.debug_in (map (λ s. s.now) args.now) }
    ensures few { IfSome result spec.HasFewTasks }
{
    if args.len() > 3 {
        return None;
    }
    let image = text_at(args, 0)?;
    let world = text_at(args, 1)?;
    let script = text_at(args, 2)?;
    Some(Command::Debug {
        image,
        world,
        script,
    })
}

#[tactic(auto, unfolding(crate::specs::Form::audit_in))]
fn audit_in<'a>(args: &[&'a str]) -> Option<Command<'a>>
    ensures form { option_map spec.seen result ≡ spec.audit_in (map (λ s. s.now) args.now) }
    ensures few { IfSome result spec.HasFewTasks }
{
    if args.len() > 3 {
        return None;
    }
    let program = text_at(args, 0)?;
    let world = text_at(args, 1)?;
    let report = text_at(args, 2)?;
    Some(Command::Audit {
        program,
        world,
        report,
    })
}

#[tactic(auto, unfolding(crate::specs::Form::soak_in))]
fn soak_in<'a>(args: &[&'a str]) -> Option<Command<'a>>
    ensures form { option_map spec.seen result ≡ spec.soak_in (map (λ s. s.now) args.now) }
    ensures few { IfSome result spec.HasFewTasks }
{
    if args.len() > 1 {
        return None;
    }
    let number = number_in(text_at(args, 0)?, u32::MAX)?;
    Some(Command::Soak { number })
}

#[tactic(auto, using(crate::proofs::FormLaws::text_seen))]
fn text_at<'a>(args: &[&'a str], at: usize) -> Option<&'a str>
    ensures { option_map (λ s. s.now) result ≡ slice_get (map (λ s. s.now) args.now) at }
{
    args.get(at).copied()
}

// The number, at most `most`, whose decimal digits the word is.
fn number_in(word: &str, most: u32) -> Option<u32>
    ensures number { result ≡ spec.number_in most word.now }
    ensures few { IfSome result (λ n. n ≤ most) }
{
    number_of(word, most)
}

// The same, by the digits of each number.
fn number_of(word: &str, most: u32) -> Option<u32>
    ensures found { IfSome result (λ n. (n ≤ most) × (word.now ≡ decimal n)) }
    ensures none { IfNone result ((n : ℕ) → n ≤ most → word.now ≡ decimal n → ⊥) }
{
    let Ok(n) = word.parse::<u32>() else {
        return None;
    };
    let mut text = [0; 20];
    let count = digits(u64::from(n), &mut text);
    if n > most || &text[..count] != word.as_bytes() {
        return None;
    }
    Some(n)
}
