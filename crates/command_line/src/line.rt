//! The words of a command line as positionals, a flag and an option, read by `clap`.
ghost use Rattle.std.specs.Prelude.{◌≡◌, [], map, codes, string_bytes, option_map, unwrap_or, IfOk};
ghost use Rattle.clap.specs.Words.{app_of, found_of, matched_of, raw_values, rows_of};
ghost use Rattle.std.specs.Str.{IsUtf8};
ghost use Rattle.command_line.specs.Line.{Line, line_of};
ghost use Rattle.command_line.specs.Parsed.{AreTexts, IsLine, Reads, Matches, Shows};
ghost use Rattle.command_line.specs.Words.{ease_app};

use clap::error::ErrorKind;
use clap::{Arg, ArgAction, ArgMatches, Command};
use ease_base::NoMemory;
use std::alloc::{AllocError, Global};

/// What the words of a command line are: the first positional, the others, and the two options.
#[derive(Drop)]
pub struct Words<'a> {
    pub command: Option<&'a str>,
    pub args: Vec<&'a str>,
    pub brief: bool,
    pub scheme: Option<&'a str>,
}

// The command that `clap` matches the words with.
fn ease_command<'a>(alloc: Global) -> Result<Command<'a>, AllocError>
    ensures { IfOk result (λ c. app_of c ≡ ease_app) }
{
    let command = Arg::new(alloc, "COMMAND");
    let args = Arg::new(alloc, "ARGS").action(ArgAction::Append);
    let brief = Arg::new(alloc, "brief")
        .long("brief")
        .action(ArgAction::SetTrue);
    let scheme = Arg::new(alloc, "scheme").long("scheme");
    Command::new(alloc, "ease")
        .no_binary_name(true)
        .disable_help_flag(true)
        .disable_version_flag(true)
        .arg(command)?
        .arg(args)?
        .arg(brief)?
        .arg(scheme)
}

// A word is a text in UTF-8, which is learned where its bytes are looked at.
fn word_is_text(word: &String)
    ensures { IsUtf8 (string_bytes word.now) }
{
    let _text = word.as_str();
}

// All words are texts in UTF-8.
pub fn words_are_texts(words: &[String])
    ensures { AreTexts (map string_bytes words.now) }
{
    'words: for word in words {
        word_is_text(word);
    }
}

// The matches of the words; None exactly where no line has them.
fn matches_of<'a>(alloc: Global, words: &'a [String]) -> Result<Option<ArgMatches<'a>>, NoMemory>
    ensures { IfOk result (Matches (map string_bytes words.now)) }
{
    words_are_texts(words);
    let command = ease_command(alloc)?;
    match command.try_get_matches_from(words) {
        Ok(matches) => Ok(Some(matches)),
        Err(e) => {
            if e.kind() == ErrorKind::OutOfMemory {
                return Err(NoMemory);
            }
            Ok(None)
        }
    }
}

// The positionals behind the first.
fn args_in<'a>(alloc: Global, matches: &ArgMatches<'a>) -> Result<Vec<&'a str>, NoMemory>
    ensures { IfOk result (λ args. map (λ s. s.now) args.items
        ≡ unwrap_or (option_map raw_values (matched_of (found_of matches.now) (codes "ARGS"))) []) }
{
    match matches.get_raw("ARGS") {
        Some(args) => Ok(Vec::from_slice(alloc, args)?),
        None => Ok(Vec::new(alloc)),
    }
}

// The line that the matches show.
fn words_in<'a>(alloc: Global, matches: &ArgMatches<'a>) -> Result<Words<'a>, NoMemory>
    ensures { IfOk result (λ w. (l : Line) → Shows (rows_of (found_of matches.now)) l → IsLine w l) }
{
    Ok(Words {
        command: matches.get_str("COMMAND"),
        args: args_in(alloc, matches)?,
        brief: matches.get_flag("brief"),
        scheme: matches.get_str("scheme"),
    })
}

/// Reads the words of a command line; None exactly where they are no line.
pub fn read_words<'a>(alloc: Global, words: &'a [String]) -> Result<Option<Words<'a>>, NoMemory>
    ensures { IfOk result (Reads (map string_bytes words.now)) }
{
    match matches_of(alloc, words)? {
        Some(matches) => Ok(Some(words_in(alloc, &matches)?)),
        None => Ok(None),
    }
}
