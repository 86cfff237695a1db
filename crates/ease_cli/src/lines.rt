//! The lines that refusals write; docs/COMMANDS.md lists them.
ghost use Rattle.std.specs.Prelude.{◌≡◌, ◌≢◌, IfOk, OnOk};
ghost use Rattle.ease_base.specs.Lines.{line};
ghost use Rattle.ease_cli.specs.Lines as spec;

use ease_base::{NoMemory, Pos, Text};
use ease_debug::ScriptError;
use image_file::ImageError;
use std::alloc::Global;
use task_check::{CheckError, Limit};
use task_text::TextError;
use world_file::WorldError;

pub const USAGE: &[u8] = b"usage\n";

pub const READ_FAULT: &[u8] = b"read fault\n";

pub const TOO_LONG: &[u8] = b"too long\n";

/// The line of a text that is no program.
pub fn text_line(alloc: Global, fault: TextError) -> Result<Text, NoMemory>
    ensures line { IfOk result (λ text. text ≡ spec.text_line fault) }
    ensures memory { OnOk result (fault ≢ TextError.NoMemory) }
{
    match fault {
        TextError::Syntax(at) => syntax_line(alloc, at),
        TextError::NumberTooWide(at) => source_line(alloc, at, "number-too-wide"),
        TextError::NoMemory => Err(NoMemory),
    }
}

/// The line of a tree that isn't accepted.
pub fn check_line(alloc: Global, fault: CheckError) -> Result<Text, NoMemory>
    ensures line { IfOk result (λ text. text ≡ spec.check_line fault) }
    ensures memory { OnOk result (fault ≢ CheckError.NoMemory) }
{
    match fault {
        CheckError::UnknownName(at) => source_line(alloc, at, "unknown-name"),
        CheckError::TwiceNamed(at) => source_line(alloc, at, "twice-named"),
        CheckError::WrongKind(at) => source_line(alloc, at, "wrong-kind"),
        CheckError::ConstWritten(at) => source_line(alloc, at, "const-written"),
        CheckError::DmaUnderIf(at) => source_line(alloc, at, "dma-under-if"),
        CheckError::TooMany(at) => source_line(alloc, at, "too-many"),
        CheckError::LimitReached(at, limit, count) => limit_line(alloc, at, limit, count),
        CheckError::NoMemory => Err(NoMemory),
    }
}

/// The line of bytes that are no world.
pub fn world_line(alloc: Global, fault: WorldError) -> Result<Text, NoMemory>
    ensures line { IfOk result (λ text. text ≡ spec.world_line fault) }
    ensures memory { OnOk result (fault ≢ WorldError.NoMemory) }
{
    match fault {
        WorldError::NotToml => plain_line(alloc, "world not-toml"),
        WorldError::BadKey => plain_line(alloc, "world bad-key"),
        WorldError::BadValue => plain_line(alloc, "world bad-value"),
        WorldError::UnknownPeripheral => plain_line(alloc, "world unknown-peripheral"),
        WorldError::TooManySteps(sum) => numbered_line(alloc, "world too-many-steps", sum),
        WorldError::TooManyTicks(sum) => numbered_line(alloc, "world too-many-ticks", sum),
        WorldError::NoMemory => Err(NoMemory),
    }
}

/// The line of bytes that are no image.
pub fn image_line(alloc: Global, fault: ImageError) -> Result<Text, NoMemory>
    ensures line { IfOk result (λ text. text ≡ spec.image_line fault) }
    ensures memory { OnOk result (fault ≢ ImageError.NoMemory) }
{
    match fault {
        ImageError::BadMagic => plain_line(alloc, "image bad-magic"),
        ImageError::BadVersion(n) => numbered_line(alloc, "image bad-version", u64::from(n)),
        ImageError::BadScheme(n) => numbered_line(alloc, "image bad-scheme", u64::from(n)),
        ImageError::Short => plain_line(alloc, "image short"),
        ImageError::TooLarge(n) => numbered_line(alloc, "image too-large", u64::from(n)),
        ImageError::BadWord(n) => numbered_line(alloc, "image bad-word", u64::from(n)),
        ImageError::BadSymbol(n) => numbered_line(alloc, "image bad-symbol", u64::from(n)),
        ImageError::BadMark(n) => numbered_line(alloc, "image bad-mark", u64::from(n)),
        ImageError::Trailing => plain_line(alloc, "image trailing"),
        ImageError::NoMemory => Err(NoMemory),
    }
}

/// The line of bytes that are no script.
pub fn script_line(alloc: Global, fault: ScriptError) -> Result<Text, NoMemory>
    ensures line { IfOk result (λ text. text ≡ spec.script_line fault) }
    ensures memory { OnOk result (fault ≢ ScriptError.NoMemory) }
{
    match fault {
        ScriptError::Line(n) => numbered_line(alloc, "script line", u64::from(n)),
        ScriptError::NoMemory => Err(NoMemory),
    }
}

// The name of a fault on a line of its own.
fn plain_line(alloc: Global, name: &str) -> Result<Text, NoMemory>
    ensures { IfOk result (λ text. text ≡ line name.now) }
{
    let text = format!(in alloc; "{name}\n")?;
    Ok(Text::from_vec(text.into_bytes()))
}

// The name of a fault with its number.
fn numbered_line(alloc: Global, name: &str, n: u64) -> Result<Text, NoMemory>
    ensures { IfOk result (λ text. text ≡ spec.numbered name.now n) }
{
    let text = format!(in alloc; "{name} {n}\n")?;
    Ok(Text::from_vec(text.into_bytes()))
}

// `source syntax at L:C`
fn syntax_line(alloc: Global, at: Pos) -> Result<Text, NoMemory>
    ensures { IfOk result (λ text. text ≡ spec.syntax at) }
{
    let Pos { line, column } = at;
    let text = format!(in alloc; "source syntax at {line}:{column}\n")?;
    Ok(Text::from_vec(text.into_bytes()))
}

// `source L:C NAME`
fn source_line(alloc: Global, at: Pos, name: &str) -> Result<Text, NoMemory>
    ensures { IfOk result (λ text. text ≡ spec.source at name.now) }
{
    let Pos { line, column } = at;
    let text = format!(in alloc; "source {line}:{column} {name}\n")?;
    Ok(Text::from_vec(text.into_bytes()))
}

// `source L:C limit NAME COUNT`
fn limit_line(alloc: Global, at: Pos, limit: Limit, count: u128) -> Result<Text, NoMemory>
    ensures { IfOk result (λ text. text ≡ spec.source_limit at limit count) }
{
    let Pos { line, column } = at;
    let name = limit_name(limit);
    let text = format!(in alloc; "source {line}:{column} limit {name} {count}\n")?;
    Ok(Text::from_vec(text.into_bytes()))
}

// The name of a limit in its line.
fn limit_name(limit: Limit) -> &'static str
    ensures { result.now ≡ spec.limit_name limit }
{
    match limit {
        Limit::Tasks => "tasks",
        Limit::Names => "names",
        Limit::NvWords => "nv-words",
        Limit::VolWords => "vol-words",
        Limit::Length => "length",
        Limit::NameBytes => "name-bytes",
        Limit::PeripheralNumber => "peripheral",
        Limit::Turns => "turns",
        Limit::Loops => "loops",
        Limit::Sites => "sites",
        Limit::KeptWords => "kept-words",
        Limit::Nodes => "nodes",
    }
}
