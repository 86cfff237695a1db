//! The text of an event as a report's line has it.
ghost use Rattle.std.specs.Prelude.{◌≡◌, ◌++◌, ◌<◌, ◌^◌, codes, decimal, []};
ghost use Rattle.std.specs.List.{flat_map};
ghost use Rattle.devices.specs.Journal.{placed, arguments_of};
ghost use Rattle.power_trace.specs.Put.{IsPut};
ghost use Rattle.power_trace.specs.Report as spec;
ghost use Rattle.power_trace.specs.Short.{HasWords};
ghost use Rattle.word_isa.specs.Entries.{span, shift};
ghost use Rattle.word_machine.specs.Places.{kept_or_bare, place_of};

use crate::line::Line;
use devices::{Args, Event};
use ease_base::Peripheral;
use task_ast::Kind;
use word_isa::{Image, Symbol};

/// Puts the text of an event behind, with the names of the image; in brief a look has no time.
#[tactic(auto, using(crate::specs::LineLaws::put_more, crate::proofs::ShortLemmas::place_words, crate::proofs::ShortLemmas::args_words))]
pub fn put_event(line: &mut Line, image: &Image, brief: bool, event: Event)
    ensures text { IsPut line.old line.new (spec.event_text (spec.style_of image.now brief) (placed (spec.place_in image.now) event)) }
    ensures words { HasWords (placed (spec.place_in image.now) event) }
{
    match event {
        Event::Begin(task) => put_named(line, b"begin", u32::from(task)),
        Event::Look(site, time) => put_look(line, brief, site, time),
        Event::Kept(site, value) => {
            put_named(line, b"kept", u32::from(site));
            put_field(line, value);
        }
        Event::Dropped(site) => put_named(line, b"drop", u32::from(site)),
        Event::Issued(site, peripheral, args, reading) => {
            put_issue(
                line,
                image.peripherals.as_slice(),
                site,
                peripheral,
                args,
                reading,
            );
        }
        Event::Sealed(site) => put_named(line, b"seal", u32::from(site)),
        Event::Copied(site, from, to, words) => put_copy(line, image, site, from, to, words),
        Event::Commit(next) => put_named(line, b"commit", u32::from(next)),
    }
}

/// Puts a word and a number behind it.
#[tactic(auto, using(crate::specs::LineLaws::put_more))]
pub fn put_named(line: &mut Line, word: &[u8], n: u32)
    ensures { IsPut line.old line.new (word.now ++ spec.number n) }
{
    line.put(word);
    put_field(line, n);
}

// Puts a number behind a space.
#[tactic(auto, using(crate::specs::LineLaws::put_more))]
fn put_field(line: &mut Line, n: u32)
    ensures { IsPut line.old line.new (spec.number n) }
{
    line.put(b" ");
    line.put_number(u64::from(n));
}

// Puts a look, without its time in brief.
#[tactic(auto, using(crate::specs::LineLaws::put_more))]
fn put_look(line: &mut Line, brief: bool, site: u8, time: u32)
    ensures { IsPut line.old line.new (spec.look_text brief site time) }
{
    put_named(line, b"look", u32::from(site));
    if !brief {
        put_field(line, time);
    }
}

// Puts an issue: its site, the peripheral's name, the arguments and the reading.
#[tactic(auto, using(crate::specs::LineLaws::put_more))]
fn put_issue(
    line: &mut Line,
    peripherals: &[Peripheral],
    site: u8,
    peripheral: u8,
    args: Args,
    reading: u32,
)
    ensures { IsPut line.old line.new (spec.issue_text peripherals.now site peripheral (arguments_of args) reading) }
{
    put_named(line, b"issue", u32::from(site));
    line.put(b" ");
    put_peripheral(line, peripherals, peripheral);
    put_args(line, args);
    line.put(b" =");
    put_field(line, reading);
}

// Puts the name of a peripheral, or its number behind `#` where no peripheral of the image has it.
#[tactic(auto, using(crate::specs::LineLaws::put_more))]
fn put_peripheral(line: &mut Line, peripherals: &[Peripheral], number: u8)
    ensures { IsPut line.old line.new (spec.peripheral_name peripherals.now number) }
{
    match peripherals.split_first() {
        Some((peripheral, others)) => {
            if peripheral.number == number {
                line.put(peripheral.name.as_slice());
            } else {
                put_peripheral(line, others, number);
            }
        }
        None => {
            line.put(b"#");
            line.put_number(u64::from(number));
        }
    }
}

// Puts the arguments, each behind a space.
#[tactic(auto, using(crate::specs::LineLaws::put_more))]
fn put_args(line: &mut Line, args: Args)
    ensures { IsPut line.old line.new (flat_map spec.number (arguments_of args)) }
{
    let words = [args.a0, args.a1, args.a2, args.a3];
    let count = (args.count as usize).min(4);
    put_words(line, &words[..count]);
}

// Puts numbers, each behind a space.
#[tactic(auto, using(crate::specs::LineLaws::put_more))]
fn put_words(line: &mut Line, words: &[u32])
    ensures { IsPut line.old line.new (flat_map spec.number words.now) }
{
    match words.split_first() {
        Some((word, others)) => {
            put_field(line, *word);
            put_words(line, others);
        }
        None => line.put(b""),
    }
}

// Puts a copy: its site, both ends and the number of words.
#[tactic(auto, using(crate::specs::LineLaws::put_more))]
fn put_copy(line: &mut Line, image: &Image, site: u8, from: u32, to: u32, words: u32)
    ensures { IsPut line.old line.new (codes "copy" ++ spec.number site ++ codes " " ++ spec.place_text image.now.symbols (spec.place_in image.now from)
        ++ codes " " ++ spec.place_text image.now.symbols (spec.place_in image.now to) ++ spec.number words) }
{
    put_named(line, b"copy", u32::from(site));
    line.put(b" ");
    put_place(line, image, from);
    line.put(b" ");
    put_place(line, image, to);
    put_field(line, words);
}

// Puts the place of an address, by the image's symbols and kept words.
#[tactic(auto, using(crate::specs::LineLaws::put_more))]
fn put_place(line: &mut Line, image: &Image, at: u32)
    ensures { IsPut line.old line.new (spec.place_text image.now.symbols (spec.place_in image.now at)) }
{
    put_place_of(
        line,
        image.symbols.as_slice(),
        image.stride,
        image.keep,
        image.keep_words,
        at,
    );
}

// The same by the symbols from here on.
#[tactic(auto, using(crate::specs::LineLaws::put_more))]
fn put_place_of(
    line: &mut Line,
    symbols: &[Symbol],
    stride: u16,
    keep: u16,
    keep_words: u16,
    at: u32,
)
    ensures { IsPut line.old line.new (spec.place_text symbols.now (place_of symbols.now stride keep keep_words at)) }
{
    let Some((symbol, others)) = symbols.split_first() else {
        return put_bare(line, keep, keep_words, at);
    };
    match index_in(symbol, stride, at) {
        Some(index) => put_cell(line, symbol.name.as_slice(), index),
        None => put_place_of(line, others, stride, keep, keep_words, at),
    }
}

// Puts `keep` where the address is one of the kept words, and else `@` and the address.
#[tactic(auto, using(crate::specs::LineLaws::put_more))]
fn put_bare(line: &mut Line, keep: u16, keep_words: u16, at: u32)
    ensures { IsPut line.old line.new (spec.place_text [] (kept_or_bare (span keep keep_words) at)) }
{
    if keep as u32 <= at && at < keep as u32 + keep_words as u32 {
        line.put(b"keep");
    } else {
        line.put(b"@");
        line.put_number(u64::from(at));
    }
}

// Puts a word of a symbol as `NAME[I]`.
#[tactic(auto, using(crate::specs::LineLaws::put_more))]
fn put_cell(line: &mut Line, name: &[u8], index: u32)
    ensures { IsPut line.old line.new (name.now ++ codes "[" ++ decimal index ++ codes "]") }
{
    line.put(name);
    line.put(b"[");
    line.put_number(u64::from(index));
    line.put(b"]");
}

// Which word of the symbol the address is, in either bank, from 0; at the base first.
fn index_in(symbol: &Symbol, stride: u16, at: u32) -> Option<u32>
    ensures { result ≡ spec.index_in symbol.now stride at }
{
    let base = u64::from(symbol.base);
    let second = base + shift(symbol.kind, stride);
    match index_from(base, symbol.length, at) {
        Some(index) => Some(index),
        None => index_from(second, symbol.length, at),
    }
}

// By how much the second bank lies above the first, for words of this kind.
fn shift(kind: Kind, stride: u16) -> u64
    ensures { result ≡ shift kind stride }
{
    match kind {
        Kind::Nv => u64::from(stride),
        Kind::Const | Kind::Vol => 0,
    }
}

// Which of so many words from a base on the address is.
fn index_from(base: u64, length: u32, at: u32) -> Option<u32>
    requires { base < 2 ^ 33 }
    ensures { result ≡ spec.index_from (span base length) at }
{
    let at = u64::from(at);
    if base <= at && at < base + u64::from(length) {
        Some((at - base) as u32)
    } else {
        None
    }
}
