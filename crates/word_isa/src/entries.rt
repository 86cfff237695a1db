//! The tests of an image's symbols and peripherals.
ghost use Rattle.std.specs.Prelude.{◌≡◌, ◌==◌, ◌<◌, [], IfSome, length};
ghost use Rattle.std.specs.List.{list_any};
ghost use Rattle.std.specs.Str.{bytes_eq};
ghost use Rattle.word_isa.specs.Entries as spec;

use crate::names::is_symbol_name;
use crate::parts::Symbol;
use crate::span::Span;
use ease_base::Peripheral;
use task_ast::Kind;

/// The place of the first bad symbol, from 0, in an image with these kept words and this stride. A symbol is bad where its
/// name can't stand or stands before, where it has no words, or where one of its ranges lies outside of its kind's memory
/// or meets the kept words or an earlier symbol.
pub fn first_bad_symbol(
    keep: u16,
    keep_words: u16,
    stride: u16,
    symbols: &[Symbol],
) -> Option<usize>
    ensures value { result ≡ spec.first_bad_symbol (spec.span keep keep_words) stride symbols.now }
    ensures within { IfSome result (λ at. at < length symbols.now) }
{
    first_bad_beside(
        Span::new(u64::from(keep), u32::from(keep_words)),
        stride,
        symbols,
    )
}

// The place of the first bad symbol beside kept words in this range.
fn first_bad_beside(kept: Span, stride: u16, symbols: &[Symbol]) -> Option<usize>
    ensures value { result ≡ spec.first_bad_symbol kept stride symbols.now }
    ensures within { IfSome result (λ at. at < length symbols.now) }
{
    'symbols: for at in 0..symbols.len() {
        if !symbol_passes(kept, stride, &symbols[..at], &symbols[at]) {
            return Some(at);
        }
    }
    None
}

/// The place of the first bad peripheral, from 0, behind these symbols. A peripheral is bad where its name can't stand or
/// stands before, or where its number does.
pub fn first_bad_peripheral(symbols: &[Symbol], peripherals: &[Peripheral]) -> Option<usize>
    ensures value { result ≡ spec.first_bad_peripheral symbols.now peripherals.now }
    ensures within { IfSome result (λ at. at < length peripherals.now) }
{
    'peripherals: for at in 0..peripherals.len() {
        if !peripheral_passes(symbols, &peripherals[..at], &peripherals[at]) {
            return Some(at);
        }
    }
    None
}

// Whether a symbol behind these earlier ones is good.
#[tactic(auto, unfolding(crate::specs::Entries::symbol_passes))]
fn symbol_passes(kept: Span, stride: u16, earlier: &[Symbol], s: &Symbol) -> bool
    ensures { result ≡ spec.symbol_passes kept stride earlier.now s.now }
{
    if !name_passes(earlier, &[], s.name.as_slice()) {
        return false;
    }
    if s.length == 0 {
        return false;
    }
    ranges_pass(kept, stride, earlier, s)
}

// Whether a peripheral behind these symbols and these earlier ones is good.
#[tactic(auto, unfolding(crate::specs::Entries::peripheral_passes))]
fn peripheral_passes(symbols: &[Symbol], earlier: &[Peripheral], p: &Peripheral) -> bool
    ensures { result ≡ spec.peripheral_passes symbols.now earlier.now p.now }
{
    if !name_passes(symbols, earlier, p.name.as_slice()) {
        return false;
    }
    !has_number(earlier, p.number)
}

fn has_number(peripherals: &[Peripheral], number: u8) -> bool
    ensures { result ≡ list_any (λ q. q.number == number) peripherals.now }
{
    peripherals.iter().any(|q| q.number == number)
}

// Whether the name can stand, and no symbol and no peripheral has it.
fn name_passes(symbols: &[Symbol], peripherals: &[Peripheral], name: &[u8]) -> bool
    ensures { result ≡ spec.name_passes symbols.now peripherals.now name.now }
{
    if !is_symbol_name(name) {
        return false;
    }
    if is_symbol(symbols, name) {
        return false;
    }
    !is_peripheral(peripherals, name)
}

fn is_symbol(symbols: &[Symbol], name: &[u8]) -> bool
    ensures { result ≡ list_any (λ s. bytes_eq s.name name.now) symbols.now }
{
    symbols.iter().any(|s| s.name.as_slice() == name)
}

fn is_peripheral(peripherals: &[Peripheral], name: &[u8]) -> bool
    ensures { result ≡ list_any (λ p. bytes_eq p.name name.now) peripherals.now }
{
    peripherals.iter().any(|p| p.name.as_slice() == name)
}

// Whether both ranges of a symbol lie in its kind's memory, and apart from the kept words and the earlier symbols.
fn ranges_pass(kept: Span, stride: u16, earlier: &[Symbol], s: &Symbol) -> bool
    ensures { result ≡ spec.ranges_pass kept stride earlier.now s.now }
{
    let own = own(s);
    let other = other_bank(stride, s);
    if !is_home(s.kind, own) {
        return false;
    }
    if !is_home(s.kind, other) {
        return false;
    }
    if !is_apart(kept, stride, earlier, own) {
        return false;
    }
    is_apart(kept, stride, earlier, other)
}

// The range at a symbol's base.
fn own(s: &Symbol) -> Span
    ensures { result ≡ spec.own s.now }
{
    Span::new(u64::from(s.base), s.length)
}

// The range in the second bank, which only nonvolatile words have; for others the first again.
fn other_bank(stride: u16, s: &Symbol) -> Span
    ensures { result ≡ spec.other_bank stride s.now }
{
    Span::new(u64::from(s.base) + shift(s.kind, stride), s.length)
}

fn shift(kind: Kind, stride: u16) -> u64
    ensures { result ≡ spec.shift kind stride }
{
    match kind {
        Kind::Nv => u64::from(stride),
        Kind::Const | Kind::Vol => 0,
    }
}

// Whether the range lies in the memory of its kind: volatile words in RAM, others in FRAM.
fn is_home(kind: Kind, range: Span) -> bool
    ensures { result ≡ spec.is_home kind range }
{
    match kind {
        Kind::Vol => range.from >= 1_048_576 && range.to <= 1_052_672,
        Kind::Nv | Kind::Const => range.to <= 65_536,
    }
}

// Whether the range meets neither the kept words nor a range of an earlier symbol.
fn is_apart(kept: Span, stride: u16, earlier: &[Symbol], range: Span) -> bool
    ensures { result ≡ spec.is_apart kept stride earlier.now range }
{
    if range.meets(kept) {
        return false;
    }
    !overlaps_one(stride, earlier, range)
}

fn overlaps_one(stride: u16, earlier: &[Symbol], range: Span) -> bool
    ensures { result ≡ list_any (spec.overlaps stride range) earlier.now }
{
    earlier.iter().any(|s| overlaps(stride, range, s))
}

fn overlaps(stride: u16, range: Span, s: &Symbol) -> bool
    ensures { result ≡ spec.overlaps stride range s.now }
{
    range.meets(own(s)) || range.meets(other_bank(stride, s))
}
