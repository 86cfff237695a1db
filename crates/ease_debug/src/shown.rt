//! The lines that show words, registers and reasons, and the last line.
ghost use Rattle.std.specs.Prelude.{◌≡◌, ◌+◌, ◌<◌, ◌≤◌, ◌^◌, codes, ℕ, Some};
ghost use Rattle.std.specs.List.{flat_map, slice_get};
ghost use Rattle.ease_debug.specs.Shown as spec;
ghost use Rattle.power_trace.specs.Report.{number};
ghost use Rattle.power_trace.specs.Writing.{Writes};
ghost use Rattle.word_machine.specs.Held.{core_of};
ghost use Rattle.word_machine.specs.Places.{words_from, bank_offset};

use crate::end::DebugEnd;
use crate::why::Why;
use devices::RunEnd;
use ease_base::{Failed, Sink, send_all};
use power_trace::{Line, end_line};
use task_ast::Kind;
use word_isa::{Image, Symbol};
use word_machine::Machine;

/// Writes the line of a symbol's words, in the bank in use.
pub fn send_words<K: Sink>(
    machine: &Machine,
    image: &Image,
    symbol: &Symbol,
    out: &mut K,
) -> Result<(), Failed>
    ensures { Writes result (K.taken out.old) (K.taken out.new) (K.faults out.old) (K.faults out.new)
        (spec.words_line image.now symbol.now (core_of machine.now.held).store) }
{
    let base = u64::from(symbol.base) + offset_in_use(machine, image, symbol.kind);
    send(symbol.name.as_slice(), out)?;
    send(b" =", out)?;
    send_store(machine, base, symbol.length, out)?;
    send(b"\n", out)
}

// How far the words in use of this kind lie above their base.
fn offset_in_use(machine: &Machine, image: &Image, kind: Kind) -> u64
    ensures value { result ≡ spec.offset_in_use kind image.now.state image.now.stride (core_of machine.now.held).store }
    ensures small { result < 65536 }
{
    match kind {
        Kind::Nv => u64::from(word_at(machine, u64::from(image.state)) % 2)
            * u64::from(image.stride),
        Kind::Const | Kind::Vol => 0,
    }
}

// The word at an address, 0 where no memory has it.
fn word_at(machine: &Machine, at: u64) -> u32
    ensures { result ≡ (core_of machine.now.held).store at }
{
    match u32::try_from(at) {
        Ok(at) => machine.word(at).unwrap_or(0),
        Err(_) => 0,
    }
}

// Writes so many words from an address on.
fn send_store<K: Sink>(machine: &Machine, base: u64, count: u32, out: &mut K) -> Result<(), Failed>
    requires { base < 2 ^ 33 }
    ensures { Writes result (K.taken out.old) (K.taken out.new) (K.faults out.old) (K.faults out.new)
        (flat_map number (words_from count base (core_of machine.now.held).store)) }
{
    'words: for done in 0..count {
        send_number(word_at(machine, base + u64::from(done)), out)?;
    }
    Ok(())
}

/// Writes the line of the counter and the registers.
pub fn send_registers<K: Sink>(machine: &Machine, out: &mut K) -> Result<(), Failed>
    ensures { Writes result (K.taken out.old) (K.taken out.new) (K.faults out.old) (K.faults out.new)
        (spec.regs_line (core_of machine.now.held).pc (core_of machine.now.held).regs) }
{
    send(b"regs", out)?;
    send_number(machine.pc(), out)?;
    send_sixteen(machine, out)?;
    send(b"\n", out)
}

// Writes the sixteen registers.
fn send_sixteen<K: Sink>(machine: &Machine, out: &mut K) -> Result<(), Failed>
    ensures { Writes result (K.taken out.old) (K.taken out.new) (K.faults out.old) (K.faults out.new)
        (flat_map number (words_from 16 0 (core_of machine.now.held).regs)) }
{
    'registers: for r in 0..16 {
        send_number(machine.register(r), out)?;
    }
    Ok(())
}

/// Writes the line of why a site was last decided as it was.
pub fn send_why<K: Sink>(site: u8, why: Why, out: &mut K) -> Result<(), Failed>
    ensures { Writes result (K.taken out.old) (K.taken out.new) (K.faults out.old) (K.faults out.new) (spec.why_line site why) }
{
    let line = why_text(site, why);
    send(line.as_slice(), out)
}

// The line of why a site was last decided as it was.
fn why_text(site: u8, why: Why) -> Line
    ensures { result ≡ spec.why_line site why }
{
    let mut line = Line::new();
    line.put(b"why ");
    line.put_number(u64::from(site));
    line.put(b" ");
    line.put(why.word());
    line.put(b"\n");
    line
}

/// Writes the last line.
pub fn send_end<K: Sink>(end: DebugEnd, out: &mut K) -> Result<(), Failed>
    ensures { Writes result (K.taken out.old) (K.taken out.new) (K.faults out.old) (K.faults out.new) (spec.last_line end) }
{
    match end {
        DebugEnd::Script => send(b"end script\n", out),
        DebugEnd::Halted => send(end_line(true, 0, RunEnd::Halted).as_slice(), out),
        DebugEnd::Trapped(code) => send(end_line(true, 0, RunEnd::Trapped(code)).as_slice(), out),
        DebugEnd::Power => send(end_line(true, 0, RunEnd::Power).as_slice(), out),
    }
}

// Writes a number behind a space.
fn send_number<K: Sink>(n: u32, out: &mut K) -> Result<(), Failed>
    ensures { Writes result (K.taken out.old) (K.taken out.new) (K.faults out.old) (K.faults out.new) (number n) }
{
    let line = number_line(n);
    send(line.as_slice(), out)
}

// A number behind a space.
fn number_line(n: u32) -> Line
    ensures { result ≡ number n }
{
    let mut line = Line::new();
    line.put(b" ");
    line.put_number(u64::from(n));
    line
}

/// Writes these bytes, with all that a write says in one clause.
pub fn send<K: Sink>(text: &[u8], out: &mut K) -> Result<(), Failed>
    ensures { Writes result (K.taken out.old) (K.taken out.new) (K.faults out.old) (K.faults out.new) text.now }
{
    send_all(out, text)
}
