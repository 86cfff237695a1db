//! What each instruction does.
ghost use Rattle.std.specs.Prelude.{◌≡◌, ◌==◌, ◌+◌, ◌*◌, ◌/◌, ◌%◌, ◌<◌, ◌≤◌, ◌^◌, nat_lt, Some, None, if◌then◌else◌};
ghost use Rattle.devices.specs.declared.event.Event.TheVariants as the;
ghost use Rattle.devices.specs.Readings.{values_of};
ghost use Rattle.fram_ram.specs.Engine.{begun};
ghost use Rattle.fram_ram.specs.Memories.{put};
ghost use Rattle.word_isa.specs.Instructions.{FitsFields};
ghost use Rattle.word_isa.specs.declared.instr.Instr.TheVariants as instr;
ghost use Rattle.word_machine.specs.Events as spec;
ghost use Rattle.word_machine.specs.Events.{event, told, unless_fault};
ghost use Rattle.word_machine.specs.Held.{core_of, state_in};
ghost use Rattle.word_machine.specs.Instructions.{fault, act};
ghost use Rattle.word_machine.specs.Step.{done};
ghost use Rattle.word_machine.specs.declared.ending.Ending.TheVariants as ending;
ghost use Rattle.word_machine.specs.declared.stepped.Stepped.TheVariants as stepped;

use crate::cell::{Cell, Sign};
use crate::events::{marked, site_of};
use crate::processor::Processor;
use crate::stepped::Stepped;
use devices::{Args, Event, Outside};
use fram_ram::Bus;
use word_isa::Instr;

impl Processor {
    /// Does the instruction, behind which the counter already stands, or traps.
    pub fn act(&mut self, cell: Cell, w: &mut Outside) -> Stepped
        requires running { (core_of self.old).ending ≡ ending.Running }
        requires idle { (core_of self.old).engine.left ≡ 0 }
        requires fits { FitsFields cell.instr }
        requires room { (core_of self.old).pc + 65535 < 2 ^ 32 }
        ensures state { state_in self.new w.new
            ≡ done (values_of w.old.readings) cell.instr (fault cell.instr (state_in self.old w.old)) (state_in self.old w.old) }
        ensures answer { result ≡ told (state_in self.new w.new).ending (unless_fault (fault cell.instr (state_in self.old w.old))
            (event (values_of w.old.readings) cell.sign cell.instr (state_in self.old w.old))) }
        ensures clock { w.new.clock ≡ w.old.clock }
        ensures values { values_of w.new.readings ≡ values_of w.old.readings }
    {
        let sign = cell.sign;
        match cell.instr {
            Instr::Halt => self.halt(),
            Instr::Ldi(a, m) => self.assign(sign, a, u32::from(m)),
            Instr::Lui(a, m) => {
                let low = self.get(a) % 65_536;
                self.assign(sign, a, u32::from(m) * 65_536 + low)
            }
            Instr::Mov(a, b) => {
                let word = self.get(b);
                self.set(a, word);
                Stepped::Ran(marked(sign, word))
            }
            Instr::Add(a, b) => {
                let word = self.get(a).wrapping_add(self.get(b));
                self.assign(sign, a, word)
            }
            Instr::Sub(a, b) => {
                let word = self.get(a).wrapping_sub(self.get(b));
                self.assign(sign, a, word)
            }
            Instr::Mul(a, b) => {
                let word = self.get(a).wrapping_mul(self.get(b));
                self.assign(sign, a, word)
            }
            Instr::Div(a, b) => match self.get(a).checked_div(self.get(b)) {
                Some(word) => self.assign(sign, a, word),
                None => self.trap(2),
            },
            Instr::Rem(a, b) => match self.get(a).checked_rem(self.get(b)) {
                Some(word) => self.assign(sign, a, word),
                None => self.trap(2),
            },
            Instr::And(a, b) => {
                let word = self.get(a) & self.get(b);
                self.assign(sign, a, word)
            }
            Instr::Or(a, b) => {
                let word = self.get(a) | self.get(b);
                self.assign(sign, a, word)
            }
            Instr::Xor(a, b) => {
                let word = self.get(a) ^ self.get(b);
                self.assign(sign, a, word)
            }
            Instr::Shl(a, b) => {
                let word = shifted_up(self.get(a), self.get(b));
                self.assign(sign, a, word)
            }
            Instr::Shr(a, b) => {
                let word = shifted_down(self.get(a), self.get(b));
                self.assign(sign, a, word)
            }
            Instr::Eq(a, b) => {
                let word = u32::from(self.get(a) == self.get(b));
                self.assign(sign, a, word)
            }
            Instr::Ltu(a, b) => {
                let word = u32::from(self.get(a) < self.get(b));
                self.assign(sign, a, word)
            }
            Instr::Adi(a, m) => {
                let word = self.get(a).wrapping_add(u32::from(m));
                self.assign(sign, a, word)
            }
            Instr::Ld(a, b, m) => match self.load(self.address(b, m)) {
                Ok(word) => self.assign(sign, a, word),
                Err(Bus) => self.trap(16),
            },
            Instr::St(a, b, m) => match self.store(self.address(b, m), self.get(a)) {
                Ok(()) => Stepped::Ran(marked(sign, 0)),
                Err(Bus) => self.trap(16),
            },
            Instr::Jmp(t) => {
                self.jump(t);
                Stepped::Ran(marked(sign, 0))
            }
            Instr::Jz(a, m) => {
                self.skip_if_zero(a, m);
                Stepped::Ran(marked(sign, 0))
            }
            Instr::Io(a, b, m) => self.issue(sign, a, b, m, w),
            Instr::Time(a) => {
                let time = w.clock.now();
                self.set(a, time);
                Stepped::Ran(Some(Event::Look(site_of(sign), time)))
            }
            Instr::Dma(a, b, m) => self.copy(sign, a, b, m),
            Instr::Trap(m) => self.trap(u32::from(m)),
        }
    }

    // Gives a register a word, and answers with the event of a mark.
    fn assign(&mut self, sign: Option<Sign>, r: u8, word: u32) -> Stepped
        requires { r < 16 }
        ensures state { core_of self.new ≡ record (core_of self.old) { regs = put (core_of self.old).regs r word } }
        ensures answer { result ≡ stepped.Ran (spec.marked sign 0) }
    {
        self.set(r, word);
        Stepped::Ran(marked(sign, 0))
    }

    // Goes on m places behind the counter where a is 0.
    fn skip_if_zero(&mut self, a: u8, m: u16)
        requires a_fits { a < 16 }
        requires room { (core_of self.old).pc + m < 2 ^ 32 }
        ensures { core_of self.new
            ≡ record (core_of self.old) { pc = if (core_of self.old).regs a == 0 then (core_of self.old).pc + m else (core_of self.old).pc } }
    {
        if self.get(a) == 0 {
            self.skip(m);
        }
    }

    // Starts a transfer to the address in a, from that in b, of as many words as the register m says.
    fn copy(&mut self, sign: Option<Sign>, a: u8, b: u8, m: u16) -> Stepped
        requires idle { (core_of self.old).engine.left ≡ 0 }
        requires a_fits { a < 16 }
        requires b_fits { b < 16 }
        requires m_fits { m < 16 }
        ensures state { core_of self.new
            ≡ record (core_of self.old) { engine = begun ((core_of self.old).regs a) ((core_of self.old).regs b) ((core_of self.old).regs m) } }
        ensures answer { result ≡ stepped.Ran (if (core_of self.old).regs m == 0
            then Some (the.Copied (spec.site_of sign) ((core_of self.old).regs b) ((core_of self.old).regs a) 0) else None) }
    {
        let to = self.get(a);
        let from = self.get(b);
        let n = self.get(m as u8);
        self.start(to, from, n);
        if n == 0 {
            return Stepped::Ran(Some(Event::Copied(site_of(sign), from, to, 0)));
        }
        Stepped::Ran(None)
    }

    // Takes the next reading of the peripheral m mod 256, with m / 256 arguments in the registers from b on.
    fn issue(&mut self, sign: Option<Sign>, a: u8, b: u8, m: u16, w: &mut Outside) -> Stepped
        requires a_fits { a < 16 }
        requires few { m / 256 ≤ 4 }
        requires within { b + m / 256 ≤ 16 }
        ensures state { state_in self.new w.new ≡ act (values_of w.old.readings) (instr.Io a b m) (state_in self.old w.old) }
        ensures answer { result ≡ stepped.Ran (event (values_of w.old.readings) sign (instr.Io a b m) (state_in self.old w.old)) }
        ensures clock { w.new.clock ≡ w.old.clock }
        ensures values { values_of w.new.readings ≡ values_of w.old.readings }
    {
        let peripheral = (m % 256) as u8;
        let args = self.args((m / 256) as u8, b);
        let reading = w.readings.issue(peripheral);
        self.set(a, reading);
        Stepped::Ran(Some(Event::Issued(site_of(sign), peripheral, args, reading)))
    }

    // So many arguments, in the registers from one on.
    fn args(&self, n: u8, from: u8) -> Args
        requires { from + n ≤ 16 }
        ensures { result ≡ spec.args_of n from (core_of self.now).regs }
    {
        Args {
            count: n,
            a0: self.argument(n, from, 0),
            a1: self.argument(n, from, 1),
            a2: self.argument(n, from, 2),
            a3: self.argument(n, from, 3),
        }
    }

    // The k-th of these arguments, from 0; 0 behind the last.
    fn argument(&self, n: u8, from: u8, k: u8) -> u32
        requires { from + n ≤ 16 }
        ensures { result ≡ spec.argument n from k (core_of self.now).regs }
    {
        if k < n { self.get(from + k) } else { 0 }
    }
}

// The word shifted up; 0 where that is by 32 or more.
fn shifted_up(word: u32, by: u32) -> u32
    ensures { result ≡ (if nat_lt by 32 then word * 2 ^ by % 2 ^ 32 else 0) }
{
    if by < 32 { word << by } else { 0 }
}

// The word shifted down; 0 where that is by 32 or more.
fn shifted_down(word: u32, by: u32) -> u32
    ensures { result ≡ (if nat_lt by 32 then word / 2 ^ by else 0) }
{
    if by < 32 { word >> by } else { 0 }
}
