//! A machine: its code, and what its steps change.
ghost use Rattle.std.specs.Prelude.{◌≡◌, ◌+◌, ◌-◌, ◌<◌, ◌^◌, ◌==◌, None, Some, slice_get, ℕ, List, IfOk, IfSome, OnSome, if◌then◌else◌};
ghost use Rattle.std.specs.Option.{option_and_then};
ghost use Rattle.devices.specs.Readings.{values_of};
ghost use Rattle.devices.specs.declared.outside.Outside.{Outside};
ghost use Rattle.fram_ram.specs.Memories.{has_word};
ghost use Rattle.word_isa.specs.Instructions.{FitsFields};
ghost use Rattle.word_machine.specs.Events.{told, stepped_next, fetched_event, copied_event, moved_event, worked_event};
ghost use Rattle.word_machine.specs.Held.{core_of, first_core, state_in, program_with, program_in};
ghost use Rattle.word_machine.specs.State.{program_of};
ghost use Rattle.word_machine.specs.Step.{fetched, moved, worked, step, fail};
ghost use Rattle.word_machine.specs.declared.ending.Ending.TheVariants as ending;

use crate::cell::{Cell, Sign};
use crate::ending::Ending;
use crate::events::site_of;
use crate::loading::{decode_all, sign_all};
use crate::processor::Processor;
use crate::stepped::Stepped;
use devices::{Event, Outside};
use ease_base::NoMemory;
use fram_ram::Bus;
use std::alloc::Global;
use std::marker::Model;
use word_isa::Image;

/// A machine with a program: it goes on step by step, until it halts or traps.
#[derive(Drop)]
pub struct Machine {
    code: Vec<Cell>,
    processor: Processor,
}

impl Model for Machine {
    ghost use Rattle.std.specs.Prelude.{◌≤◌, All, length};
    ghost use Rattle.word_isa.specs.Instructions.{FitsFields};
    ghost use Rattle.word_machine.specs.Held.{Loaded};

    ghost Value = { Loaded };

    ghost view = { λ m. record { code = m.code.items; held = m.processor } };

    ghost invariant = { λ m. All (λ c. FitsFields c.instr) m.code.items × (length m.code.items ≤ 4194304) };
}

impl Machine {
    /// The machine of an image at its first boot, before its first step. From now on no call takes memory.
    pub fn load(alloc: Global, image: &Image) -> Result<Machine, NoMemory>
        ensures state { IfOk result (λ m. core_of m.held ≡ first_core image.now.fram) }
        ensures program { IfOk result (λ m. (values : ℕ → List ℕ) → program_with m.code values ≡ program_of image.now.code image.now.marks values) }
    {
        let mut code = decode_all(alloc, image.code.as_slice())?;
        sign_all(&mut code, image.marks.as_slice());
        let processor = Processor::make(alloc, image.fram.as_slice())?;
        Ok(Machine { code, processor })
    }

    /// Does one step. A machine that halted or trapped gives the same answer again, and nothing changes.
    #[tactic(auto, unfolding(crate::specs::Step::step, crate::specs::Events::stepped_next, crate::specs::Events::event_next))]
    pub fn step(&mut self, w: &mut Outside) -> Stepped
        requires { w.old.clock < 4294967295 }
        ensures state { state_in self.new.held w.new ≡ step (program_in self.old w.old) (state_in self.old.held w.old) }
        ensures answer { result ≡ stepped_next (program_in self.old w.old) (state_in self.old.held w.old) }
        ensures program { program_in self.new w.new ≡ program_in self.old w.old }
    {
        match self.processor.ending() {
            Ending::Running => {
                let answer = self.work(w);
                w.clock.tick();
                answer
            }
            Ending::Halted => Stepped::Halted,
            Ending::Trapped(code) => Stepped::Trapped(code),
        }
    }

    /// A power failure: the registers and RAM become the fill word, the engine is idle and the counter 0. FRAM stays. On a
    /// machine that halted or trapped nothing changes.
    #[tactic(auto, unfolding(crate::specs::Step::fail))]
    pub fn fail(&mut self, fill: u32)
        ensures state { (w : Outside) → state_in self.new.held w ≡ fail fill (state_in self.old.held w) }
        ensures code { self.new.code ≡ self.old.code }
    {
        match self.processor.ending() {
            Ending::Running => self.processor.fail(fill),
            Ending::Halted | Ending::Trapped(_) => {}
        }
    }

    /// The word at an address; None where no memory has it.
    pub fn word(&self, at: u32) -> Option<u32>
        ensures { result ≡ (if has_word at then Some ((core_of self.now.held).store at) else None) }
    {
        self.processor.load(at).ok()
    }

    /// The word of a register.
    pub fn register(&self, r: u8) -> u32
        requires { r < 16 }
        ensures { result ≡ (core_of self.now.held).regs r }
    {
        self.processor.get(r)
    }

    /// The code address of the next instruction.
    pub fn pc(&self) -> u32
        ensures { result ≡ (core_of self.now.held).pc }
    {
        self.processor.counter()
    }

    // What a machine that goes on does in a step, but for the clock's tick.
    fn work(&mut self, w: &mut Outside) -> Stepped
        requires { (core_of self.old.held).ending ≡ ending.Running }
        ensures state { state_in self.new.held w.new ≡ worked (program_in self.old w.old) (state_in self.old.held w.old) }
        ensures answer { result ≡ told (state_in self.new.held w.new).ending (worked_event (program_in self.old w.old) (state_in self.old.held w.old)) }
        ensures code { self.new.code ≡ self.old.code }
        ensures values { values_of w.new.readings ≡ values_of w.old.readings }
        ensures clock { w.new.clock ≡ w.old.clock }
    {
        if self.processor.left() > 0 {
            self.move_word()
        } else {
            self.fetch(w)
        }
    }

    // Moves the engine's next word.
    fn move_word(&mut self) -> Stepped
        requires running { (core_of self.old.held).ending ≡ ending.Running }
        requires left { 0 < (core_of self.old.held).engine.left }
        ensures state { (w : Outside) → state_in self.new.held w ≡ moved (state_in self.old.held w) }
        ensures answer { (w : Outside) → result
            ≡ told (state_in self.new.held w).ending (moved_event (program_in self.old w) (state_in self.old.held w)) }
        ensures code { self.new.code ≡ self.old.code }
    {
        let event = self.copied();
        match self.processor.move_word() {
            Ok(()) => Stepped::Ran(event),
            Err(Bus) => self.processor.trap(16),
        }
    }

    // The event of the copy whose last word is next.
    fn copied(&self) -> Option<Event>
        ensures { (w : Outside) → result ≡ copied_event (program_in self.now w) (state_in self.now.held w) }
    {
        if self.processor.left() != 1 {
            return None;
        }
        let sign = self.sign_before();
        Some(self.processor.copied(site_of(sign)))
    }

    // What stands at a code address.
    fn cell_at(&self, at: u32) -> Option<Cell>
        ensures cell { result ≡ slice_get self.now.code at }
        ensures fits { IfSome result (λ cell. FitsFields cell.instr) }
        ensures below { OnSome result (at < 4194304) }
    {
        self.code.get(at as usize).copied()
    }

    // What a mark says of the instruction before the counter.
    fn sign_before(&self) -> Option<Sign>
        ensures { result ≡ option_and_then (λ c. c.sign) (slice_get self.now.code ((core_of self.now.held).pc - 1)) }
    {
        let at = self.processor.counter().saturating_sub(1);
        self.cell_at(at)?.sign
    }

    // Does the instruction at the counter, or traps where there is none.
    fn fetch(&mut self, w: &mut Outside) -> Stepped
        requires running { (core_of self.old.held).ending ≡ ending.Running }
        requires idle { (core_of self.old.held).engine.left ≡ 0 }
        ensures state { state_in self.new.held w.new
            ≡ fetched (program_in self.old w.old) ((program_in self.old w.old).instr (core_of self.old.held).pc) (state_in self.old.held w.old) }
        ensures answer { result ≡ told (state_in self.new.held w.new).ending
            (fetched_event (program_in self.old w.old) ((program_in self.old w.old).instr (core_of self.old.held).pc) (state_in self.old.held w.old)) }
        ensures code { self.new.code ≡ self.old.code }
        ensures values { values_of w.new.readings ≡ values_of w.old.readings }
        ensures clock { w.new.clock ≡ w.old.clock }
    {
        let Some(cell) = self.cell_at(self.processor.counter()) else {
            return self.processor.trap(17);
        };
        self.processor.skip(1);
        self.processor.act(cell, w)
    }
}
