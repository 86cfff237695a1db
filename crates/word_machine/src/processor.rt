//! The parts of a machine that its steps change: the program counter, the registers, the memories, the engine and the ending.
ghost use Rattle.std.specs.Prelude.{◌≡◌, ◌+◌, ◌<◌, ◌≤◌, ◌^◌, ◌%◌, ◌&&◌, length, is_ok, OnOk, OnErr, IfOk};
ghost use Rattle.devices.specs.declared.event.Event.TheVariants as the;
ghost use Rattle.fram_ram.specs.Engine.{idle, begun, moved_word, advanced, next_source, next_destination, length_of};
ghost use Rattle.fram_ram.specs.Memories.{has_word, put, failed};
ghost use Rattle.word_machine.specs.Held.{core_of, first_core};
ghost use Rattle.word_machine.specs.State.{all_registers};
ghost use Rattle.word_machine.specs.declared.ending.Ending.TheVariants as ending;
ghost use Rattle.word_machine.specs.declared.stepped.Stepped.TheVariants as stepped;

use crate::ending::Ending;
use crate::registers::Registers;
use crate::stepped::Stepped;
use devices::Event;
use ease_base::NoMemory;
use fram_ram::{Bus, Engine, Memories};
use std::alloc::Global;
use std::marker::Model;

/// A program counter, registers, memories, an engine, and whether the machine goes on.
#[derive(Drop)]
pub struct Processor {
    pub pc: u32,
    pub registers: Registers,
    pub memories: Memories,
    pub engine: Engine,
    pub ending: Ending,
}

impl Model for Processor {
    ghost use Rattle.word_machine.specs.Held.{Held};

    ghost Value = { Held };

    ghost view = { λ p. record { pc = p.pc; registers = p.registers; memories = p.memories; engine = p.engine; ending = p.ending } };
}

impl Processor {
    /// At the first boot: FRAM begins with these words, and everything else is 0.
    #[tactic(auto, unfolding(crate::specs::Held::core_of))]
    pub fn make(alloc: Global, fram: &[u32]) -> Result<Processor, NoMemory>
        requires { length fram.now ≤ 65536 }
        ensures { IfOk result (λ p. core_of p ≡ first_core fram.now) }
    {
        Ok(Processor {
            pc: 0,
            registers: Registers::all(0),
            memories: Memories::make(alloc, fram)?,
            engine: Engine::new(),
            ending: Ending::Running,
        })
    }

    /// A power failure: only FRAM stays.
    #[tactic(auto, unfolding(crate::specs::Held::core_of))]
    pub fn fail(&mut self, fill: u32)
        ensures { core_of self.new ≡ record (core_of self.old) {
          pc = 0;
          regs = all_registers fill;
          store = failed (core_of self.old).store fill;
          engine = idle;
        } }
    {
        self.pc = 0;
        self.registers = Registers::all(fill);
        self.memories.fail(fill);
        self.engine.stop();
    }

    /// The code address of the next instruction.
    #[tactic(auto, unfolding(crate::specs::Held::core_of))]
    pub fn counter(&self) -> u32
        ensures { result ≡ (core_of self.now).pc }
    {
        self.pc
    }

    /// Whether the machine goes on.
    #[tactic(auto, unfolding(crate::specs::Held::core_of))]
    pub fn ending(&self) -> Ending
        ensures { result ≡ (core_of self.now).ending }
    {
        self.ending
    }

    /// How many words the engine has left to move.
    #[tactic(auto, unfolding(crate::specs::Held::core_of))]
    pub fn left(&self) -> u32
        ensures { result ≡ (core_of self.now).engine.left }
    {
        self.engine.left()
    }

    /// Moves the engine's next word, and is idle after the last one and after `Bus`.
    #[tactic(auto, unfolding(crate::specs::Held::core_of))]
    pub fn move_word(&mut self) -> Result<(), Bus>
        requires { 0 < (core_of self.old).engine.left }
        ensures found { is_ok result ≡ (has_word (next_source (core_of self.old).engine) && has_word (next_destination (core_of self.old).engine)) }
        ensures ok { OnOk result (core_of self.new
            ≡ record (core_of self.old) { store = moved_word (core_of self.old).engine (core_of self.old).store; engine = advanced (core_of self.old).engine }) }
        ensures err { OnErr result (core_of self.new ≡ record (core_of self.old) { engine = idle }) }
    {
        self.engine.move_one(&mut self.memories)
    }

    /// The event of the copy that the engine is at, of this site.
    #[tactic(auto, unfolding(crate::specs::Held::core_of))]
    pub fn copied(&self, site: u8) -> Event
        ensures { result ≡ the.Copied site (core_of self.now).engine.from (core_of self.now).engine.to (length_of (core_of self.now).engine) }
    {
        Event::Copied(
            site,
            self.engine.source(),
            self.engine.destination(),
            self.engine.length(),
        )
    }

    /// The word of a register.
    #[tactic(auto, unfolding(crate::specs::Held::core_of))]
    pub fn get(&self, r: u8) -> u32
        requires { r < 16 }
        ensures { result ≡ (core_of self.now).regs r }
    {
        self.registers.get(r)
    }

    /// Gives a register a word.
    #[tactic(auto, unfolding(crate::specs::Held::core_of))]
    pub fn set(&mut self, r: u8, word: u32)
        requires { r < 16 }
        ensures { core_of self.new ≡ record (core_of self.old) { regs = put (core_of self.old).regs r word } }
    {
        self.registers.set(r, word);
    }

    /// Goes on at a code address.
    #[tactic(auto, unfolding(crate::specs::Held::core_of))]
    pub fn jump(&mut self, at: u32)
        ensures { core_of self.new ≡ record (core_of self.old) { pc = at } }
    {
        self.pc = at;
    }

    /// Goes on so many places behind the counter.
    #[tactic(auto, unfolding(crate::specs::Held::core_of))]
    pub fn skip(&mut self, n: u16)
        requires { (core_of self.old).pc + n < 2 ^ 32 }
        ensures { core_of self.new ≡ record (core_of self.old) { pc = (core_of self.old).pc + n } }
    {
        self.pc += u32::from(n);
    }

    /// Begins a transfer of so many words.
    #[tactic(auto, unfolding(crate::specs::Held::core_of))]
    pub fn start(&mut self, to: u32, from: u32, n: u32)
        requires { (core_of self.old).engine.left ≡ 0 }
        ensures { core_of self.new ≡ record (core_of self.old) { engine = begun to from n } }
    {
        self.engine.start(to, from, n);
    }

    /// The word at an address.
    #[tactic(auto, unfolding(crate::specs::Held::core_of))]
    pub fn load(&self, at: u32) -> Result<u32, Bus>
        ensures found { is_ok result ≡ has_word at }
        ensures word { IfOk result (λ word. word ≡ (core_of self.now).store at) }
    {
        self.memories.load(at)
    }

    /// Puts a word at an address.
    #[tactic(auto, unfolding(crate::specs::Held::core_of))]
    pub fn store(&mut self, at: u32, word: u32) -> Result<(), Bus>
        ensures found { is_ok result ≡ has_word at }
        ensures ok { OnOk result (core_of self.new ≡ record (core_of self.old) { store = put (core_of self.old).store at word }) }
        ensures err { OnErr result (core_of self.new ≡ core_of self.old) }
    {
        self.memories.store(at, word)
    }

    /// Ends the machine as by HALT.
    #[tactic(auto, unfolding(crate::specs::Held::core_of))]
    pub fn halt(&mut self) -> Stepped
        ensures state { core_of self.new ≡ record (core_of self.old) { ending = ending.Halted } }
        ensures answer { result ≡ stepped.Halted }
    {
        self.ending = Ending::Halted;
        Stepped::Halted
    }

    /// Ends the machine by a trap.
    #[tactic(auto, unfolding(crate::specs::Held::core_of))]
    pub fn trap(&mut self, code: u32) -> Stepped
        ensures state { core_of self.new ≡ record (core_of self.old) { ending = ending.Trapped code } }
        ensures answer { result ≡ stepped.Trapped code }
    {
        self.ending = Ending::Trapped(code);
        Stepped::Trapped(code)
    }

    /// The address that a load or a store with these operands takes.
    pub fn address(&self, b: u8, m: u16) -> u32
        requires { b < 16 }
        ensures { result ≡ ((core_of self.now).regs b + m) % 2 ^ 32 }
    {
        self.get(b).wrapping_add(u32::from(m))
    }
}
