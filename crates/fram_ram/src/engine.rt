//! The engine that copies words from one range of addresses to another, one word at each call.
ghost use Rattle.std.specs.Prelude.{◌≡◌, ◌+◌, ◌<◌, ◌&&◌, is_ok, OnOk, OnErr};
ghost use Rattle.fram_ram.specs.Engine.{Transfer, idle, begun, next_source, next_destination, length_of, advanced, moved_word};
ghost use Rattle.fram_ram.specs.Memories.{has_word, words, put};

use crate::memories::{Bus, Memories};
use std::marker::Model;

/// An engine that is idle, or has words of a transfer left to move. Its words are moved in the order of their
/// addresses, the lowest first, each read at its own turn, so a range that overlaps its copy from above smears.
#[derive(Drop)]
pub struct Engine {
    to: u32,
    from: u32,
    moved: u32,
    left: u32,
}

impl Model for Engine {
    ghost use Rattle.fram_ram.specs.Engine.{Transfer};

    ghost Value = { Transfer };

    ghost view = { λ e. record { to = e.to; from = e.from; moved = e.moved; left = e.left } };

    ghost use Rattle.fram_ram.specs.Engine.{IsWithinWords};

    ghost invariant = { λ e. IsWithinWords e.to e.from e.moved e.left };
}

// Copies the word at one address to another.
fn move_word(memories: &mut Memories, to: u32, from: u32) -> Result<(), Bus>
    ensures found { is_ok result ≡ (has_word from && has_word to) }
    ensures ok { OnOk result (words memories.new ≡ put (words memories.old) to (words memories.old from)) }
    ensures err { OnErr result (words memories.new ≡ words memories.old) }
{
    let word = memories.load(from)?;
    memories.store(to, word)
}

impl Engine {
    /// An idle engine.
    pub fn new() -> Engine
        ensures { result ≡ idle }
    {
        Engine {
            to: 0,
            from: 0,
            moved: 0,
            left: 0,
        }
    }

    /// Begins a transfer of `n` words; one of no words leaves the engine idle.
    pub fn start(&mut self, to: u32, from: u32, n: u32)
        requires { self.old.left ≡ 0 }
        ensures { self.new ≡ begun to from n }
    {
        let _ = &self.left;
        if n > 0 {
            *self = Engine {
                to,
                from,
                moved: 0,
                left: n,
            };
        }
    }

    /// How many words are left to move; 0 exactly where the engine is idle.
    pub fn left(&self) -> u32
        ensures left { result ≡ self.now.left }
        ensures idle { result ≡ 0 → self.now ≡ idle }
    {
        self.left
    }

    /// The address of the transfer's first word, or 0 where the engine is idle.
    pub fn source(&self) -> u32
        ensures { result ≡ self.now.from }
    {
        self.from
    }

    /// The address to which the transfer's first word goes, or 0 where the engine is idle.
    pub fn destination(&self) -> u32
        ensures { result ≡ self.now.to }
    {
        self.to
    }

    /// The words of the whole transfer, moved or left, or 0 where the engine is idle.
    pub fn length(&self) -> u32
        ensures { result ≡ length_of self.now }
    {
        self.moved + self.left
    }

    /// Moves the next word, and is idle after the last. `Bus` exactly where no memory has one of the word's two
    /// addresses: then nothing is written, and the engine is idle. Addresses don't wrap behind 4294967295.
    #[tactic(auto, using(crate::proofs::EngineLemmas::next_within))]
    pub fn move_one(&mut self, memories: &mut Memories) -> Result<(), Bus>
        requires { 0 < self.old.left }
        ensures found { is_ok result ≡ (has_word (next_source self.old) && has_word (next_destination self.old)) }
        ensures moved { OnOk result (words memories.new ≡ moved_word self.old (words memories.old)) }
        ensures advanced { OnOk result (self.new ≡ advanced self.old) }
        ensures unwritten { OnErr result (words memories.new ≡ words memories.old) }
        ensures stopped { OnErr result (self.new ≡ idle) }
    {
        let answer = move_word(memories, self.to + self.moved, self.from + self.moved);
        if answer.is_ok() && self.left > 1 {
            self.moved += 1;
            self.left -= 1;
        } else {
            self.stop();
        }
        answer
    }

    /// Ends the transfer: the engine is idle.
    pub fn stop(&mut self)
        ensures { self.new ≡ idle }
    {
        *self = Engine::new();
    }
}
