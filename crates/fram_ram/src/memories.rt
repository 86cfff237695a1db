//! The memories: FRAM at the addresses 0 to 65535, which outlives a power failure, and RAM at 1048576 to 1052671.
ghost use Rattle.std.specs.Prelude.{◌≡◌, ◌≤◌, ◌<◌, ℕ, length, slice_index, is_ok, vec_len, IfOk, OnOk, OnErr};
ghost use Rattle.fram_ram.specs.Memories.{has_word, words, put, failed};

use ease_base::NoMemory;
use std::alloc::Global;
use std::marker::Model;

const FRAM_WORDS: u32 = 65_536;

const RAM_START: u32 = 1_048_576;

const RAM_WORDS: u32 = 4_096;

/// No memory has the address.
#[derive(Clone, Copy, Debug, PartialEq, Eq)]
pub struct Bus;

/// A word, 0 to 4294967295, at each address of FRAM and of RAM.
#[derive(Drop)]
pub struct Memories {
    fram: Vec<u32>,
    ram: Vec<u32>,
}

impl Model for Memories {
    ghost use Rattle.std.specs.Prelude.{◌≡◌, length};
    ghost use Rattle.fram_ram.specs.Memories.{Contents};

    ghost Value = { Contents };

    ghost view = { λ m. record { fram = m.fram.items; ram = m.ram.items } };

    ghost invariant = { λ m. (length m.fram.items ≡ 65536) × (length m.ram.items ≡ 4096) };
}

// The words of `first`, and 0 behind them, `count` words in all.
fn filled(alloc: Global, first: &[u32], count: usize) -> Result<Vec<u32>, NoMemory>
    requires { length first.now ≤ count }
    ensures count { IfOk result (λ v. vec_len v ≡ count) }
    ensures words { IfOk result (λ v. (k : ℕ) → slice_index v.items k ≡ slice_index first.now k) }
{
    let mut words = Vec::with_capacity(alloc, count)?;
    words.extend_from_slice(first)?;
    words.resize(count, 0)?;
    Ok(words)
}

impl Memories {
    /// Memories whose FRAM begins with the words `first`; the rest of FRAM and all RAM are 0.
    pub fn make(alloc: Global, first: &[u32]) -> Result<Memories, NoMemory>
        requires { length first.now ≤ 65536 }
        ensures { IfOk result (λ m. words m ≡ slice_index first.now) }
    {
        let fram = filled(alloc, first, FRAM_WORDS as usize)?;
        let ram = filled(alloc, &[], RAM_WORDS as usize)?;
        Ok(Memories { fram, ram })
    }

    /// The word at an address; `Bus` exactly where no memory has it.
    pub fn load(&self, at: u32) -> Result<u32, Bus>
        ensures found { is_ok result ≡ has_word at }
        ensures word { IfOk result (λ word. word ≡ words self.now at) }
    {
        if at < FRAM_WORDS {
            return Ok(self.fram[at as usize]);
        }
        let place = at.wrapping_sub(RAM_START);
        if place < RAM_WORDS {
            return Ok(self.ram[place as usize]);
        }
        Err(Bus)
    }

    /// Puts a word at an address; `Bus` exactly where no memory has it, and then nothing changes.
    pub fn store(&mut self, at: u32, word: u32) -> Result<(), Bus>
        ensures found { is_ok result ≡ has_word at }
        ensures ok { OnOk result (words self.new ≡ put (words self.old) at word) }
        ensures err { OnErr result (words self.new ≡ words self.old) }
    {
        if at < FRAM_WORDS {
            self.fram[at as usize] = word;
            return Ok(());
        }
        let place = at.wrapping_sub(RAM_START);
        if place < RAM_WORDS {
            self.ram[place as usize] = word;
            return Ok(());
        }
        Err(Bus)
    }

    /// A power failure: every word of RAM becomes `fill`, and FRAM stays.
    pub fn fail(&mut self, fill: u32)
        ensures { words self.new ≡ failed (words self.old) fill }
    {
        self.ram.as_mut_slice().fill(fill);
    }
}
