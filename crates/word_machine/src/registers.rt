//! The sixteen registers.
ghost use Rattle.std.specs.Prelude.{◌≡◌, ◌<◌, slice_index};
ghost use Rattle.fram_ram.specs.Memories.{put};
ghost use Rattle.word_machine.specs.State.{all_registers};

use std::marker::Model;

/// Sixteen words, which a power failure fills.
#[derive(Drop)]
pub struct Registers {
    words: [u32; 16],
}

impl Model for Registers {
    ghost use Rattle.std.specs.Prelude.{ℕ, List};

    ghost Value = { List ℕ };

    ghost view = { λ r. r.words };
}

impl Registers {
    /// Sixteen times this word.
    pub fn all(word: u32) -> Registers
        ensures { slice_index result ≡ all_registers word }
    {
        Registers { words: [word; 16] }
    }

    /// The word of a register.
    pub fn get(&self, r: u8) -> u32
        requires { r < 16 }
        ensures { result ≡ slice_index self.now r }
    {
        self.words[r as usize]
    }

    /// Gives a register a word; the others keep theirs.
    pub fn set(&mut self, r: u8, word: u32)
        requires { r < 16 }
        ensures { slice_index self.new ≡ put (slice_index self.old) r word }
    {
        self.words[r as usize] = word;
    }
}
