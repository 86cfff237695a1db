//! The modes of the blocks that are entered, the innermost last.
ghost use Rattle.std.specs.Prelude.{◌≡◌, ◌<◌, ◌≤◌, ◌-◌, ◌++◌, ◌∷◌, [], length, take, IfOk};
ghost use Rattle.block_scope.specs.Scopes.{innermost};

use ease_base::NoMemory;
use io_annot::Mode;
use std::alloc::Global;
use std::marker::Model;

/// Blocks nest at most so deep.
const DEEPEST: usize = 16;

/// The modes of the entered blocks, from the outermost to the innermost.
#[derive(Drop)]
pub struct Scopes {
    modes: Vec<Mode>,
}

impl Model for Scopes {
    ghost use Rattle.std.specs.Prelude.{List, ◌≤◌, vec_capacity};
    ghost use Rattle.io_annot.specs.declared.choice.Mode.{Mode};

    ghost Value = { List Mode };

    ghost view = { λ s. s.modes.items };

    ghost invariant = { λ s. 16 ≤ vec_capacity s.modes };
}

impl Scopes {
    /// No block is entered. All memory is taken here.
    pub fn make(alloc: Global) -> Result<Scopes, NoMemory>
        ensures { IfOk result (λ s. s ≡ []) }
    {
        Ok(Scopes {
            modes: Vec::with_capacity(alloc, DEEPEST)?,
        })
    }

    /// The mode of the innermost block; `Own` where none is entered.
    pub fn now(&self) -> Mode
        ensures { result ≡ innermost self.now }
    {
        match self.modes.last() {
            Some(mode) => *mode,
            None => Mode::Own,
        }
    }

    /// Enters a block with this mode inside.
    pub fn push(&mut self, mode: Mode)
        requires { length self.old < 16 }
        ensures { self.new ≡ self.old ++ mode ∷ [] }
    {
        match self.modes.push(mode) {
            Ok(()) => {}
            Err(_) => unreachable!(),
        }
    }

    /// Leaves the innermost block.
    pub fn pop(&mut self)
        requires { 0 < length self.old }
        ensures { self.new ≡ take (length self.old - 1) self.old }
    {
        let _left = self.modes.pop();
    }
}
