//! Copies, word by word.
ghost use Rattle.std.specs.Prelude.{◌≡◌, ◌+◌, ◌<◌, ◌≤◌, ◌^◌, length};
ghost use Rattle.walk_run.specs.Copies.{copied, moved};
ghost use Rattle.walk_run.specs.Outcome.{ran_of};
ghost use Rattle.walk_run.specs.Store.{words_of};
ghost use Rattle.walk_run.specs.Walk.{move_words};

use crate::live::Live;
use crate::place::Place;
use crate::trap::Trap;
use task_ast::{CoreEnd, CoreExpr};

impl Live {
    /// Does a copy. Its ends are found and its length is valued before any range is tested, and a trap writes nothing.
    pub fn copy(&mut self, to: &CoreEnd, from: &CoreEnd, words: &CoreExpr) -> Result<(), Trap>
        ensures { ran_of result self.new ≡ copied to.now from.now words.now self.old }
    {
        let to = self.end(to)?;
        let from = self.end(from)?;
        let words = self.value(words)?;
        self.move_range(words, to, from)
    }

    // Moves so many words from a place on to another one, where both ranges are in their arrays.
    fn move_range(&mut self, words: u32, to: Place, from: Place) -> Result<(), Trap>
        ensures { ran_of result self.new ≡ moved words to from self.old }
    {
        let to = self.with_room(to, words)?;
        let from = self.with_room(from, words)?;
        self.move_words(words, to, from);
        Ok(())
    }

    // Moves words one by one, lowest place first; the ranges may overlap.
    fn move_words(&mut self, words: u32, to: Place, from: Place)
        requires to { to.index + words ≤ length (words_of self.old to.array) }
        requires from { from.index + words ≤ length (words_of self.old from.array) }
        requires short { (to.index + words < 2 ^ 32) × (from.index + words < 2 ^ 32) }
        ensures { self.new ≡ move_words words to from self.old }
    {
        'words: for moved in 0..words {
            let word = self.get(from.array, from.index + moved);
            self.set(to.array, to.index + moved, word);
        }
    }
}
