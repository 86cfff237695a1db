//! The words of all arrays, which are written in place.
ghost use Rattle.std.specs.Prelude.{◌≡◌, ◌<◌, length, slice_index, slice_set, map, [], ◌++◌, IfOk, OnOk};
ghost use Rattle.walk_run.specs.Arrays.{array_words, with_fresh, IsNarrow};
ghost use Rattle.walk_run.specs.Store.{HasShape, place, with_word, fresh_arrays, first_if_shown, shown_words};

use ease_base::{List, NoMemory, Words};
use std::alloc::Global;
use std::marker::Model;
use task_ast::{Array, Kind};

/// The words of each array, by its number.
#[derive(Drop)]
pub struct Arrays {
    arrays: Vec<Vec<u32>>,
}

impl Model for Arrays {
    ghost use Rattle.std.specs.Prelude.{ℕ, List, map};
    ghost use Rattle.walk_run.specs.Arrays.{IsNarrow};

    ghost Value = { List (List ℕ) };

    ghost view = { λ s. map (λ words. words.items) s.arrays.items };

    ghost invariant = { λ s. IsNarrow (map (λ words. words.items) s.arrays.items) };
}

impl Arrays {
    /// Each array as it is declared.
    pub fn declared(alloc: Global, arrays: &[Array]) -> Result<Arrays, NoMemory>
        requires narrow { IsNarrow (map (λ a. a.first) arrays.now) }
        ensures { IfOk result (λ words. words ≡ map (λ a. a.first) arrays.now) }
    {
        let mut words = Vec::new(alloc);
        'arrays: for array in arrays {
            words.push(Vec::from_slice(alloc, array.first.as_slice())?)?;
        }
        Ok(Arrays { arrays: words })
    }

    /// The words of an array; none where there is no such array.
    fn words(&self, array: usize) -> &[u32]
        ensures { result.now ≡ array_words self.now array }
    {
        match self.arrays.get(array) {
            Some(words) => words.as_slice(),
            None => &[],
        }
    }

    /// The number of an array's words.
    pub fn room(&self, array: u32) -> u32
        ensures { result ≡ length (array_words self.now array) }
    {
        let _ = &self.arrays;
        self.words(array as usize).len() as u32
    }

    pub fn word(&self, array: u32, index: u32) -> u32
        requires { index < length (array_words self.now array) }
        ensures { result ≡ slice_index (array_words self.now array) index }
    {
        self.words(array as usize)[index as usize]
    }

    pub fn write(&mut self, array: u32, index: u32, word: u32)
        requires { index < length (array_words self.old array) }
        ensures { self.new ≡ with_word (place array index) word self.old }
    {
        let words = &mut self.arrays[array as usize];
        words[index as usize] = word;
    }

    /// Sets each volatile array to its declared words, as at a task's beginning.
    pub fn refresh(&mut self, arrays: &[Array])
        requires shape { HasShape arrays.now self.old }
        ensures { self.new ≡ fresh_arrays arrays.now self.old }
    {
        'arrays: for (number, array) in arrays.iter().enumerate() {
            self.refresh_one(number, array);
        }
    }

    // Sets an array to its declared words where it is volatile.
    fn refresh_one(&mut self, number: usize, array: &Array)
        requires there { number < length self.old }
        requires length { length (array_words self.old number) ≡ length array.now.first }
        ensures { self.new ≡ with_fresh array.now number self.old }
    {
        match array.kind {
            Kind::Vol => self.reset(number, array.first.as_slice()),
            Kind::Nv | Kind::Const => {}
        }
    }

    // Sets the words of an array.
    fn reset(&mut self, number: usize, first: &[u32])
        requires there { number < length self.old }
        requires length { length (array_words self.old number) ≡ length first.now }
        ensures { self.new ≡ slice_set self.old number first.now }
    {
        self.arrays[number].copy_from_slice(first);
    }

    /// Takes over the words of other arrays of the same lengths.
    pub fn set_to(&mut self, other: &Arrays)
        requires shape { map length self.old ≡ map length other.now }
        ensures { self.new ≡ other.now }
    {
        'arrays: for number in 0..other.arrays.len() {
            self.reset(number, other.words(number));
        }
    }

    /// A copy of the words of the arrays that a state shows.
    pub fn shown(&self, alloc: Global, arrays: &[Array]) -> Result<List<Words>, NoMemory>
        requires shape { HasShape arrays.now self.now }
        ensures { IfOk result (λ words. words ≡ shown_words arrays.now self.now) }
    {
        let mut shown = List::new(alloc);
        'arrays: for (number, array) in arrays.iter().enumerate() {
            self.show_one(alloc, number, array.kind, &mut shown)?;
        }
        Ok(shown)
    }

    // Puts the words of an array behind those of others where a state shows an array of this kind.
    fn show_one(
        &self,
        alloc: Global,
        number: usize,
        kind: Kind,
        shown: &mut List<Words>,
    ) -> Result<(), NoMemory>
        ensures { OnOk result (shown.new ≡ shown.old ++ first_if_shown kind (array_words self.now number) []) }
    {
        match kind {
            Kind::Nv => shown.push(List::from_slice(alloc, self.words(number))?)?,
            Kind::Const | Kind::Vol => {}
        }
        Ok(())
    }
}
