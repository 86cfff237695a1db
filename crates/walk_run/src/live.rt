//! The store of a run: the words of all arrays and the places of all pointers, which are written in place.
ghost use Rattle.std.specs.Prelude.{◌≡◌, ◌<◌, length, map, IfOk};
ghost use Rattle.std.specs.Option.{option_map};
ghost use Rattle.task_ast.specs.WellFormed.{IsWellFormed};
ghost use Rattle.walk_run.specs.Store.{Fits, KeepsFit, IsInside, declared_store, fresh, pair_of, place, pointed, put_pointer, put_word, shown_words, unset, word_at, words_of};

use crate::arrays::Arrays;
use crate::place::Place;
use ease_base::{List, NoMemory, Text, Words};
use std::alloc::Global;
use std::marker::Model;
use task_ast::Core;

/// The words of each array and the place that each pointer points to, by their numbers. A store of a program has its
/// arrays with their lengths, and its pointers, each at nothing or at a place inside an array; every call keeps that.
#[derive(Drop)]
pub struct Live {
    arrays: Arrays,
    pointers: Vec<Option<Place>>,
}

impl Model for Live {
    ghost use Rattle.walk_run.specs.Store.{Store};

    ghost Value = { Store };

    ghost view = { λ s. record { words = s.arrays; pointers = s.pointers.items } };
}

impl Live {
    /// The store that a program starts with: each array as it is declared, and pointers at nothing. No other call but
    /// `shown` takes memory.
    pub fn make(alloc: Global, c: &Core) -> Result<Live, NoMemory>
        requires { IsWellFormed c.now }
        ensures declared { IfOk result (λ s. s ≡ declared_store c.now) }
        ensures fits { IfOk result (λ s. Fits c.now s) }
    {
        let arrays = Arrays::declared(alloc, c.arrays.as_slice())?;
        let pointers = unset_pointers(alloc, c.pointers.as_slice())?;
        Ok(Live { arrays, pointers })
    }

    /// Begins a task: volatile arrays are as declared, and pointers point to nothing.
    pub fn begin(&mut self, c: &Core)
        requires { Fits c.now self.old }
        ensures fresh { self.new ≡ fresh c.now self.old }
        ensures fits { Fits c.now self.new }
    {
        self.arrays.refresh(c.arrays.as_slice());
        unset_all(&mut self.pointers);
    }

    /// The word at index `i` of array `a`.
    pub fn get(&self, a: u32, i: u32) -> u32
        requires { IsInside self.now (place a i) }
        ensures { result ≡ word_at self.now (place a i) }
    {
        self.arrays.word(a, i)
    }

    /// Writes the word at index `i` of array `a`.
    pub fn set(&mut self, a: u32, i: u32, word: u32)
        requires { IsInside self.old (place a i) }
        ensures word { self.new ≡ put_word (place a i) word self.old }
        ensures fits { KeepsFit self.old self.new }
    {
        self.arrays.write(a, i, word);
    }

    /// The array and the index that pointer `p` points to; None where it points to nothing.
    pub fn at(&self, p: u32) -> Option<(u32, u32)>
        ensures { result ≡ option_map pair_of (pointed self.now p) }
    {
        match self.pointed(p) {
            Some(at) => Some((at.array, at.index)),
            None => None,
        }
    }

    /// The place that a pointer points to.
    pub fn pointed(&self, p: u32) -> Option<Place>
        ensures { result ≡ pointed self.now p }
    {
        match self.pointers.get(p as usize) {
            Some(at) => *at,
            None => None,
        }
    }

    /// Makes a pointer point to a place; does nothing where there is no such pointer.
    pub fn point(&mut self, p: u32, at: Place)
        ensures { self.new ≡ put_pointer p at self.old }
    {
        if (p as usize) < self.pointers.len() {
            self.pointers[p as usize] = Some(at);
        }
    }

    /// The number of words of an array; 0 where there is no such array.
    pub fn room(&self, array: u32) -> u32
        ensures { result ≡ length (words_of self.now array) }
    {
        self.arrays.room(array)
    }

    /// Takes over all of a store with as many words and pointers.
    pub fn set_to(&mut self, other: &Live)
        requires arrays { map length self.old.words ≡ map length other.now.words }
        requires pointers { length self.old.pointers ≡ length other.now.pointers }
        ensures { self.new ≡ other.now }
    {
        self.arrays.set_to(&other.arrays);
        self.pointers
            .as_mut_slice()
            .copy_from_slice(other.pointers.as_slice());
    }

    /// A copy of the words that a state shows.
    pub fn shown(&self, alloc: Global, c: &Core) -> Result<List<Words>, NoMemory>
        requires { Fits c.now self.now }
        ensures { IfOk result (λ words. words ≡ shown_words c.now.arrays self.now.words) }
    {
        self.arrays.shown(alloc, c.arrays.as_slice())
    }
}

// A pointer to nothing for each name.
fn unset_pointers(alloc: Global, names: &[Text]) -> Result<Vec<Option<Place>>, NoMemory>
    ensures { IfOk result (λ pointers. pointers.items ≡ unset names.now) }
{
    let mut pointers = Vec::new(alloc);
    'names: for _name in names {
        pointers.push(None)?;
    }
    Ok(pointers)
}

// Makes all pointers point to nothing.
fn unset_all(pointers: &mut Vec<Option<Place>>)
    ensures { pointers.new.items ≡ unset pointers.old.items }
{
    'pointers: for number in 0..pointers.len() {
        pointers[number] = None;
    }
}
