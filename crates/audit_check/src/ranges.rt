//! Ranges of words in a store: read, put and moved word by word. A place behind an array's end has no word.
ghost use Rattle.std.specs.Prelude.{◌≡◌, ◌+◌, ◌<◌, ◌≤◌, ◌++◌, length, take, drop, IfOk, OnOk, IfSome, IfNone};
ghost use Rattle.walk_run.specs.Store.{IsInside, place, put_word, word_at, words_of};
ghost use Rattle.walk_run.specs.Walk as walk;
ghost use Rattle.task_attempts.specs.Copies as copies;

use ease_base::{List, NoMemory, Words};
use std::alloc::Global;
use walk_run::{Live, Place};

// The place so many words behind one, if its array goes so far.
fn further(live: &Live, at: Place, words: u32) -> Option<Place>
    ensures there { IfSome result (λ p. p ≡ place at.array (at.index + words)) }
    ensures inside { IfSome result (λ p. IsInside live.now p) }
    ensures none { IfNone result (length (words_of live.now at.array) ≤ at.index + words) }
{
    let room = live.room(at.array);
    let index = at.index.checked_add(words)?;
    if index < room {
        Some(Place {
            array: at.array,
            index,
        })
    } else {
        None
    }
}

// The word so many words behind a place; 0 where none is.
#[tactic(auto, using(crate::proofs::RangeLaws::no_word))]
fn word_behind(live: &Live, at: Place, words: u32) -> u32
    ensures { result ≡ word_at live.now (place at.array (at.index + words)) }
{
    match further(live, at, words) {
        Some(there) => live.get(there.array, there.index),
        None => 0,
    }
}

// Writes the word so many words behind a place, where one is.
#[tactic(auto, using(crate::proofs::RangeLaws::not_put))]
fn put_behind(live: &mut Live, at: Place, words: u32, word: u32)
    ensures { live.new ≡ put_word (place at.array (at.index + words)) word live.old }
{
    match further(live, at, words) {
        Some(there) => live.set(there.array, there.index, word),
        None => {}
    }
}

// Puts the word so many words behind a place behind others, where one is.
fn push_behind(live: &Live, at: Place, words: u32, read: &mut Words) -> Result<(), NoMemory>
    ensures { OnOk result (read.new ≡ read.old ++ take 1 (drop (at.index + words) (words_of live.now at.array))) }
{
    match further(live, at, words) {
        Some(there) => read.push(live.get(there.array, there.index)),
        None => Ok(()),
    }
}

/// So many words from a place on, as far as they are there.
pub fn words_at(alloc: Global, live: &Live, at: Place, words: u32) -> Result<Words, NoMemory>
    ensures { IfOk result (λ read. read ≡ copies.words_at live.now at words) }
{
    let mut read = List::new(alloc);
    'words: for behind in 0..words {
        push_behind(live, at, behind, &mut read)?;
    }
    Ok(read)
}

/// Moves words one by one, lowest place first; the ranges may overlap.
pub fn move_words(live: &mut Live, words: u32, to: Place, from: Place)
    ensures { live.new ≡ walk.move_words words to from live.old }
{
    'words: for moved in 0..words {
        let word = word_behind(live, from, moved);
        put_behind(live, to, moved, word);
    }
}

/// Puts words to a place and behind it, as many as a word can number.
pub fn put_words(live: &mut Live, to: Place, words: &[u32], count: u32)
    requires { count ≡ length words.now }
    ensures { live.new ≡ copies.put_words to words.now live.old }
{
    'words: for put in 0..count {
        let word = words[put as usize];
        put_behind(live, to, put, word);
    }
}
