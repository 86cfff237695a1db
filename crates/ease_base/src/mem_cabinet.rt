//! A cabinet in memory, whose fetches fail at calls of choice.
ghost use Rattle.std.specs.Prelude.{◌≡◌, ◌≢◌, ◌⊎◌, ◌↔◌, ◌≤◌, ◌<◌, ℕ, List, [], IsTrue, IsErrOf, OnOk, OnErr, vec_len, true};
ghost use Rattle.std.specs.Option.{option_copied};
ghost use Rattle.ease_base.specs.Cabinet.{BringsFront};
ghost use Rattle.ease_base.specs.MemCabinet.{contents_in};

use crate::cabinet::Cabinet;
use crate::count::{count_call, raise};
use crate::error::{FetchError, NoMemory};
use crate::list::{Text, Words};
use std::alloc::Global;
use std::marker::Model;

#[derive(Drop)]
pub(crate) struct File {
    name: Text,
    bytes: Text,
}

/// Files in memory. It tells its contents.
#[derive(Drop)]
pub struct MemCabinet {
    files: Vec<File>,
    fails: Words,
    calls: u64,
    faults: u64,
    long_contents: u64,
}

impl Model for MemCabinet {
    ghost use Rattle.ease_base.specs.MemCabinet.{Shelf};

    ghost Value = { Shelf };

    ghost view = { λ c. record {
      files = c.files.items;
      fails = c.fails;
      calls = c.calls;
      faults = c.faults;
      long_contents = c.long_contents;
    } };
}

impl MemCabinet {
    /// A cabinet without files, whose fetch of number `n`, from 1, fails where `n` stands in `fails`.
    pub fn make(alloc: Global, fails: Words) -> MemCabinet
        ensures made { result ≡ record { files = []; fails = fails; calls = 0; faults = 0; long_contents = 0 } }
        ensures no_names { (name : List ℕ) → contents_in result.files name ≡ None }
        ensures told { IsTrue (⟦<MemCabinet as Cabinet>⟧.told result) }
    {
        MemCabinet {
            files: Vec::new(alloc),
            fails,
            calls: 0,
            faults: 0,
            long_contents: 0,
        }
    }

    /// Adds a file. Without memory the cabinet is as before.
    pub fn put(&mut self, name: &str, bytes: &[u8]) -> Result<(), NoMemory>
        requires absent { contents_in self.old.files name.now ≡ None }
        ensures added { OnOk result (contents_in self.new.files name.now ≡ Some bytes.now) }
        ensures others { OnOk result ((other : List ℕ) → other ≢ name.now → contents_in self.new.files other ≡ contents_in self.old.files other) }
        ensures counts { OnOk result (self.new ≡ record self.old { files = self.new.files }) }
        ensures told { IsTrue (⟦<MemCabinet as Cabinet>⟧.told self.new) }
        ensures err { OnErr result (self.new ≡ self.old) }
    {
        let alloc = *self.files.allocator();
        let name = Text::from_slice(alloc, name.as_bytes())?;
        let bytes = Text::from_slice(alloc, bytes)?;
        self.files.push(File { name, bytes })?;
        Ok(())
    }

    /// How many fetches failed because they were to fail.
    pub fn faults(&self) -> u64
        ensures { result ≡ self.now.faults }
    {
        self.faults
    }

    /// How many fetches answered `TooLong`.
    pub fn long_contents(&self) -> u64
        ensures { result ≡ self.now.long_contents }
    {
        self.long_contents
    }
}

// The bytes of the first file of that name.
fn find<'a>(files: &'a [File], name: &str) -> Option<&'a [u8]>
    ensures { option_copied result ≡ contents_in files.now name.now }
{
    for file in files {
        if file.name.as_slice() == name.as_bytes() {
            return Some(file.bytes.as_slice());
        }
    }
    None
}

impl Cabinet for MemCabinet {
    ghost use Rattle.ease_base.specs.MemCabinet.{fetched, is_failing};

    ghost told = { λ _. true };

    ghost contents = { λ c. contents_in c.files };

    ghost faults = { λ c. c.faults };

    ghost long_contents = { λ c. c.long_contents };

    /// Fails where its number is to fail, else where the name is absent. Without memory it is a call like another.
    fn fetch(
        &mut self,
        _alloc: Global,
        name: &str,
        limit: usize,
        into: &mut Vec<u8>,
    ) -> Result<(), FetchError>
        requires empty { into.old.items ≡ [] }
        requires limited { limit < 4294967295 }
        ensures after { self.new ≡ fetched self.old result }
        ensures never_falls { self.old.faults ≤ self.new.faults }
        ensures failed { (result ≡ Err FetchError.Failed)
            ↔ (IsTrue (is_failing self.old) ⊎ (contents_in self.old.files name.now ≡ None)) }
        ensures fits { OnOk result (vec_len into.new ≤ limit) }
        ensures brought { OnOk result (contents_in self.old.files name.now ≡ Some into.new.items) }
        ensures too_long { IsErrOf result FetchError.TooLong
            → BringsFront true (contents_in self.old.files) name.now limit into.new.items }
    {
        if count_call(&self.fails, &mut self.calls) {
            raise(&mut self.faults);
            return Err(FetchError::Failed);
        }
        let Some(bytes) = find(&self.files, name) else {
            return Err(FetchError::Failed);
        };
        if bytes.len() > limit {
            let (front, _) = bytes.split_at(limit + 1);
            into.extend_from_slice(front)?;
            raise(&mut self.long_contents);
            return Err(FetchError::TooLong);
        }
        into.extend_from_slice(bytes)?;
        Ok(())
    }
}
