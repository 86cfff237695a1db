//! The adapters over the system: a cabinet of its files, and a sink over its standard output.
ghost use Rattle.std.specs.Prelude.{◌≡◌, ◌+◌, ◌<◌, ◌≤◌, [], false, None, length, vec_len, IfOk, OnOk, OnErr, IsErrOf};
ghost use Rattle.ease_base.specs.Cabinet.{counted};
ghost use Rattle.ease_base.specs.Count.{raised};
ghost use Rattle.ease_base.specs.System.{faulted};

use crate::cabinet::Cabinet;
use crate::count::raise;
use crate::error::{Failed, FetchError};
use crate::reading::read_within;
use crate::sink::Sink;
use std::alloc::Global;
use std::fs;
use std::marker::Model;
use std::rt::Files;

/// The files of the system, by their paths. It tells no contents.
#[derive(Drop)]
pub struct FileCabinet<R> {
    system: R,
    faults: u64,
    long_contents: u64,
}

impl<R> Model for FileCabinet<R> {
    ghost use Rattle.ease_base.specs.System.{FileCounts};

    ghost Value = { FileCounts };

    ghost view = { λ c. record { faults = c.faults; long_contents = c.long_contents } };
}

impl<R> FileCabinet<R> {
    pub fn make(system: R) -> FileCabinet<R>
        ensures { result ≡ record { faults = 0; long_contents = 0 } }
    {
        FileCabinet {
            system,
            faults: 0,
            long_contents: 0,
        }
    }
}

// Reads a file from its beginning, at most `limit` bytes of it and one more. `Failed` is an error of the system.
fn read_file<R: Files>(
    system: &R,
    path: &str,
    limit: usize,
    into: &mut Vec<u8>,
) -> Result<(), FetchError>
    requires empty { into.old.items ≡ [] }
    requires limited { limit < 4294967295 }
    ensures fits { OnOk result (vec_len into.new ≤ limit) }
    ensures too_long { IsErrOf result FetchError.TooLong → vec_len into.new ≡ limit + 1 }
{
    let Ok(mut file) = fs::open(system, path) else {
        return Err(FetchError::Failed);
    };
    read_within(&mut file, limit, into)
}

impl<R: Files> Cabinet for FileCabinet<R> {
    ghost told = { λ _. false };

    ghost contents = { λ _ _. None };

    ghost faults = { λ c. c.faults };

    ghost long_contents = { λ c. c.long_contents };

    fn fetch(
        &mut self,
        _alloc: Global,
        name: &str,
        limit: usize,
        into: &mut Vec<u8>,
    ) -> Result<(), FetchError>
        requires empty { into.old.items ≡ [] }
        requires limited { limit < 4294967295 }
        ensures faults { self.new.faults ≡ faulted self.old.faults result }
        ensures never_falls { self.old.faults ≤ self.new.faults }
        ensures long_contents { self.new.long_contents ≡ counted self.old.long_contents result }
        ensures fits { OnOk result (vec_len into.new ≤ limit) }
        ensures too_long { IsErrOf result FetchError.TooLong → vec_len into.new ≡ limit + 1 }
    {
        let answer = read_file(&self.system, name, limit, into);
        match answer {
            Err(FetchError::Failed) => raise(&mut self.faults),
            Err(FetchError::TooLong) => raise(&mut self.long_contents),
            Err(FetchError::NoMemory) => {}
            Ok(()) => {}
        }
        answer
    }
}

/// The standard output of the system. It tells no bytes, and keeps none back: each write is one of the system's.
#[derive(Drop)]
pub struct StdoutSink<R> {
    system: R,
    faults: u64,
}

impl<R> Model for StdoutSink<R> {
    ghost use Rattle.std.specs.Prelude.{ℕ};

    ghost Value = { ℕ };

    ghost view = { λ s. s.faults };
}

impl<R> StdoutSink<R> {
    pub fn make(system: R) -> StdoutSink<R>
        ensures { result ≡ 0 }
    {
        StdoutSink { system, faults: 0 }
    }
}

impl<R: Print> Sink for StdoutSink<R> {
    ghost taken = { λ _. None };

    ghost faults = { λ count. count };

    fn write(&mut self, piece: &[u8]) -> Result<usize, Failed>
        requires { 0 < length piece.now }
        ensures some { IfOk result (λ n. 0 < n) }
        ensures within { IfOk result (λ n. n ≤ length piece.now) }
        ensures ok { OnOk result (self.new ≡ self.old) }
        ensures failed { OnErr result (self.new ≡ raised self.old) }
        ensures never_falls { self.old ≤ self.new }
    {
        let taken = self.system.write_some(piece).unwrap_or(0);
        if taken == 0 {
            raise(&mut self.faults);
            return Err(Failed);
        }
        Ok(taken)
    }
}
