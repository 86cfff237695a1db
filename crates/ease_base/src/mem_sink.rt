//! A sink in memory, with room for so many bytes, whose writes fail at calls of choice.
ghost use Rattle.std.specs.Prelude.{◌≡◌, ◌+◌, ◌<◌, ◌≤◌, ◌↔◌, ◌++◌, [], length, vec_capacity, Some, IfOk, IsErr, OnErr};
ghost use Rattle.ease_base.specs.MemSink.{Fails, taken_count, written, refused};

use crate::count::{count_call, raise};
use crate::error::{Failed, NoMemory};
use crate::list::Words;
use crate::sink::Sink;
use std::alloc::Global;
use std::marker::Model;

/// Bytes in memory. It tells them.
#[derive(Drop)]
pub struct MemSink {
    bytes: Vec<u8>,
    room: usize,
    fails: Words,
    calls: u64,
    faults: u64,
}

impl Model for MemSink {
    ghost use Rattle.std.specs.Prelude.{◌≤◌, length, vec_capacity};
    ghost use Rattle.ease_base.specs.MemSink.{Tape};

    ghost Value = { Tape };

    ghost view = { λ s. record {
      taken = s.bytes.items;
      room = s.room;
      fails = s.fails;
      calls = s.calls;
      faults = s.faults;
    } };

    ghost invariant = { λ s. (length s.bytes.items ≤ s.room) × (s.room ≤ vec_capacity s.bytes) };
}

impl MemSink {
    /// An empty sink that takes `room` bytes in all, whose write of number `n`, from 1, fails where `n` stands in
    /// `fails`. All its memory is taken here.
    pub fn make(alloc: Global, room: usize, fails: Words) -> Result<MemSink, NoMemory>
        ensures made { IfOk result (λ s. s ≡ record { taken = []; room = room; fails = fails; calls = 0; faults = 0 }) }
        ensures told { IfOk result (λ s. ⟦<MemSink as Sink>⟧.taken s ≡ Some []) }
    {
        Ok(MemSink {
            bytes: Vec::with_capacity(alloc, room)?,
            room,
            fails,
            calls: 0,
            faults: 0,
        })
    }

    /// The bytes taken so far.
    pub fn taken(&self) -> &[u8]
        ensures taken { result.now ≡ self.now.taken }
        ensures told { ⟦<MemSink as Sink>⟧.taken self.now ≡ Some result.now }
    {
        self.bytes.as_slice()
    }

    /// How many writes failed.
    pub fn faults(&self) -> u64
        ensures { result ≡ self.now.faults }
    {
        self.faults
    }
}

// Puts bytes at the end, within the memory that is there.
fn put_within(bytes: &mut Vec<u8>, more: &[u8])
    requires { length bytes.old.items + length more.now ≤ vec_capacity bytes.old }
    ensures bytes { bytes.new.items ≡ bytes.old.items ++ more.now }
    ensures capacity { vec_capacity bytes.old ≤ vec_capacity bytes.new }
{
    match bytes.extend_from_slice(more) {
        Ok(()) => {}
        Err(_) => unreachable!(),
    }
}

impl Sink for MemSink {
    ghost taken = { λ s. Some s.taken };

    ghost faults = { λ s. s.faults };

    /// Takes as many bytes of `piece` as there is room for; fails where its number is to fail or no room is left.
    fn write(&mut self, piece: &[u8]) -> Result<usize, Failed>
        requires { 0 < length piece.now }
        ensures failed { IsErr result ↔ Fails self.old }
        ensures count { IfOk result (λ n. n ≡ taken_count self.old piece.now) }
        ensures after { IfOk result (λ n. self.new ≡ written self.old piece.now n) }
        ensures refused { OnErr result (self.new ≡ refused self.old) }
        ensures never_falls { self.old.faults ≤ self.new.faults }
    {
        if count_call(&self.fails, &mut self.calls) {
            raise(&mut self.faults);
            return Err(Failed);
        }
        let room = self.room - self.bytes.len();
        if room == 0 {
            raise(&mut self.faults);
            return Err(Failed);
        }
        let count = piece.len().min(room);
        let (front, _) = piece.split_at(count);
        put_within(&mut self.bytes, front);
        Ok(count)
    }
}
