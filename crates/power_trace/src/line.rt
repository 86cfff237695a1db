//! A line that is being written, in an array that holds the longest.
ghost use Rattle.std.specs.Prelude.{◌≡◌, decimal, []};
ghost use Rattle.power_trace.specs.Put.{IsPut};

use ease_base::digits;
use std::marker::Model;

const ROOM: usize = 256;

/// The bytes of a line so far. What goes past 256 bytes is left out; no line of a report is longer.
#[derive(Drop)]
pub struct Line {
    bytes: [u8; ROOM],
    len: usize,
}

impl Model for Line {
    ghost use Rattle.std.specs.Prelude.{◌≤◌, ℕ, List, take};

    ghost Value = { List ℕ };

    ghost view = { λ l. take l.len l.bytes };

    ghost invariant = { λ l. l.len ≤ 256 };
}

impl Line {
    /// An empty line.
    pub fn new() -> Line
        ensures { result ≡ [] }
    {
        Line {
            bytes: [0; ROOM],
            len: 0,
        }
    }

    /// The bytes so far.
    pub fn as_slice(&self) -> &[u8]
        ensures { result.now ≡ self.now }
    {
        &self.bytes[..self.len]
    }

    /// Puts these bytes behind, as far as there is room.
    pub fn put(&mut self, text: &[u8])
        ensures { IsPut self.old self.new text.now }
    {
        let count = text.len().min(ROOM - self.len);
        self.bytes[self.len..self.len + count].copy_from_slice(&text[..count]);
        self.len += count;
    }

    /// Puts the decimal digits of a number behind.
    pub fn put_number(&mut self, n: u64)
        ensures { IsPut self.old self.new (decimal n) }
    {
        let mut text = [0; 20];
        let count = digits(n, &mut text);
        self.put(&text[..count]);
    }
}
