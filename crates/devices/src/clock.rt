//! The clock, which counts the steps done and the ticks without power.
ghost use Rattle.std.specs.Prelude.{◌≡◌, ◌+◌, ◌<◌, ◌≤◌};

use std::marker::Model;

/// A count of ticks, from 0 to 4294967295.
#[derive(Drop)]
pub struct Clock {
    ticks: u32,
}

impl Model for Clock {
    ghost use Rattle.std.specs.Prelude.{ℕ};

    ghost Value = { ℕ };

    ghost view = { λ c. c.ticks };
}

impl Clock {
    /// A clock at 0.
    pub fn new() -> Clock
        ensures { result ≡ 0 }
    {
        Clock { ticks: 0 }
    }

    /// The ticks so far.
    pub fn now(&self) -> u32
        ensures { result ≡ self.now }
    {
        self.ticks
    }

    /// One tick, as each step of the computer takes.
    pub fn tick(&mut self)
        requires { self.old < 4294967295 }
        ensures { self.new ≡ self.old + 1 }
    {
        self.ticks += 1;
    }

    /// `n` ticks without power.
    pub fn off(&mut self, n: u32)
        requires { self.old + n ≤ 4294967295 }
        ensures { self.new ≡ self.old + n }
    {
        self.ticks += n;
    }
}
