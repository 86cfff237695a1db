//! A generator of numbers, the same on each machine.
ghost use Rattle.std.specs.Prelude.{◌≡◌, ◌<◌};
ghost use Rattle.soak_case.specs.Draws.{drawn_below, next_state};

use std::marker::Model;

/// The state of the generator.
#[derive(Drop)]
pub struct Draws {
    state: u32,
}

impl Model for Draws {
    ghost use Rattle.std.specs.Prelude.{ℕ};

    ghost Value = { ℕ };

    ghost view = { λ d. d.state };
}

impl Draws {
    /// The generator that begins with a number.
    pub fn new(number: u32) -> Draws
        ensures { result ≡ number }
    {
        Draws { state: number }
    }

    /// The next number below `m`.
    pub fn draw(&mut self, m: u32) -> u32
        requires { 0 < m }
        ensures value { result ≡ drawn_below m self.new }
        ensures state { self.new ≡ next_state self.old }
    {
        let wide = u64::from(self.state) * 1_664_525 + 1_013_904_223;
        self.state = (wide % 4_294_967_296) as u32;
        self.state / 65_536 % m
    }
}
