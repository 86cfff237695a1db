//! The readings of a run, which are taken one by one.
ghost use Rattle.std.specs.Prelude.{◌≡◌, [], ◌∷◌, MatchOption};

use std::marker::Model;

/// The readings that are left.
#[derive(Drop)]
pub struct Readings<'a> {
    left: &'a [u32],
}

impl<'a> Model for Readings<'a> {
    ghost use Rattle.std.specs.Prelude.{ℕ, List};

    ghost Value = { List ℕ };

    ghost view = { λ r. r.left.now };
}

impl<'a> Readings<'a> {
    /// All of these readings.
    pub fn new(readings: &'a [u32]) -> Readings<'a>
        ensures { result ≡ readings.now }
    {
        Readings { left: readings }
    }

    /// Takes the next reading; None where none is left.
    pub fn take(&mut self) -> Option<u32>
        ensures { MatchOption result ((self.old ≡ []) × (self.new ≡ [])) (λ r. self.old ≡ r ∷ self.new) }
    {
        let (first, rest) = self.left.split_first()?;
        self.left = rest;
        Some(*first)
    }
}
