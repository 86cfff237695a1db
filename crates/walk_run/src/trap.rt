//! The traps, each with its code.
ghost use Rattle.std.specs.Prelude.{◌≡◌};
ghost use Rattle.walk_run.specs.Trap.{code_of};

/// Why a run traps. A trap ends the run for good.
#[derive(Clone, Copy, PartialEq, Eq)]
pub enum Trap {
    /// An index isn't below its array's length.
    Index,
    /// A divisor is 0.
    Divisor,
    /// A pointer that is used points to nothing.
    Unset,
    /// A copy's length runs past the end of its array.
    Range,
}

impl Trap {
    /// The number by which a run's end names the trap, from 1 to 4.
    pub fn code(self) -> u32
        ensures { result ≡ code_of self }
    {
        match self {
            Trap::Index => 1,
            Trap::Divisor => 2,
            Trap::Unset => 3,
            Trap::Range => 4,
        }
    }
}
