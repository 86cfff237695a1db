//! Whether a machine goes on.

/// A machine goes on until it halts or traps, and then stays as it is.
#[derive(Clone, Copy, Debug, PartialEq, Eq)]
pub enum Ending {
    Running,
    Halted,
    /// With the trap's code.
    Trapped(u32),
}
