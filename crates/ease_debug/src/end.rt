//! How a session ends.

/// How a session ended.
#[derive(Clone, Copy, Debug, PartialEq, Eq)]
pub enum DebugEnd {
    /// The script ended before the machine did.
    Script,
    Halted,
    /// With the trap's code.
    Trapped(u32),
    /// The session's steps or ticks were spent.
    Power,
}
