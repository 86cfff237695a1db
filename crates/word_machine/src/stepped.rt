//! What a step answers.
use devices::Event;

/// The machine goes on, with what the step showed, or it is at its end.
#[derive(Clone, Copy, Debug, PartialEq, Eq)]
pub enum Stepped {
    Ran(Option<Event>),
    Halted,
    /// With the trap's code.
    Trapped(u32),
}
