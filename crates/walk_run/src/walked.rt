//! What a run leaves: its states, and how it ended.
ghost use Rattle.std.specs.Prelude.{◌≡◌};

use crate::trap::Trap;
use ease_base::{List, Words};

/// What ends a run within a task.
#[derive(Clone, Copy, PartialEq, Eq)]
pub enum EarlyEnd {
    /// A value traps.
    Trapped(Trap),
    /// A call finds no reading left.
    NoReading,
}

impl From<Trap> for EarlyEnd {
    ghost use Rattle.walk_run.specs.declared.walked.EarlyEnd.TheVariants.{Trapped as trapped};

    ghost from_gives = { λ trap e. e ≡ trapped trap };

    fn from(trap: Trap) -> EarlyEnd {
        EarlyEnd::Trapped(trap)
    }
}

/// How a run ended.
#[derive(Clone, Copy, PartialEq, Eq)]
pub enum WalkEnd {
    /// The last task stopped.
    Stopped,
    /// As many tasks ended as were asked for, and none stopped.
    Limit,
    /// The next task traps.
    Trapped(Trap),
    /// The next task's call finds no reading left.
    NoReading,
}

/// The state after a task.
#[derive(Drop)]
pub struct State {
    /// The next task, from 1; 0 after `STOP`.
    pub next: u32,
    /// The words of the arrays that are nonvolatile and not constant, in the order of their declarations.
    pub words: List<Words>,
}

/// A run: the state after each task that ended, and how the run ended.
#[derive(Drop)]
pub struct Walked {
    pub states: List<State>,
    pub end: WalkEnd,
}
