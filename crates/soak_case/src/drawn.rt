//! What is drawn for one task.
ghost use Rattle.std.specs.Prelude.{◌≡◌};
ghost use Rattle.soak_case.specs.Draws.{state_behind};
ghost use Rattle.soak_case.specs.Source as spec;

use crate::draws::Draws;

/// Annotations by numbers (of the reading, the block, the reading in it and the message), an element of `b`, which way words
/// are copied and how many, and a factor.
#[derive(Clone, Copy)]
pub struct Drawn {
    pub reading: u32,
    pub block: u32,
    pub element: u32,
    pub inner: u32,
    pub sent: u32,
    pub way: u32,
    pub words: u32,
    pub factor: u32,
}

impl Drawn {
    /// Draws for the next task.
    pub fn draw(draws: &mut Draws) -> Drawn
        ensures value { result ≡ spec.task_drawn draws.old }
        ensures draws { draws.new ≡ state_behind 8 draws.old }
    {
        Drawn {
            reading: draws.draw(3),
            block: draws.draw(3),
            element: draws.draw(32),
            inner: draws.draw(3),
            sent: draws.draw(3),
            way: draws.draw(2),
            words: draws.draw(33),
            factor: draws.draw(1000),
        }
    }
}
