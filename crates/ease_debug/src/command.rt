//! The commands of a script.
use ease_base::List;

/// A command of the debugger. docs/COMMANDS.md, "The debugger", says what each does.
#[derive(Clone, Copy, Debug, PartialEq, Eq)]
pub enum Command {
    /// So many steps.
    Step(u32),
    /// A power failure that lasts so many ticks, with the word that fills registers and RAM.
    Fail(u32, u32),
    /// Steps up to and with the next event at the site.
    To(u8),
    /// The same for the site of a task, the task first.
    At(u8, u8),
    /// The words of a symbol, by its place in the image, from 0.
    Show(u32),
    /// The counter and the registers.
    Regs,
    /// Why the site was last decided as it was.
    Why(u8),
}

/// The commands of a script, in order.
#[derive(Drop)]
pub struct Script {
    pub lines: List<Command>,
}
