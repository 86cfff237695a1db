//! Why a command ends before its output is whole.
ghost use Rattle.std.specs.Prelude.{◌≡◌, Ok};
ghost use Rattle.ease_cli.specs.Answer.{Tells};

use crate::status::Status;
use ease_base::{Failed, NoMemory, Text};

/// Why a command ends before its output is whole; `?` carries it to the one place that writes its line.
#[derive(Drop)]
pub enum Refusal {
    /// A status, and its one line, which isn't written yet.
    Refused(Status, Text),
    /// A write failed; it has no line.
    WriteFault,
    /// Memory ran out; it has no line.
    NoMemory,
}

/// A refusal with its line, where there is memory for it.
pub fn refuse(status: Status, line: Result<Text, NoMemory>) -> Refusal
    ensures { Tells (λ s text. (s ≡ status) × (line ≡ Ok text)) result }
{
    match line {
        Ok(line) => Refusal::Refused(status, line),
        Err(NoMemory) => Refusal::NoMemory,
    }
}

impl From<NoMemory> for Refusal {
    ghost use Rattle.std.specs.Prelude.{◌≡◌};
    ghost use Rattle.ease_cli.specs.declared.refusal.Refusal.TheVariants.{NoMemory as no_memory};

    ghost from_gives = { λ _ e. e ≡ no_memory };

    fn from(_error: NoMemory) -> Refusal {
        Refusal::NoMemory
    }
}

impl From<Failed> for Refusal {
    ghost use Rattle.std.specs.Prelude.{◌≡◌};
    ghost use Rattle.ease_cli.specs.declared.refusal.Refusal.TheVariants.{WriteFault as write_fault};

    ghost from_gives = { λ _ e. e ≡ write_fault };

    fn from(_error: Failed) -> Refusal {
        Refusal::WriteFault
    }
}
