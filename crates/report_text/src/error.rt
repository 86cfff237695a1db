//! Why bytes are no full report.
ghost use Rattle.std.specs.Prelude.{◌≡◌};

use ease_base::NoMemory;
use thiserror::Error;

/// Why bytes weren't read as a full report.
#[derive(Clone, Copy, Debug, PartialEq, Eq, Error)]
pub enum ReportError {
    /// The first line, from 1, that isn't of the grammar or stands behind the end; one more than the lines where the end lacks.
    #[error("report line {0}")]
    Line(u32),
    /// Memory ran out.
    #[error("no memory")]
    NoMemory,
}

impl From<NoMemory> for ReportError {
    ghost use Rattle.report_text.specs.declared.error.ReportError.TheVariants.{NoMemory as no_memory};

    ghost from_gives = { λ _ e. e ≡ no_memory };

    fn from(_error: NoMemory) -> ReportError {
        ReportError::NoMemory
    }
}
