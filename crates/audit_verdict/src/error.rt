//! Why bytes weren't audited.
ghost use Rattle.std.specs.Prelude.{◌≡◌};
ghost use Rattle.audit_verdict.specs.Answered as spec;

use ease_base::NoMemory;
use report_text::ReportError;
use thiserror::Error;

/// Why the bytes of a report weren't audited.
#[derive(Clone, Copy, Debug, PartialEq, Eq, Error)]
pub enum AuditError {
    /// The first line, from 1, that no report has there; one more than the lines where the end lacks.
    #[error("report line {0}")]
    Line(u32),
    /// Memory ran out.
    #[error("no memory")]
    NoMemory,
}

impl From<NoMemory> for AuditError {
    ghost use Rattle.audit_verdict.specs.declared.error.AuditError.TheVariants.{NoMemory as no_memory};

    ghost from_gives = { λ _ e. e ≡ no_memory };

    fn from(_error: NoMemory) -> AuditError {
        AuditError::NoMemory
    }
}

/// The error of an audit that a report's is.
pub fn unread(fault: ReportError) -> AuditError
    ensures { result ≡ spec.unread fault }
{
    match fault {
        ReportError::Line(line) => AuditError::Line(line),
        ReportError::NoMemory => AuditError::NoMemory,
    }
}
