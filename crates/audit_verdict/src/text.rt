//! The lines that answers are written as.
ghost use Rattle.std.specs.Prelude.{◌≡◌, ◌≢◌, IfOk, IfSome, OnOk};
ghost use Rattle.audit_gather.specs.Told.{answer_of};
ghost use Rattle.audit_verdict.specs.Answered.{refusal_in};
ghost use Rattle.audit_verdict.specs.Texts.{answer_text};

use crate::error::AuditError;
use audit_gather::Verdict;
use ease_base::{NoMemory, Text};
use std::alloc::Global;

/// The line of a verdict.
pub fn verdict_text(alloc: Global, verdict: Verdict) -> Result<Text, NoMemory>
    ensures { IfOk result (λ text. text ≡ answer_text (answer_of verdict)) }
{
    let text = match verdict {
        Verdict::Legal => format!(in alloc; "legal\n")?,
        Verdict::Illegal(line) => format!(in alloc; "illegal {line}\n")?,
    };
    Ok(Text::from_vec(text.into_bytes()))
}

/// The line of a refusal; want of memory has none.
pub fn refusal_text(alloc: Global, fault: AuditError) -> Result<Text, NoMemory>
    ensures line { IfOk result (λ text. IfSome (refusal_in fault) (λ a. text ≡ answer_text a)) }
    ensures memory { OnOk result (fault ≢ AuditError.NoMemory) }
{
    match fault {
        AuditError::Line(line) => {
            let text = format!(in alloc; "report line {line}\n")?;
            Ok(Text::from_vec(text.into_bytes()))
        }
        AuditError::NoMemory => Err(NoMemory),
    }
}
