//! Whether a full report is a journal that the rules allow: what an audit answers on the bytes of a report.
#![tactic(auto)]

mod answer;
mod error;
mod text;
mod verdict;

pub use answer::audit;
pub use audit_gather::Verdict;
pub use error::AuditError;
pub use text::{refusal_text, verdict_text};
