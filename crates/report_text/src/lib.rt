//! Reports read back: the lines of a full report.
#![tactic(auto)]

mod error;
mod event;
mod keyword;
mod laws;
mod line;
mod line_text;
mod numbers;
mod place;
mod report;
mod words;

pub use error::ReportError;
pub use event::{EventPlace, ReportEvent, event_in};
pub use laws::{
    an_event_and_its_text_give_each_other, the_report_of_a_journal_is_of_the_lines_that_tell_it,
};
pub use line::{LineText, Name, ReportLine, ReportPlace};
pub use report::read_report;
