//! The debugger: a session on a machine whose power fails where a script says.
#![tactic(auto)]

mod command;
mod debug_call;
mod debugger;
mod end;
mod error;
mod line;
mod play;
mod script;
mod shown;
mod stop;
mod trail;
mod trails;
mod why;
mod words;

pub use command::{Command, Script};
pub use debug_call::debug;
pub use end::DebugEnd;
pub use error::ScriptError;
pub use script::read_script;
