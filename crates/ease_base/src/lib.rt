//! Lists, places, errors, and the two seams to the outside: a cabinet of files and a sink for output.
#![tactic(auto)]

mod boxed;
mod cabinet;
mod count;
mod error;
mod list;
mod mem_cabinet;
mod mem_sink;
mod number;
mod place;
mod reading;
mod sink;
mod system;

pub use boxed::Boxed;
pub use cabinet::Cabinet;
pub use error::{Failed, FetchError, NoMemory};
pub use list::{List, Text, Words};
pub use mem_cabinet::MemCabinet;
pub use mem_sink::MemSink;
pub use number::{digits, put_number};
pub use place::{Peripheral, Pos};
pub use sink::{Sink, send_all};
pub use system::{FileCabinet, StdoutSink};
