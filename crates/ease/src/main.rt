//! The program `ease`: the real files, the real output, the words, and then the one call.
#![tactic(auto)]

use ease_base::{FileCabinet, StdoutSink};
use ease_cli::{Status, ease};
use std::env;
use std::env::Env;
use std::io::ErrorKind;
use std::process::ExitCode;

/// The exit status where the system doesn't give the words as text.
const WORDS_ARE_NO_TEXT: u8 = 14;

fn main(rt: HostRuntime) -> ExitCode {
    match command_words(&rt) {
        Ok(words) => {
            let mut files = FileCabinet::make(&rt);
            let mut out = StdoutSink::make(&rt);
            let status = ease(rt.alloc(), words.as_slice(), &mut files, &mut out);
            ExitCode::from(status.number())
        }
        Err(status) => ExitCode::from(status),
    }
}

// The words without the program's name, or the exit status where there are none.
fn command_words<R: Env + AllocGlobal>(rt: &R) -> Result<Vec<String>, u8> {
    match env::args(rt) {
        Ok(mut words) => {
            let _program = words.next();
            words
                .collect(rt.alloc())
                .map_err(|_| Status::NoMemory.number())
        }
        Err(error) if error.kind() == ErrorKind::OutOfMemory => Err(Status::NoMemory.number()),
        Err(_) => Err(WORDS_ARE_NO_TEXT),
    }
}
