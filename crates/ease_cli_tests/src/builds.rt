//! Programs through `build`, and their images through `run`.
use crate::commands::{Ran, run, run_pair};
use ease_base::NoMemory;
use ease_cli::Status;
use std::alloc::Global;
use std::test::Fail;

pub const SEND: &str =
    "peripheral radio 0; nv word n = 7; word v; task a { v = IO(radio, SINGLE, n); n = n + v; STOP; }";

/// The words, a source, the status, and how what is written begins.
type Case = (&'static [&'static str], &'static str, Status, &'static [u8]);

const BEGINNINGS: [Case; 5] = [
    (
        &["build", "p"],
        "nv word a[2048]; task t { STOP; }",
        Status::Ok,
        b"EASE\x02\x00",
    ),
    (
        &["build", "p", "--scheme", "bank"],
        "nv word a[2048]; task t { STOP; }",
        Status::Ok,
        b"EASE\x02\x01",
    ),
    (
        &["build", "p"],
        "nv word a[2049]; task t { STOP; }",
        Status::SourceRefused,
        b"source 1:9 limit nv-words 2049\n",
    ),
    (
        &["build", "p", "--scheme", "both"],
        "task t { STOP; }",
        Status::Usage,
        b"usage\n",
    ),
    (&["build", "q"], "", Status::ReadFault, b"read fault\n"),
];

#[test]
fn build_writes_an_image_or_the_line_of_a_refusal(rt: HostRuntime) -> Result<(), Fail> {
    for (line, source, status, front) in BEGINNINGS {
        let ran = run(rt.alloc(), line, source, 100_000)?;
        assert_eq!(rt; ran.status, status, "for {line:?}");
        assert!(rt; ran.out.taken().starts_with(front), "for {line:?}");
    }
    Ok(())
}

// Builds a program under a scheme, and runs its image.
fn built_and_run(alloc: Global, scheme: &str, source: &str, world: &str) -> Result<Ran, NoMemory> {
    let built = run(alloc, &["build", "p", "--scheme", scheme], source, 20_000)?;
    let line = ["run", "p", "w", "--brief"];
    run_pair(alloc, &line, built.out.taken(), world.as_bytes(), &[])
}

#[test]
fn a_built_program_sends_once_and_stops(rt: HostRuntime) -> Result<(), Fail> {
    let world =
        "power = [{ on = 0, off = 5, fill = 4294967295 }, { on = 10000 }]\nreadings = { radio = [1] }\n";
    let report =
        "boot 1\nboot 2\nbegin 1\nlook 1\ndrop 1\nissue 1 radio 7 = 1\nseal 1\ncommit 0\nend halted\n";
    for scheme in ["undo", "bank"] {
        let ran = built_and_run(rt.alloc(), scheme, SEND, world)?;
        assert_eq!(rt; ran.status, Status::Ok, "for {scheme}");
        assert_eq!(rt; ran.out.taken(), report.as_bytes(), "for {scheme}");
    }
    Ok(())
}
