//! Reports of a program that sends one message, as they are and with a line changed.
use ease_base::{MemCabinet, MemSink, NoMemory, Words};
use ease_cli::{Status, ease};
use std::alloc::{AllocError, Global};
use std::test::Fail;

const SEND: &str =
    "peripheral radio 0; nv word n = 7; word v; task a { v = IO(radio, SINGLE, n); n = n + v; STOP; }";

/// A world, a report, the status, and what is written.
type Case = (&'static str, &'static str, Status, &'static str);

const WHOLE: &str = "power = [{ on = 100 }]\nreadings = { radio = [1] }\n";

const FAILING: &str = "power = [{ on = 5 }, { on = 100 }]\nreadings = { radio = [1] }\n";

const SENT: &str =
    "0 boot 1\n1 begin 1\n2 look 1 1\n3 drop 1\n4 issue 1 radio 7 = 1\n5 seal 1\n6 commit 0\n7 end halted\n";

const CASES: [Case; 8] = [
    (WHOLE, SENT, Status::Ok, "legal\n"),
    (
        WHOLE,
        "0 boot 1\n1 begin 1\n2 look 1 1\n3 drop 1\n4 issue 1 radio 7 = 2\n5 seal 1\n6 commit 0\n7 end halted\n",
        Status::Illegal,
        "illegal 5\n",
    ),
    (
        WHOLE,
        "0 boot 1\n1 begin 1\n2 look 1 2\n3 drop 1\n4 issue 1 radio 7 = 1\n5 seal 1\n6 commit 0\n7 end halted\n",
        Status::Illegal,
        "illegal 3\n",
    ),
    (
        WHOLE,
        "0 boot 1\n1 begin 1\n2 look 1 1\n4 issue 1 radio 7 = 1\n5 seal 1\n6 commit 0\n7 end halted\n",
        Status::Illegal,
        "illegal 4\n",
    ),
    (
        WHOLE,
        "boot 1\nbegin 1\nlook 1\ndrop 1\nissue 1 radio 7 = 1\nseal 1\ncommit 0\nend halted\n",
        Status::ReportRefused,
        "report line 1\n",
    ),
    (
        FAILING,
        "0 boot 1\n1 begin 1\n2 look 1 1\n3 drop 1\n4 issue 1 radio 7 = 1\n5 seal 1\n5 boot 2\n6 begin 1\n7 look 1 6\n8 kept 1 1\n9 commit 0\n10 end halted\n",
        Status::Ok,
        "legal\n",
    ),
    (
        FAILING,
        "0 boot 1\n1 begin 1\n2 look 1 1\n3 drop 1\n4 issue 1 radio 7 = 1\n5 seal 1\n5 boot 2\n6 begin 1\n7 look 1 6\n8 drop 1\n9 commit 0\n10 end halted\n",
        Status::Illegal,
        "illegal 10\n",
    ),
    ("]", SENT, Status::WorldRefused, "world not-toml\n"),
];

// The words as `ease` takes them.
fn words(alloc: Global, words: &[&str]) -> Result<Vec<String>, AllocError> {
    let mut all = Vec::new(alloc);
    for word in words {
        all.push(String::from_str(alloc, word)?)?;
    }
    Ok(all)
}

// Audits a report of the program in a world.
fn audited(alloc: Global, world: &str, report: &str) -> Result<(Status, MemSink), NoMemory> {
    let mut files = MemCabinet::make(alloc, Words::new(alloc));
    files.put("p", SEND.as_bytes())?;
    files.put("w", world.as_bytes())?;
    files.put("r", report.as_bytes())?;
    let mut out = MemSink::make(alloc, 100, Words::new(alloc))?;
    let words = words(alloc, &["audit", "p", "w", "r"])?;
    let status = ease(alloc, words.as_slice(), &mut files, &mut out);
    Ok((status, out))
}

#[test]
fn audit_answers_legal_or_the_first_line_that_isnt(rt: HostRuntime) -> Result<(), Fail> {
    for (world, report, status, text) in CASES {
        let (told, out) = audited(rt.alloc(), world, report)?;
        assert_eq!(rt; told, status, "for {report:?}");
        assert_eq!(rt; out.taken(), text.as_bytes(), "for {report:?}");
    }
    Ok(())
}
