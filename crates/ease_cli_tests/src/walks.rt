//! Pointers, copies and calls through the command: each source with what is written, worked out by hand.
use crate::commands::run;
use ease_cli::Status;
use std::test::Fail;

/// A source that is walked for at most five tasks, and what is written.
type Case = (&'static str, &'static str);

const POINTERS: [Case; 9] = [
    (
        "nv word a[3] = {1, 2, 3}; nv word s; word *p; task t { p = &a[1]; s = p[1]; p[0] = 9; STOP; }",
        "commit 0\na = 1 9 3\ns = 3\nend stopped\n",
    ),
    (
        "nv word a[3] = {1, 2, 3}; nv word s; word *p; task t { p = &a[1]; s = p[2]; p[0] = 9; STOP; }",
        "end trapped 1\n",
    ),
    (
        "nv word a[3] = {1, 2, 3}; nv word s; word *p; task t { p = &a[1]; s = p[4294967295]; p[0] = 9; STOP; }",
        "end trapped 1\n",
    ),
    (
        "nv word a[3] = {1, 2, 3}; nv word s; word *p; task t { s = p[1]; p[0] = 9; STOP; }",
        "end trapped 3\n",
    ),
    (
        "const nv word g[1] = {4}; word *p; task t { p = &g[0]; p[0] = 1; STOP; }",
        "source 1:56 const-written\n",
    ),
    (
        "nv word s; word *p; task t { s = p[1 / 0]; STOP; }",
        "end trapped 2\n",
    ),
    ("word *p; task t { p[0] = 1 / 0; STOP; }", "end trapped 3\n"),
    (
        "word a[3]; word *p; task t { p = &a[3]; STOP; }",
        "end trapped 1\n",
    ),
    (
        "nv word s; word a[2] = {7, 8}; word *p; task t { if (s) { s = p[0]; } else { p = &a[1]; s = p[0]; } NEXT(t); }",
        "commit 1\ns = 8\nend trapped 3\n",
    ),
];

const COPIES: [Case; 14] = [
    (
        "nv word a[6] = {1, 2, 3, 4, 5, 6}; task t { DMA(&a[1], a, 5); STOP; }",
        "commit 0\na = 1 1 1 1 1 1\nend stopped\n",
    ),
    (
        "nv word a[6] = {1, 2, 3, 4, 5, 6}; task t { DMA(a, &a[1], 5); STOP; }",
        "commit 0\na = 2 3 4 5 6 6\nend stopped\n",
    ),
    (
        "nv word a[2] = {1, 2}; word b[2] = {7, 8}; task t { DMA(&a[1], &b[1], 0); STOP; }",
        "commit 0\na = 1 2\nend stopped\n",
    ),
    (
        "nv word a[2]; const nv word k[2] = {3, 4}; word *p; task t { p = &k[1]; DMA(a, p, 1); STOP; }",
        "commit 0\na = 4 0\nend stopped\n",
    ),
    (
        "nv word a[2048]; word b[2048]; task t { DMA(a, b, 2049); STOP; }",
        "end trapped 4\n",
    ),
    (
        "nv word a[2048]; word b[2048]; word *p; task t { DMA(p, b, 2048); STOP; }",
        "end trapped 3\n",
    ),
    (
        "nv word a[6]; word *p; task t { DMA(&a[6], p, 1); STOP; }",
        "end trapped 1\n",
    ),
    (
        "nv word a[6]; word *p; task t { DMA(p, &a[6], 1); STOP; }",
        "end trapped 3\n",
    ),
    (
        "nv word a[6]; word b[2]; task t { DMA(a, &b[2], 1 / 0); STOP; }",
        "end trapped 1\n",
    ),
    (
        "nv word a[6]; word *p; task t { DMA(a, p, 1 / 0); STOP; }",
        "end trapped 3\n",
    ),
    (
        "nv word a[6]; word b[2]; task t { DMA(&a[5], b, 2 / 0); STOP; }",
        "end trapped 2\n",
    ),
    (
        "nv word a[6]; word b[2]; task t { DMA(&a[5], b, 2); STOP; }",
        "end trapped 4\n",
    ),
    (
        "nv word a[6]; word b[2]; task t { DMA(a, &b[1], 2); STOP; }",
        "end trapped 4\n",
    ),
    (
        "nv word a[6]; task t { DMA(a, a, -1); STOP; }",
        "end trapped 4\n",
    ),
];

const CALLS: [Case; 4] = [
    (
        "peripheral radio 0; nv word n = 7; word v; task a { v = IO(radio, SINGLE, n); n = n + v; STOP; }",
        "end reading\n",
    ),
    (
        "peripheral r 9; nv word n; task t { n = 4; NEXT(u); } task u { n = 5; IO_BLOCK(ALWAYS) { IO(r, SINGLE); } STOP; }",
        "commit 2\nn = 4\nend reading\n",
    ),
    (
        "peripheral r 9; nv word n; task t { n = IO(r, SINGLE, 1 / n); STOP; }",
        "end trapped 2\n",
    ),
    (
        "peripheral r 9; nv word a[1]; task t { a[1] = IO(r, SINGLE, 1 / 0); STOP; }",
        "end trapped 1\n",
    ),
];

// The status that goes with what is written.
fn status_of(text: &str) -> Status {
    if text.starts_with("source") {
        Status::SourceRefused
    } else if text.contains("end trapped") {
        Status::Trapped
    } else {
        Status::Ok
    }
}

#[test]
fn pointers_copies_and_calls_do_what_they_say(rt: HostRuntime) -> Result<(), Fail> {
    for cases in [&POINTERS[..], &COPIES[..], &CALLS[..]] {
        for (source, text) in cases {
            let ran = run(rt.alloc(), &["walk", "p", "5"], source, 1_000)?;
            assert_eq!(rt; ran.status, status_of(text), "for {source:?}");
            assert_eq!(rt; ran.out.taken(), text.as_bytes(), "for {source:?}");
        }
    }
    Ok(())
}
