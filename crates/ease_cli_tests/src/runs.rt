//! Images and worlds through `run`: reports, full and brief, and refusals.
use crate::commands::{calls, run_into, run_pair};
use ease_base::MemSink;
use ease_cli::Status;
use std::test::Fail;

/// One HALT and nothing else, in version 1.
pub const HALT: &[u8] = &[
    69, 65, 83, 69, 1, 0, 0, 0, 0, 0, 0, 0, 0, 0, 1, 0, 0, 0, 0, 0, 0, 1, 0, 0, 0, 0, 0, 0, 0, 0,
    0, 0, 0, 0,
];

// The same without its last byte, and with a byte behind it.
pub const SHORT: &[u8] = &[
    69, 65, 83, 69, 1, 0, 0, 0, 0, 0, 0, 0, 0, 0, 1, 0, 0, 0, 0, 0, 0, 1, 0, 0, 0, 0, 0, 0, 0, 0,
    0, 0, 0,
];

const TRAILING: &[u8] = &[
    69, 65, 83, 69, 1, 0, 0, 0, 0, 0, 0, 0, 0, 0, 1, 0, 0, 0, 0, 0, 0, 1, 0, 0, 0, 0, 0, 0, 0, 0,
    0, 0, 0, 0, 0,
];

// No code at all.
pub const NO_CODE: &[u8] = &[
    69, 65, 83, 69, 1, 0, 0, 0, 0, 0, 0, 0, 0, 0, 0, 0, 0, 0, 0, 0, 0, 0, 0, 0, 0, 0, 0, 0, 0, 0,
];

// `JMP 0`.
pub const JUMPS_TO_ITSELF: &[u8] = &[
    69, 65, 83, 69, 1, 0, 0, 0, 0, 0, 0, 0, 0, 0, 1, 0, 0, 0, 0, 0, 0, 20, 0, 0, 0, 0, 0, 0, 0, 0,
    0, 0, 0, 0,
];

// `LUI r1 1`, `LD r2 r1 0`: a load between the memories.
const LOADS_FROM_NOWHERE: &[u8] = &[
    69, 65, 83, 69, 1, 0, 0, 0, 0, 0, 0, 0, 0, 0, 2, 0, 0, 0, 1, 0, 16, 3, 0, 0, 33, 18, 0, 0, 0,
    0, 0, 0, 0, 0, 0, 0, 0, 0,
];

// `LUI r1 1`, `LDI r2 1`, `DMA r0 r1 r2`: a copy from between the memories.
const COPIES_FROM_NOWHERE: &[u8] = &[
    69, 65, 83, 69, 1, 0, 0, 0, 0, 0, 0, 0, 0, 0, 3, 0, 0, 0, 1, 0, 16, 3, 1, 0, 32, 2, 2, 0, 1,
    24, 0, 0, 0, 0, 0, 0, 0, 0, 0, 0, 0, 0,
];

// Three words from 8 to 10, where 8 to 10 are 1, 2, 3.
const COPIES_OVER_ITSELF: &[u8] = &[
    69, 65, 83, 69, 1, 0, 0, 0, 0, 0, 0, 0, 0, 0, 5, 0, 0, 0, 10, 0, 16, 2, 8, 0, 32, 2, 3, 0, 48,
    2, 3, 0, 18, 24, 0, 0, 0, 1, 11, 0, 0, 0, 0, 0, 0, 0, 0, 0, 0, 0, 0, 0, 0, 0, 0, 0, 0, 0, 0, 0,
    0, 0, 0, 0, 0, 0, 0, 0, 0, 0, 0, 0, 0, 0, 1, 0, 0, 0, 2, 0, 0, 0, 3, 0, 0, 0, 0, 0, 0, 0, 0, 0,
    0, 0,
];

// `LDI r1 7`, `TIME r2`, `IO r3 r1 256`, `ST r3 r0 5`, `HALT`; a peripheral `temp` of number 0.
pub const ASKS: &[u8] = &[
    69, 65, 83, 69, 2, 0, 0, 0, 0, 0, 0, 0, 0, 0, 5, 0, 0, 0, 7, 0, 16, 2, 0, 0, 32, 23, 0, 1, 49,
    22, 5, 0, 48, 19, 0, 0, 0, 1, 0, 0, 0, 0, 0, 0, 1, 0, 4, 116, 101, 109, 112, 0, 0, 0, 0, 0,
];

/// An image, a world, and the status and the text of a run, in full and in brief.
type Case = (
    &'static [u8],
    &'static str,
    Status,
    &'static str,
    &'static str,
);

const RUN: [Case; 14] = [
    (
        HALT,
        "[[power]]\non = 10\n",
        Status::Ok,
        "0 boot 1\n1 end halted\n",
        "boot 1\nend halted\n",
    ),
    (
        HALT,
        "[[power]]\non = 0\n",
        Status::PowerEnded,
        "0 boot 1\n0 end power\n",
        "boot 1\nend power\n",
    ),
    (
        HALT,
        "power = [{ on = 0, off = 5, fill = 7 }, { on = 1 }]\n",
        Status::Ok,
        "0 boot 1\n0 boot 2\n1 end halted\n",
        "boot 1\nboot 2\nend halted\n",
    ),
    (HALT, "", Status::PowerEnded, "0 end power\n", "end power\n"),
    (
        ASKS,
        "power = [{ on = 3, off = 10, fill = 0 }, { on = 10 }]\nreadings = { temp = [9] }\n",
        Status::Ok,
        "0 boot 1\n2 look 0 1\n3 issue 0 temp 7 = 9\n3 boot 2\n5 look 0 14\n6 issue 0 temp 7 = 9\n8 end halted\n",
        "boot 1\nlook 0\nissue 0 temp 7 = 9\nboot 2\nlook 0\nissue 0 temp 7 = 9\nend halted\n",
    ),
    (
        COPIES_OVER_ITSELF,
        "[[power]]\non = 20\n",
        Status::Ok,
        "0 boot 1\n7 copy 0 @8 @10 3\n8 end halted\n",
        "boot 1\ncopy 0 @8 @10 3\nend halted\n",
    ),
    (
        NO_CODE,
        "[[power]]\non = 5\n",
        Status::Trapped,
        "0 boot 1\n1 trap 17\n1 end trapped 17\n",
        "boot 1\ntrap 17\nend trapped 17\n",
    ),
    (
        JUMPS_TO_ITSELF,
        "[[power]]\non = 5\n",
        Status::PowerEnded,
        "0 boot 1\n5 end power\n",
        "boot 1\nend power\n",
    ),
    (
        LOADS_FROM_NOWHERE,
        "[[power]]\non = 5\n",
        Status::Trapped,
        "0 boot 1\n2 trap 16\n2 end trapped 16\n",
        "boot 1\ntrap 16\nend trapped 16\n",
    ),
    (
        COPIES_FROM_NOWHERE,
        "[[power]]\non = 9\n",
        Status::Trapped,
        "0 boot 1\n4 trap 16\n4 end trapped 16\n",
        "boot 1\ntrap 16\nend trapped 16\n",
    ),
    (
        SHORT,
        "",
        Status::ImageRefused,
        "image short\n",
        "image short\n",
    ),
    (
        TRAILING,
        "",
        Status::ImageRefused,
        "image trailing\n",
        "image trailing\n",
    ),
    (
        b"EASE\x03",
        "]",
        Status::ImageRefused,
        "image bad-version 3\n",
        "image bad-version 3\n",
    ),
    (
        HALT,
        "[[power]]\non = 4194305\n",
        Status::WorldRefused,
        "world too-many-steps 4194305\n",
        "world too-many-steps 4194305\n",
    ),
];

#[test]
fn run_writes_the_report_or_the_line_of_a_refusal(rt: HostRuntime) -> Result<(), Fail> {
    for (image, world, status, full, brief) in RUN {
        let alloc = rt.alloc();
        let ran = run_pair(alloc, &["run", "p", "w"], image, world.as_bytes(), &[])?;
        assert_eq!(rt; ran.status, status, "for {full:?}");
        assert_eq!(rt; ran.out.taken(), full.as_bytes(), "for {full:?}");
        let line = ["--brief", "run", "p", "w"];
        let ran = run_pair(alloc, &line, image, world.as_bytes(), &[])?;
        assert_eq!(rt; ran.status, status, "for {brief:?}");
        assert_eq!(rt; ran.out.taken(), brief.as_bytes(), "for {brief:?}");
    }
    Ok(())
}

#[test]
fn the_fetches_of_a_run_fail_in_turn(rt: HostRuntime) -> Result<(), Fail> {
    let cases: [(&[u8], &[u32], Status, &str); 3] = [
        (HALT, &[1], Status::ReadFault, "read fault\n"),
        (HALT, &[2], Status::ReadFault, "read fault\n"),
        (SHORT, &[2], Status::ImageRefused, "image short\n"),
    ];
    for (image, fails, status, text) in cases {
        let ran = run_pair(rt.alloc(), &["run", "p", "w"], image, b"", fails)?;
        assert_eq!(rt; ran.status, status, "for {fails:?}");
        assert_eq!(rt; ran.out.taken(), text.as_bytes(), "for {fails:?}");
    }
    Ok(())
}

#[test]
fn a_report_ends_before_the_line_whose_write_fails(rt: HostRuntime) -> Result<(), Fail> {
    let world =
        b"power = [{ on = 3, off = 10, fill = 0 }, { on = 10 }]\nreadings = { temp = [9] }\n";
    let cases = [
        (1, ""),
        (2, "0 boot 1\n"),
        (3, "0 boot 1\n2 look 0 1\n"),
        (4, "0 boot 1\n2 look 0 1\n3 issue 0 temp 7 = 9\n"),
        (5, "0 boot 1\n2 look 0 1\n3 issue 0 temp 7 = 9\n3 boot 2\n"),
        (
            7,
            "0 boot 1\n2 look 0 1\n3 issue 0 temp 7 = 9\n3 boot 2\n5 look 0 14\n6 issue 0 temp 7 = 9\n",
        ),
    ];
    for (write, report) in cases {
        let alloc = rt.alloc();
        let out = MemSink::make(alloc, 1_000, calls(alloc, &[write])?)?;
        let ran = run_into(alloc, &["run", "p", "w"], (ASKS, world), &[], out)?;
        assert_eq!(rt; ran.status, Status::WriteFault, "for {write}");
        assert_eq!(rt; ran.out.taken(), report.as_bytes(), "for {write}");
    }
    Ok(())
}
