//! An image that shows each kind of event: its reports, and sinks that fail at each of its lines.
use crate::bed::{ShortRow, run_image};
use devices::RunEnd;
use ease_base::MemSink;
use image_file::read_image;
use power_trace::RunError;
use std::test::Fail;
use word_isa::Image;

// LDI r1 7, TIME r2, MOV r3 r1, ST r1 r0 5, IO r3 r1 256, ST r3 r0 6, marked as a begin of task 2 and a look, a kept value,
// a dropped record, an issue and a sealed record of site 1; LDI r4 3, LDI r5 50, LDI r6 2, DMA r5 r4 r6 of site 2;
// LDI r4 6, LDI r5 200, DMA r5 r4 r6 of site 3; IO r3 r1 7 without a mark; ST r1 r0 7, a commit of 0; TRAP 5.
// Two banks 2 words apart, a symbol `a` of four words from 1 on, three kept words from 50 on, a peripheral `temp` of number 0.
const EVENTS: &[u8] = &[
    69, 65, 83, 69, 2, 1, 0, 0, 2, 0, 50, 0, 3, 0, 16, 0, 0, 0, 7, 0, 16, 2, 0, 0, 32, 23, 0, 0,
    49, 4, 5, 0, 16, 19, 0, 1, 49, 22, 6, 0, 48, 19, 3, 0, 64, 2, 50, 0, 80, 2, 2, 0, 96, 2, 6, 0,
    84, 24, 6, 0, 64, 2, 200, 0, 80, 2, 6, 0, 84, 24, 7, 0, 49, 22, 7, 0, 16, 19, 5, 0, 0, 25, 0,
    0, 0, 0, 1, 0, 1, 97, 0, 1, 0, 0, 0, 4, 0, 0, 0, 1, 0, 4, 116, 101, 109, 112, 0, 9, 0, 0, 0, 0,
    0, 0, 0, 1, 2, 2, 1, 0, 0, 0, 2, 1, 2, 2, 0, 0, 0, 3, 1, 2, 3, 0, 0, 0, 4, 1, 2, 4, 0, 0, 0, 5,
    1, 2, 5, 0, 0, 0, 6, 1, 2, 9, 0, 0, 0, 7, 2, 2, 12, 0, 0, 0, 7, 3, 2, 14, 0, 0, 0, 8, 0, 2,
];

const FULL: &str =
    "0 boot 1\n1 begin 2\n2 look 1 1\n3 kept 1 7\n4 drop 1\n5 issue 1 temp 7 = 9\n6 seal 1\n12 copy 2 a[2] keep 2\n17 copy 3 a[3] @200 2\n18 issue 0 #7 = 0\n19 commit 0\n20 trap 5\n20 end trapped 5\n";

const BRIEF: &str =
    "boot 1\nbegin 2\nlook 1\nkept 1 7\ndrop 1\nissue 1 temp 7 = 9\nseal 1\ncopy 2 a[2] keep 2\ncopy 3 a[3] @200 2\nissue 0 #7 = 0\ncommit 0\ntrap 5\nend trapped 5\n";

const ROWS: &[ShortRow] = &[ShortRow { on: 100, off: 0 }];

#[test]
fn each_kind_of_event_has_its_line(rt: HostRuntime) -> Result<(), Fail> {
    let image = read_image(rt.alloc(), EVENTS).ok().expect(&rt, "an image");
    for (brief, report) in [(false, FULL), (true, BRIEF)] {
        let run = run_image(rt.alloc(), &image, ROWS, &[9], brief, None)?;
        assert_eq!(rt; run.sink.taken(), report.as_bytes());
        assert_eq!(rt; run.end, Ok(RunEnd::Trapped(5)));
    }
    Ok(())
}

#[test]
fn a_failing_write_leaves_a_front(rt: HostRuntime) -> Result<(), Fail> {
    let image = read_image(rt.alloc(), EVENTS).ok().expect(&rt, "an image");
    // what the lines before the k-th have
    let mut lines = FULL.lines();
    let mut front = 0;
    for number in 1..14 {
        let run = run_image(rt.alloc(), &image, ROWS, &[9], false, Some(number))?;
        assert_eq!(rt; run.end, Err(RunError::WriteFault));
        assert_eq!(rt; run.sink.faults(), 1);
        assert_eq!(rt; Some(run.sink.taken()), FULL.as_bytes().get(..front));
        front += lines.next().map_or(0, |line| line.len() + 1);
    }
    Ok(())
}
