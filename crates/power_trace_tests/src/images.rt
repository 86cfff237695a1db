//! Small images on small worlds, and malicious ones: what they write.
use crate::bed::{ShortRow, run_image};
use devices::RunEnd;
use ease_base::{List, Words};
use image_file::read_image;
use std::process::Abort;
use std::test::Fail;
use word_isa::{Image, unnamed_image};

// LDI r1 7, TIME r2, IO r3 r1 256, ST r3 r0 5, HALT; a peripheral `temp` of number 0.
const ASKS: &[u8] = &[
    69, 65, 83, 69, 2, 0, 0, 0, 0, 0, 0, 0, 0, 0, 5, 0, 0, 0, 7, 0, 16, 2, 0, 0, 32, 23, 0, 1, 49,
    22, 5, 0, 48, 19, 0, 0, 0, 1, 0, 0, 0, 0, 0, 0, 1, 0, 4, 116, 101, 109, 112, 0, 0, 0, 0, 0,
];

// A power row of so many steps, and ticks without power behind it.
fn row(on: u16, off: u16) -> ShortRow {
    ShortRow { on, off }
}

// Asserts what the run of an image writes, and how it ends.
fn expect_report<R: AllocGlobal + Abort>(
    rt: &R,
    image: &Image,
    rows: &[ShortRow],
    brief: bool,
    report: &str,
    end: RunEnd,
) -> Result<(), Fail> {
    let run = run_image(rt.alloc(), image, rows, &[9], brief, None)?;
    assert_eq!(rt; run.sink.taken(), report.as_bytes());
    assert_eq!(rt; run.end, Ok(end));
    Ok(())
}

#[test]
fn an_image_asks_again_after_a_failure(rt: HostRuntime) -> Result<(), Fail> {
    let image = read_image(rt.alloc(), ASKS).ok().expect(&rt, "an image");
    let full =
        "0 boot 1\n2 look 0 1\n3 issue 0 temp 7 = 9\n3 boot 2\n5 look 0 14\n6 issue 0 temp 7 = 9\n8 end halted\n";
    let brief =
        "boot 1\nlook 0\nissue 0 temp 7 = 9\nboot 2\nlook 0\nissue 0 temp 7 = 9\nend halted\n";
    let rows = [row(3, 10), row(10, 0)];
    expect_report(&rt, &image, &rows, false, full, RunEnd::Halted)?;
    expect_report(&rt, &image, &rows, true, brief, RunEnd::Halted)
}

#[test]
fn images_run_to_their_end(rt: HostRuntime) -> Result<(), Fail> {
    let halt = 0x0100_0000;
    // code, the first power row's steps, the report, the end; FRAM has 1, 2, 3 at 8 to 10
    let table: [(&[u32], u16, &str, RunEnd); 7] = [
        (&[halt], 10, "0 boot 1\n1 end halted\n", RunEnd::Halted),
        (&[halt], 1, "0 boot 1\n1 end halted\n", RunEnd::Halted),
        (
            &[0x0210_000a, 0x0220_0008, 0x0230_0003, 0x1812_0003, halt],
            20,
            "0 boot 1\n7 copy 0 @8 @10 3\n8 end halted\n",
            RunEnd::Halted,
        ),
        (
            &[],
            5,
            "0 boot 1\n1 trap 17\n1 end trapped 17\n",
            RunEnd::Trapped(17),
        ),
        (
            &[0x0310_0001, 0x1221_0000],
            5,
            "0 boot 1\n2 trap 16\n2 end trapped 16\n",
            RunEnd::Trapped(16),
        ),
        (
            &[0x0310_0001, 0x0220_0001, 0x1801_0002],
            9,
            "0 boot 1\n4 trap 16\n4 end trapped 16\n",
            RunEnd::Trapped(16),
        ),
        // JMP 0, and then a second row
        (
            &[0x1400_0000],
            5,
            "0 boot 1\n5 boot 2\n7 end power\n",
            RunEnd::Power,
        ),
    ];
    for (code, on, report, end) in table {
        let code = Words::from_slice(rt.alloc(), code)?;
        let fram = Words::from_slice(rt.alloc(), &[0, 0, 0, 0, 0, 0, 0, 0, 1, 2, 3])?;
        let image = unnamed_image(rt.alloc(), code, fram, List::new(rt.alloc()));
        let image = image.expect(&rt, "an image");
        expect_report(&rt, &image, &[row(on, 0), row(2, 0)], false, report, end)?;
    }
    Ok(())
}

#[test]
fn power_may_be_short_or_none(rt: HostRuntime) -> Result<(), Fail> {
    let image = read_image(rt.alloc(), ASKS).ok().expect(&rt, "an image");
    let end = RunEnd::Power;
    expect_report(&rt, &image, &[], false, "0 end power\n", end)?;
    expect_report(&rt, &image, &[], true, "end power\n", end)?;
    let none = [row(0, 0)];
    expect_report(&rt, &image, &none, false, "0 boot 1\n0 end power\n", end)?;
    let twice = [row(0, 5), row(2, 0)];
    let report = "0 boot 1\n0 boot 2\n2 look 0 6\n2 end power\n";
    expect_report(&rt, &image, &twice, false, report, end)
}
