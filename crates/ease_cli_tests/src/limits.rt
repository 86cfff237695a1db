//! The limits that only long sources come to: tasks, names and nodes, just met and just passed.
use crate::commands::run_bytes;
use ease_base::{NoMemory, Text, put_number};
use ease_cli::Status;
use std::alloc::Global;
use std::test::Fail;

// Puts the piece so many times.
fn put_times(text: &mut Text, count: u32, piece: &[u8]) -> Result<(), NoMemory> {
    for _ in 0..count {
        text.extend(piece)?;
    }
    Ok(())
}

// Puts the numbers from 1, each between the two pieces.
fn put_numbered(text: &mut Text, front: &[u8], count: u32, back: &[u8]) -> Result<(), NoMemory> {
    for number in 1..=count {
        text.extend(front)?;
        put_number(text, u64::from(number))?;
        text.extend(back)?;
    }
    Ok(())
}

fn tasks(alloc: Global, count: u32) -> Result<Text, NoMemory> {
    let mut text = Text::new(alloc);
    put_numbered(&mut text, b"task t", count, b" { STOP; }\n")?;
    Ok(text)
}

fn names(alloc: Global, count: u32) -> Result<Text, NoMemory> {
    let mut text = Text::new(alloc);
    put_numbered(&mut text, b"nv word n", count, b";\n")?;
    text.extend(b"task t { STOP; }\n")?;
    Ok(text)
}

// Statements of 3 nodes each, one more, and an exit of 1 node; the last brace stands alone on a line.
fn nodes(alloc: Global, count: u32, last: &[u8]) -> Result<Text, NoMemory> {
    let mut text = Text::new(alloc);
    text.extend(b"nv word x; task t {")?;
    put_times(&mut text, count, b"x=1;")?;
    text.extend(last)?;
    text.extend(b"STOP;\n}")?;
    Ok(text)
}

#[test]
fn long_limits_are_met_and_passed(rt: HostRuntime) -> Result<(), Fail> {
    let alloc = rt.alloc();
    let cases = [
        (tasks(alloc, 64)?, Status::Ok, "end limit\n"),
        (
            tasks(alloc, 65)?,
            Status::SourceRefused,
            "source 65:6 limit tasks 65\n",
        ),
        (names(alloc, 255)?, Status::Ok, "end limit\n"),
        (
            names(alloc, 256)?,
            Status::SourceRefused,
            "source 257:6 limit names 257\n",
        ),
        (nodes(alloc, 10_921, b"x=-1;")?, Status::Ok, "end limit\n"),
        (
            nodes(alloc, 10_921, b"x=--1;")?,
            Status::SourceRefused,
            "source 2:1 limit nodes 32769\n",
        ),
    ];
    for (source, status, line) in &cases {
        let ran = run_bytes(alloc, &["walk", "p", "0"], source.as_slice(), 1_000)?;
        assert_eq!(rt; ran.status, *status);
        assert_eq!(rt; ran.out.taken(), line.as_bytes());
    }
    Ok(())
}
