//! Runs and their texts, worked out by hand.
use crate::made::sample;
use ease_base::{NoMemory, Text};
use std::alloc::Global;
use std::test::Fail;
use walk_run::{walk, walk_text};

// The second task begins with a = 9 3 3, and its pointer points to nothing until it is set.
const FIRST: &str = "commit 1\na = 9 3 3\ns = 8\n";

const SECOND: &str = "commit 1\na = 7 3 3\ns = 8\n";

// The text of a run of the program.
fn text_of(alloc: Global, readings: &[u32], tasks: u8) -> Result<Text, NoMemory> {
    let c = sample(alloc)?;
    let run = walk(alloc, &c, readings, u32::from(tasks))?;
    walk_text(alloc, &c, &run)
}

#[test]
fn a_program_of_many_statements_runs(rt: HostRuntime) -> Result<(), Fail> {
    for (readings, tasks, front, second, end) in [
        (&[][..], 5u8, "", "", "end reading\n"),
        (&[9][..], 0, "", "", "end limit\n"),
        (&[9][..], 1, FIRST, "", "end limit\n"),
        (&[9][..], 2, FIRST, "", "end reading\n"),
        (&[9, 7, 5][..], 2, FIRST, SECOND, "end limit\n"),
    ] {
        let text = text_of(rt.alloc(), readings, tasks)?;
        let want = format!(in rt.alloc(); "{front}{second}{end}")?;
        assert_eq!(rt; text.as_slice(), want.as_bytes(), "of {tasks} tasks");
    }
    Ok(())
}
