//! Reports with the lines that an audit answers them, worked out by hand.
ghost use Rattle.std.specs.Prelude.{◌<◌, length};

use audit_verdict::{audit, refusal_text, verdict_text};
use ease_base::{NoMemory, Text};
use std::alloc::Global;
use std::test::Fail;
use task_check::check;
use task_text::read_program;
use world_file::{peripherals_of_a_program_are_apart, read_world};

const SEND: &str =
    "peripheral radio 0; nv word n = 7; word v; task a { v = IO(radio, SINGLE, n); n = n + v; STOP; }";

const ONCE: &str = "[[power]]\non = 100\n[readings]\nradio = [1]\n";

const TWICE: &str = "[[power]]\non = 5\n[[power]]\non = 100\n[readings]\nradio = [1]\n";

// Each has a world, a report and the answer.
const ANSWERS: [(&str, &str, &str); 11] = [
    (
        ONCE,
        "0 boot 1\n1 begin 1\n2 look 1 1\n3 drop 1\n4 issue 1 radio 7 = 1\n5 seal 1\n6 commit 0\n7 end halted\n",
        "legal\n",
    ),
    (
        ONCE,
        "0 boot 1\n1 begin 1\n2 look 1 1\n3 drop 1\n4 issue 1 radio 7 = 2\n5 seal 1\n6 commit 0\n7 end halted\n",
        "illegal 5\n",
    ),
    (
        ONCE,
        "0 boot 1\n1 begin 1\n2 look 1 2\n3 drop 1\n4 issue 1 radio 7 = 1\n5 seal 1\n6 commit 0\n7 end halted\n",
        "illegal 3\n",
    ),
    (
        ONCE,
        "0 boot 1\n1 begin 1\n2 look 1 1\n4 issue 1 radio 7 = 1\n5 seal 1\n6 commit 0\n7 end halted\n",
        "illegal 4\n",
    ),
    (
        ONCE,
        "boot 1\nbegin 1\nlook 1\ndrop 1\nissue 1 radio 7 = 1\nseal 1\ncommit 0\nend halted\n",
        "report line 1\n",
    ),
    (
        TWICE,
        "0 boot 1\n1 begin 1\n2 look 1 1\n3 drop 1\n4 issue 1 radio 7 = 1\n5 seal 1\n5 boot 2\n6 begin 1\n7 look 1 6\n8 kept 1 1\n9 commit 0\n10 end halted\n",
        "legal\n",
    ),
    (
        TWICE,
        "0 boot 1\n1 begin 1\n2 look 1 1\n3 drop 1\n4 issue 1 radio 7 = 1\n5 seal 1\n5 boot 2\n6 begin 1\n7 look 1 6\n8 drop 1\n9 commit 0\n10 end halted\n",
        "illegal 10\n",
    ),
    // the power must be spent
    (ONCE, "0 boot 1\n1 begin 1\n99 end power\n", "illegal 3\n"),
    (ONCE, "0 boot 1\n1 begin 1\n100 end power\n", "legal\n"),
    // a line is missing, and one stands behind the end
    (ONCE, "0 boot 1\n1 begin 1\n", "report line 3\n"),
    (
        ONCE,
        "0 boot 1\n1 begin 1\n100 end power\n100 end power\n",
        "report line 4\n",
    ),
];

// The answer on a report of a program in a world; None where one of these is refused.
fn answer(
    alloc: Global,
    source: &[u8],
    world: &[u8],
    report: &[u8],
) -> Result<Option<Text>, NoMemory>
    requires { length source.now < 1000 }
{
    let Ok(program) = read_program(alloc, source) else {
        return Ok(None);
    };
    let Ok(core) = check(alloc, &program) else {
        return Ok(None);
    };
    peripherals_of_a_program_are_apart();
    let Ok(world) = read_world(alloc, world, &core.peripherals) else {
        return Ok(None);
    };
    match audit(alloc, &core, &world, report) {
        Ok(verdict) => Ok(Some(verdict_text(alloc, verdict)?)),
        Err(fault) => Ok(Some(refusal_text(alloc, fault)?)),
    }
}

#[test]
fn each_report_has_its_answer(rt: HostRuntime) -> Result<(), Fail> {
    let alloc = rt.alloc();
    for (world, report, expected) in ANSWERS {
        let told = answer(alloc, SEND.as_bytes(), world.as_bytes(), report.as_bytes())?;
        let text = match &told {
            Some(text) => text.as_slice(),
            None => b"refused",
        };
        assert_eq!(rt; text, expected.as_bytes(), "for {report:?} in {world:?}");
    }
    Ok(())
}
