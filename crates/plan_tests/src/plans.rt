//! How many acts the plans of programs have, counted by hand.
ghost use Rattle.std.specs.Prelude.{◌<◌, length};

use ease_base::{List, NoMemory};
use run_plan::{Act, plan};
use std::alloc::Global;
use std::test::Fail;
use task_check::check;
use task_text::read_program;
use word_isa::Scheme;

// How many acts a list has; None where it isn't there.
fn count(acts: Option<&List<Act>>) -> Option<usize> {
    match acts {
        Some(acts) => Some(acts.len()),
        None => None,
    }
}

// How many acts the plan of a text has at a boot and in its first task, and how many regions that has. None where the
// text is refused.
fn planned(
    alloc: Global,
    text: &[u8],
    scheme: Scheme,
) -> Result<Option<(usize, Option<usize>, usize)>, NoMemory>
    requires { length text.now < 1000 }
{
    let Ok(program) = read_program(alloc, text) else {
        return Ok(None);
    };
    let Ok(core) = check(alloc, &program) else {
        return Ok(None);
    };
    let plan = plan(alloc, &core, scheme)?;
    let regions = match plan.firsts.get(0) {
        Some(firsts) => firsts.len(),
        None => 0,
    };
    Ok(Some((plan.boot.len(), count(plan.tasks.get(0)), regions)))
}

#[test]
fn each_statement_has_its_acts(rt: HostRuntime) -> Result<(), Fail> {
    let cases = [
        ("task a { STOP; }", 1usize, 4usize, 2usize, 1usize),
        (
            "peripheral radio 0; nv word n = 7; word v; task a { v = IO(radio, SINGLE, n); n = n + v; STOP; }",
            1,
            9,
            7,
            1,
        ),
        (
            "peripheral temp 0; nv word n; word v; task a { IO_BLOCK(SINGLE) { v = IO(temp, ALWAYS); } n = v; STOP; }",
            1,
            12,
            10,
            1,
        ),
        (
            "nv word a[6]; word i; task t { for (i = 0; i < 3; i++) { a[i] = i; } DMA(a, &a[1], 5); STOP; }",
            2,
            9,
            5,
            2,
        ),
        (
            "nv word n; task t { if (n) { n = 1; } if (n) NEXT(t); else STOP; }",
            1,
            5,
            3,
            1,
        ),
    ];
    for (text, boot, undo, bank, regions) in cases {
        if text.len() < 1000 {
            let saving = planned(rt.alloc(), text.as_bytes(), Scheme::Undo)?;
            assert_eq!(rt; saving, Some((boot, Some(undo), regions)), "for {text:?}");
            let turning = planned(rt.alloc(), text.as_bytes(), Scheme::Bank)?;
            assert_eq!(rt; turning, Some((0, Some(bank), regions)), "for {text:?}");
        }
    }
    Ok(())
}
