//! Which sites depend on which, where pointers may point, and what regions write first, worked out by hand.
ghost use Rattle.std.specs.Prelude.{◌<◌, length};

use ease_base::NoMemory;
use io_depend::{Depends, depend};
use region_split::split;
use std::alloc::Global;
use std::test::Fail;
use task_check::check;
use task_text::read_program;

const NAMES: &str =
    "peripheral temp 0; peripheral radio 1; nv word a[4]; nv word n; nv word m; const nv word g[4]; word b[4]; word v; word u; word i; word *p; word *q; ";

const SENSE: &str = "v = IO(temp, TIMELY(1000)); ";

// The dependents of a site, site k at bit k.
fn later(d: &Depends, site: u32) -> u32 {
    let mut found = 0;
    for k in 0..20 {
        if d.later(site, k) {
            found = found | 1u32.wrapping_shl(k);
        }
    }
    found
}

// Arrays, array a at bit a.
fn bits(arrays: &[u32]) -> u32 {
    let mut found = 0;
    for a in arrays {
        found = found | 1u32.wrapping_shl(*a);
    }
    found
}

// What is found of the one task of a text: the dependents of site 1 and of site 2, the arrays of p, how many regions
// there are, and what the first and the last of them write first. None where the text is refused.
fn found(alloc: Global, text: &[u8]) -> Result<Option<(u32, u32, u32, u32, u32, u32)>, NoMemory>
    requires { length text.now < 1000 }
{
    let Ok(program) = read_program(alloc, text) else {
        return Ok(None);
    };
    let Ok(core) = check(alloc, &program) else {
        return Ok(None);
    };
    let Some(task) = core.tasks.get(0) else {
        return Ok(None);
    };
    let d = depend(alloc, task, &core)?;
    let regions = split(alloc, task, &core, &d)?;
    let count = regions.count();
    if count == 0 {
        return Ok(None);
    }
    let first = bits(regions.first(0));
    let last = bits(regions.first(count - 1));
    Ok(Some((
        later(&d, 1),
        later(&d, 2),
        bits(d.points(0)),
        count,
        first,
        last,
    )))
}

#[test]
fn each_rule_shows_in_a_task(rt: HostRuntime) -> Result<(), Fail> {
    let cases = [
        (
            "IO(radio, SINGLE, v); IO(radio, SINGLE, v);",
            0b1100u32,
            0u32,
            0u32,
            1u32,
            0u32,
            0u32,
        ),
        (
            "if (v) { IO(radio, SINGLE, 1); } else { IO(radio, SINGLE, 2); } IO(radio, SINGLE, 3);",
            0b1100,
            0,
            0,
            1,
            0,
            0,
        ),
        (
            "if (v) { } else { u = 1; } IO(radio, SINGLE, u);",
            0b100,
            0,
            0,
            1,
            0,
            0,
        ),
        (
            "for (i = 0; i < 3; i++) { u = n; n = v; } IO(radio, SINGLE, u); IO(radio, SINGLE, i);",
            0b1100,
            0,
            0,
            1,
            0b10,
            0b10,
        ),
        (
            "IO_BLOCK(SINGLE) { u = IO(temp, SINGLE, v); IO(radio, SINGLE, u); }",
            0b1100,
            0,
            0,
            1,
            0,
            0,
        ),
        (
            "p = &a[v]; DMA(b, p, 2); IO(radio, SINGLE, b[0]); IO(radio, SINGLE, a[0]);",
            0b1100,
            0,
            1,
            2,
            0,
            0,
        ),
        (
            "DMA(b, a, v); IO(radio, SINGLE, b[0]);",
            0b1100,
            0,
            0,
            2,
            0,
            0,
        ),
        (
            "p = &a[0]; p[1] = v; IO(radio, SINGLE, a[0]); IO(radio, SINGLE, p[0]);",
            0b1100,
            0,
            1,
            1,
            1,
            1,
        ),
        (
            "p = &a[v]; IO(radio, SINGLE, p[0]); IO(radio, SINGLE, a[0]);",
            0b100,
            0,
            1,
            1,
            0,
            0,
        ),
        ("b[v] = 1; IO(radio, SINGLE, b[3]);", 0b100, 0, 0, 1, 0, 0),
        (
            "p = &b[0]; p = &a[1]; q = &n; n = 1; DMA(p, g, 2); a[0] = 2; m = 3; n = 4;",
            0,
            0,
            0b10001,
            2,
            0b10,
            0b101,
        ),
        (
            "n = IO(temp, SINGLE, u); DMA(b, g, 1); IO(radio, SINGLE, n);",
            0,
            0b10000,
            0,
            2,
            0b10,
            0,
        ),
    ];
    for (body, one, two, points, count, first, last) in cases {
        let text = format!(in rt.alloc(); "{NAMES}task t {{ {SENSE}{body} STOP; }}")?;
        if text.len() < 1000 {
            let is = found(rt.alloc(), text.as_bytes())?;
            assert_eq!(rt;
                is,
                Some((one, two, points, count, first, last)),
                "for {body:?}"
            );
        }
    }
    Ok(())
}
