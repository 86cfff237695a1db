//! A program of 64 drawn tasks, printed and read again.
ghost use Rattle.std.specs.Prelude.{◌<◌};

use crate::printing::printed;
use ease_base::{Text, put_number};
use std::test::Fail;

/// Draws numbers, each from the one before.
#[derive(Drop)]
struct Draws {
    state: u32,
}

impl Draws {
    /// A number below `below`.
    fn draw(&mut self, below: u32) -> u32
        requires { 0 < below }
    {
        self.state = self
            .state
            .wrapping_mul(1_664_525)
            .wrapping_add(1_013_904_223);
        self.state / 65536 % below
    }
}

fn annotation(draws: &mut Draws) -> &'static [u8] {
    match draws.draw(3) {
        0 => b"SINGLE",
        1 => b"TIMELY(500)",
        _ => b"ALWAYS",
    }
}

fn put(out: &mut Text, piece: &[u8]) -> Result<(), Fail> {
    Ok(out.extend(piece)?)
}

fn put_drawn(out: &mut Text, piece: &[u8], n: u32) -> Result<(), Fail> {
    out.extend(piece)?;
    Ok(put_number(out, u64::from(n))?)
}

/// A task that senses, sends and copies; its numbers and annotations are drawn.
fn put_drawn_task(out: &mut Text, draws: &mut Draws, number: u32) -> Result<(), Fail> {
    put_drawn(out, b"task t", number)?;
    put(out, b" {\n  v = IO(temp, ")?;
    put(out, annotation(draws))?;
    put(out, b");\n  IO_BLOCK(")?;
    put(out, annotation(draws))?;
    put_drawn(out, b") { b[", draws.draw(32))?;
    put(out, b"] = IO(temp, ")?;
    put(out, annotation(draws))?;
    put(out, b"); IO(radio, ")?;
    put(out, annotation(draws))?;
    put(out, b", v); }\n  DMA(")?;
    let ends: &[u8] = if draws.draw(2) == 0 {
        b"a, b, "
    } else {
        b"b, a, "
    };
    put_drawn(out, ends, draws.draw(33))?;
    put(out, b");\n  for (i = 0; i < 16; i++) { r = r + b[i] * ")?;
    put_drawn(out, b"", draws.draw(1000))?;
    put(out, b"; }\n  IO(radio, SINGLE, r);\n  n = n + 1;\n  ")
}

/// How its printed form begins, as the first draws from 1 give it.
const DRAWN_FRONT: &[u8] =
    b"peripheral temp 0 ; peripheral radio 1 ; nv word a [ 32 ] ; nv word n ; nv word r ; word b [ 32 ] ; word v ; word i ; task t1 { v = IO ( temp , TIMELY ( 500 ) ) ; IO_BLOCK ( ALWAYS ) { b [ 22 ] = IO ( temp , ";

#[test]
fn a_drawn_program_of_64_tasks_is_printed_and_read_again(rt: HostRuntime) -> Result<(), Fail> {
    let alloc = rt.alloc();
    let mut draws = Draws { state: 1 };
    let mut text = Text::new(alloc);
    put(
        &mut text,
        b"peripheral temp 0; peripheral radio 1;\nnv word a[32]; nv word n; nv word r;\nword b[32]; word v; word i;\n",
    )?;
    for number in 1..64u32 {
        put_drawn_task(&mut text, &mut draws, number)?;
        put_drawn(&mut text, b"NEXT(t", number.saturating_add(1))?;
        put(&mut text, b");\n}\n")?;
    }
    put_drawn_task(&mut text, &mut draws, 64)?;
    put(&mut text, b"if (n < 384) NEXT(t1); else STOP;\n}\n")?;
    let once = printed(&rt, alloc, text.as_slice())?;
    let twice = printed(&rt, alloc, once.as_slice())?;
    assert!(&rt; once.as_slice().starts_with(DRAWN_FRONT));
    assert_eq!(&rt; twice.as_slice(), once.as_slice());
    Ok(())
}
