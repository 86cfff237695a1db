//! The source of a soak.
ghost use Rattle.std.specs.Prelude.{◌≡◌, ◌++◌, ◌+◌, ◌≤◌, length, IfOk, OnOk};
ghost use Rattle.soak_case.specs.Source as spec;

use crate::drawn::Drawn;
use crate::draws::Draws;
use ease_base::{NoMemory, Text, put_number};
use std::alloc::Global;

/// How many tasks there are.
const TASKS: u32 = 64;

/// The source of the soak of a number, short enough for a program's. Its text stands in docs/COMMANDS.md, "Soak".
pub fn soak_source(alloc: Global, number: u32) -> Result<Text, NoMemory>
    ensures text { IfOk result (λ text. text ≡ spec.source_of number) }
    ensures short { IfOk result (λ text. length text ≤ 65536) }
{
    let text = write_source(alloc, number)?;
    Ok(text)
}

// Writes the source, task by task.
fn write_source(alloc: Global, number: u32) -> Result<Text, NoMemory>
    ensures { IfOk result (λ text. text ≡ spec.source_of number) }
{
    let mut draws = Draws::new(number);
    let mut out = Text::new(alloc);
    out.extend(
        b"peripheral temp 0; peripheral radio 1;\nnv word a[32]; nv word n; nv word r;\nword b[32]; word v; word i;\n",
    )?;
    'tasks: for done in 0..TASKS {
        let drawn = Drawn::draw(&mut draws);
        put_task(&mut out, done + 1, &drawn)?;
    }
    Ok(out)
}

// A task of a number.
#[tactic(auto, using(std::proofs::Common::append_assoc))]
fn put_task(out: &mut Text, task: u32, drawn: &Drawn) -> Result<(), NoMemory>
    requires { task ≤ 64 }
    ensures { OnOk result (out.new ≡ out.old ++ spec.task_text task drawn.now) }
{
    put_named(out, b"task t", task, b" {\n")?;
    put_reading(out, drawn)?;
    put_block(out, drawn)?;
    put_copy(out, drawn)?;
    put_named(
        out,
        b"  for (i = 0; i < 16; i++) { r = r + b[i] * ",
        drawn.factor,
        b"; }\n",
    )?;
    out.extend(b"  IO(radio, SINGLE, r);\n  n = n + 1;\n")?;
    put_exit(out, task)
}

// A number between two texts.
fn put_named(out: &mut Text, front: &[u8], n: u32, back: &[u8]) -> Result<(), NoMemory>
    ensures { OnOk result (out.new ≡ out.old ++ spec.named front.now n back.now) }
{
    out.extend(front)?;
    put_number(out, u64::from(n))?;
    out.extend(back)
}

// An annotation by its number.
fn ann_text(n: u32) -> &'static [u8]
    ensures { result.now ≡ spec.ann_text n }
{
    match n {
        0 => b"SINGLE",
        1 => b"TIMELY(500)",
        _ => b"ALWAYS",
    }
}

#[tactic(auto, using(std::proofs::Common::append_assoc))]
fn put_reading(out: &mut Text, drawn: &Drawn) -> Result<(), NoMemory>
    ensures { OnOk result (out.new ≡ out.old ++ spec.reading_text drawn.now) }
{
    out.extend(b"  v = IO(temp, ")?;
    out.extend(ann_text(drawn.reading))?;
    out.extend(b");\n")?;
    Ok(())
}

#[tactic(auto, using(std::proofs::Common::append_assoc))]
fn put_block(out: &mut Text, drawn: &Drawn) -> Result<(), NoMemory>
    ensures { OnOk result (out.new ≡ out.old ++ spec.block_text drawn.now) }
{
    out.extend(b"  IO_BLOCK(")?;
    out.extend(ann_text(drawn.block))?;
    put_named(out, b") { b[", drawn.element, b"] = IO(temp, ")?;
    out.extend(ann_text(drawn.inner))?;
    out.extend(b"); IO(radio, ")?;
    out.extend(ann_text(drawn.sent))?;
    out.extend(b", v); }\n")?;
    Ok(())
}

fn put_copy(out: &mut Text, drawn: &Drawn) -> Result<(), NoMemory>
    ensures { OnOk result (out.new ≡ out.old ++ spec.copy_text drawn.now) }
{
    out.extend(b"  DMA(")?;
    out.extend(if drawn.way == 0 { b"a, b" } else { b"b, a" })?;
    put_named(out, b", ", drawn.words, b");\n")
}

fn put_exit(out: &mut Text, task: u32) -> Result<(), NoMemory>
    requires { task ≤ 64 }
    ensures { OnOk result (out.new ≡ out.old ++ spec.exit_text task) }
{
    if task == TASKS {
        return out.extend(b"  if (n < 384) NEXT(t1); else STOP;\n}\n");
    }
    put_named(out, b"  NEXT(t", task + 1, b");\n}\n")
}
