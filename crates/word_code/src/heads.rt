//! The fixed registers, the commit, and the head.
ghost use Rattle.std.specs.Prelude.{◌≡◌, ◌+◌, ◌*◌, ◌≤◌, ◌<◌, ◌++◌, length, OnOk};
ghost use Rattle.word_code.specs.Heads as spec;
ghost use Rattle.word_code.specs.Frames as frames;

use crate::frame::Frame;
use ease_base::NoMemory;
use line_code::Code;
use word_isa::{Instr, MarkKind, Scheme};

/// How far the second bank lies above the first.
pub fn stride(scheme: Scheme) -> u16
    ensures { result ≡ frames.stride scheme }
{
    match scheme {
        Scheme::Undo => 0,
        Scheme::Bank => 2048,
    }
}

/// Where the head goes where the program has stopped.
pub fn halt_at(tasks: u32) -> u32
    requires { tasks ≤ 64 }
    ensures { result ≡ frames.halt_at tasks }
{
    20 + 5 * tasks
}

/// Where a commit goes.
pub fn stub_at(tasks: u32, next: u32) -> u32
    requires { (tasks ≤ 64) × (next ≤ 64) }
    ensures { result ≡ frames.stub_at tasks next }
{
    if next == 0 {
        halt_at(tasks)
    } else {
        20 + 6 * tasks + next
    }
}

/// The fixed registers, from the state word.
pub fn fix(code: &mut Code, stride: u16) -> Result<(), NoMemory>
    ensures lines { OnOk result (code.new ≡ code.old ++ spec.fix_code stride) }
    ensures count { OnOk result (length code.new ≡ length code.old + 14) }
{
    code.put_all(&[
        Instr::Ldi(0, 0),
        Instr::Ldi(15, 0),
        Instr::Lui(15, 16),
        Instr::Ld(13, 0, 0),
        Instr::Mov(12, 13),
        Instr::Ldi(1, 2),
        Instr::Rem(12, 1),
        Instr::Mov(14, 12),
        Instr::Eq(14, 0),
        Instr::Ldi(1, stride),
        Instr::Mul(12, 1),
        Instr::Mul(14, 1),
        Instr::Ldi(1, 8),
        Instr::Shr(13, 1),
    ])
}

/// One write ends the instance: the next epoch and task, and the working bank.
pub fn commit(code: &mut Code, f: &Frame, next: u32) -> Result<(), NoMemory>
    requires { next ≤ 64 }
    ensures lines { OnOk result (code.new ≡ code.old ++ spec.commit_code f.now next) }
    ensures count { OnOk result (length code.new ≡ length code.old + 24) }
{
    let sign = f.sign(MarkKind::Commit, next);
    code.put_all(&[
        Instr::Mov(1, 13),
        Instr::Adi(1, 1),
        Instr::Ldi(2, 8),
        Instr::Shl(1, 2),
        Instr::Adi(1, 2 * next as u16),
        Instr::Mov(2, 14),
        Instr::Ldi(3, 11),
        Instr::Shr(2, 3),
        Instr::Add(1, 2),
    ])?;
    code.put_marked(sign, Instr::St(1, 0, 0))?;
    fix(code, f.stride())
}

// Goes to the boot stub of a task, and to the halt for none.
fn leaf(code: &mut Code, tasks: u32, task: u32) -> Result<(), NoMemory>
    requires { (tasks ≤ 64) × (task ≤ 128) }
    ensures lines { OnOk result (code.new ≡ code.old ++ spec.leaf_code tasks task) }
    ensures count { OnOk result (length code.new ≡ length code.old + 1) }
{
    code.put(Instr::Jmp(20 + 5 * tasks + task))
}

// A tree of tests on register 1 over so many tasks from the first on.
fn tree(code: &mut Code, tasks: u32, deep: u32, first: u32, count: u32) -> Result<(), NoMemory>
    requires tasks { tasks ≤ 64 }
    requires range { first + count ≤ 65 }
    requires some { 0 < count }
    requires deep { count ≤ deep }
    requires room { length code.old + 5 * count ≤ 1000 }
    ensures lines { OnOk result (code.new ≡ code.old ++ spec.tree_code tasks deep first count (length code.old)) }
    ensures count { OnOk result (length code.new + 4 ≡ length code.old + 5 * count) }
{
    if count == 1 {
        return leaf(code, tasks, first);
    }
    let left = count / 2;
    code.put_all(&[
        Instr::Ldi(2, (first + left - 1) as u16),
        Instr::Ltu(2, 1),
        Instr::Jz(2, 1),
        Instr::Jmp(code.at() + 5 * left),
    ])?;
    tree(code, tasks, deep - 1, first, left)?;
    tree(code, tasks, deep - 1, first + left, count - left)
}

/// The fixed registers, and the tree for the state word's task.
pub fn head(code: &mut Code, scheme: Scheme, tasks: u32) -> Result<(), NoMemory>
    requires few { tasks ≤ 64 }
    requires front { length code.old ≡ 0 }
    ensures lines { OnOk result (code.new ≡ code.old ++ spec.head_code (frames.stride scheme) tasks) }
    ensures count { OnOk result (length code.new ≡ 20 + 5 * tasks) }
{
    fix(code, stride(scheme))?;
    code.put_all(&[
        Instr::Ld(1, 0, 0),
        Instr::Ldi(2, 256),
        Instr::Rem(1, 2),
        Instr::Ldi(2, 1),
        Instr::Shr(1, 2),
    ])?;
    tree(code, tasks, tasks + 1, 0, tasks + 1)
}
