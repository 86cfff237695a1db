//! The code of choices: by annotations and modes, and by the class of a copy.
ghost use Rattle.std.specs.Prelude.{◌≡◌, ◌+◌, ◌≤◌, ◌<◌, ◌++◌, length, OnOk};
ghost use Rattle.word_code.specs.Fitting.{IsSiteNumber};
ghost use Rattle.word_code.specs.Tables as spec;

use crate::frame::{begun_at, flag_at, outer_at, stamp_at, value_at};
use ease_base::NoMemory;
use line_code::Code;
use task_ast::{Ann, Site};
use word_isa::Instr;

/// What is annotated at a site.
pub fn ann_of(s: Option<Site>) -> Ann
    ensures { result ≡ spec.ann_of s }
{
    match s {
        Some(Site::Io(ann)) | Some(Site::Block(ann)) => ann,
        Some(Site::Copy(_)) | None => Ann::Always,
    }
}

// The mode inside where the mode outside is Own.
fn own(code: &mut Code, ann: Ann, site: u32) -> Result<(), NoMemory>
    requires { IsSiteNumber site }
    ensures lines { OnOk result (code.new ≡ code.old ++ spec.own_lines ann site) }
    ensures count { OnOk result (length code.new ≡ length code.old + spec.own_size ann) }
{
    match ann {
        Ann::Single => code.put_all(&[Instr::Ldi(1, 1), Instr::Mul(1, 2)]),
        Ann::Timely(limit) => code.put_all(&[
            Instr::Ld(3, 15, 37),
            Instr::Ld(4, 0, stamp_at(site)),
            Instr::Sub(3, 4),
            Instr::Ldi(1, (limit % 65536) as u16),
            Instr::Lui(1, (limit / 65536) as u16),
            Instr::Ltu(1, 3),
            Instr::Adi(1, 1),
            Instr::Mul(1, 2),
        ]),
        Ann::Always => code.put(Instr::Ldi(1, 2)),
    }
}

// The mode inside in register 1, and the record's bit in register 2.
fn inside(code: &mut Code, ann: Ann, site: u32) -> Result<(), NoMemory>
    requires { IsSiteNumber site }
    ensures lines { OnOk result (code.new ≡ code.old ++ spec.inside_code ann site) }
    ensures count { OnOk result (length code.new ≡ length code.old + spec.own_size ann + 7) }
{
    code.put_all(&[Instr::Ld(2, 0, flag_at(site)), Instr::Eq(2, 13)])?;
    own(code, ann, site)?;
    code.put_all(&[
        Instr::Ld(3, 15, 39),
        Instr::Mov(4, 3),
        Instr::Eq(4, 0),
        Instr::Mul(1, 4),
        Instr::Add(1, 3),
    ])
}

/// A block is entered: all that it needs is read before it writes.
pub fn enter(code: &mut Code, ann: Ann, site: u32) -> Result<(), NoMemory>
    requires { IsSiteNumber site }
    ensures lines { OnOk result (code.new ≡ code.old ++ spec.enter_code ann site) }
    ensures count { OnOk result (length code.new ≡ length code.old + spec.own_size ann + 12) }
{
    inside(code, ann, site)?;
    code.put_all(&[
        Instr::Ld(3, 15, 37),
        Instr::Ld(4, 15, 39),
        Instr::St(3, 15, begun_at(site)),
        Instr::St(4, 15, outer_at(site)),
        Instr::St(1, 15, 39),
    ])
}

/// A block is left: the mode outside is back; register 1 is not 0 where the block kept.
pub fn leave(code: &mut Code, site: u32) -> Result<(), NoMemory>
    requires { IsSiteNumber site }
    ensures lines { OnOk result (code.new ≡ code.old ++ spec.leave_code site) }
    ensures count { OnOk result (length code.new ≡ length code.old + 5) }
{
    code.put_all(&[
        Instr::Ld(2, 15, 39),
        Instr::Ld(1, 15, outer_at(site)),
        Instr::St(1, 15, 39),
        Instr::Ldi(1, 1),
        Instr::Eq(1, 2),
    ])
}

/// Register 1 is not 0 where a site keeps: a call with a record in mode Keep inside, a copy with a record.
pub fn keeps(code: &mut Code, s: Option<Site>, site: u32) -> Result<(), NoMemory>
    requires { IsSiteNumber site }
    ensures lines { OnOk result (code.new ≡ code.old ++ spec.keeps_code s site) }
    ensures count { OnOk result (length code.new ≡ length code.old + spec.keeps_size s) }
{
    match s {
        Some(Site::Io(ann)) => {
            inside(code, ann, site)?;
            code.put_all(&[Instr::Ldi(3, 1), Instr::Eq(1, 3), Instr::And(1, 2)])
        }
        Some(Site::Block(_)) | Some(Site::Copy(_)) | None => {
            code.put_all(&[Instr::Ld(1, 0, flag_at(site)), Instr::Eq(1, 13)])
        }
    }
}

/// Goes to one address where register 1 is not 0, else to the other.
pub fn branch(code: &mut Code, to: u32, other: u32) -> Result<(), NoMemory>
    ensures lines { OnOk result (code.new ≡ code.old ++ spec.branch to other) }
    ensures count { OnOk result (length code.new ≡ length code.old + 3) }
{
    code.put_all(&[Instr::Jz(1, 1), Instr::Jmp(to), Instr::Jmp(other)])
}

/// The class of a copy by its ends: 1 Single to FRAM, 2 Private from nonvolatile words to RAM, 0 else.
pub fn class(code: &mut Code) -> Result<(), NoMemory>
    ensures lines { OnOk result (code.new ≡ code.old ++ spec.class_code) }
    ensures count { OnOk result (length code.new ≡ length code.old + 10) }
{
    code.put_all(&[
        Instr::Ld(1, 15, 40),
        Instr::Ltu(1, 15),
        Instr::Ld(2, 15, 42),
        Instr::Ldi(3, 4097),
        Instr::Ltu(2, 3),
        Instr::Mov(3, 1),
        Instr::Eq(3, 0),
        Instr::And(2, 3),
        Instr::Add(1, 2),
        Instr::Add(1, 2),
    ])
}

// The class that counts: the record's where a copy keeps, else its own.
fn class_load(keeps: bool, site: u32) -> Instr
    requires { IsSiteNumber site }
    ensures { result ≡ spec.class_load keeps site }
{
    if keeps {
        Instr::Ld(1, 0, value_at(site))
    } else {
        Instr::Ld(1, 15, 45)
    }
}

/// Goes to one address where the class that counts is this one, else to the other.
pub fn class_test(
    code: &mut Code,
    keeps: bool,
    site: u32,
    class: u16,
    to: u32,
    other: u32,
) -> Result<(), NoMemory>
    requires { IsSiteNumber site }
    ensures lines { OnOk result (code.new ≡ code.old ++ spec.class_test keeps site class to other) }
    ensures count { OnOk result (length code.new ≡ length code.old + 6) }
{
    code.put_all(&[
        class_load(keeps, site),
        Instr::Ldi(2, class),
        Instr::Eq(1, 2),
    ])?;
    branch(code, to, other)
}
