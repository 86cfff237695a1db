//! The code of acts that jump nowhere but to the next act.
ghost use Rattle.std.specs.Prelude.{◌≡◌, ◌+◌, ◌≤◌, ◌<◌, ◌++◌, length, OnOk, Option, Some, None};
ghost use Rattle.std.specs.Option.{option_copied};
ghost use Rattle.word_code.specs.Acts as spec;
ghost use Rattle.word_code.specs.Frames as frames;
ghost use Rattle.word_code.specs.Fitting.{IsSiteNumber, IsShortSite};
ghost use Rattle.word_code.specs.Sizes as sizes;

use crate::frame::{Frame, begun_at, ends_at, flag_at, lock_at, stamp_at, value_at};
use ease_base::NoMemory;
use line_code::Code;
use run_plan::Leg;
use task_ast::{Core, CoreStmt, Site};
use word_isa::{Instr, MarkKind};

/// Goes to an address.
pub fn jump(code: &mut Code, to: u32) -> Result<(), NoMemory>
    ensures lines { OnOk result (code.new ≡ code.old ++ spec.jump to) }
    ensures count { OnOk result (length code.new ≡ length code.old + 1) }
{
    code.put(Instr::Jmp(to))
}

/// The lock of a region is set.
pub fn lock(code: &mut Code, region: u32) -> Result<(), NoMemory>
    requires { region ≤ 128 }
    ensures lines { OnOk result (code.new ≡ code.old ++ spec.lock_code region) }
    ensures count { OnOk result (length code.new ≡ length code.old + 1) }
{
    code.put(Instr::St(13, 0, lock_at(region)))
}

/// The record of a site is dropped.
pub fn drop_record(code: &mut Code, f: &Frame, site: u32) -> Result<(), NoMemory>
    requires { IsSiteNumber site }
    ensures lines { OnOk result (code.new ≡ code.old ++ spec.drop_code f.now site) }
    ensures count { OnOk result (length code.new ≡ length code.old + 1) }
{
    let sign = f.sign(MarkKind::Drop, site);
    code.put_marked(sign, Instr::St(0, 0, flag_at(site)))
}

/// The time goes to its cell.
pub fn look(code: &mut Code, f: &Frame, site: u32) -> Result<(), NoMemory>
    requires { IsSiteNumber site }
    ensures lines { OnOk result (code.new ≡ code.old ++ spec.look_code f.now site) }
    ensures count { OnOk result (length code.new ≡ length code.old + 2) }
{
    let sign = f.sign(MarkKind::Look, site);
    code.put_marked(sign, Instr::Time(1))?;
    code.put(Instr::St(1, 15, 37))
}

// The arguments of a call go to registers from 4 on.
fn load(code: &mut Code, count: u8) -> Result<(), NoMemory>
    requires { count ≤ 4 }
    ensures lines { OnOk result (code.new ≡ code.old ++ spec.loads count) }
    ensures count { OnOk result (length code.new ≡ length code.old + count) }
{
    'arguments: for number in 0..count {
        code.put(Instr::Ld(4 + number, 15, 33 + number as u16))?;
    }
    Ok(())
}

// The number of a peripheral.
fn peripheral_number(c: &Core, peripheral: u32) -> u8
    ensures { result ≡ frames.peripheral_number c.now peripheral }
{
    match c.peripherals.get(peripheral as usize) {
        Some(peripheral) => peripheral.number,
        None => 0,
    }
}

// The number of a call's arguments, and of its peripheral.
fn call_of(f: &Frame, s: Option<&CoreStmt>) -> (u8, u8)
    requires { IsShortSite (option_copied s) }
    ensures count { result.0 ≡ spec.count_of (option_copied s.entry) }
    ensures few { result.0 ≤ 4 }
    ensures peripheral { result.1 ≡ spec.peripheral_of f.now (option_copied s.entry) }
{
    match s {
        Some(CoreStmt::Io(_, _, peripheral, args)) => {
            (args.len() as u8, peripheral_number(f.core, *peripheral))
        }
        _ => (0, 0),
    }
}

/// The peripheral is issued, and the reading goes to its cell.
pub fn issue(code: &mut Code, f: &Frame, site: u32, s: Option<&CoreStmt>) -> Result<(), NoMemory>
    requires site { IsSiteNumber site }
    requires short { IsShortSite (option_copied s) }
    ensures lines { OnOk result (code.new ≡ code.old ++ spec.issue_code f.now site (option_copied s.entry)) }
    ensures count { OnOk result (length code.new ≡ length code.old + spec.count_of (option_copied s.entry) + 2) }
{
    let (count, peripheral) = call_of(f, s);
    let sign = f.sign(MarkKind::Issue, site);
    load(code, count)?;
    code.put_marked(
        sign,
        Instr::Io(1, 4, 256 * count as u16 + peripheral as u16),
    )?;
    code.put(Instr::St(1, 15, 38))
}

// What a record says goes to its cells.
fn record(code: &mut Code, site: u32, s: Option<Site>) -> Result<(), NoMemory>
    requires { IsSiteNumber site }
    ensures lines { OnOk result (code.new ≡ code.old ++ spec.record_lines site s) }
    ensures count { OnOk result (length code.new + 1 ≡ length code.old + sizes.seal_size s) }
{
    match s {
        Some(Site::Io(_)) => code.put_all(&[
            Instr::Ld(1, 15, 38),
            Instr::Ld(2, 15, 37),
            Instr::St(1, 0, value_at(site)),
            Instr::St(2, 0, stamp_at(site)),
        ]),
        Some(Site::Block(_)) => code.put_all(&[
            Instr::Ld(1, 15, begun_at(site)),
            Instr::St(1, 0, stamp_at(site)),
        ]),
        Some(Site::Copy(_)) | None => code.put_all(&[
            Instr::Ld(1, 15, 45),
            Instr::Ld(2, 15, 40),
            Instr::Ld(3, 15, 42),
            Instr::Ld(4, 15, 44),
            Instr::St(1, 0, value_at(site)),
            Instr::St(2, 0, ends_at(site)),
            Instr::St(3, 0, ends_at(site) + 1),
            Instr::St(4, 0, ends_at(site) + 2),
        ]),
    }
}

/// The record of a site is sealed; its flag is written last.
pub fn seal(code: &mut Code, f: &Frame, site: u32, s: Option<Site>) -> Result<(), NoMemory>
    requires { IsSiteNumber site }
    ensures lines { OnOk result (code.new ≡ code.old ++ spec.seal_code f.now site s) }
    ensures count { OnOk result (length code.new ≡ length code.old + sizes.seal_size s) }
{
    let sign = f.sign(MarkKind::Seal, site);
    record(code, site, s)?;
    code.put_marked(sign, Instr::St(13, 0, flag_at(site)))
}

/// The kept word goes where a reading goes.
pub fn take(code: &mut Code, f: &Frame, site: u32) -> Result<(), NoMemory>
    requires { IsSiteNumber site }
    ensures lines { OnOk result (code.new ≡ code.old ++ spec.take_code f.now site) }
    ensures count { OnOk result (length code.new ≡ length code.old + 3) }
{
    let sign = f.sign(MarkKind::Kept, site);
    code.put(Instr::Ld(1, 0, value_at(site)))?;
    code.put_marked(sign, Instr::Mov(2, 1))?;
    code.put(Instr::St(2, 15, 38))
}

/// The word goes to the target of a call, if it has one.
pub fn write(code: &mut Code, s: Option<&CoreStmt>) -> Result<(), NoMemory>
    requires { IsShortSite (option_copied s) }
    ensures lines { OnOk result (code.new ≡ code.old ++ spec.write_code (option_copied s.entry)) }
    ensures count { OnOk result (length code.new ≡ length code.old + sizes.write_size (option_copied s.entry)) }
{
    match s {
        Some(CoreStmt::Io(_, Some(_), _, _)) => code.put_all(&[
            Instr::Ld(1, 15, 38),
            Instr::Ld(2, 15, 32),
            Instr::St(1, 2, 0),
        ]),
        _ => Ok(()),
    }
}

// The ends of a transfer in registers 1 and 2, and its length in register 3.
fn leg(code: &mut Code, f: &Frame, site: u32, leg: Leg) -> Result<(), NoMemory>
    requires { IsSiteNumber site }
    ensures lines { OnOk result (code.new ≡ code.old ++ spec.leg_lines f.now site leg) }
    ensures count { OnOk result (length code.new ≡ length code.old + 3) }
{
    match leg {
        Leg::Across => code.put_all(&[
            Instr::Ld(1, 15, 40),
            Instr::Ld(2, 15, 42),
            Instr::Ld(3, 15, 44),
        ]),
        Leg::ToKept => code.put_all(&[
            Instr::Ldi(1, f.kept_at(site)),
            Instr::Ld(2, 15, 42),
            Instr::Ld(3, 15, 44),
        ]),
        Leg::FromKept => code.put_all(&[
            Instr::Ld(1, 0, ends_at(site)),
            Instr::Ldi(2, f.kept_at(site)),
            Instr::Ld(3, 0, ends_at(site) + 2),
        ]),
    }
}

/// The engine moves a copy's words.
pub fn transfer(code: &mut Code, f: &Frame, site: u32, way: Leg) -> Result<(), NoMemory>
    requires { IsSiteNumber site }
    ensures lines { OnOk result (code.new ≡ code.old ++ spec.transfer_code f.now site way) }
    ensures count { OnOk result (length code.new ≡ length code.old + 4) }
{
    let sign = f.sign(MarkKind::Copy, site);
    leg(code, f, site, way)?;
    code.put_marked(sign, Instr::Dma(1, 2, 3))
}
