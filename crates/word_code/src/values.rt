//! The code that values a site: a call's target and arguments, a copy's ends, length and class.
ghost use Rattle.std.specs.Prelude.{◌≡◌, ◌+◌, ◌≤◌, ◌<◌, ◌++◌, length, OnOk};
ghost use Rattle.std.specs.List.{AllByRecursion};
ghost use Rattle.std.specs.Option.{ForSome, option_copied};
ghost use Rattle.line_code.specs.Fitting.{IsShort, IsShortTarget};
ghost use Rattle.line_code.specs.Sizes as sizes;
ghost use Rattle.word_code.specs.Fitting.{IsShortEnd, IsShortSite};
ghost use Rattle.word_code.specs.Values as spec;

use crate::tables::class;
use ease_base::NoMemory;
use line_code::{Code, Placed, area_at, pointer_cell};
use task_ast::{CoreEnd, CoreExpr, CoreStmt, CoreTarget};
use word_isa::Instr;

// The address of a target goes to its cell.
fn aim(code: &mut Code, areas: &[Placed], x: &Option<CoreTarget>) -> Result<(), NoMemory>
    requires room { length code.old + spec.aim_size x.now ≤ 4194304 }
    requires short { ForSome x.now IsShortTarget }
    ensures lines { OnOk result (code.new ≡ code.old ++ spec.aim_code areas.now x.now (length code.old)) }
    ensures count { OnOk result (length code.new ≡ length code.old + spec.aim_size x.now) }
{
    match x {
        None => Ok(()),
        Some(x) => {
            code.target(areas, x)?;
            code.put(Instr::St(1, 15, 32))
        }
    }
}

// Arguments go to their cells.
fn arguments(code: &mut Code, areas: &[Placed], args: &[CoreExpr]) -> Result<(), NoMemory>
    requires room { length code.old + spec.args_size args.now ≤ 4194304 }
    requires few { length args.now ≤ 4 }
    requires short { AllByRecursion (IsShort 0) args.now }
    ensures lines { OnOk result (code.new ≡ code.old ++ spec.args_code areas.now args.now 33 (length code.old)) }
    ensures count { OnOk result (length code.new ≡ length code.old + spec.args_size args.now) }
{
    'arguments: for (number, e) in args.iter().enumerate() {
        code.expr(areas, e, 0)?;
        code.put(Instr::St(1, 15, 33 + number as u16))?;
    }
    Ok(())
}

// An end of a copy, and the room from there on, go to their cells.
fn end(code: &mut Code, areas: &[Placed], end: &CoreEnd, cell: u16) -> Result<(), NoMemory>
    requires room { length code.old + spec.end_size end.now ≤ 4194304 }
    requires short { IsShortEnd end.now }
    requires cell { cell < 100 }
    ensures lines { OnOk result (code.new ≡ code.old ++ spec.end_code areas.now end.now cell (length code.old)) }
    ensures count { OnOk result (length code.new ≡ length code.old + spec.end_size end.now) }
{
    match end {
        CoreEnd::Cell(array, index) => {
            code.expr(areas, index, 0)?;
            code.place(area_at(areas, *array))?;
            code.put_all(&[Instr::St(1, 15, cell), Instr::St(2, 15, cell + 1)])
        }
        CoreEnd::Pointer(pointer) => {
            let at = pointer_cell(*pointer);
            code.room(at)?;
            code.put_all(&[
                Instr::Ld(1, 15, at),
                Instr::St(1, 15, cell),
                Instr::St(2, 15, cell + 1),
            ])
        }
    }
}

// Trap 4 where the length in register 1 is more than the room of a cell.
fn fits(code: &mut Code, cell: u16) -> Result<(), NoMemory>
    ensures lines { OnOk result (code.new ≡ code.old ++ spec.fits_code cell) }
    ensures count { OnOk result (length code.new ≡ length code.old + 4) }
{
    code.put_all(&[
        Instr::Ld(3, 15, cell),
        Instr::Ltu(3, 1),
        Instr::Jz(3, 1),
        Instr::Trap(4),
    ])
}

// The length goes to its cell and is tested, and then the class goes to its own.
fn length_and_class(code: &mut Code) -> Result<(), NoMemory>
    ensures lines { OnOk result (code.new ≡ code.old ++ spec.length_code) }
    ensures count { OnOk result (length code.new ≡ length code.old + 20) }
{
    code.put(Instr::St(1, 15, 44))?;
    fits(code, 41)?;
    fits(code, 43)?;
    class(code)?;
    code.put(Instr::St(1, 15, 45))
}

// The ends of a copy, its length and its class.
fn copy(
    code: &mut Code,
    areas: &[Placed],
    to: &CoreEnd,
    from: &CoreEnd,
    words: &CoreExpr,
) -> Result<(), NoMemory>
    requires room { length code.old + spec.end_size to.now + spec.end_size from.now + sizes.expr_size words.now + 20 ≤ 4194304 }
    requires to { IsShortEnd to.now }
    requires from { IsShortEnd from.now }
    requires words { IsShort 0 words.now }
    ensures lines { OnOk result (code.new ≡ code.old ++ spec.copy_code areas.now to.now from.now words.now (length code.old)) }
    ensures count { OnOk result (length code.new ≡ length code.old + spec.end_size to.now + spec.end_size from.now + sizes.expr_size words.now + 20) }
{
    end(code, areas, to, 40)?;
    end(code, areas, from, 42)?;
    code.expr(areas, words, 0)?;
    length_and_class(code)
}

/// A site's statement is valued and tested.
pub fn value(code: &mut Code, areas: &[Placed], s: Option<&CoreStmt>) -> Result<(), NoMemory>
    requires room { length code.old + spec.value_size (option_copied s) ≤ 4194304 }
    requires short { IsShortSite (option_copied s) }
    ensures lines { OnOk result (code.new ≡ code.old ++ spec.value_code areas.now (option_copied s.entry) (length code.old)) }
    ensures count { OnOk result (length code.new ≡ length code.old + spec.value_size (option_copied s.entry)) }
{
    match s {
        Some(CoreStmt::Io(_, x, _, args)) => {
            aim(code, areas, x)?;
            arguments(code, areas, args.as_slice())
        }
        Some(CoreStmt::Copy(_, to, from, words)) => copy(code, areas, to, from, words),
        _ => Ok(()),
    }
}
