//! The code of expressions.
ghost use Rattle.std.specs.Prelude.{◌≡◌, ◌+◌, ◌≤◌, ◌++◌, length, OnOk};
ghost use Rattle.line_code.specs.Expressions as spec;
ghost use Rattle.line_code.specs.Fitting.{IsShort};
ghost use Rattle.line_code.specs.Sizes as sizes;

use crate::areas::{Placed, area_at, pointer_cell};
use crate::code::Code;
use crate::sizes::expr_size;
use ease_base::NoMemory;
use task_ast::{CoreExpr, Op2};
use word_isa::Instr;

impl Code {
    /// The word of an expression in register 1; words in between lie in cells from a depth on.
    #[cycle(expr)]
    pub fn expr(&mut self, areas: &[Placed], e: &CoreExpr, depth: u16) -> Result<(), NoMemory>
        requires room { length self.old + sizes.expr_size e.now ≤ 4194304 }
        requires short { IsShort depth e.now }
        ensures lines { OnOk result (self.new ≡ self.old ++ spec.expr_code areas.now e.now depth (length self.old)) }
        ensures count { OnOk result (length self.new ≡ length self.old + sizes.expr_size e.now) }
    {
        match e {
            CoreExpr::Number(n) => self.number(*n),
            CoreExpr::Cell(array, index) => {
                self.expr(areas, index.get(), depth)?;
                self.place(area_at(areas, *array))?;
                self.put(Instr::Ld(1, 1, 0))
            }
            CoreExpr::Through(pointer, index) => {
                self.expr(areas, index.get(), depth)?;
                self.pointed(pointer_cell(*pointer))?;
                self.put(Instr::Ld(1, 1, 0))
            }
            CoreExpr::One(op, e) => {
                self.expr(areas, e.get(), depth)?;
                self.one(*op)
            }
            CoreExpr::Two(op, left, right) => match *op {
                Op2::Both => self.both(areas, left.get(), right.get(), depth),
                Op2::Either => self.either(areas, left.get(), right.get(), depth),
                _ => self.sides(areas, *op, left.get(), right.get(), depth),
            },
        }
    }

    // Both sides, and the operator on their words.
    #[cycle(expr)]
    fn sides(
        &mut self,
        areas: &[Placed],
        op: Op2,
        left: &CoreExpr,
        right: &CoreExpr,
        depth: u16,
    ) -> Result<(), NoMemory>
        requires room { length self.old + sizes.expr_size left.now + sizes.expr_size right.now + 3 + length (spec.op_code op) ≤ 4194304 }
        requires left { IsShort depth left.now }
        requires right { IsShort (depth + 1) right.now }
        ensures lines { OnOk result (self.new ≡ self.old ++ spec.sides_code op depth (spec.expr_code areas.now left.now depth (length self.old))
            (spec.expr_code areas.now right.now (depth + 1) (length self.old + sizes.expr_size left.now + 1))) }
        ensures count { OnOk result (length self.new ≡ length self.old + sizes.expr_size left.now + sizes.expr_size right.now + 3 + length (spec.op_code op)) }
    {
        self.expr(areas, left, depth)?;
        self.put(Instr::St(1, 15, depth))?;
        self.expr(areas, right, depth + 1)?;
        self.put_all(&[Instr::Mov(2, 1), Instr::Ld(1, 15, depth)])?;
        self.two(op)
    }

    // The right side unless the left one is 0.
    #[cycle(expr)]
    fn both(
        &mut self,
        areas: &[Placed],
        left: &CoreExpr,
        right: &CoreExpr,
        depth: u16,
    ) -> Result<(), NoMemory>
        requires room { length self.old + sizes.expr_size left.now + sizes.expr_size right.now + 5 ≤ 4194304 }
        requires left { IsShort depth left.now }
        requires right { IsShort depth right.now }
        ensures lines { OnOk result (self.new ≡ self.old ++ spec.both_code (length self.old + sizes.expr_size left.now + sizes.expr_size right.now + 4)
            (spec.expr_code areas.now left.now depth (length self.old)) (spec.expr_code areas.now right.now depth (length self.old + sizes.expr_size left.now + 3))) }
        ensures count { OnOk result (length self.new ≡ length self.old + sizes.expr_size left.now + sizes.expr_size right.now + 5) }
    {
        let end = self.at() + expr_size(left) + expr_size(right) + 4;
        self.expr(areas, left, depth)?;
        self.put_all(&[Instr::Eq(1, 0), Instr::Jz(1, 1), Instr::Jmp(end)])?;
        self.expr(areas, right, depth)?;
        self.put_all(&[Instr::Eq(1, 0), Instr::Eq(1, 0)])
    }

    // The right side where the left one is 0.
    #[cycle(expr)]
    fn either(
        &mut self,
        areas: &[Placed],
        left: &CoreExpr,
        right: &CoreExpr,
        depth: u16,
    ) -> Result<(), NoMemory>
        requires room { length self.old + sizes.expr_size left.now + sizes.expr_size right.now + 4 ≤ 4194304 }
        requires left { IsShort depth left.now }
        requires right { IsShort depth right.now }
        ensures lines { OnOk result (self.new ≡ self.old ++ spec.either_code (length self.old + sizes.expr_size left.now + sizes.expr_size right.now + 2)
            (spec.expr_code areas.now left.now depth (length self.old)) (spec.expr_code areas.now right.now depth (length self.old + sizes.expr_size left.now + 2))) }
        ensures count { OnOk result (length self.new ≡ length self.old + sizes.expr_size left.now + sizes.expr_size right.now + 4) }
    {
        let end = self.at() + expr_size(left) + expr_size(right) + 2;
        self.expr(areas, left, depth)?;
        self.put_all(&[Instr::Jz(1, 1), Instr::Jmp(end)])?;
        self.expr(areas, right, depth)?;
        self.put_all(&[Instr::Eq(1, 0), Instr::Eq(1, 0)])
    }
}
