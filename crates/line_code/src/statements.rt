//! The code of statements without sites.
ghost use Rattle.std.specs.Prelude.{◌≡◌, ◌+◌, ◌<◌, ◌≤◌, ◌++◌, length, OnOk};
ghost use Rattle.line_code.specs.Expressions.{expr_code};
ghost use Rattle.line_code.specs.Fitting.{IsShort, IsShortStmt, IsShortBody};
ghost use Rattle.line_code.specs.Sizes as sizes;
ghost use Rattle.line_code.specs.Statements.{unless_code, if_code, loop_code, statement_code, body_code};
ghost use Rattle.line_code.specs.Areas as areas_of;

use crate::areas::{Placed, area_at};
use crate::code::Code;
use crate::sizes::{expr_size, statements_size};
use ease_base::NoMemory;
use task_ast::{CoreExpr, CoreStmt};
use word_isa::Instr;

impl Code {
    /// Goes to an address where register 1 is 0.
    pub fn unless(&mut self, to: u32) -> Result<(), NoMemory>
        ensures lines { OnOk result (self.new ≡ self.old ++ unless_code to) }
        ensures count { OnOk result (length self.new ≡ length self.old + 3) }
    {
        self.put_all(&[Instr::Eq(1, 0), Instr::Jz(1, 1), Instr::Jmp(to)])
    }

    /// A statement without sites; one with a site has no code.
    #[cycle(statements)]
    pub fn statement(&mut self, areas: &[Placed], s: &CoreStmt) -> Result<(), NoMemory>
        requires room { length self.old + sizes.statement_size s.now ≤ 4194304 }
        requires short { IsShortStmt s.now }
        ensures lines { OnOk result (self.new ≡ self.old ++ statement_code areas.now s.now (length self.old)) }
        ensures count { OnOk result (length self.new ≡ length self.old + sizes.statement_size s.now) }
    {
        match s {
            CoreStmt::Assign(target, e) => self.assign(areas, target, e),
            CoreStmt::Point(pointer, array, index) => self.point(areas, *pointer, *array, index),
            CoreStmt::If(c, yes_part, no_part) => {
                self.choose(areas, c, yes_part.as_slice(), no_part.as_slice())
            }
            CoreStmt::Loop(variable, turns, body) => {
                self.turns(areas, *variable, *turns, body.as_slice())
            }
            CoreStmt::Io(..) | CoreStmt::Block(..) | CoreStmt::Copy(..) => Ok(()),
        }
    }

    // An `if`.
    #[cycle(statements)]
    fn choose(
        &mut self,
        areas: &[Placed],
        c: &CoreExpr,
        yes_part: &[CoreStmt],
        no_part: &[CoreStmt],
    ) -> Result<(), NoMemory>
        requires room { length self.old + sizes.expr_size c.now + sizes.body_size yes_part.now + sizes.body_size no_part.now + 4 ≤ 4194304 }
        requires condition { IsShort 0 c.now }
        requires yes_part { IsShortBody yes_part.now }
        requires no_part { IsShortBody no_part.now }
        ensures lines { let yes_at = length self.old + sizes.expr_size c.now + 3 in
            let no_at = yes_at + sizes.body_size yes_part.now + 1 in
            OnOk result (self.new ≡ self.old ++ if_code no_at (no_at + sizes.body_size no_part.now) (expr_code areas.now c.now 0 (length self.old))
            (body_code areas.now yes_part.now yes_at) (body_code areas.now no_part.now no_at)) }
        ensures count { OnOk result (length self.new ≡ length self.old + sizes.expr_size c.now + sizes.body_size yes_part.now + sizes.body_size no_part.now + 4) }
    {
        let no = self.at() + expr_size(c) + statements_size(yes_part) + 4;
        let end = no + statements_size(no_part);
        self.expr(areas, c, 0)?;
        self.unless(no)?;
        self.statements(areas, yes_part)?;
        self.put(Instr::Jmp(end))?;
        self.statements(areas, no_part)
    }

    // A loop.
    #[cycle(statements)]
    fn turns(
        &mut self,
        areas: &[Placed],
        variable: u32,
        turns: u32,
        body: &[CoreStmt],
    ) -> Result<(), NoMemory>
        requires room { length self.old + sizes.body_size body.now + 12 ≤ 4194304 }
        requires turns { turns < 65536 }
        requires short { IsShortBody body.now }
        ensures lines { OnOk result (self.new ≡ self.old ++ loop_code (areas_of.area_at areas.now variable) turns (length self.old + 2) (length self.old + 8 + sizes.body_size body.now + 4)
            (body_code areas.now body.now (length self.old + 8))) }
        ensures count { OnOk result (length self.new ≡ length self.old + sizes.body_size body.now + 12) }
    {
        let Placed { base, offset, .. } = area_at(areas, variable);
        let top = self.at() + 2;
        let end = self.at() + 8 + statements_size(body) + 4;
        self.put_all(&[
            Instr::Ldi(1, 0),
            Instr::St(1, base, offset),
            Instr::Ld(1, base, offset),
            Instr::Ldi(2, turns as u16),
            Instr::Ltu(1, 2),
        ])?;
        self.unless(end)?;
        self.statements(areas, body)?;
        self.put_all(&[
            Instr::Ld(1, base, offset),
            Instr::Adi(1, 1),
            Instr::St(1, base, offset),
            Instr::Jmp(top),
        ])
    }

    /// Statements without sites, one after another.
    #[cycle(statements)]
    pub fn statements(&mut self, areas: &[Placed], body: &[CoreStmt]) -> Result<(), NoMemory>
        requires room { length self.old + sizes.body_size body.now ≤ 4194304 }
        requires short { IsShortBody body.now }
        ensures lines { OnOk result (self.new ≡ self.old ++ body_code areas.now body.now (length self.old)) }
        ensures count { OnOk result (length self.new ≡ length self.old + sizes.body_size body.now) }
    {
        'statements: for s in body {
            self.statement(areas, s)?;
        }
        Ok(())
    }
}
