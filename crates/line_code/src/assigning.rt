//! The code of targets, assignments and pointer assignments.
ghost use Rattle.std.specs.Prelude.{◌≡◌, ◌+◌, ◌<◌, ◌≤◌, ◌++◌, length, OnOk};
ghost use Rattle.line_code.specs.Expressions as spec;
ghost use Rattle.line_code.specs.Fitting.{IsShort, IsShortTarget};
ghost use Rattle.line_code.specs.Sizes as sizes;
ghost use Rattle.line_code.specs.Statements.{assign_code, point_code};

use crate::areas::{Placed, area_at, pointer_cell};
use crate::code::Code;
use ease_base::NoMemory;
use task_ast::{CoreExpr, CoreTarget};
use word_isa::Instr;

impl Code {
    /// The place of a target: its address in register 1.
    pub fn target(&mut self, areas: &[Placed], target: &CoreTarget) -> Result<(), NoMemory>
        requires room { length self.old + sizes.target_size target.now ≤ 4194304 }
        requires short { IsShortTarget target.now }
        ensures lines { OnOk result (self.new ≡ self.old ++ spec.target_code areas.now target.now (length self.old)) }
        ensures count { OnOk result (length self.new ≡ length self.old + sizes.target_size target.now) }
    {
        match target {
            CoreTarget::Cell(array, index) => {
                self.expr(areas, index, 0)?;
                self.place(area_at(areas, *array))
            }
            CoreTarget::Through(pointer, index) => {
                self.expr(areas, index, 0)?;
                self.pointed(pointer_cell(*pointer))
            }
        }
    }

    // An assignment; the place's address is in the first cell while the word is made.
    pub(crate) fn assign(
        &mut self,
        areas: &[Placed],
        target: &CoreTarget,
        e: &CoreExpr,
    ) -> Result<(), NoMemory>
        requires room { length self.old + sizes.target_size target.now + sizes.expr_size e.now + 3 ≤ 4194304 }
        requires target { IsShortTarget target.now }
        requires short { IsShort 1 e.now }
        ensures lines { OnOk result (self.new ≡ self.old ++ assign_code areas.now target.now e.now (length self.old)) }
        ensures count { OnOk result (length self.new ≡ length self.old + sizes.target_size target.now + sizes.expr_size e.now + 3) }
    {
        self.target(areas, target)?;
        self.put(Instr::St(1, 15, 0))?;
        self.expr(areas, e, 1)?;
        self.put_all(&[Instr::Ld(2, 15, 0), Instr::St(1, 2, 0)])
    }

    // The assignment of a pointer: the place's address and the room from there on.
    pub(crate) fn point(
        &mut self,
        areas: &[Placed],
        pointer: u32,
        array: u32,
        index: &CoreExpr,
    ) -> Result<(), NoMemory>
        requires room { length self.old + sizes.expr_size index.now + 11 ≤ 4194304 }
        requires pointer { pointer < 256 }
        requires short { IsShort 0 index.now }
        ensures lines { OnOk result (self.new ≡ self.old ++ point_code areas.now pointer array index.now (length self.old)) }
        ensures count { OnOk result (length self.new ≡ length self.old + sizes.expr_size index.now + 11) }
    {
        let cell = pointer_cell(pointer);
        self.expr(areas, index, 0)?;
        self.place(area_at(areas, array))?;
        self.put_all(&[Instr::St(1, 15, cell), Instr::St(2, 15, cell + 1)])
    }
}
