//! The code of operators on registers 1 and 2.
ghost use Rattle.std.specs.Prelude.{◌≡◌, ◌+◌, ◌++◌, length, OnOk};
ghost use Rattle.line_code.specs.Expressions.{one_code, op_code};
ghost use Rattle.line_code.specs.Sizes.{one_size, two_size};

use crate::code::Code;
use ease_base::NoMemory;
use task_ast::{Op1, Op2};
use word_isa::Instr;

impl Code {
    /// A prefix operator on register 1.
    pub fn one(&mut self, op: Op1) -> Result<(), NoMemory>
        ensures lines { OnOk result (self.new ≡ self.old ++ one_code op) }
        ensures count { OnOk result (length self.new ≡ length self.old + one_size op) }
    {
        match op {
            Op1::Not => self.put(Instr::Eq(1, 0)),
            Op1::Inv => self.put_all(&[
                Instr::Ldi(2, 65535),
                Instr::Lui(2, 65535),
                Instr::Sub(2, 1),
                Instr::Mov(1, 2),
            ]),
            Op1::Neg => self.put_all(&[Instr::Mov(2, 1), Instr::Ldi(1, 0), Instr::Sub(1, 2)]),
        }
    }

    /// A binary operator on registers 1 and 2; `&&` and `||` have no code here.
    pub fn two(&mut self, op: Op2) -> Result<(), NoMemory>
        ensures lines { OnOk result (self.new ≡ self.old ++ op_code op) }
        ensures count { OnOk result (length self.new ≡ length self.old + length (op_code op)) }
    {
        match op {
            Op2::Add => self.put(Instr::Add(1, 2)),
            Op2::Sub => self.put(Instr::Sub(1, 2)),
            Op2::Mul => self.put(Instr::Mul(1, 2)),
            Op2::Div => self.put(Instr::Div(1, 2)),
            Op2::Rem => self.put(Instr::Rem(1, 2)),
            Op2::And => self.put(Instr::And(1, 2)),
            Op2::Or => self.put(Instr::Or(1, 2)),
            Op2::Xor => self.put(Instr::Xor(1, 2)),
            Op2::Shl => self.put(Instr::Shl(1, 2)),
            Op2::Shr => self.put(Instr::Shr(1, 2)),
            Op2::Eq => self.put(Instr::Eq(1, 2)),
            Op2::Ne => self.put_all(&[Instr::Eq(1, 2), Instr::Eq(1, 0)]),
            Op2::Lt => self.put(Instr::Ltu(1, 2)),
            Op2::Le => self.put_all(&[Instr::Ltu(2, 1), Instr::Mov(1, 2), Instr::Eq(1, 0)]),
            Op2::Gt => self.put_all(&[Instr::Ltu(2, 1), Instr::Mov(1, 2)]),
            Op2::Ge => self.put_all(&[Instr::Ltu(1, 2), Instr::Eq(1, 0)]),
            Op2::Both | Op2::Either => self.put_all(&[]),
        }
    }
}
