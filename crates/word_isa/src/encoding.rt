//! Words and instructions: `decode` and `encode`, which undo each other. Neither takes memory or searches.
ghost use Rattle.std.specs.Prelude.{◌≡◌, ◌↔◌, ◌<◌, ◌≤◌, ◌+◌, ◌/◌, ◌&&◌, ◌==◌, nat_le, nat_lt, None, Some};
ghost use Rattle.word_isa.specs.Fields.{word_of};
ghost use Rattle.word_isa.specs.Instructions.{FitsFields, encoded, HasRow};
ghost use Rattle.word_isa.specs.Decoding.{instr_at, decoded};
ghost use Rattle.word_isa.specs.declared.instr.Instr.{Instr};

use crate::fields::{Fields, split};
use crate::instr::Instr;

/// The instruction of the word; None exactly where no row has it.
pub fn decode(word: u32) -> Option<Instr>
    ensures found { (i : Instr) → (result ≡ Some i) ↔ HasRow word i }
    ensures missed { (result ≡ None) ↔ ((i : Instr) → ¬ HasRow word i) }
    ensures value { result ≡ decoded word }
{
    of_fields(split(word))
}

// The instruction of these fields; None where no row has the code, or where a field that the row doesn't use isn't 0.
fn of_fields(fields: Fields) -> Option<Instr>
    requires { fields.b < 16 }
    ensures { result ≡ instr_at fields.code fields.a fields.b fields.m fields.t }
{
    let Fields { code, a, b, m, t } = fields;
    match code {
        1 => (a == 0 && b == 0 && m == 0).then_some(Instr::Halt),
        2 => (b == 0).then_some(Instr::Ldi(a, m)),
        3 => (b == 0).then_some(Instr::Lui(a, m)),
        4 => (m == 0).then_some(Instr::Mov(a, b)),
        5 => (m == 0).then_some(Instr::Add(a, b)),
        6 => (m == 0).then_some(Instr::Sub(a, b)),
        7 => (m == 0).then_some(Instr::Mul(a, b)),
        8 => (m == 0).then_some(Instr::Div(a, b)),
        9 => (m == 0).then_some(Instr::Rem(a, b)),
        10 => (m == 0).then_some(Instr::And(a, b)),
        11 => (m == 0).then_some(Instr::Or(a, b)),
        12 => (m == 0).then_some(Instr::Xor(a, b)),
        13 => (m == 0).then_some(Instr::Shl(a, b)),
        14 => (m == 0).then_some(Instr::Shr(a, b)),
        15 => (m == 0).then_some(Instr::Eq(a, b)),
        16 => (m == 0).then_some(Instr::Ltu(a, b)),
        17 => (b == 0).then_some(Instr::Adi(a, m)),
        18 => Some(Instr::Ld(a, b, m)),
        19 => Some(Instr::St(a, b, m)),
        20 => Some(Instr::Jmp(t)),
        21 => (b == 0).then_some(Instr::Jz(a, m)),
        22 => arguments_fit(b, m).then_some(Instr::Io(a, b, m)),
        23 => (b == 0 && m == 0).then_some(Instr::Time(a)),
        24 => (m < 16).then_some(Instr::Dma(a, b, m)),
        25 => (a == 0 && b == 0).then_some(Instr::Trap(m)),
        _ => None,
    }
}

// Whether a call's arguments, M / 256 of them in the registers from B on, are at most four, and none past the last register.
fn arguments_fit(b: u8, m: u16) -> bool
    requires { b < 16 }
    ensures { result ≡ (nat_le (m / 256) 4 && nat_le (b + m / 256) 16) }
{
    let count = m / 256;
    count <= 4 && b as u16 + count <= 16
}

/// The word of the instruction, whose operands must fit their fields. `decode` gives the instruction again.
pub fn encode(i: Instr) -> u32
    requires { FitsFields i }
    ensures value { result ≡ encoded i }
    ensures row { HasRow result i }
{
    match i {
        Instr::Halt => packed(1, 0, 0, 0),
        Instr::Ldi(a, m) => packed(2, a, 0, m),
        Instr::Lui(a, m) => packed(3, a, 0, m),
        Instr::Mov(a, b) => packed(4, a, b, 0),
        Instr::Add(a, b) => packed(5, a, b, 0),
        Instr::Sub(a, b) => packed(6, a, b, 0),
        Instr::Mul(a, b) => packed(7, a, b, 0),
        Instr::Div(a, b) => packed(8, a, b, 0),
        Instr::Rem(a, b) => packed(9, a, b, 0),
        Instr::And(a, b) => packed(10, a, b, 0),
        Instr::Or(a, b) => packed(11, a, b, 0),
        Instr::Xor(a, b) => packed(12, a, b, 0),
        Instr::Shl(a, b) => packed(13, a, b, 0),
        Instr::Shr(a, b) => packed(14, a, b, 0),
        Instr::Eq(a, b) => packed(15, a, b, 0),
        Instr::Ltu(a, b) => packed(16, a, b, 0),
        Instr::Adi(a, m) => packed(17, a, 0, m),
        Instr::Ld(a, b, m) => packed(18, a, b, m),
        Instr::St(a, b, m) => packed(19, a, b, m),
        Instr::Jmp(t) => packed(20, 0, 0, 0) + t,
        Instr::Jz(a, m) => packed(21, a, 0, m),
        Instr::Io(a, b, m) => packed(22, a, b, m),
        Instr::Time(a) => packed(23, a, 0, 0),
        Instr::Dma(a, b, m) => packed(24, a, b, m),
        Instr::Trap(m) => packed(25, 0, 0, m),
    }
}

// The word with this code and these fields.
fn packed(code: u8, a: u8, b: u8, m: u16) -> u32
    requires a_fits { a < 16 }
    requires b_fits { b < 16 }
    ensures { result ≡ word_of code a b m }
{
    code as u32 * 0x100_0000 + a as u32 * 0x10_0000 + b as u32 * 0x1_0000 + m as u32
}
