//! The code of numbers and places.
ghost use Rattle.std.specs.Prelude.{◌≡◌, ◌+◌, ◌<◌, ◌++◌, length, OnOk};
ghost use Rattle.line_code.specs.Expressions.{number_code, bound_code, place_code, room_code, pointer_code};

use crate::areas::Placed;
use crate::code::Code;
use ease_base::NoMemory;
use word_isa::Instr;

impl Code {
    /// The number in register 1.
    pub fn number(&mut self, n: u32) -> Result<(), NoMemory>
        ensures lines { OnOk result (self.new ≡ self.old ++ number_code n) }
        ensures count { OnOk result (length self.new ≡ length self.old + 2) }
    {
        let low = (n % 65536) as u16;
        let high = (n / 65536) as u16;
        self.put_all(&[Instr::Ldi(1, low), Instr::Lui(1, high)])
    }

    // Trap 1 unless the index in register 1 is below the room in register 2.
    fn bound(&mut self) -> Result<(), NoMemory>
        ensures lines { OnOk result (self.new ≡ self.old ++ bound_code) }
        ensures count { OnOk result (length self.new ≡ length self.old + 5) }
    {
        self.put_all(&[
            Instr::Mov(3, 1),
            Instr::Ltu(3, 2),
            Instr::Eq(3, 0),
            Instr::Jz(3, 1),
            Instr::Trap(1),
        ])
    }

    /// The place of an array at the index in register 1: its address there, and in register 2 the room from there on.
    pub fn place(&mut self, area: Placed) -> Result<(), NoMemory>
        ensures lines { OnOk result (self.new ≡ self.old ++ place_code area) }
        ensures count { OnOk result (length self.new ≡ length self.old + 9) }
    {
        self.put(Instr::Ldi(2, area.room))?;
        self.bound()?;
        self.put_all(&[
            Instr::Sub(2, 1),
            Instr::Add(1, area.base),
            Instr::Adi(1, area.offset),
        ])
    }

    /// The room of a pointer in register 2; trap 3 where it points to nothing.
    pub fn room(&mut self, cell: u16) -> Result<(), NoMemory>
        requires { cell < 65535 }
        ensures lines { OnOk result (self.new ≡ self.old ++ room_code cell) }
        ensures count { OnOk result (length self.new ≡ length self.old + 5) }
    {
        self.put_all(&[
            Instr::Ld(2, 15, cell + 1),
            Instr::Mov(3, 2),
            Instr::Eq(3, 0),
            Instr::Jz(3, 1),
            Instr::Trap(3),
        ])
    }

    /// The place at the index in register 1 from where a pointer points, as `place` leaves it.
    pub fn pointed(&mut self, cell: u16) -> Result<(), NoMemory>
        requires { cell < 65535 }
        ensures lines { OnOk result (self.new ≡ self.old ++ pointer_code cell) }
        ensures count { OnOk result (length self.new ≡ length self.old + 13) }
    {
        self.room(cell)?;
        self.bound()?;
        self.put_all(&[Instr::Sub(2, 1), Instr::Ld(3, 15, cell), Instr::Add(1, 3)])
    }
}
