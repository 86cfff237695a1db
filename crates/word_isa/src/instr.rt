//! The instructions, one variant a row of the machine's table.

/// An instruction is one word of 32 bits. These are its fields; bits that a form doesn't use are 0.
///
/// | Field | Bits | |
/// |---|---|---|
/// | code | 31 to 24 | the row |
/// | A | 23 to 20 | register a |
/// | B | 19 to 16 | register b |
/// | M | 15 to 0 | a number |
/// | T | 23 to 0 | a code address, in place of A, B and M |
///
/// A and B are below 16 and T below 2^24. Both operands are read before a is written, and sums wrap at 2^32.
///
/// | Code | Name | Form | Effect |
/// |---|---|---|---|
/// | 1 | HALT | none | the machine has halted |
/// | 2 | LDI | A, M | a = M |
/// | 3 | LUI | A, M | a = M * 65536 + a mod 65536 |
/// | 4 | MOV | A, B | a = b |
/// | 5 | ADD | A, B | a = a + b |
/// | 6 | SUB | A, B | a = a - b |
/// | 7 | MUL | A, B | a = a * b |
/// | 8 | DIV | A, B | a = a / b; trap 2 where b is 0 |
/// | 9 | REM | A, B | a = a mod b; trap 2 where b is 0 |
/// | 10 | AND | A, B | a = the bits of both |
/// | 11 | OR | A, B | a = the bits of either |
/// | 12 | XOR | A, B | a = the bits of just one |
/// | 13 | SHL | A, B | a shifted up by b; 0 where b is 32 or more |
/// | 14 | SHR | A, B | a shifted down by b; 0 where b is 32 or more |
/// | 15 | EQ | A, B | a = 1 where a = b, else 0 |
/// | 16 | LTU | A, B | a = 1 where a < b, else 0 |
/// | 17 | ADI | A, M | a = a + M |
/// | 18 | LD | A, B, M | a = the word at b + M |
/// | 19 | ST | A, B, M | the word at b + M becomes a |
/// | 20 | JMP | T | the next instruction is at T |
/// | 21 | JZ | A, M | where a is 0 the next instruction is at pc + 1 + M |
/// | 22 | IO | A, B, M | a = a reading of peripheral M mod 256, with M / 256 arguments, at most 4, in the registers from B on; B + M / 256 is at most 16 |
/// | 23 | TIME | A | a = the clock |
/// | 24 | DMA | A, B, M | the engine starts with destination a, source b and the length in register M, which is below 16 |
/// | 25 | TRAP | M | trap M |
#[derive(Clone, Copy, Debug, PartialEq, Eq)]
pub enum Instr {
    Halt,
    Ldi(u8, u16),
    Lui(u8, u16),
    Mov(u8, u8),
    Add(u8, u8),
    Sub(u8, u8),
    Mul(u8, u8),
    Div(u8, u8),
    Rem(u8, u8),
    And(u8, u8),
    Or(u8, u8),
    Xor(u8, u8),
    Shl(u8, u8),
    Shr(u8, u8),
    Eq(u8, u8),
    Ltu(u8, u8),
    Adi(u8, u16),
    Ld(u8, u8, u16),
    St(u8, u8, u16),
    Jmp(u32),
    Jz(u8, u16),
    Io(u8, u8, u16),
    Time(u8),
    Dma(u8, u8, u16),
    Trap(u16),
}
