//! The words of lines, and their marks.
ghost use Rattle.std.specs.Prelude.{◌≡◌, ◌<◌, ◌++◌, length, IfOk, OnOk};
ghost use Rattle.word_code.specs.CodeOf as spec;
ghost use Rattle.word_code.specs.Passing.{HasRegisters, AllPass, AllFit};
ghost use Rattle.word_isa.specs.Instructions.{FitsFields};

use ease_base::{List, NoMemory, Words};
use line_code::Line;
use std::alloc::Global;
use word_isa::{Instr, Mark, encode};

// An instruction whose registers are there and whose address is short fits its fields: its other operands are as wide as their
// types.
fn fits(i: Instr)
    requires { HasRegisters i }
    ensures { FitsFields i }
{
    match i {
        Instr::Halt | Instr::Trap(_) | Instr::Jmp(_) | Instr::Time(_) => (),
        Instr::Ldi(..) | Instr::Lui(..) | Instr::Adi(..) | Instr::Jz(..) => (),
        Instr::Mov(..) | Instr::Add(..) | Instr::Sub(..) | Instr::Mul(..) => (),
        Instr::Div(..) | Instr::Rem(..) | Instr::And(..) | Instr::Or(..) => (),
        Instr::Xor(..) | Instr::Shl(..) | Instr::Shr(..) => (),
        Instr::Eq(..) | Instr::Ltu(..) | Instr::Ld(..) | Instr::St(..) => (),
        Instr::Io(..) | Instr::Dma(..) => (),
    }
}

/// The words of lines.
pub fn words_of(alloc: Global, lines: &[Line]) -> Result<Words, NoMemory>
    requires { AllPass lines.now }
    ensures words { IfOk result (λ words. words ≡ spec.words_of lines.now) }
    ensures fit { IfOk result (λ words. AllFit lines.now) }
{
    let mut words = List::new(alloc);
    'lines: for line in lines {
        fits(line.instr);
        words.push(encode(line.instr))?;
    }
    Ok(words)
}

/// The marks of lines.
pub fn marks_of(alloc: Global, lines: &[Line]) -> Result<List<Mark>, NoMemory>
    requires { length lines.now < 4294967296 }
    ensures { IfOk result (λ marks. marks ≡ spec.marks_of 0 lines.now) }
{
    let mut marks = List::new(alloc);
    'lines: for (at, line) in lines.iter().enumerate() {
        put_mark(&mut marks, at as u32, line)?;
    }
    Ok(marks)
}

// The mark of a line at an address, if it has one.
fn put_mark(marks: &mut List<Mark>, at: u32, line: &Line) -> Result<(), NoMemory>
    ensures { OnOk result (marks.new ≡ marks.old ++ spec.mark_of at line.now.sign) }
{
    match line.sign {
        None => Ok(()),
        Some(sign) => {
            marks.push(Mark {
                at,
                kind: sign.kind,
                site: sign.site,
                task: sign.task,
            })?;
            Ok(())
        }
    }
}
