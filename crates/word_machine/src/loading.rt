//! The code of an image as the machine holds it: decoded once, each address with what a mark says of it.
ghost use Rattle.std.specs.Prelude.{◌≡◌, ◌<◌, ℕ, All, length, map, slice_set, None, IfOk};
ghost use Rattle.word_isa.specs.Instructions.{FitsFields};
ghost use Rattle.word_isa.specs.Marks.{mark_at};
ghost use Rattle.word_machine.specs.Held.{instr_in, sign_in};
ghost use Rattle.word_machine.specs.Loading.{bare_cell, signed, AreSigned};

use crate::cell::{Cell, Sign};
use ease_base::NoMemory;
use std::alloc::Global;
use word_isa::{Instr, Mark, decode};

/// The instruction of each word, none of them signed. Every word must have one; in the place of one without stands HALT.
pub fn decode_all(alloc: Global, code: &[u32]) -> Result<Vec<Cell>, NoMemory>
    ensures { IfOk result (λ cells. cells.items ≡ map bare_cell code.now) }
{
    let mut cells = Vec::with_capacity(alloc, code.len())?;
    'words: for word in code {
        cells.push(bare_cell(*word))?;
    }
    Ok(cells)
}

// The instruction of a word, without a sign.
fn bare_cell(word: u32) -> Cell
    ensures { result ≡ bare_cell word }
{
    Cell {
        instr: decode(word).unwrap_or(Instr::Halt),
        sign: None,
    }
}

/// Puts what each mark says at its address, the last first, so that of two at one address the first would count.
pub fn sign_all(cells: &mut Vec<Cell>, marks: &[Mark])
    requires { All (λ m. m.at < length cells.old.items) marks.now }
    ensures { AreSigned marks.now cells.old.items cells.new.items }
{
    let count = marks.len();
    'marks: for done in 0..count {
        sign(cells, marks[count - 1 - done]);
    }
}

// Puts what a mark says at its address.
fn sign(cells: &mut Vec<Cell>, mark: Mark)
    requires { mark.at < length cells.old.items }
    ensures { cells.new.items ≡ signed mark cells.old.items }
{
    cells[mark.at as usize].sign = Some(Sign {
        kind: mark.kind,
        site: mark.site,
    });
}
