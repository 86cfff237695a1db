//! The reserved words of the language, which are no names.
ghost use Rattle.std.specs.Prelude.{◌≡◌, ◌↔◌, ℕ, IsTrue, length};
ghost use Rattle.op_table.specs.Places.{IsAt};
ghost use Rattle.op_table.specs.Reserved.{IsReserved};
ghost use Rattle.op_table.specs.Table.{HasTwins, entries, names};

use crate::rows;
use crate::table::{Row, Table};

/// Whether the word is reserved, as docs/LANGUAGE.md lists them. Takes no memory.
pub fn reserved(name: &str) -> bool
    ensures { IsTrue result ↔ IsReserved name.now }
{
    let words = rows! {
        0 "nv" 0;
        1 "const" 0;
        2 "word" 0;
        3 "peripheral" 0;
        4 "task" 0;
        5 "if" 0;
        6 "else" 0;
        7 "for" 0;
        8 "IO" 0;
        9 "IO_BLOCK" 0;
        10 "DMA" 0;
        11 "NEXT" 0;
        12 "STOP" 0;
        13 "SINGLE" 0;
        14 "TIMELY" 0;
        15 "ALWAYS" 0;
    };
    is_name_of(&words, name)
}

// Whether the table of these rows has a row with this name.
fn is_name_of(rows: &[Row], name: &str) -> bool
    requires sixteen { length rows.now ≡ 16 }
    requires clear { ¬ HasTwins (entries rows.now) }
    ensures { IsTrue result ↔ ((place : ℕ) × IsAt (names (entries rows.now)) place name.now) }
{
    let Some(table) = Table::<16>::new(rows) else {
        unreachable!()
    };
    table.find_name(name).is_some()
}
