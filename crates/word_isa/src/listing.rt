//! A word of code as text: the name of its row and the operands.
ghost use Rattle.std.specs.Prelude.{◌≡◌, ◌++◌, ◌<◌, ◌≤◌, ◌-◌, OnOk, OnErr, slice_get, decimal};
ghost use Rattle.op_table.specs.Table.{entries, entry_of};
ghost use Rattle.word_isa.specs.Listing.{word_text, operand_text, operands_text, form_operands, entry_text, instruction_table};
ghost use Rattle.word_isa.specs.Parts.{IsPart};

use crate::encoding::decode;
use crate::fields::{Fields, split};
use ease_base::{NoMemory, Text, put_number};
use op_table::{Row, Table, rows};

/// Appends the word's row as `LDI r1 7`, `JMP 12` or `ADD r1 r2`: its name, and the operands in the order of the form. The
/// length of a DMA is a register. A word of no row gives `?`. Without memory a part from the front may have been appended.
pub fn list_word(out: &mut Text, word: u32) -> Result<(), NoMemory>
    ensures ok { OnOk result (out.new ≡ out.old ++ word_text word) }
    ensures partly { OnErr result (IsPart out.old out.new (word_text word)) }
{
    // the last column is the form: 0 none, 1 A, 2 M, 3 T, 4 A and B, 5 A and M, 6 A, B and M, 7 the same with M a register
    let rows = rows! {
        1 "HALT" 0;
        2 "LDI" 5;
        3 "LUI" 5;
        4 "MOV" 4;
        5 "ADD" 4;
        6 "SUB" 4;
        7 "MUL" 4;
        8 "DIV" 4;
        9 "REM" 4;
        10 "AND" 4;
        11 "OR" 4;
        12 "XOR" 4;
        13 "SHL" 4;
        14 "SHR" 4;
        15 "EQ" 4;
        16 "LTU" 4;
        17 "ADI" 5;
        18 "LD" 6;
        19 "ST" 6;
        20 "JMP" 3;
        21 "JZ" 5;
        22 "IO" 6;
        23 "TIME" 1;
        24 "DMA" 7;
        25 "TRAP" 2;
    };
    put_word(out, &rows, word)
}

// Appends the listing of the word, by the table of these rows.
fn put_word(out: &mut Text, rows: &[Row], word: u32) -> Result<(), NoMemory>
    requires { entries rows.now ≡ instruction_table }
    ensures ok { OnOk result (out.new ≡ out.old ++ word_text word) }
    ensures partly { OnErr result (IsPart out.old out.new (word_text word)) }
{
    match decode(word) {
        None => {
            out.push(b'?')?;
            Ok(())
        }
        Some(_) => put_row(out, rows, split(word)),
    }
}

// Appends the name of the row with the fields' code, and the operands by the row's form.
fn put_row(out: &mut Text, rows: &[Row], fields: Fields) -> Result<(), NoMemory>
    requires table { entries rows.now ≡ instruction_table }
    requires from_one { 0 < fields.code }
    requires known { fields.code ≤ 25 }
    ensures ok { OnOk result (out.new ≡ out.old ++ entry_text (slice_get instruction_table (fields.code - 1)) fields) }
    ensures partly { OnErr result (IsPart out.old out.new (entry_text (slice_get instruction_table (fields.code - 1)) fields)) }
{
    put_entry(out, &rows[row_place(rows, fields.code)], fields)
}

// Appends the row's name, and the operands by its form.
fn put_entry(out: &mut Text, row: &Row, fields: Fields) -> Result<(), NoMemory>
    requires { row.now.form ≤ 7 }
    ensures ok { OnOk result (out.new ≡ out.old ++ entry_text (Some (entry_of row.now)) fields) }
    ensures partly { OnErr result (IsPart out.old out.new (entry_text (Some (entry_of row.now)) fields)) }
{
    out.extend(row.name.as_bytes())?;
    put_form(out, row.form, fields)
}

// The place of the row with this code. The table is always made, since no two of these rows have the same code or name.
fn row_place(rows: &[Row], code: u8) -> usize
    requires table { entries rows.now ≡ instruction_table }
    requires from_one { 0 < code }
    requires known { code ≤ 25 }
    ensures { result ≡ code - 1 }
{
    let Some(table) = Table::<25>::new(&*rows) else {
        unreachable!()
    };
    let Some(place) = table.find_code(code) else {
        unreachable!()
    };
    place
}

// An operand as it is listed.
#[derive(Clone, Copy)]
enum Operand {
    Register(u16),
    Number(u32),
}

// Appends the operands that the form has, of a word with these fields.
fn put_form(out: &mut Text, form: u8, fields: Fields) -> Result<(), NoMemory>
    requires { form ≤ 7 }
    ensures ok { OnOk result (out.new ≡ out.old ++ operands_text (form_operands form fields)) }
    ensures partly { OnErr result (IsPart out.old out.new (operands_text (form_operands form fields))) }
{
    let a = Operand::Register(u16::from(fields.a));
    let b = Operand::Register(u16::from(fields.b));
    let m = Operand::Number(u32::from(fields.m));
    match form {
        0 => Ok(()),
        1 => put_operands(out, &[a]),
        2 => put_operands(out, &[m]),
        3 => put_operands(out, &[Operand::Number(fields.t)]),
        4 => put_operands(out, &[a, b]),
        5 => put_operands(out, &[a, m]),
        6 => put_operands(out, &[a, b, m]),
        7 => put_operands(out, &[a, b, Operand::Register(fields.m)]),
        _ => unreachable!(),
    }
}

// Appends the operands, each after a space.
fn put_operands(out: &mut Text, operands: &[Operand]) -> Result<(), NoMemory>
    ensures ok { OnOk result (out.new ≡ out.old ++ operands_text operands.now) }
    ensures partly { OnErr result (IsPart out.old out.new (operands_text operands.now)) }
{
    'operands: for operand in operands {
        put_operand(out, *operand)?;
    }
    Ok(())
}

// Appends a space and the operand.
fn put_operand(out: &mut Text, operand: Operand) -> Result<(), NoMemory>
    ensures ok { OnOk result (out.new ≡ out.old ++ operand_text operand) }
    ensures partly { OnErr result (IsPart out.old out.new (operand_text operand)) }
{
    match operand {
        Operand::Register(number) => put_sign_and_number(out, b" r", u32::from(number)),
        Operand::Number(number) => put_sign_and_number(out, b" ", number),
    }
}

fn put_sign_and_number(out: &mut Text, sign: &[u8], number: u32) -> Result<(), NoMemory>
    ensures ok { OnOk result (out.new ≡ out.old ++ (sign.now ++ decimal number)) }
    ensures partly { OnErr result (IsPart out.old out.new (sign.now ++ decimal number)) }
{
    out.extend(sign)?;
    put_number(out, u64::from(number))
}
