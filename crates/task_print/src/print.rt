//! The printed form of a program: its tokens with a space between any two, and a line feed at the end.
ghost use Rattle.std.specs.Prelude.{◌≡◌, ◌++◌, [], ◌∷◌, ℕ, List, IfOk, OnOk};
ghost use Rattle.std.specs.List.{flat_map};
ghost use Rattle.task_ast.specs.declared.tree.Program.{Program as Tree};
ghost use Rattle.task_print.specs.Printed.{Puts, mark, numbered, braced, kind_tokens, size_tokens, next_tokens, init_tokens, decl_tokens, body_tokens, exit_tokens, task_tokens, program_tokens, with_end, printed};
ghost use Rattle.task_text.specs.Reads.{Reads};
ghost use Rattle.task_print.specs.Unplaced.{unplaced};
ghost use Rattle.task_tokens.specs.declared.token.Sign.TheVariants as sign;

use crate::print_stmt::{put_body, put_exit};
use crate::put::{put_name, put_numeral, put_sign, put_word};
use ease_base::{NoMemory, Text, Words};
use std::alloc::Global;
use task_ast::{Decl, Kind, Name, Program, Task};
use task_tokens::{Keyword, Sign, spaced_tokens_divide, tokens_are_fair};

/// The printed form of a program that some text has: its tokens with one space between any two, numbers in
/// decimal, a list of one value as the number alone, no empty `else`, and a line feed at the end. Reading it again
/// gives the same tree up to places. docs/LANGUAGE.md, "The printed form".
pub fn print_program(alloc: Global, p: &Program) -> Result<Text, NoMemory>
    requires read { (text : List ℕ) × Reads text p.now }
    ensures text { IfOk result (λ t. t ≡ printed p.now) }
    ensures again { IfOk result (λ t. (q : Tree) × Reads t q × (unplaced q ≡ unplaced p.now)) }
{
    tokens_are_fair();
    spaced_tokens_divide();
    let mut out = Text::new(alloc);
    put_program(&mut out, p)?;
    with_end(alloc, out.as_slice())
}

// The text with a line feed in place of its last byte.
fn with_end(alloc: Global, text: &[u8]) -> Result<Text, NoMemory>
    ensures { IfOk result (λ t. t ≡ with_end text.now) }
{
    let (front, _) = text.split_at(text.len().saturating_sub(1));
    let mut ended = Text::from_slice(alloc, front)?;
    ended.push(b'\n')?;
    Ok(ended)
}

#[tactic(auto, using(crate::proofs::PrintSteps::puts, crate::proofs::PrintSteps::puts_last))]
fn put_program(out: &mut Text, p: &Program) -> Result<(), NoMemory>
    ensures { OnOk result (Puts out.old (program_tokens p.now) out.new) }
{
    put_decls(out, p.decls.as_slice())?;
    put_tasks(out, p.tasks.as_slice())
}

fn put_decls(out: &mut Text, decls: &[Decl]) -> Result<(), NoMemory>
    ensures { OnOk result (Puts out.old (flat_map decl_tokens decls.now) out.new) }
{
    'decls: for d in decls {
        put_decl(out, d)?;
    }
    Ok(())
}

fn put_tasks(out: &mut Text, tasks: &[Task]) -> Result<(), NoMemory>
    ensures { OnOk result (Puts out.old (flat_map task_tokens tasks.now) out.new) }
{
    'tasks: for t in tasks {
        put_task(out, t)?;
    }
    Ok(())
}

fn put_decl(out: &mut Text, d: &Decl) -> Result<(), NoMemory>
    ensures { OnOk result (Puts out.old (decl_tokens d.now) out.new) }
{
    match d {
        Decl::Words(kind, x, size, values) => put_words(out, *kind, x, *size, values),
        Decl::Pointer(x) => put_pointer(out, x),
        Decl::Peripheral(x, number) => put_peripheral(out, x, *number),
    }
}

// `word * x ;`
#[tactic(auto, using(crate::proofs::PrintSteps::puts, crate::proofs::PrintSteps::puts_last))]
fn put_pointer(out: &mut Text, x: &Name) -> Result<(), NoMemory>
    ensures { OnOk result (Puts out.old (decl_tokens (Decl.Pointer x.now)) out.new) }
{
    put_word(out, Keyword::Word)?;
    put_sign(out, Sign::Star)?;
    put_name(out, x)?;
    put_sign(out, Sign::Semicolon)
}

// `peripheral x NUM ;`
#[tactic(auto, using(crate::proofs::PrintSteps::puts, crate::proofs::PrintSteps::puts_last))]
fn put_peripheral(out: &mut Text, x: &Name, number: u32) -> Result<(), NoMemory>
    ensures { OnOk result (Puts out.old (decl_tokens (Decl.Peripheral x.now number)) out.new) }
{
    put_word(out, Keyword::Peripheral)?;
    put_name(out, x)?;
    put_numeral(out, number)?;
    put_sign(out, Sign::Semicolon)
}

#[tactic(auto, using(crate::proofs::PrintSteps::puts, crate::proofs::PrintSteps::puts_last))]
fn put_words(
    out: &mut Text,
    kind: Kind,
    x: &Name,
    size: Option<u32>,
    values: &Words,
) -> Result<(), NoMemory>
    ensures { OnOk result (Puts out.old (decl_tokens (Decl.Words kind x.now size values.now)) out.new) }
{
    put_kind(out, kind)?;
    put_word(out, Keyword::Word)?;
    put_name(out, x)?;
    put_size(out, size)?;
    put_values(out, values.as_slice())?;
    put_sign(out, Sign::Semicolon)
}

#[tactic(auto, using(crate::proofs::PrintSteps::puts, crate::proofs::PrintSteps::puts_last))]
fn put_kind(out: &mut Text, kind: Kind) -> Result<(), NoMemory>
    ensures { OnOk result (Puts out.old (kind_tokens kind) out.new) }
{
    match kind {
        Kind::Const => {
            put_word(out, Keyword::Const)?;
            put_word(out, Keyword::Nv)
        }
        Kind::Nv => put_word(out, Keyword::Nv),
        Kind::Vol => Ok(()),
    }
}

// `[ NUM ]`, or nothing
#[tactic(auto, using(crate::proofs::PrintSteps::puts, crate::proofs::PrintSteps::puts_last))]
fn put_size(out: &mut Text, size: Option<u32>) -> Result<(), NoMemory>
    ensures { OnOk result (Puts out.old (size_tokens size) out.new) }
{
    let Some(size) = size else {
        return Ok(());
    };
    put_sign(out, Sign::BracketOpen)?;
    put_numeral(out, size)?;
    put_sign(out, Sign::BracketClose)
}

// Nothing, `= NUM`, or `= { NUM , .. }` for several.
#[tactic(auto, using(crate::proofs::PrintSteps::puts, crate::proofs::PrintSteps::puts_last))]
fn put_values(out: &mut Text, values: &[u32]) -> Result<(), NoMemory>
    ensures { OnOk result (Puts out.old (init_tokens values.now) out.new) }
{
    let Some((first, others)) = values.split_first() else {
        return Ok(());
    };
    put_sign(out, Sign::Equal)?;
    if others.is_empty() {
        return put_numeral(out, *first);
    }
    put_several(out, *first, others)
}

// `{ NUM , .. }`
#[tactic(auto, using(crate::proofs::PrintSteps::puts, crate::proofs::PrintSteps::puts_last))]
fn put_several(out: &mut Text, first: u32, others: &[u32]) -> Result<(), NoMemory>
    ensures { OnOk result (Puts out.old (braced (numbered first ++ flat_map next_tokens others.now)) out.new) }
{
    put_sign(out, Sign::BraceOpen)?;
    put_numeral(out, first)?;
    put_others(out, others)?;
    put_sign(out, Sign::BraceClose)
}

fn put_others(out: &mut Text, others: &[u32]) -> Result<(), NoMemory>
    ensures { OnOk result (Puts out.old (flat_map next_tokens others.now) out.new) }
{
    'others: for n in others {
        put_next(out, *n)?;
    }
    Ok(())
}

// `, NUM`
#[tactic(auto, using(crate::proofs::PrintSteps::puts, crate::proofs::PrintSteps::puts_last))]
fn put_next(out: &mut Text, n: u32) -> Result<(), NoMemory>
    ensures { OnOk result (Puts out.old (next_tokens n) out.new) }
{
    put_sign(out, Sign::Comma)?;
    put_numeral(out, n)
}

#[tactic(auto, using(crate::proofs::PrintSteps::puts, crate::proofs::PrintSteps::puts_last))]
fn put_task(out: &mut Text, t: &Task) -> Result<(), NoMemory>
    ensures { OnOk result (Puts out.old (task_tokens t.now) out.new) }
{
    put_word(out, Keyword::Task)?;
    put_name(out, &t.name)?;
    put_sign(out, Sign::BraceOpen)?;
    put_body(out, t.body.as_slice())?;
    put_exit(out, &t.exit)?;
    put_sign(out, Sign::BraceClose)
}
