//! Reads a program from its bytes.
ghost use Rattle.std.specs.Prelude.{◌≡◌, ◌<◌, ◌⊎◌, length, List, ℕ, IfOk, IfErr, Ok, Err};
ghost use Rattle.ease_base.specs.declared.place.Pos.{Pos};
ghost use Rattle.task_ast.specs.Readable.{IsReadable};
ghost use Rattle.task_ast.specs.declared.tree.Program.{Program};
ghost use Rattle.task_text.specs.declared.error.TextError.{TextError};
ghost use Rattle.task_text.specs.declared.error.TextError.TheVariants.{Syntax, NumberTooWide};
ghost use Rattle.task_tokens.specs.Division.{BreaksAt};
ghost use Rattle.task_text.specs.Reads.{Reads, Refuses, IsCause, IsTooWideAt, IsPlaceAmong, Answers, IsReading, IsFirstWide, IsResult, is_too_wide};

use crate::cursor::Cursor;
use crate::error::{ReadError, TextError};
use ease_base::Pos;
use std::alloc::Global;
use task_ast::Program;
use task_tokens::{
    DivideError, Lexeme, Token, divide, divides_or_breaks, one_division, tokens_are_fair,
};

fn is_too_wide(lexeme: &Lexeme) -> bool
    ensures { result ≡ is_too_wide lexeme.now }
{
    match lexeme {
        Lexeme::TooWide => true,
        _ => false,
    }
}

/// The place of the first number that is too wide.
fn first_wide(tokens: &[Token]) -> Option<Pos>
    ensures { IsFirstWide tokens.now result }
{
    for token in tokens {
        if is_too_wide(&token.lexeme) {
            return Some(token.at);
        }
    }
    None
}

/// The place of the token with this number, or that of the end.
fn place_of(tokens: &[Token], at: usize, end: Pos) -> Pos
    ensures { IsPlaceAmong tokens.now end result }
{
    match tokens.get(at) {
        Some(token) => token.at,
        None => end,
    }
}

/// The program that the tokens are; `end` is the place behind the last byte.
fn read_tokens(alloc: Global, tokens: &[Token], end: Pos) -> Result<Program, TextError>
    ensures { IsReading tokens.now end result }
{
    let mut cursor = Cursor::new(tokens);
    match cursor.program(alloc) {
        Ok(program) => Ok(program),
        Err(ReadError::Syntax) => {
            let at = tokens.len().saturating_sub(cursor.left());
            Err(TextError::Syntax(place_of(tokens, at, end)))
        }
        Err(ReadError::NoMemory) => Err(TextError::NoMemory),
    }
}

fn read(alloc: Global, text: &[u8]) -> Result<Program, TextError>
    requires { length text.now < 4294967295 }
    ensures { IsResult text.now result }
{
    let divided = match divide(alloc, text) {
        Ok(divided) => divided,
        Err(DivideError::Stuck(at)) => return Err(TextError::Syntax(at)),
        Err(DivideError::NoMemory) => return Err(TextError::NoMemory),
    };
    if let Some(at) = first_wide(divided.tokens.as_slice()) {
        return Err(TextError::NumberTooWide(at));
    }
    read_tokens(alloc, divided.tokens.as_slice(), divided.end)
}

/// The program that the text is. The text has fewer than 4,294,967,295 bytes.
///
/// The refusals are, in this order: `Syntax` where the bytes can't be divided into tokens, at the first
/// piece that is none; `NumberTooWide` at the first number above 4294967295; `Syntax` where the tokens have
/// no tree, at a token or the end. The grammar stands in docs/LANGUAGE.md.
pub fn read_program(alloc: Global, text: &[u8]) -> Result<Program, TextError>
    requires { length text.now < 4294967295 }
    // What is read is what the text is, and no other program is.
    ensures found { IfOk result (Reads text.now) }
    ensures only { (p : Program) → Reads text.now p → Answers result (Ok p) }
    // Each refusal is right, and comes where it is.
    ensures refused { IfErr result (IsCause text.now) }
    ensures breaks { (at : Pos) → BreaksAt text.now at → Answers result (Err (Syntax at)) }
    ensures wide { (at : Pos) → IsTooWideAt text.now at → Answers result (Err (NumberTooWide at)) }
    // Names are name tokens, numbers are words, and nothing is too deep.
    ensures readable { IfOk result IsReadable }
{
    one_division();
    tokens_are_fair();
    read(alloc, text)
}

/// A text is at most one program.
pub fn one_tree()
    ensures { (text : List ℕ) (p q : Program) → Reads text p → Reads text q → p ≡ q }
{
    one_division();
}

/// Each text is a program or refused, and none is both.
pub fn read_or_refused()
    ensures one { (text : List ℕ) → ((p : Program) × Reads text p) ⊎ ((e : TextError) × Refuses text e) }
    ensures not_both { (text : List ℕ) (p : Program) (e : TextError) → Reads text p → Refuses text e → ⊥ }
{
    one_division();
    divides_or_breaks();
}
