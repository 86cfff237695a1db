//! Divides a text into tokens, each with its place.
ghost use Rattle.std.specs.Prelude.{◌≡◌, ◌<◌, ◌≤◌, ◌+◌, ◌^◌, ◌++◌, [], length, IfOk, IfErr, OnOk};
ghost use Rattle.task_tokens.specs.Division as spec;
ghost use Rattle.task_tokens.specs.Divided.{IsDivided, IsBreak};

use crate::cut::first_cut;
use crate::token::{Lexeme, Token};
use ease_base::{List, NoMemory, Pos};
use std::alloc::Global;

/// The tokens of a text, and the place behind its last byte.
#[derive(Drop)]
pub struct Divided {
    pub tokens: List<Token>,
    pub end: Pos,
}

/// Why a text isn't divided.
#[derive(Clone, Copy)]
pub enum DivideError {
    /// At this place begins no white space, comment or token.
    Stuck(Pos),
    NoMemory,
}

impl From<NoMemory> for DivideError {
    ghost use Rattle.task_tokens.specs.declared.dividing.DivideError.TheVariants.{NoMemory as no_memory};

    ghost from_gives = { λ _ e. e ≡ no_memory };

    fn from(_error: NoMemory) -> DivideError {
        DivideError::NoMemory
    }
}

fn next_place(at: Pos, b: u8) -> Pos
    requires place { spec.IsPlace at }
    requires room { at.line + at.column < 2 ^ 32 }
    ensures value { result ≡ spec.next_place at b }
    ensures place { spec.IsPlace result }
    ensures within { result.line + result.column ≤ at.line + at.column + 1 }
{
    if b == b'\n' {
        return Pos {
            line: at.line + 1,
            column: 1,
        };
    }
    Pos {
        line: at.line,
        column: at.column + 1,
    }
}

/// The place behind a piece that begins at `at`.
fn place_behind(at: Pos, piece: &[u8]) -> Pos
    requires place { spec.IsPlace at }
    requires room { at.line + at.column + length piece.now ≤ 2 ^ 32 }
    ensures value { result ≡ spec.behind at piece.now }
    ensures place { spec.IsPlace result }
    ensures within { result.line + result.column ≤ at.line + at.column + length piece.now }
{
    let mut place = at;
    for b in piece {
        place = next_place(place, *b);
    }
    place
}

/// Adds the token, if the piece is one.
fn add(tokens: &mut List<Token>, lexeme: Option<Lexeme>, at: Pos) -> Result<(), NoMemory>
    ensures { OnOk result (tokens.new ≡ tokens.old ++ spec.with_token lexeme at []) }
{
    let Some(lexeme) = lexeme else {
        return Ok(());
    };
    tokens.push(Token { lexeme, at })?;
    Ok(())
}

/// The tokens of the text, or the place where it can't be divided.
pub fn divide(alloc: Global, text: &[u8]) -> Result<Divided, DivideError>
    requires { length text.now < 4294967295 }
    ensures whole { IfOk result (IsDivided text.now) }
    ensures stuck { IfErr result (IsBreak text.now) }
{
    let mut tokens = List::new(alloc);
    let mut at = Pos { line: 1, column: 1 };
    let mut rest = text;
    while !rest.is_empty() {
        let Some(cut) = first_cut(alloc, rest)? else {
            return Err(DivideError::Stuck(at));
        };
        let (piece, behind) = rest.split_at(cut.len);
        add(&mut tokens, cut.lexeme, at)?;
        at = place_behind(at, piece);
        rest = behind;
    }
    Ok(Divided { tokens, end: at })
}
