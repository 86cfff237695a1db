//! Texts that are refused or are programs, and texts made of repeated pieces.
use ease_base::Pos;
use std::alloc::Global;
use std::process::Abort;
use std::test::Fail;
use task_text::{TextError, read_program};

pub const fn syntax(line: u32, column: u32) -> TextError {
    TextError::Syntax(Pos { line, column })
}

pub const fn wide(line: u32, column: u32) -> TextError {
    TextError::NumberTooWide(Pos { line, column })
}

pub fn refusal(rt: &impl Abort, alloc: Global, text: &[u8]) -> Option<TextError> {
    assert!(rt; text.len() < 100000);
    match read_program(alloc, text) {
        Ok(_) => None,
        Err(error) => Some(error),
    }
}

/// Asserts that each text is refused so.
pub fn expect_refusals(rt: &impl Abort, alloc: Global, table: &[(&[u8], TextError)]) {
    for (text, expected) in table {
        assert_eq!(rt; refusal(rt, alloc, text), Some(*expected), "in {text:?}");
    }
}

/// Asserts that each text is a program.
pub fn expect_programs(rt: &impl Abort, alloc: Global, table: &[&[u8]]) {
    for text in table {
        assert_eq!(rt; refusal(rt, alloc, text), None, "in {text:?}");
    }
}

/// A front, so many of `open`, a piece, so many of `close`, and a back.
pub fn repeated(
    alloc: Global,
    front: &[u8],
    count: usize,
    open: &[u8],
    piece: &[u8],
    close: &[u8],
    back: &[u8],
) -> Result<Vec<u8>, Fail> {
    let mut text = Vec::from_slice(alloc, front)?;
    for _ in 0..count {
        text.extend_from_slice(open)?;
    }
    text.extend_from_slice(piece)?;
    for _ in 0..count {
        text.extend_from_slice(close)?;
    }
    text.extend_from_slice(back)?;
    Ok(text)
}
