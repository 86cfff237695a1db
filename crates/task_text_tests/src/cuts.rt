//! Each construct cut behind each of its tokens, and with each token changed for another.
ghost use Rattle.std.specs.Prelude.{◌≤◌, length};

use crate::expect::{refusal, repeated, syntax};
use std::alloc::Global;
use std::test::Fail;
use task_text::TextError;

/// Constructs with a space behind each token, and what stands before them.
const CONSTRUCTS: [(&[u8], &[u8]); 12] = [
    (b"", b"word * p ; "),
    (b"", b"peripheral temp 7 ; "),
    (b"", b"const nv word x [ 2 ] = { 1 , 2 } ; "),
    (b"task a { ", b"p = & x ; "),
    (b"task a { ", b"p = & a [ i + 1 ] ; "),
    (b"task a { ", b"IO ( temp , SINGLE ) ; "),
    (
        b"task a { ",
        b"v = IO ( temp , TIMELY ( 5 ) , a [ 1 ] , - x ) ; ",
    ),
    (b"task a { ", b"a [ 1 ] = IO ( temp , ALWAYS , 3 ) ; "),
    (
        b"task a { ",
        b"IO_BLOCK ( TIMELY ( 9 ) ) { x = 1 ; IO ( p , ALWAYS ) ; } ",
    ),
    (b"task a { ", b"DMA ( a , b , 8 ) ; "),
    (b"task a { ", b"DMA ( & x , & b [ i ] , p [ 2 ] * 3 ) ; "),
    (
        b"task a { ",
        b"for ( i = 0 ; i < 2 ; i ++ ) { if ( x ) { } else { } } ",
    ),
];

fn at_column(index: usize) -> TextError {
    let column = u32::try_from(index).unwrap_or(0);
    syntax(1, column.saturating_add(1))
}

#[test]
fn a_construct_that_is_cut_behind_a_token_is_refused_at_the_end(
    rt: HostRuntime,
) -> Result<(), Fail> {
    let alloc = rt.alloc();
    for (front, construct) in &CONSTRUCTS {
        let text = repeated(alloc, front, 1, construct, b"", b"", b"")?;
        for end in front.len()..text.len() {
            let (cut, behind) = text.split_at(end);
            if behind.starts_with(b" ") {
                assert_eq!(&rt;
                    refusal(&rt, alloc, cut),
                    Some(at_column(end)),
                    "in {cut:?}"
                );
            }
        }
    }
    Ok(())
}

/// The text with another token in place of the one that begins at `start`: `++`, or `else` for `++`.
fn changed(alloc: Global, text: &[u8], start: usize) -> Result<Vec<u8>, Fail>
    requires { start ≤ length text.now }
{
    let (front, behind) = text.split_at(start);
    let len = behind.iter().take_while(|b| **b != b' ').count();
    let (token, back) = behind.split_at(len);
    let other: &[u8] = if token == b"++".as_slice() {
        b"else"
    } else {
        b"++"
    };
    repeated(alloc, front, 1, other, b"", b"", back)
}

#[test]
fn a_construct_with_a_token_changed_is_refused_there(rt: HostRuntime) -> Result<(), Fail> {
    let alloc = rt.alloc();
    for (front, construct) in &CONSTRUCTS {
        let text = repeated(alloc, front, 1, construct, b"", b"", b"STOP; }")?;
        for start in front.len()..front.len().saturating_add(construct.len()).min(text.len()) {
            let (before, _) = text.split_at(start);
            if start == front.len() || before.ends_with(b" ") {
                let other = changed(alloc, &text, start)?;
                assert_eq!(&rt;
                    refusal(&rt, alloc, &other),
                    Some(at_column(start)),
                    "in {other:?}"
                );
            }
        }
    }
    Ok(())
}
