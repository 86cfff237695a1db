//! Bytes that divide into tokens and bytes that do not, and numbers that are too wide.
use crate::expect::{expect_programs, expect_refusals, syntax, wide};
use std::test::Fail;
use task_text::TextError;

#[test]
fn bytes_that_are_no_tokens_come_before_wide_numbers_and_those_before_the_grammar(
    rt: HostRuntime,
) -> Result<(), Fail> {
    let table: [(&[u8], TextError); 21] = [
        (b"nv word x = 01; task a { STOP; }", syntax(1, 13)),
        (b"nv word x = 0x; task a { STOP; }", syntax(1, 13)),
        (b"nv word x = 12_; task a { STOP; }", syntax(1, 13)),
        (b"nv word x = 0X1; task a { STOP; }", syntax(1, 13)),
        (b"nv word x = 1a; task a { STOP; }", syntax(1, 13)),
        (b"nv word x = 0x1g; task a { STOP; }", syntax(1, 13)),
        (b"task a { STOP; } /* end", syntax(1, 18)),
        (b"/*/", syntax(1, 1)),
        (b"task a {\0 STOP; }", syntax(1, 9)),
        (b"task \xc3\xa9 { STOP; }", syntax(1, 6)),
        (b"task a { STOP; } // \xc3\xa9\n@", syntax(2, 1)),
        (b"#", syntax(1, 1)),
        (b"task a {\r\n\tx = 1 @;", syntax(2, 8)),
        (b"\n\n @", syntax(3, 2)),
        (b"\r@", syntax(1, 2)),
        (b"nv word x = 4294967296; @", syntax(1, 25)),
        (b"nv word x = 4294967296; task t { STOP; }", wide(1, 13)),
        (b"nv word x = 0x100000000; task t { STOP; }", wide(1, 13)),
        (
            b"nv word x = 4294967296; nv word y = 99999999999999999999999;",
            wide(1, 13),
        ),
        (b"nv nv 4294967296", wide(1, 7)),
        (b"4294967296", wide(1, 1)),
    ];
    expect_refusals(&rt, rt.alloc(), &table);
    Ok(())
}

#[test]
fn white_space_and_comments_stand_between_tokens(rt: HostRuntime) -> Result<(), Fail> {
    let table: [&[u8]; 4] = [
        b"/***/nv word x=0xFf;//c\r\ntask a{x=x+(1+2);STOP;}",
        b"task\ta\r\n{/* // */NEXT/**/(a) ; } // the end",
        b"task IOx { _ = 0 ; NEXT ( t1 ) ; } task t1 { STOP ; }",
        b"task a{x=(1)+2+(y+4294967295);STOP;}/* * / */",
    ];
    expect_programs(&rt, rt.alloc(), &table);
    Ok(())
}
