//! How deep expressions, statements and exits may nest.
use crate::expect::{refusal, repeated, syntax};
use std::test::Fail;
use task_text::TextError;

#[test]
fn an_expression_is_at_most_24_deep(rt: HostRuntime) -> Result<(), Fail> {
    let alloc = rt.alloc();
    let table: [(usize, &[u8], &[u8], Option<TextError>); 10] = [
        (23, b"(", b")", None),
        (24, b"(", b")", Some(syntax(1, 38))),
        (9000, b"(", b")", Some(syntax(1, 38))),
        (23, b"", b"+1", None),
        (24, b"", b"+1", Some(syntax(1, 61))),
        (9000, b"", b"+1", Some(syntax(1, 61))),
        (23, b"!", b"", None),
        (24, b"!", b"", Some(syntax(1, 38))),
        (23, b"y[", b"]", None),
        (24, b"y[", b"]", Some(syntax(1, 62))),
    ];
    for (count, open, close, expected) in &table {
        let text = repeated(
            alloc,
            b"task a { x = ",
            *count,
            open,
            b"1",
            close,
            b"; STOP; }",
        )?;
        assert_eq!(rt;
            refusal(&rt, alloc, &text),
            *expected,
            "{count} times {open:?}"
        );
    }
    Ok(())
}

#[test]
fn statements_nest_at_most_16_deep(rt: HostRuntime) -> Result<(), Fail> {
    let alloc = rt.alloc();
    let table: [(usize, &[u8], &[u8], Option<TextError>); 10] = [
        (16, b"IO_BLOCK(ALWAYS){", b"", None),
        (17, b"IO_BLOCK(ALWAYS){", b"", Some(syntax(1, 282))),
        (5000, b"IO_BLOCK(ALWAYS){", b"", Some(syntax(1, 282))),
        (5000, b"for(i=0;i<1;i++){", b"", Some(syntax(1, 282))),
        (16, b"if(1){", b"", None),
        (15, b"if(1){", b"x=1;", None),
        (16, b"if(1){", b"x=1;", Some(syntax(1, 106))),
        (17, b"if(1){", b"", Some(syntax(1, 106))),
        (9000, b"if(1){", b"", Some(syntax(1, 106))),
        (16, b"for(i=0;i<1;i++){", b"", None),
    ];
    for (count, open, piece, expected) in &table {
        let text = repeated(alloc, b"task a { ", *count, open, piece, b"}", b" STOP; }")?;
        assert_eq!(rt;
            refusal(&rt, alloc, &text),
            *expected,
            "{count} times {open:?}"
        );
    }
    Ok(())
}

#[test]
fn the_ifs_of_an_exit_nest_at_most_16_deep(rt: HostRuntime) -> Result<(), Fail> {
    let alloc = rt.alloc();
    let table: [(usize, &[u8], Option<TextError>); 4] = [
        (16, b"if(1)STOP;else ", None),
        (17, b"if(1)STOP;else ", Some(syntax(1, 250))),
        (5000, b"if(1)STOP;else ", Some(syntax(1, 250))),
        (17, b"if(1)", Some(syntax(1, 90))),
    ];
    for (count, open, expected) in &table {
        let text = repeated(alloc, b"task a { ", *count, open, b"", b"", b"STOP; }")?;
        assert_eq!(rt;
            refusal(&rt, alloc, &text),
            *expected,
            "{count} times {open:?}"
        );
    }
    Ok(())
}

#[test]
fn the_index_of_a_target_and_a_condition_are_deep_by_themselves(
    rt: HostRuntime,
) -> Result<(), Fail> {
    let alloc = rt.alloc();
    let index = repeated(
        alloc,
        b"task a { x[",
        23,
        b"(",
        b"1",
        b")",
        b"] = 1; STOP; }",
    )?;
    assert_eq!(rt; refusal(&rt, alloc, &index), None);
    let condition = repeated(
        alloc,
        b"task a { if (",
        23,
        b"(",
        b"1",
        b")",
        b") { } STOP; }",
    )?;
    assert_eq!(rt; refusal(&rt, alloc, &condition), None);
    Ok(())
}
