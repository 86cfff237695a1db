//! Each rule of the grammar without sites, kept and broken once.
use crate::expect::{expect_programs, expect_refusals, syntax};
use ease_base::Pos;
use std::test::Fail;
use task_ast::{Expr, Program, Stmt, Target};
use task_text::{TextError, read_program};

#[test]
fn each_rule_of_the_grammar_broken_once(rt: HostRuntime) -> Result<(), Fail> {
    let table: [(&[u8], TextError); 27] = [
        (b"", syntax(1, 1)),
        (b" ", syntax(1, 2)),
        (b"// c", syntax(1, 5)),
        (b"// c\n", syntax(2, 1)),
        (b"nv word x = 1; nv word y = 2;", syntax(1, 30)),
        (b"task a { STOP; } x", syntax(1, 18)),
        (b"nv word;", syntax(1, 8)),
        (b"nv x; task a { STOP; }", syntax(1, 4)),
        (b"nv word x = y; task a { STOP; }", syntax(1, 13)),
        (b"nv word x", syntax(1, 10)),
        (b"task { STOP; }", syntax(1, 6)),
        (b"task if { STOP; }", syntax(1, 6)),
        (b"task a STOP; }", syntax(1, 8)),
        (b"task a { }", syntax(1, 10)),
        (b"task a { STOP }", syntax(1, 15)),
        (b"task a { STOP; ", syntax(1, 16)),
        (b"task a { NEXT a); }", syntax(1, 15)),
        (b"task a { NEXT(); }", syntax(1, 15)),
        (b"task a { NEXT(a; }", syntax(1, 16)),
        (b"task a { NEXT(a) }", syntax(1, 18)),
        (b"task a { x 1; STOP; }", syntax(1, 12)),
        (b"task a { x = ; STOP; }", syntax(1, 14)),
        (b"task a { x = 1 STOP; }", syntax(1, 16)),
        (b"task a { x = (1; STOP; }", syntax(1, 16)),
        (b"task a { x = 1 +; STOP; }", syntax(1, 17)),
        (b"task a { x = 1 ++ 1; STOP; }", syntax(1, 16)),
        (b"task a { STOP; x = 1; }", syntax(1, 16)),
    ];
    expect_refusals(&rt, rt.alloc(), &table);
    Ok(())
}

#[test]
fn each_rule_of_declarations_broken_once(rt: HostRuntime) -> Result<(), Fail> {
    let table: [(&[u8], TextError); 9] = [
        (b"const word x; task a { STOP; }", syntax(1, 7)),
        (b"nv const word x; task a { STOP; }", syntax(1, 4)),
        (b"nv word x[]; task a { STOP; }", syntax(1, 11)),
        (b"nv word x[y]; task a { STOP; }", syntax(1, 11)),
        (b"nv word x[2; task a { STOP; }", syntax(1, 12)),
        (b"nv word x = {}; task a { STOP; }", syntax(1, 14)),
        (b"nv word x = {1,}; task a { STOP; }", syntax(1, 16)),
        (b"nv word x = {1 2}; task a { STOP; }", syntax(1, 16)),
        (b"nv word x = {1; task a { STOP; }", syntax(1, 15)),
    ];
    expect_refusals(&rt, rt.alloc(), &table);
    Ok(())
}

#[test]
fn each_rule_of_statements_broken_once(rt: HostRuntime) -> Result<(), Fail> {
    let table: [(&[u8], TextError); 19] = [
        (b"task a { x[1 = 2; STOP; }", syntax(1, 14)),
        (b"task a { x[] = 2; STOP; }", syntax(1, 12)),
        (b"task a { x = y[]; STOP; }", syntax(1, 16)),
        (b"task a { x = !; STOP; }", syntax(1, 15)),
        (b"task a { x = 1 ! 2; STOP; }", syntax(1, 16)),
        (b"task a { x = + 1; STOP; }", syntax(1, 14)),
        (b"task a { if 1 { } STOP; }", syntax(1, 13)),
        (b"task a { if (1) x = 2; STOP; }", syntax(1, 17)),
        (b"task a { if (1) { } else x = 1; STOP; }", syntax(1, 26)),
        (b"task a { if (1) { STOP; } else { STOP; } }", syntax(1, 19)),
        (
            b"task a { if (1) { if (2) STOP; else STOP; } STOP; }",
            syntax(1, 26),
        ),
        (b"task a { if (1) STOP; }", syntax(1, 23)),
        (b"task a { if (1) STOP; else { } }", syntax(1, 28)),
        (b"task a { else STOP; }", syntax(1, 10)),
        (
            b"task a { for (i = 0; j < 3; i++) { } STOP; }",
            syntax(1, 22),
        ),
        (
            b"task a { for (i = 0; i < 3; j++) { } STOP; }",
            syntax(1, 29),
        ),
        (
            b"task a { for (i = 1; i < 3; i++) { } STOP; }",
            syntax(1, 19),
        ),
        (
            b"task a { for (i = 0; i < n; i++) { } STOP; }",
            syntax(1, 26),
        ),
        (
            b"task a { for (i = 0; i < 3; i++) x = 1; STOP; }",
            syntax(1, 34),
        ),
    ];
    expect_refusals(&rt, rt.alloc(), &table);
    Ok(())
}

#[test]
fn each_form_of_the_grammar_is_a_program(rt: HostRuntime) -> Result<(), Fail> {
    let table: [&[u8]; 13] = [
        b"const nv word x = 7; task a { STOP; }",
        b"word x; word y[3]; word z = 0x10; task a { STOP; }",
        b"nv word x[2] = {1, 2}; task a { STOP; }",
        b"nv word x[2] = 1; nv word y = {1}; task a { STOP; }",
        b"nv word x = {1, 2, 3}; task a { STOP; }",
        b"task a { x[y[1] + 2] = -x[0] * ~(!y[z]); STOP; }",
        b"task a { x = 1 || 2 && 3 | 4 ^ 5 & 6 == 7 < 8 << 9 + 10 * 11; STOP; }",
        b"task a { x = 1 % 2 / 3 - 4 >> 5 >= 6 <= 7 > 8 != 9; STOP; }",
        b"task a { if (x) { } else { } if (y) { x = 1; y = 2; } STOP; }",
        b"task a { if (x) { if (y) { } } else { if (z) { } } if (1) STOP; else NEXT(a); }",
        b"task a { for (i = 0x0; i < 65536; i++) { x = i; } STOP; }",
        b"task a { if (1) if (2) STOP; else NEXT(a); else if (3) STOP; else STOP; }",
        b"task a { for (i = 0; i < 0; i++) { for (i = 0; i < 1; i++) { } } STOP; }",
    ];
    expect_programs(&rt, rt.alloc(), &table);
    Ok(())
}

fn is_sum_of_itself_and_one(program: &Program) -> bool {
    let Some(task) = program.tasks.get(0) else {
        return false;
    };
    let Some(Stmt::Assign(Target::Scalar(x), Expr::Two(_, left, right))) = task.body.get(0) else {
        return false;
    };
    let Expr::Read(y) = left.get() else {
        return false;
    };
    let Expr::Number(1, at) = right.get() else {
        return false;
    };
    x.text.as_slice() == b"x".as_slice()
        && y.text.as_slice() == b"x".as_slice()
        && *at
            == (Pos {
                line: 1,
                column: 42,
            })
        && task.close
            == (Pos {
                line: 1,
                column: 51,
            })
}

#[test]
fn a_counter_is_read_to_its_tree(rt: HostRuntime) -> Result<(), Fail> {
    let text = b"nv word x = 4294967295; task a { x = x + 1; STOP; }";
    let program = read_program(rt.alloc(), text)?;
    assert_eq!(rt; program.decls.len(), 1);
    assert_eq!(rt; program.tasks.len(), 1);
    assert!(rt; is_sum_of_itself_and_one(&program));
    Ok(())
}
