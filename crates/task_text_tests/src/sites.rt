//! Each rule of pointers, peripherals, calls, blocks and copies, kept and broken once.
use crate::expect::{expect_programs, expect_refusals, refusal, repeated, syntax};
use std::test::Fail;
use task_text::TextError;

#[test]
fn each_rule_of_pointers_and_peripherals_broken_once(rt: HostRuntime) -> Result<(), Fail> {
    let table: [(&[u8], TextError); 12] = [
        (b"word *p[2]; task a { STOP; }", syntax(1, 8)),
        (b"word *; task a { STOP; }", syntax(1, 7)),
        (b"word *p = 1; task a { STOP; }", syntax(1, 9)),
        (b"nv word *p; task a { STOP; }", syntax(1, 9)),
        (b"const nv word *p; task a { STOP; }", syntax(1, 15)),
        (b"peripheral 1; task a { STOP; }", syntax(1, 12)),
        (b"peripheral p; task a { STOP; }", syntax(1, 13)),
        (b"peripheral p x; task a { STOP; }", syntax(1, 14)),
        (b"peripheral p 1 2; task a { STOP; }", syntax(1, 16)),
        (b"peripheral p 1 task a { STOP; }", syntax(1, 16)),
        (b"nv peripheral p 1; task a { STOP; }", syntax(1, 4)),
        (b"word **p; task a { STOP; }", syntax(1, 7)),
    ];
    expect_refusals(&rt, rt.alloc(), &table);
    Ok(())
}

#[test]
fn each_rule_of_addresses_calls_blocks_and_copies_broken_once(rt: HostRuntime) -> Result<(), Fail> {
    let table: [(&[u8], TextError); 51] = [
        (b"task a { p = &; STOP; }", syntax(1, 15)),
        (b"task a { p = &1; STOP; }", syntax(1, 15)),
        (b"task a { p = &x + 1; STOP; }", syntax(1, 17)),
        (b"task a { p = &x[1; STOP; }", syntax(1, 18)),
        (b"task a { p = &x[]; STOP; }", syntax(1, 17)),
        (b"task a { p = &&x; STOP; }", syntax(1, 14)),
        (b"task a { p & x; STOP; }", syntax(1, 12)),
        (b"task a { a[1] = &x; STOP; }", syntax(1, 17)),
        (b"task a { x = 1 + &y; STOP; }", syntax(1, 18)),
        (b"task a { x = (&y); STOP; }", syntax(1, 15)),
        (b"task a { IO p, SINGLE); STOP; }", syntax(1, 13)),
        (b"task a { IO(, SINGLE); STOP; }", syntax(1, 13)),
        (b"task a { IO(1, SINGLE); STOP; }", syntax(1, 13)),
        (b"task a { IO(p SINGLE); STOP; }", syntax(1, 15)),
        (b"task a { IO(p); STOP; }", syntax(1, 14)),
        (b"task a { IO(p, 1); STOP; }", syntax(1, 16)),
        (b"task a { IO(p, ); STOP; }", syntax(1, 16)),
        (b"task a { IO(p, SINGLE 1); STOP; }", syntax(1, 23)),
        (b"task a { IO(p, SINGLE, ); STOP; }", syntax(1, 24)),
        (b"task a { IO(p, SINGLE; STOP; }", syntax(1, 22)),
        (b"task a { IO(p, SINGLE) STOP; }", syntax(1, 24)),
        (b"task a { IO(p, SINGLE(5)); STOP; }", syntax(1, 22)),
        (b"task a { IO(p,TIMELY(5),a[1],&x); STOP; }", syntax(1, 30)),
        (b"task a { IO(p, TIMELY, 1); STOP; }", syntax(1, 22)),
        (b"task a { IO(p, TIMELY); STOP; }", syntax(1, 22)),
        (b"task a { IO(p, TIMELY()); STOP; }", syntax(1, 23)),
        (b"task a { IO(p, TIMELY(x)); STOP; }", syntax(1, 23)),
        (b"task a { IO(p, TIMELY(5, 1); STOP; }", syntax(1, 24)),
        (b"task a { v = IO(p, SINGLE) + 1; STOP; }", syntax(1, 28)),
        (b"task a { v = 1 + IO(p, SINGLE); STOP; }", syntax(1, 18)),
        (b"task a { v IO(p, SINGLE); STOP; }", syntax(1, 12)),
        (b"task a { IO_BLOCK{ } STOP; }", syntax(1, 18)),
        (b"task a { IO_BLOCK() { } STOP; }", syntax(1, 19)),
        (b"task a { IO_BLOCK(TEMP) { } STOP; }", syntax(1, 19)),
        (b"task a { IO_BLOCK(SINGLE{ } STOP; }", syntax(1, 25)),
        (b"task a { IO_BLOCK(SINGLE) x = 1; STOP; }", syntax(1, 27)),
        (
            b"task a { IO_BLOCK(SINGLE) { STOP; } STOP; }",
            syntax(1, 29),
        ),
        (
            b"task a { IO_BLOCK(SINGLE) { } else { } STOP; }",
            syntax(1, 31),
        ),
        (b"task a { DMA a, b, 1); STOP; }", syntax(1, 14)),
        (b"task a { DMA(, b, 1); STOP; }", syntax(1, 14)),
        (b"task a { DMA(a b, 1); STOP; }", syntax(1, 16)),
        (b"task a { DMA(a, b); STOP; }", syntax(1, 18)),
        (b"task a { DMA(a, b, ); STOP; }", syntax(1, 20)),
        (b"task a { DMA(a[1], b, 1); STOP; }", syntax(1, 15)),
        (b"task a { DMA(&1, b, 1); STOP; }", syntax(1, 15)),
        (b"task a { DMA(a, 1, 1); STOP; }", syntax(1, 17)),
        (b"task a { DMA(a, b, 1, 2); STOP; }", syntax(1, 21)),
        (b"task a { DMA(a, b, 1) STOP; }", syntax(1, 23)),
        (b"task a { v = DMA(a, b, 1); STOP; }", syntax(1, 14)),
        (b"task a { &p = &x; STOP; }", syntax(1, 10)),
        (b"task a { IO_BLOCK(SINGLE, p) { } STOP; }", syntax(1, 25)),
    ];
    expect_refusals(&rt, rt.alloc(), &table);
    Ok(())
}

#[test]
fn each_form_with_pointers_and_peripherals_is_a_program(rt: HostRuntime) -> Result<(), Fail> {
    let table: [&[u8]; 12] = [
        b"word *p; word * q; peripheral temp 0; peripheral radio 0x1; task a { STOP; }",
        b"peripheral far 4294967295; nv word x; word *p; task a { STOP; }",
        b"task a { p = &x; p = &a[i + 1]; x = p[2]; p[x] = 1; STOP; }",
        b"task a { IO(p, SINGLE); IO(p, ALWAYS); IO(p, TIMELY(0)); STOP; }",
        b"task a { x = IO(p, SINGLE); a[1] = IO(p, TIMELY(5), a[1], -x, 3, 4); STOP; }",
        b"task a { IO(p, SINGLE, 1, 2, 3, 4, 5, 6); STOP; }",
        b"task a { IO_BLOCK(SINGLE) { } IO_BLOCK(TIMELY(7)) { x = 1; IO(p, ALWAYS); } STOP; }",
        b"task a { IO_BLOCK(ALWAYS) { IO_BLOCK(SINGLE) { if (x) { } } } STOP; }",
        b"task a { DMA(a, b, 8); DMA(&x, &b[1], x + 1); DMA(p, &p, 0); STOP; }",
        b"task a { if (x) { IO(p, SINGLE); } else { IO_BLOCK(SINGLE) { } } STOP; }",
        b"task a { for (i = 0; i < 2; i++) { v = IO(p, SINGLE); DMA(a, b, 1); } STOP; }",
        b"task a { x = y & z; p = & z; x = y && z; STOP; }",
    ];
    expect_programs(&rt, rt.alloc(), &table);
    Ok(())
}

#[test]
fn an_io_call_may_have_ten_thousand_arguments(rt: HostRuntime) -> Result<(), Fail> {
    let alloc = rt.alloc();
    let text = repeated(
        alloc,
        b"task a { IO(p, SINGLE",
        10000,
        b",1",
        b"",
        b"",
        b"); STOP; }",
    )?;
    assert_eq!(&rt; refusal(&rt, alloc, &text), None);
    let cut = repeated(alloc, b"task a { IO(p, SINGLE", 10000, b",1", b"", b"", b"")?;
    assert_eq!(&rt; refusal(&rt, alloc, &cut), Some(syntax(1, 20022)));
    Ok(())
}
