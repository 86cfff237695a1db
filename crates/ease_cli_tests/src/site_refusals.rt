//! Sources with pointers, peripherals, calls, blocks and copies that are refused, each with the line of its first fault,
//! and sources that just aren't.
use crate::commands::run;
use ease_cli::Status;
use std::test::Fail;

// Each cause of a refusal, with its line.
const BROKEN: [(&str, &str); 79] = [
    (
        "word *p; word x; task t { x = p; STOP; }",
        "source 1:31 wrong-kind\n",
    ),
    (
        "peripheral r 0; word x; task t { x = r; STOP; }",
        "source 1:38 wrong-kind\n",
    ),
    (
        "word *p; task t { p = 1; STOP; }",
        "source 1:19 wrong-kind\n",
    ),
    (
        "peripheral r 0; task t { r = 1; STOP; }",
        "source 1:26 wrong-kind\n",
    ),
    (
        "peripheral r 0; word x; task t { x = r[0]; STOP; }",
        "source 1:38 wrong-kind\n",
    ),
    (
        "peripheral r 0; task t { r[0] = 1; STOP; }",
        "source 1:26 wrong-kind\n",
    ),
    (
        "word x; peripheral r 0; task t { x[0] = IO(r, SINGLE); STOP; }",
        "source 1:34 wrong-kind\n",
    ),
    (
        "word a[2]; peripheral r 0; task t { a = IO(r, SINGLE); STOP; }",
        "source 1:37 wrong-kind\n",
    ),
    (
        "word x; word y; task t { x = &y; STOP; }",
        "source 1:26 wrong-kind\n",
    ),
    (
        "word a[2]; word y; task t { a = &y; STOP; }",
        "source 1:29 wrong-kind\n",
    ),
    (
        "peripheral r 0; word y; task t { r = &y; STOP; }",
        "source 1:34 wrong-kind\n",
    ),
    (
        "word y; task t { t = &y; STOP; }",
        "source 1:18 wrong-kind\n",
    ),
    (
        "word y; task t { q = &y; STOP; }",
        "source 1:18 unknown-name\n",
    ),
    (
        "word *p; task t { p = &y; STOP; }",
        "source 1:24 unknown-name\n",
    ),
    (
        "word *p; word a[2]; task t { p = &a; STOP; }",
        "source 1:35 wrong-kind\n",
    ),
    (
        "word *p; word *q; task t { p = &q; STOP; }",
        "source 1:33 wrong-kind\n",
    ),
    (
        "word *p; word x; task t { p = &x[0]; STOP; }",
        "source 1:32 wrong-kind\n",
    ),
    (
        "word *p; word *q; task t { p = &q[0]; STOP; }",
        "source 1:33 wrong-kind\n",
    ),
    (
        "word *p; word a[2]; task t { p = &a[y]; STOP; }",
        "source 1:37 unknown-name\n",
    ),
    (
        "word x; task t { IO(x, SINGLE); STOP; }",
        "source 1:21 wrong-kind\n",
    ),
    (
        "word *p; task t { IO(p, SINGLE); STOP; }",
        "source 1:22 wrong-kind\n",
    ),
    (
        "task t { IO(t, SINGLE); STOP; }",
        "source 1:13 wrong-kind\n",
    ),
    (
        "task t { IO(r, SINGLE); STOP; }",
        "source 1:13 unknown-name\n",
    ),
    (
        "peripheral r 0; word x; task t { IO(r, SINGLE, x, y); STOP; }",
        "source 1:51 unknown-name\n",
    ),
    (
        "peripheral r 0; word x; task t { y = IO(q, SINGLE); STOP; }",
        "source 1:34 unknown-name\n",
    ),
    (
        "word x; word a[2]; task t { DMA(x, a, 1); STOP; }",
        "source 1:33 wrong-kind\n",
    ),
    (
        "word x; word a[2]; task t { DMA(a, x, 1); STOP; }",
        "source 1:36 wrong-kind\n",
    ),
    (
        "peripheral r 0; word a[2]; task t { DMA(a, r, 1); STOP; }",
        "source 1:44 wrong-kind\n",
    ),
    (
        "word a[2]; task t { DMA(t, a, 1); STOP; }",
        "source 1:25 wrong-kind\n",
    ),
    (
        "word a[2]; task t { DMA(&a, a, 1); STOP; }",
        "source 1:26 wrong-kind\n",
    ),
    (
        "word x; word a[2]; task t { DMA(a, &x[0], 1); STOP; }",
        "source 1:37 wrong-kind\n",
    ),
    (
        "word *p; word a[2]; task t { DMA(&p[0], a, 1); STOP; }",
        "source 1:35 wrong-kind\n",
    ),
    (
        "word *p; word a[2]; task t { DMA(a, &p, 1); STOP; }",
        "source 1:38 wrong-kind\n",
    ),
    (
        "word a[2]; task t { DMA(a, a, a); STOP; }",
        "source 1:31 wrong-kind\n",
    ),
    (
        "word *i; task t { for (i = 0; i < 2; i++) { } STOP; }",
        "source 1:24 wrong-kind\n",
    ),
    (
        "peripheral i 0; task t { for (i = 0; i < 2; i++) { IO(i, SINGLE); } STOP; }",
        "source 1:31 wrong-kind\n",
    ),
    (
        "nv word i; peripheral r 0; task t { for (i = 0; i < 2; i++) { IO(r, SINGLE); } STOP; }",
        "source 1:42 wrong-kind\n",
    ),
    (
        "word i; peripheral r 0; task t { for (i = 0; i < 2; i++) { i = IO(r, SINGLE); } STOP; }",
        "source 1:60 wrong-kind\n",
    ),
    (
        "word i; peripheral r 0; task t { for (i = 0; i < 2; i++) { IO(r, SINGLE); i = 1; } STOP; }",
        "source 1:75 wrong-kind\n",
    ),
    (
        "word i; peripheral r 0; task t { for (i = 0; i < 2; i++) { IO(r, SINGLE); for (i = 0; i < 2; i++) { } } STOP; }",
        "source 1:80 wrong-kind\n",
    ),
    (
        "word i; peripheral r 0; task t { for (i = 0; i < 0; i++) { i = IO(r, SINGLE); } STOP; }",
        "source 1:60 wrong-kind\n",
    ),
    (
        "word i; word *p; task t { for (i = 0; i < 2; i++) { p[0] = 1; } p = &i; STOP; }",
        "source 1:53 wrong-kind\n",
    ),
    (
        "word i; word *p; peripheral r 0; task t { if (1) { p = &i; } for (i = 0; i < 2; i++) { p[0] = IO(r, SINGLE); } STOP; }",
        "source 1:88 wrong-kind\n",
    ),
    (
        "word i; word j; word *p; task t { p = &i; for (i = 0; i < 2; i++) { for (j = 0; j < 2; j++) { p[0] = 1; } } STOP; }",
        "source 1:95 wrong-kind\n",
    ),
    (
        "const nv word c = 1; peripheral r 0; task t { c = IO(r, SINGLE); STOP; }",
        "source 1:47 const-written\n",
    ),
    (
        "const nv word c[1]; peripheral r 0; task t { c[0] = IO(r, SINGLE); STOP; }",
        "source 1:46 const-written\n",
    ),
    (
        "const nv word g[1] = {4}; word *p; task t { p = &g[0]; p[0] = 1; STOP; }",
        "source 1:56 const-written\n",
    ),
    (
        "const nv word g[1] = {4}; word *p; task t { p[0] = 1; p = &g[0]; STOP; }",
        "source 1:45 const-written\n",
    ),
    (
        "const nv word c = 1; word *p; task t { p[0] = 1; if (0) { p = &c; } STOP; }",
        "source 1:40 const-written\n",
    ),
    (
        "const nv word c = 1; word *p; word x; task t { p = &x; if (0) { } else { p = &c; } p[0] = 1; STOP; }",
        "source 1:84 const-written\n",
    ),
    (
        "const nv word c = 1; word *p; peripheral r 0; task t { p = &c; p[0] = IO(r, SINGLE); STOP; }",
        "source 1:64 const-written\n",
    ),
    (
        "const nv word c[2]; word b[2]; task t { DMA(c, b, 1); STOP; }",
        "source 1:45 const-written\n",
    ),
    (
        "const nv word c[2]; word b[2]; task t { DMA(&c[1], b, 1); STOP; }",
        "source 1:46 const-written\n",
    ),
    (
        "const nv word c; word b[2]; task t { DMA(&c, b, 1); STOP; }",
        "source 1:43 const-written\n",
    ),
    (
        "const nv word c[2]; word b[2]; word *p; task t { DMA(p, b, 1); p = &c[0]; STOP; }",
        "source 1:54 const-written\n",
    ),
    (
        "const nv word c[2]; word i; word *p; task t { for (i = 0; i < 0; i++) { p = &c[0]; } p[0] = 1; STOP; }",
        "source 1:86 const-written\n",
    ),
    (
        "const nv word c[2]; word *p; peripheral r 0; task t { IO_BLOCK(SINGLE) { p = &c[0]; } p[0] = 1; STOP; }",
        "source 1:87 const-written\n",
    ),
    (
        "nv word a[2]; word b[2]; task t { if (1) { DMA(a, b, 1); } STOP; }",
        "source 1:44 dma-under-if\n",
    ),
    (
        "nv word a[2]; word b[2]; task t { if (1) { } else { DMA(a, b, 1); } STOP; }",
        "source 1:53 dma-under-if\n",
    ),
    (
        "nv word a[2]; word b[2]; word i; task t { if (1) { for (i = 0; i < 2; i++) { DMA(a, b, 1); } } STOP; }",
        "source 1:78 dma-under-if\n",
    ),
    (
        "nv word a[2]; word b[2]; task t { if (1) { IO_BLOCK(SINGLE) { DMA(a, b, 1); } } STOP; }",
        "source 1:63 dma-under-if\n",
    ),
    (
        "nv word a[2]; word b[2]; task t { IO_BLOCK(SINGLE) { if (1) { DMA(a, b, 1); } } STOP; }",
        "source 1:63 dma-under-if\n",
    ),
    (
        "nv word a[2]; word b[2]; word i; task t { for (i = 0; i < 2; i++) { if (i) { DMA(a, b, 1); } } STOP; }",
        "source 1:78 dma-under-if\n",
    ),
    (
        "nv word a[2]; task t { if (1) { DMA(x, y, z); } STOP; }",
        "source 1:33 dma-under-if\n",
    ),
    (
        "peripheral r 0; task t { IO(r, SINGLE, 1, 2, 3, 4, 5); STOP; }",
        "source 1:26 too-many\n",
    ),
    (
        "peripheral r 0; word x; task t { x = IO(r, SINGLE, 1, 2, 3, 4, y); STOP; }",
        "source 1:38 too-many\n",
    ),
    (
        "peripheral r 0; peripheral q 0; task t { STOP; }",
        "source 1:28 twice-named\n",
    ),
    (
        "peripheral r 0; word r; task t { STOP; }",
        "source 1:22 twice-named\n",
    ),
    (
        "word *p; word p; task t { STOP; }",
        "source 1:15 twice-named\n",
    ),
    (
        "peripheral r 0; task r { STOP; }",
        "source 1:22 twice-named\n",
    ),
    (
        "peripheral r 256; task t { STOP; }",
        "source 1:12 limit peripheral 256\n",
    ),
    (
        "word i; peripheral r 0; task t { for (i = 0; i < 65; i++) { IO(r, SINGLE); } STOP; }",
        "source 1:50 limit turns 65\n",
    ),
    (
        "word i; peripheral r 0; task t { for (i = 0; i < 65; i++) { if (1) { IO_BLOCK(SINGLE) { } } } STOP; }",
        "source 1:50 limit turns 65\n",
    ),
    (
        "word i; word j; word k; word l; word m; peripheral r 0; task t { for (m = 0; m < 2; m++) { IO(r, SINGLE); for (i = 0; i < 2; i++) { for (j = 0; j < 2; j++) { for (k = 0; k < 2; k++) { for (l = 0; l < 2; l++) { } } } } } STOP; }",
        "source 1:185 limit loops 4\n",
    ),
    (
        "peripheral p 0; word i; task t { for (i = 0; i < 64; i++) { IO(p, SINGLE); IO(p, SINGLE); } IO(p, SINGLE); STOP; }",
        "source 1:114 limit sites 129\n",
    ),
    (
        "peripheral p 0; word i; word j; task t { for (i = 0; i < 64; i++) { for (j = 0; j < 64; j++) { IO(p, SINGLE); } } STOP; }",
        "source 1:121 limit sites 4096\n",
    ),
    (
        "word i; task t { for (i = 0; i < 43; i++) { IO_BLOCK(SINGLE) { IO_BLOCK(SINGLE) { IO_BLOCK(SINGLE) { } } } } STOP; }",
        "source 1:116 limit sites 129\n",
    ),
    (
        "nv word a[2047]; nv word x; word b[2047]; word i; task t { for (i = 0; i < 8; i++) { DMA(a, b, 1); DMA(&x, b, 1); } DMA(&x, b, 1); STOP; }",
        "source 1:138 limit kept-words 16385\n",
    ),
    (
        "nv word a[2048]; word b[2047]; word *p; word i; task t { p = &b[0]; for (i = 0; i < 9; i++) { DMA(a, p, 1); } STOP; }",
        "source 1:117 limit kept-words 18423\n",
    ),
];

#[test]
fn each_rule_and_each_limit_on_sites_and_pointers_broken_once(rt: HostRuntime) -> Result<(), Fail> {
    for (source, line) in BROKEN {
        let ran = run(rt.alloc(), &["walk", "p", "5"], source, 1_000)?;
        assert_eq!(rt; ran.status, Status::SourceRefused, "for {source:?}");
        assert_eq!(rt; ran.out.taken(), line.as_bytes(), "for {source:?}");
    }
    Ok(())
}

// Programs that are just not refused.
const MET: [&str; 12] = [
    "peripheral p 0; word i; task t { for (i = 0; i < 64; i++) { IO(p, SINGLE); IO(p, SINGLE); } STOP; }",
    "peripheral p 0; peripheral q 255; task t { IO(p, SINGLE, 1, 2, 3, 4); IO(q, ALWAYS); STOP; }",
    "nv word a[2047]; nv word x; word b[2047]; word i; task t { for (i = 0; i < 8; i++) { DMA(a, b, 1); DMA(&x, b, 1); } STOP; }",
    "nv word a[2048]; word b[2047]; word *p; word i; task t { for (i = 0; i < 64; i++) { DMA(a, p, 1); } STOP; }",
    "const nv word c[2]; word b[2]; task t { DMA(b, c, 1); STOP; }",
    "const nv word c[2]; word *p; word x; task t { p = &c[1]; x = p[0]; STOP; }",
    "const nv word c[2]; word *p; word *q; word x; task t { p = &c[0]; q = &x; q[0] = 1; STOP; } task u { p[0] = 1; STOP; }",
    "const nv word c[2]; word i; word *p; peripheral r 0; task t { for (i = 0; i < 0; i++) { p = &c[0]; IO(r, SINGLE); } p[0] = 1; STOP; }",
    "word i; word *p; task t { p = &i; for (i = 0; i < 2; i++) { } p[0] = 1; STOP; }",
    "word i; word a[2]; peripheral r 0; task t { for (i = 0; i < 2; i++) { IO(r, SINGLE); DMA(&i, a, 1); } STOP; }",
    "word i; word j; word k; word l; peripheral r 0; task t { for (l = 0; l < 64; l++) { IO(r, SINGLE); for (i = 0; i < 2; i++) { for (j = 0; j < 2; j++) { for (k = 0; k < 65535; k++) { } } } } STOP; }",
    "nv word a[2]; word b[2]; task t { IO_BLOCK(TIMELY(4294967295)) { DMA(a, b, 1); } STOP; }",
];

#[test]
fn each_limit_on_sites_and_pointers_may_be_met(rt: HostRuntime) -> Result<(), Fail> {
    for source in MET {
        let ran = run(rt.alloc(), &["walk", "p", "0"], source, 1_000)?;
        assert_eq!(rt; ran.status, Status::Ok, "for {source:?}");
        assert_eq!(rt;
            ran.out.taken(),
            b"end limit\n".as_slice(),
            "for {source:?}"
        );
    }
    Ok(())
}
