//! Sources that are refused, each with the line of its first fault, and sources that just aren't.
use crate::commands::run;
use ease_cli::Status;
use std::test::Fail;

#[test]
fn a_refused_source_writes_the_line_of_its_first_fault(rt: HostRuntime) -> Result<(), Fail> {
    let cases = [
        ("", "source syntax at 1:1\n"),
        ("task t { x = 1; STOP; }", "source 1:10 unknown-name\n"),
        (
            "nv word x = 4294967296; task t { STOP; }",
            "source 1:13 number-too-wide\n",
        ),
        (
            "nv word x; nv word x; task t { STOP; }",
            "source 1:20 twice-named\n",
        ),
        ("nv word t; task t { STOP; }", "source 1:17 twice-named\n"),
        ("task t { NEXT(u); }", "source 1:15 unknown-name\n"),
        ("nv word x; task t { NEXT(x); }", "source 1:26 wrong-kind\n"),
        ("task t { t = 1; STOP; }", "source 1:10 wrong-kind\n"),
        (
            "nv word x; task t { x = t; STOP; }",
            "source 1:25 wrong-kind\n",
        ),
        (
            "nv word x; task t { x = 1 + y; NEXT(z); }",
            "source 1:29 unknown-name\n",
        ),
        (
            "nv word x;\r\ntask t {\r\n\ty = x;\r\n\tSTOP; }",
            "source 3:2 unknown-name\n",
        ),
        (
            "nv word x @ 4294967296; task t { STOP; }",
            "source syntax at 1:11\n",
        ),
        ("task t { STOP; } /* open", "source syntax at 1:18\n"),
        (
            "nv word x = 01; task t { STOP; }",
            "source syntax at 1:13\n",
        ),
        ("nv word \u{e9}; task t { STOP; }", "source syntax at 1:9\n"),
        ("nv word x;", "source syntax at 1:11\n"),
    ];
    for (source, line) in cases {
        let ran = run(rt.alloc(), &["walk", "p", "5"], source, 1_000)?;
        assert_eq!(rt; ran.status, Status::SourceRefused, "for {source:?}");
        assert_eq!(rt; ran.out.taken(), line.as_bytes(), "for {source:?}");
    }
    Ok(())
}

// Each rule and each limit, with the line of its fault.
const BROKEN: [(&str, &str); 62] = [
    ("task t { y = 1; STOP; }", "source 1:10 unknown-name\n"),
    (
        "nv word x; task t { x = y; STOP; }",
        "source 1:25 unknown-name\n",
    ),
    (
        "nv word x; task t { x = 1 + (y * 2); STOP; }",
        "source 1:30 unknown-name\n",
    ),
    (
        "nv word x; task t { x = a[x]; STOP; }",
        "source 1:25 unknown-name\n",
    ),
    (
        "nv word x; task t { a[x] = 1; STOP; }",
        "source 1:21 unknown-name\n",
    ),
    (
        "nv word a[2]; task t { a[y] = 1; STOP; }",
        "source 1:26 unknown-name\n",
    ),
    ("task t { if (y) { } STOP; }", "source 1:14 unknown-name\n"),
    (
        "nv word x; task t { if (x) { } else { y = 1; } STOP; }",
        "source 1:39 unknown-name\n",
    ),
    (
        "task t { for (i = 0; i < 2; i++) { } STOP; }",
        "source 1:15 unknown-name\n",
    ),
    ("task t { NEXT(u); }", "source 1:15 unknown-name\n"),
    (
        "nv word x; task t { if (y) STOP; else STOP; }",
        "source 1:25 unknown-name\n",
    ),
    (
        "nv word x; task t { if (x) STOP; else NEXT(u); }",
        "source 1:44 unknown-name\n",
    ),
    (
        "nv word x; word x; task t { STOP; }",
        "source 1:17 twice-named\n",
    ),
    (
        "nv word x[2]; const nv word x; task t { STOP; }",
        "source 1:29 twice-named\n",
    ),
    ("nv word t; task t { STOP; }", "source 1:17 twice-named\n"),
    (
        "task t { STOP; } task t { STOP; }",
        "source 1:23 twice-named\n",
    ),
    (
        "nv word t; task t { t = t; NEXT(t); }",
        "source 1:17 twice-named\n",
    ),
    (
        "task a { y = 1; STOP; } task a { STOP; }",
        "source 1:10 unknown-name\n",
    ),
    (
        "nv word a[2]; nv word x; task t { x = a; STOP; }",
        "source 1:39 wrong-kind\n",
    ),
    (
        "nv word x; task t { x = t; STOP; }",
        "source 1:25 wrong-kind\n",
    ),
    (
        "nv word a[2]; task t { a = 1; STOP; }",
        "source 1:24 wrong-kind\n",
    ),
    ("task t { t = 1; STOP; }", "source 1:10 wrong-kind\n"),
    (
        "nv word x; task t { x = x[0]; STOP; }",
        "source 1:25 wrong-kind\n",
    ),
    (
        "nv word x; task t { x[0] = 1; STOP; }",
        "source 1:21 wrong-kind\n",
    ),
    (
        "nv word x; task t { t[0] = 1; STOP; }",
        "source 1:21 wrong-kind\n",
    ),
    ("nv word x; task t { NEXT(x); }", "source 1:26 wrong-kind\n"),
    (
        "nv word a[2]; task t { NEXT(a); }",
        "source 1:29 wrong-kind\n",
    ),
    (
        "nv word i; task t { for (i = 0; i < 2; i++) { } STOP; }",
        "source 1:26 wrong-kind\n",
    ),
    (
        "const nv word i; task t { for (i = 0; i < 2; i++) { } STOP; }",
        "source 1:32 wrong-kind\n",
    ),
    (
        "word i[1]; task t { for (i = 0; i < 2; i++) { } STOP; }",
        "source 1:26 wrong-kind\n",
    ),
    (
        "task t { for (t = 0; t < 2; t++) { } STOP; }",
        "source 1:15 wrong-kind\n",
    ),
    (
        "word i; task t { for (i = 0; i < 2; i++) { i = 1; } STOP; }",
        "source 1:44 wrong-kind\n",
    ),
    (
        "word i; task t { for (i = 0; i < 2; i++) { if (i) { i = 1; } } STOP; }",
        "source 1:53 wrong-kind\n",
    ),
    (
        "word i; task t { for (i = 0; i < 2; i++) { for (i = 0; i < 2; i++) { } } STOP; }",
        "source 1:49 wrong-kind\n",
    ),
    (
        "word i; word j; task t { for (i = 0; i < 2; i++) { for (j = 0; j < 2; j++) { i = 1; } } STOP; }",
        "source 1:78 wrong-kind\n",
    ),
    (
        "const nv word c = 1; task t { c = 2; STOP; }",
        "source 1:31 const-written\n",
    ),
    (
        "const nv word c[2]; task t { c[0] = 2; STOP; }",
        "source 1:30 const-written\n",
    ),
    (
        "const nv word c[2]; task t { c = 2; STOP; }",
        "source 1:30 wrong-kind\n",
    ),
    (
        "const nv word c; task t { c[0] = 2; STOP; }",
        "source 1:27 wrong-kind\n",
    ),
    (
        "const nv word c; task t { c = y; STOP; }",
        "source 1:27 const-written\n",
    ),
    (
        "const nv word c[2]; task t { c[y] = z; STOP; }",
        "source 1:30 const-written\n",
    ),
    (
        "nv word x = {1, 2}; task t { STOP; }",
        "source 1:9 too-many\n",
    ),
    (
        "word a[2] = {1, 2, 3}; task t { STOP; }",
        "source 1:6 too-many\n",
    ),
    (
        "nv word x[0] = 1; task t { STOP; }",
        "source 1:9 too-many\n",
    ),
    (
        "nv word x; nv word x = {1, 2}; task t { STOP; }",
        "source 1:20 twice-named\n",
    ),
    (
        "nv word a[0]; task t { STOP; }",
        "source 1:9 limit length 0\n",
    ),
    ("word a[0]; task t { STOP; }", "source 1:6 limit length 0\n"),
    (
        "nv word a[2049]; task t { STOP; }",
        "source 1:9 limit nv-words 2049\n",
    ),
    (
        "nv word a[2000]; const nv word c[49]; task t { STOP; }",
        "source 1:32 limit nv-words 2049\n",
    ),
    (
        "nv word a[2048]; word b[2048]; nv word x; task t { STOP; }",
        "source 1:40 limit nv-words 2049\n",
    ),
    (
        "nv word a[2047]; nv word b[4294967295]; task t { STOP; }",
        "source 1:26 limit nv-words 4294969342\n",
    ),
    (
        "word a[2049]; task t { STOP; }",
        "source 1:6 limit vol-words 2049\n",
    ),
    (
        "word a[2048]; nv word b[2048]; word v; task t { STOP; }",
        "source 1:37 limit vol-words 2049\n",
    ),
    (
        "nv word nnnnnnnnnnnnnnnnnnnnnnnnnnnnnnnnn; task t { STOP; }",
        "source 1:9 limit name-bytes 33\n",
    ),
    (
        "task nnnnnnnnnnnnnnnnnnnnnnnnnnnnnnnnn { STOP; }",
        "source 1:6 limit name-bytes 33\n",
    ),
    (
        "nv word nnnnnnnnnnnnnnnnnnnnnnnnnnnnnnnnn[0]; task t { STOP; }",
        "source 1:9 limit length 0\n",
    ),
    (
        "nv word nnnnnnnnnnnnnnnnnnnnnnnnnnnnnnnnn[2049]; task t { STOP; }",
        "source 1:9 limit nv-words 2049\n",
    ),
    (
        "word i; task t { for (i = 0; i < 65536; i++) { } STOP; }",
        "source 1:34 limit turns 65536\n",
    ),
    (
        "word i; task t { for (i = 0; i < 65536; i++) { i = 1; } STOP; }",
        "source 1:34 limit turns 65536\n",
    ),
    (
        "nv word i; task t { for (i = 0; i < 65536; i++) { } STOP; }",
        "source 1:26 wrong-kind\n",
    ),
    (
        "word i; word j; word k; word l; task t { for (i = 0; i < 2; i++) { for (j = 0; j < 2; j++) { for (k = 0; k < 2; k++) { for (l = 0; l < 2; l++) { } } } } STOP; }",
        "source 1:120 limit loops 4\n",
    ),
    (
        "word i; word j; word k; task t { for (i = 0; i < 2; i++) { for (j = 0; j < 2; j++) { for (k = 0; k < 2; k++) { for (i = 0; i < 65536; i++) { } } } } STOP; }",
        "source 1:112 limit loops 4\n",
    ),
];

#[test]
fn each_rule_and_each_limit_broken_once(rt: HostRuntime) -> Result<(), Fail> {
    for (source, line) in BROKEN {
        let ran = run(rt.alloc(), &["walk", "p", "5"], source, 1_000)?;
        assert_eq!(rt; ran.status, Status::SourceRefused, "for {source:?}");
        assert_eq!(rt; ran.out.taken(), line.as_bytes(), "for {source:?}");
    }
    Ok(())
}

// Programs that are just not refused.
const MET: [&str; 16] = [
    "task t { NEXT(u); } task u { STOP; }",
    "nv word a[1]; nv word x; task t { x = a[0]; STOP; }",
    "word i; task t { for (i = 0; i < 2; i++) { } STOP; }",
    "word i; word j; task t { for (i = 0; i < 2; i++) { j = i; } i = 5; for (i = 0; i < 2; i++) { } STOP; }",
    "const nv word c = 1; nv word x; task t { x = c; STOP; }",
    "nv word x = {1}; task t { STOP; }",
    "word a[2] = {1, 2}; task t { STOP; }",
    "nv word a[1]; task t { STOP; }",
    "nv word a[2048]; task t { STOP; }",
    "nv word a[2000]; const nv word c[48]; word v[2048]; task t { STOP; }",
    "word a[2048]; task t { STOP; }",
    "nv word nnnnnnnnnnnnnnnnnnnnnnnnnnnnnnnn; task t { STOP; }",
    "task nnnnnnnnnnnnnnnnnnnnnnnnnnnnnnnn { STOP; }",
    "word i; task t { for (i = 0; i < 0; i++) { } STOP; }",
    "word i; task t { for (i = 0; i < 65535; i++) { } STOP; }",
    "word i; word j; word k; task t { for (i = 0; i < 2; i++) { for (j = 0; j < 2; j++) { for (k = 0; k < 2; k++) { } } } STOP; }",
];

#[test]
fn each_limit_may_be_met(rt: HostRuntime) -> Result<(), Fail> {
    for source in MET {
        let ran = run(rt.alloc(), &["walk", "p", "0"], source, 1_000)?;
        assert_eq!(rt; ran.status, Status::Ok, "for {source:?}");
        assert_eq!(rt;
            ran.out.taken(),
            b"end limit\n".as_slice(),
            "for {source:?}"
        );
    }
    Ok(())
}
