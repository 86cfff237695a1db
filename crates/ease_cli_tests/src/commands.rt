//! Commands from words and files in memory to what they write.
use ease_base::{MemCabinet, MemSink, NoMemory, Words};
use ease_cli::{Status, ease};
use std::alloc::{AllocError, Global};
use std::test::Fail;

const COUNTER: &str = "nv word x = 4294967295; task a { x = x + 1; STOP; }";

const COUNTER_TEXT: &str = "commit 0\nx = 0\nend stopped\n";

// What a run of `ease` left.
#[derive(Drop)]
pub struct Ran {
    pub status: Status,
    pub out: MemSink,
}

// The words as `ease` takes them.
fn words(alloc: Global, words: &[&str]) -> Result<Vec<String>, AllocError> {
    let mut all = Vec::new(alloc);
    for word in words {
        all.push(String::from_str(alloc, word)?)?;
    }
    Ok(all)
}

// The numbers of the calls that fail.
pub fn calls(alloc: Global, numbers: &[u32]) -> Result<Words, NoMemory> {
    Words::from_slice(alloc, numbers)
}

// Runs `ease` on a cabinet with the one file `p`, and a sink with room for so many bytes.
pub fn run(alloc: Global, line: &[&str], source: &str, room: usize) -> Result<Ran, NoMemory> {
    run_bytes(alloc, line, source.as_bytes(), room)
}

// The same of a source that is bytes.
pub fn run_bytes(
    alloc: Global,
    line: &[&str],
    source: &[u8],
    room: usize,
) -> Result<Ran, NoMemory> {
    let mut files = MemCabinet::make(alloc, Words::new(alloc));
    files.put("p", source)?;
    let mut out = MemSink::make(alloc, room, Words::new(alloc))?;
    let words = words(alloc, line)?;
    let status = ease(alloc, words.as_slice(), &mut files, &mut out);
    Ok(Ran { status, out })
}

// The same of two files, `p` and `w`; the fetches of these numbers fail.
pub fn run_pair(
    alloc: Global,
    line: &[&str],
    first: &[u8],
    world: &[u8],
    fails: &[u32],
) -> Result<Ran, NoMemory> {
    let out = MemSink::make(alloc, 1_000, Words::new(alloc))?;
    run_into(alloc, line, (first, world), fails, out)
}

// The same of the files `p` and `w`, into this sink.
pub fn run_into(
    alloc: Global,
    line: &[&str],
    contents: (&[u8], &[u8]),
    fails: &[u32],
    out: MemSink,
) -> Result<Ran, NoMemory> {
    run_three(alloc, line, (contents.0, contents.1, &[]), fails, out)
}

// The same of the files `p`, `w` and `s`.
pub fn run_three(
    alloc: Global,
    line: &[&str],
    contents: (&[u8], &[u8], &[u8]),
    fails: &[u32],
    mut out: MemSink,
) -> Result<Ran, NoMemory> {
    let mut files = MemCabinet::make(alloc, calls(alloc, fails)?);
    files.put("p", contents.0)?;
    files.put("w", contents.1)?;
    files.put("s", contents.2)?;
    let words = words(alloc, line)?;
    let status = ease(alloc, words.as_slice(), &mut files, &mut out);
    Ok(Ran { status, out })
}

#[test]
fn walk_writes_the_states_of_the_unbroken_run(rt: HostRuntime) -> Result<(), Fail> {
    let relay =
        "nv word n = 0x0a; /* two */ nv word m; task a { n = n + (n + 1); NEXT(b); } task b { m = n; NEXT(a); } // end";
    let cases = [
        (COUNTER, "5", COUNTER_TEXT),
        (COUNTER, "0", "end limit\n"),
        (
            relay,
            "2",
            "commit 2\nn = 21\nm = 0\ncommit 1\nn = 21\nm = 21\nend limit\n",
        ),
    ];
    for (source, tasks, text) in cases {
        let ran = run(rt.alloc(), &["walk", "p", tasks], source, 1_000)?;
        assert_eq!(rt; ran.status, Status::Ok, "for {source:?}");
        assert_eq!(rt; ran.out.taken(), text.as_bytes(), "for {source:?}");
    }
    Ok(())
}

#[test]
fn a_trap_ends_the_run_after_the_states_before_it(rt: HostRuntime) -> Result<(), Fail> {
    let indexing =
        "nv word a[2] = {1, 2}; nv word i; task t { i = 2; NEXT(u); } task u { a[i] = 9; STOP; }";
    let cases = [
        (
            indexing,
            "5",
            Status::Trapped,
            "commit 2\na = 1 2\ni = 2\nend trapped 1\n",
        ),
        (
            indexing,
            "1",
            Status::Ok,
            "commit 2\na = 1 2\ni = 2\nend limit\n",
        ),
        (
            "nv word x; task t { x = 1 / x; STOP; }",
            "5",
            Status::Trapped,
            "end trapped 2\n",
        ),
        (
            "nv word x = 7; task t { x = x % 0; STOP; }",
            "5",
            Status::Trapped,
            "end trapped 2\n",
        ),
        (
            "nv word a[1]; task t { if (a[1]) STOP; else STOP; }",
            "5",
            Status::Trapped,
            "end trapped 1\n",
        ),
        (
            "nv word a[1]; task t { a[1] = 1 / 0; STOP; }",
            "5",
            Status::Trapped,
            "end trapped 1\n",
        ),
        (
            "nv word x = 3; task t { x = (0 && 1 / 0) + (2 || 1 / 0); STOP; }",
            "5",
            Status::Ok,
            "commit 0\nx = 1\nend stopped\n",
        ),
    ];
    for (source, tasks, status, text) in cases {
        let ran = run(rt.alloc(), &["walk", "p", tasks], source, 1_000)?;
        assert_eq!(rt; ran.status, status, "for {source:?}");
        assert_eq!(rt; ran.out.taken(), text.as_bytes(), "for {source:?}");
    }
    Ok(())
}

#[test]
fn statements_do_what_they_say(rt: HostRuntime) -> Result<(), Fail> {
    let cases = [
        (
            "nv word s; word i; task t { for (i = 0; i < 5; i++) { s = s + i; } s = s * 10 + i; STOP; }",
            "commit 0\ns = 105\nend stopped\n",
        ),
        (
            "nv word s = 1; word i = 9; task t { for (i = 0; i < 0; i++) { s = 7; } s = s + i; STOP; }",
            "commit 0\ns = 1\nend stopped\n",
        ),
        (
            "nv word s; word i; task t { for (i = 0; i < 1; i++) { s = s + 1; } s = s + i; STOP; }",
            "commit 0\ns = 2\nend stopped\n",
        ),
        (
            "nv word n; word v = 4; task a { v = v + 1; n = n + v; if (n < 10) NEXT(a); else STOP; }",
            "commit 1\nn = 5\ncommit 0\nn = 10\nend stopped\n",
        ),
        (
            "nv word a[3] = {5, 6}; const nv word c = 2; nv word x; task t { if (a[c]) { x = 1; } else { a[c] = a[0] - a[1]; } STOP; }",
            "commit 0\na = 5 6 4294967295\nx = 0\nend stopped\n",
        ),
        (
            "nv word r[8]; task t { r[0] = 1 << 31; r[1] = 1 << 32; r[2] = 4294967295 >> 31; r[3] = 1 >> 32; r[4] = -1; r[5] = ~0; r[6] = !7; r[7] = 7 - 2 - 1; STOP; }",
            "commit 0\nr = 2147483648 0 1 0 4294967295 4294967295 0 4\nend stopped\n",
        ),
        (
            "nv word r[4]; task t { r[0] = 1 + 2 * 3; r[1] = 1 << 1 + 1; r[2] = 6 & 3 == 3; r[3] = 1 | 2 ^ 3 & 4; STOP; }",
            "commit 0\nr = 7 4 0 3\nend stopped\n",
        ),
    ];
    for (source, text) in cases {
        let ran = run(rt.alloc(), &["walk", "p", "5"], source, 1_000)?;
        assert_eq!(rt; ran.status, Status::Ok, "for {source:?}");
        assert_eq!(rt; ran.out.taken(), text.as_bytes(), "for {source:?}");
    }
    Ok(())
}

#[test]
fn words_that_are_no_command_are_answered_by_usage(rt: HostRuntime) -> Result<(), Fail> {
    let cases: [&[&str]; 20] = [
        &[],
        &["walk"],
        &["walk", "p"],
        &["walk", "p", "5", "w", "x"],
        &["walk", "--brief", "p", "5"],
        &["walk", "p", "5", "--scheme", "undo"],
        &["--help"],
        &["--version"],
        &["run", "p"],
        &["run", "p", "w", "--brief", "--brief"],
        &["run", "p", "w", "--brief=true"],
        &["walk", "p", "01"],
        &["walk", "p", "+5"],
        &["walk", "p", ""],
        &["walk", "p", "1001"],
        &["walk", "p", "99999999999"],
        &["walk", "-p", "5"],
        &["run", "p", "w", "x"],
        &["debug", "p", "w"],
        &["debug", "p", "w", "s", "--brief"],
    ];
    for line in cases {
        let ran = run(rt.alloc(), line, COUNTER, 1_000)?;
        assert_eq!(rt; ran.status, Status::Usage, "for {line:?}");
        assert_eq!(rt; ran.out.taken(), b"usage\n".as_slice(), "for {line:?}");
    }
    Ok(())
}

#[test]
fn a_sink_without_room_has_a_front_of_the_output(rt: HostRuntime) -> Result<(), Fail> {
    for room in 0..COUNTER_TEXT.len() {
        let ran = run(rt.alloc(), &["walk", "p", "5"], COUNTER, room)?;
        assert_eq!(rt; ran.status, Status::WriteFault, "for {room}");
        let (front, _) = COUNTER_TEXT.as_bytes().split_at(room);
        assert_eq!(rt; ran.out.taken(), front, "for {room}");
    }
    Ok(())
}

#[test]
fn a_failed_write_leaves_what_was_taken_before(rt: HostRuntime) -> Result<(), Fail> {
    let alloc = rt.alloc();
    let cases: [(&[u32], Status, &str); 2] = [
        (&[1], Status::WriteFault, ""),
        (&[2], Status::Ok, COUNTER_TEXT),
    ];
    for (fails, status, text) in cases {
        let mut files = MemCabinet::make(alloc, Words::new(alloc));
        files.put("p", COUNTER.as_bytes())?;
        let mut out = MemSink::make(alloc, 100, calls(alloc, fails)?)?;
        let line = words(alloc, &["walk", "p", "5"])?;
        let answer = ease(alloc, line.as_slice(), &mut files, &mut out);
        assert_eq!(rt; answer, status, "for {fails:?}");
        assert_eq!(rt; out.taken(), text.as_bytes(), "for {fails:?}");
    }
    Ok(())
}

#[test]
fn a_file_that_is_absent_or_fails_or_is_too_long_has_its_line(rt: HostRuntime) -> Result<(), Fail> {
    let alloc = rt.alloc();
    let long = vec![in alloc; b' '; 65_537]?;
    let cases: [(&str, &[u32], Status, &str); 3] = [
        ("absent", &[], Status::ReadFault, "read fault\n"),
        ("long", &[1], Status::ReadFault, "read fault\n"),
        ("long", &[], Status::TooLong, "too long\n"),
    ];
    for (name, fails, status, line) in cases {
        let mut files = MemCabinet::make(alloc, calls(alloc, fails)?);
        files.put("long", long.as_slice())?;
        let mut out = MemSink::make(alloc, 100, Words::new(alloc))?;
        let line_words = words(alloc, &["walk", name, "5"])?;
        let answer = ease(alloc, line_words.as_slice(), &mut files, &mut out);
        assert_eq!(rt; answer, status, "for {name}");
        assert_eq!(rt; out.taken(), line.as_bytes(), "for {name}");
    }
    Ok(())
}
