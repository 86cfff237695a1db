//! Values from outside: digits, faults by the number of the call, room, limits, and files of the system.
use ease_base::{
    Boxed, Cabinet, Failed, FetchError, FileCabinet, MemCabinet, MemSink, StdoutSink, Text, Words,
    digits, put_number, send_all,
};
use std::fmt::Display;
use std::io;
use std::test::Fail;

/// A standard output that nobody reads.
#[derive(Drop)]
struct Closed;

impl Print for Closed {
    fn print<D: Display + Drop>(&self, _value: D) -> io::Result<()> {
        Err(io::ErrorKind::BrokenPipe.into())
    }

    fn println<D: Display + Drop>(&self, _value: D) -> io::Result<()> {
        Err(io::ErrorKind::BrokenPipe.into())
    }

    fn write_all(&self, _bytes: &[u8]) -> io::Result<()> {
        Err(io::ErrorKind::BrokenPipe.into())
    }
}

#[test]
fn digits_stand_at_the_front(rt: HostRuntime) {
    let table = [
        (0, "0"),
        (9, "9"),
        (10, "10"),
        (4294967295, "4294967295"),
        (18446744073709551615, "18446744073709551615"),
    ];
    for (n, want) in table {
        let mut into = [b'.'; 20];
        let count = digits(n, &mut into);
        assert_eq!(rt; &into[..count], want.as_bytes(), "at {n}");
    }
}

#[test]
fn lists_and_boxes_give_back_what_was_put(rt: HostRuntime) -> Result<(), Fail> {
    let mut words = Words::from_vec(vec![in rt.alloc(); 7, 8]?);
    words.push(9)?;
    assert_eq!(rt; words.as_slice(), [7, 8, 9].as_slice());
    assert_eq!(rt; words.get(2).copied(), Some(9));
    assert_eq!(rt; words.get(3).copied(), None);
    let boxed = Boxed::new(rt.alloc(), 7)?;
    assert_eq!(rt; *boxed.get(), 7);
    assert_eq!(rt; boxed.into_inner(), 7);
    Ok(())
}

#[test]
fn numbers_go_behind_a_text(rt: HostRuntime) -> Result<(), Fail> {
    let mut text = Text::from_slice(rt.alloc(), b"x = ")?;
    put_number(&mut text, 4294967295)?;
    text.extend(b" ")?;
    put_number(&mut text, 0)?;
    assert_eq!(rt; text.as_slice(), b"x = 4294967295 0".as_slice());
    Ok(())
}

#[test]
fn a_full_sink_fails(rt: HostRuntime) -> Result<(), Fail> {
    let mut sink = MemSink::make(rt.alloc(), 5, Words::new(rt.alloc()))?;
    assert_eq!(rt; send_all(&mut sink, b"0 boot "), Err(Failed));
    assert_eq!(rt; sink.taken(), b"0 boo".as_slice());
    assert_eq!(rt; sink.faults(), 1);
    Ok(())
}

#[test]
fn a_sink_fails_at_its_second_call(rt: HostRuntime) -> Result<(), Fail> {
    let fails = Words::from_slice(rt.alloc(), &[2])?;
    let mut sink = MemSink::make(rt.alloc(), 9, fails)?;
    assert_eq!(rt; send_all(&mut sink, b"ab"), Ok(()));
    assert_eq!(rt; send_all(&mut sink, b"cd"), Err(Failed));
    assert_eq!(rt; send_all(&mut sink, b"ef"), Ok(()));
    assert_eq!(rt; sink.taken(), b"abef".as_slice());
    assert_eq!(rt; sink.faults(), 1);
    Ok(())
}

#[test]
fn a_cabinet_answers_by_name_limit_and_call(rt: HostRuntime) -> Result<(), Fail> {
    let fails = Words::from_slice(rt.alloc(), &[3])?;
    let mut files = MemCabinet::make(rt.alloc(), fails);
    files.put("p", b"12345")?;
    let table = [
        ("q", 9u16, Err(FetchError::Failed), "", 0, 0),
        ("p", 5, Ok(()), "12345", 0, 0),
        ("p", 5, Err(FetchError::Failed), "", 1, 0),
        ("p", 4, Err(FetchError::TooLong), "12345", 1, 1),
        ("p", 3, Err(FetchError::TooLong), "1234", 1, 2),
        ("p", 9, Ok(()), "12345", 1, 2),
    ];
    for (name, limit, answer, bytes, faults, long_contents) in table {
        let mut into = Vec::new(rt.alloc());
        assert_eq!(rt;
            files.fetch(rt.alloc(), name, usize::from(limit), &mut into),
            answer
        );
        assert_eq!(rt; into.as_slice(), bytes.as_bytes());
        assert_eq!(rt; files.faults(), faults);
        assert_eq!(rt; files.long_contents(), long_contents);
    }
    Ok(())
}

#[test]
fn files_of_the_system_come_in_pieces(rt: HostRuntime) {
    let mut files = FileCabinet::make(&rt);
    let table = [
        ("/dev/null", 0u16, Ok(()), 0),
        ("/dev/zero", 0, Err(FetchError::TooLong), 1),
        ("/dev/zero", 10000, Err(FetchError::TooLong), 10001),
        ("", 9, Err(FetchError::Failed), 0),
        ("/", 9, Err(FetchError::Failed), 0),
        ("/no/such/file", 9, Err(FetchError::Failed), 0),
    ];
    for (name, limit, answer, count) in table {
        let mut into = Vec::new(rt.alloc());
        assert_eq!(rt;
            files.fetch(rt.alloc(), name, usize::from(limit), &mut into),
            answer,
            "at {name}"
        );
        assert_eq!(rt; into.len(), count);
    }
}

#[test]
fn output_goes_to_the_system(rt: HostRuntime) {
    let mut out = StdoutSink::make(&rt);
    assert_eq!(rt; send_all(&mut out, b"done\n"), Ok(()));
    let mut closed = StdoutSink::make(Closed);
    assert_eq!(rt; send_all(&mut closed, b"done\n"), Err(Failed));
}
