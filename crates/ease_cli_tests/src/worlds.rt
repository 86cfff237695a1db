//! Worlds through `walk`: the readings that they retain, each refusal of a world by one change, and fetches that fail.
use crate::commands::{Ran, run, run_pair};
use ease_cli::Status;
use std::test::Fail;

const RADIO: &str =
    "peripheral radio 0; nv word n = 7; word v; task a { v = IO(radio, SINGLE, n); n = n + v; STOP; }";

/// A world, and the status and the text of a walk of at most five tasks on it.
type Case = (&'static str, Status, &'static str);

const WALKED: [Case; 9] = [
    (
        "retained = [1]",
        Status::Ok,
        "commit 0\nn = 8\nend stopped\n",
    ),
    ("retained = []", Status::Ok, "end reading\n"),
    ("", Status::Ok, "end reading\n"),
    (
        "retained = [25, 26]\n[[power]]\non = 100\noff = 50\nfill = 0\n[readings]\nradio = [20, 21]\n",
        Status::Ok,
        "commit 0\nn = 32\nend stopped\n",
    ),
    (
        "retained = [4294967295]",
        Status::Ok,
        "commit 0\nn = 6\nend stopped\n",
    ),
    (
        "retained = [0x1F]",
        Status::Ok,
        "commit 0\nn = 38\nend stopped\n",
    ),
    (
        "power = [{ on = 1 }, { on = 4194303 }]\n",
        Status::Ok,
        "end reading\n",
    ),
    (
        "power = [{ on = 1, off = 4294967294 }]\n",
        Status::Ok,
        "end reading\n",
    ),
    ("[readings]\nradio = []\n", Status::Ok, "end reading\n"),
];

const REFUSED: [Case; 16] = [
    (
        "retained = [25, 26\n",
        Status::WorldRefused,
        "world not-toml\n",
    ),
    (
        "retained = [1]\nretained = [1]\n",
        Status::WorldRefused,
        "world not-toml\n",
    ),
    (
        "retained = [9223372036854775808]\n",
        Status::WorldRefused,
        "world not-toml\n",
    ),
    ("retain = [1]\n", Status::WorldRefused, "world bad-key\n"),
    (
        "[[power]]\noff = 50\n",
        Status::WorldRefused,
        "world bad-key\n",
    ),
    (
        "power = [{ on = true }, { off = 1 }]\n",
        Status::WorldRefused,
        "world bad-key\n",
    ),
    (
        "[[power]]\non = 100\nof = 50\n",
        Status::WorldRefused,
        "world bad-key\n",
    ),
    (
        "[[power]]\non = true\n",
        Status::WorldRefused,
        "world bad-value\n",
    ),
    (
        "retained = [-1]\n",
        Status::WorldRefused,
        "world bad-value\n",
    ),
    (
        "retained = [4294967296]\n",
        Status::WorldRefused,
        "world bad-value\n",
    ),
    ("retained = 1\n", Status::WorldRefused, "world bad-value\n"),
    (
        "retained = [1.0]\n",
        Status::WorldRefused,
        "world bad-value\n",
    ),
    (
        "[readings]\ntemp = [20, 21]\n",
        Status::WorldRefused,
        "world unknown-peripheral\n",
    ),
    (
        "[[power]]\non = 4194305\n",
        Status::WorldRefused,
        "world too-many-steps 4194305\n",
    ),
    (
        "[[power]]\non = 1\noff = 4294967295\n",
        Status::WorldRefused,
        "world too-many-ticks 4294967296\n",
    ),
    (
        "power = [{ on = 4194304, off = 4294967295 }, { on = 1 }]\n",
        Status::WorldRefused,
        "world too-many-steps 4194305\n",
    ),
];

const LINE: [&str; 4] = ["walk", "p", "5", "w"];

#[test]
fn walk_is_fed_what_the_world_retains(rt: HostRuntime) -> Result<(), Fail> {
    for (world, status, text) in WALKED {
        let ran = run_pair(rt.alloc(), &LINE, RADIO.as_bytes(), world.as_bytes(), &[])?;
        assert_eq!(rt; ran.status, status, "for {world:?}");
        assert_eq!(rt; ran.out.taken(), text.as_bytes(), "for {world:?}");
    }
    Ok(())
}

#[test]
fn a_refused_world_writes_the_line_of_its_first_fault(rt: HostRuntime) -> Result<(), Fail> {
    for (world, status, text) in REFUSED {
        let ran = run_pair(rt.alloc(), &LINE, RADIO.as_bytes(), world.as_bytes(), &[])?;
        assert_eq!(rt; ran.status, status, "for {world:?}");
        assert_eq!(rt; ran.out.taken(), text.as_bytes(), "for {world:?}");
    }
    Ok(())
}

#[test]
fn files_are_fetched_and_refused_in_the_order_of_the_words(rt: HostRuntime) -> Result<(), Fail> {
    let cases: [(&str, &[u8], &[u32], Status, &str); 6] = [
        (RADIO, b"", &[1], Status::ReadFault, "read fault\n"),
        (RADIO, b"", &[2], Status::ReadFault, "read fault\n"),
        (
            RADIO,
            b"\xff",
            &[3],
            Status::WorldRefused,
            "world not-toml\n",
        ),
        (
            "task",
            b"",
            &[2],
            Status::SourceRefused,
            "source syntax at 1:5\n",
        ),
        (
            "task t { x = 1; STOP; }",
            b"]",
            &[],
            Status::SourceRefused,
            "source 1:10 unknown-name\n",
        ),
        (
            "task t { x = 1; STOP; }",
            b"]",
            &[1],
            Status::ReadFault,
            "read fault\n",
        ),
    ];
    for (source, world, fails, status, text) in cases {
        let ran = run_pair(rt.alloc(), &LINE, source.as_bytes(), world, fails)?;
        assert_eq!(rt; ran.status, status, "for {source:?} {fails:?}");
        assert_eq!(rt;
            ran.out.taken(),
            text.as_bytes(),
            "for {source:?} {fails:?}"
        );
    }
    Ok(())
}

#[test]
fn a_world_that_is_absent_or_too_long_has_its_line(rt: HostRuntime) -> Result<(), Fail> {
    let alloc = rt.alloc();
    let ran = run(alloc, &["walk", "p", "5", "absent"], RADIO, 100)?;
    assert_eq!(rt; ran.status, Status::ReadFault);
    assert_eq!(rt; ran.out.taken(), b"read fault\n".as_slice());
    let met = vec![in alloc; b' '; 1_048_576]?;
    let ran = run_pair(alloc, &LINE, RADIO.as_bytes(), met.as_slice(), &[])?;
    assert_eq!(rt; ran.status, Status::Ok);
    let long = vec![in alloc; b' '; 1_048_577]?;
    let Ran { status, out } = run_pair(alloc, &LINE, RADIO.as_bytes(), long.as_slice(), &[])?;
    assert_eq!(rt; status, Status::TooLong);
    assert_eq!(rt; out.taken(), b"too long\n".as_slice());
    Ok(())
}
