//! What world files tell: their worlds, or the first test that they fail.
use crate::bed::told;
use std::test::Fail;

/// A file, and what it tells. The last ones are of a random model of world files.
static FILES: [(&str, &str); 68] = [
    (
        "retained = [+5, 0x1F, 0o17, 0b101, 1_000, -0, +0]",
        "retained 5 31 15 5 1000 0 0",
    ),
    ("# nothing\r\n", "retained"),
    ("power = []\nretained = []\n[readings]\n", "retained"),
    ("[[power]]\non = 0", "row 0 0 0;retained"),
    ("power = [{ on = 1 }, 2]", "bad-value"),
    ("power = [true, { off = 1 }]", "bad-key"),
    ("power = [[{ on = 1 }]]", "bad-value"),
    ("power = [{ on = 1, off = 2.5 }, { off = 1 }]", "bad-key"),
    ("[[power]]\non = 1\n[power.more]\nx = 1", "bad-key"),
    ("[readings.temp]\nx = [1]", "bad-value"),
    ("[readings]\nhum = [true]", "bad-value"),
    (
        "[readings]\nhum = []\n[[power]]\non = 4294967295",
        "unknown-peripheral",
    ),
    (
        "[readings]\n\"temp\" = [1]\n'radio' = [4294967295]",
        "feed 7 4294967295;feed 0 1;retained",
    ),
    ("[readings]\n\"te\\u006dp\" = [1]", "feed 0 1;retained"),
    (
        "[[power]]\non = 1\noff = 4294967295",
        "too-many-ticks 4294967296",
    ),
    (
        "[[power]]\non = 4194304\noff = 4290772991",
        "row 4194304 4290772991 0;retained",
    ),
    (
        "[[power]]\non = 4194304\noff = 4290772992",
        "too-many-ticks 4294967296",
    ),
    (
        "[[power]]\non = 4194304\noff = 4294967295\n[[power]]\non = 1",
        "too-many-steps 4194305",
    ),
    ("", "retained"),
    (
        "retained = [25, 26]\n[[power]]\non = 100\noff = 50\nfill = 0\n[readings]\ntemp = [20, 21]\n",
        "row 100 50 0;feed 0 20 21;retained 25 26",
    ),
    ("retained = 5", "bad-value"),
    ("retained = [1.0]", "bad-value"),
    ("retained = [true]", "bad-value"),
    ("retained = [0x1F, +5, 1_000, -0]", "retained 31 5 1000 0"),
    ("retained = [-1]", "bad-value"),
    ("retained = [4294967295]", "retained 4294967295"),
    ("retained = [4294967296]", "bad-value"),
    ("retained = [9223372036854775808]", "not-toml"),
    ("power = 3", "bad-value"),
    ("power = [3]", "bad-value"),
    (
        "power = [{on = 1}, {on = 2, off = 3, fill = 4}]",
        "row 1 0 0;row 2 3 4;retained",
    ),
    ("power = [{off = 1}]", "bad-key"),
    ("power = [3, {off = 1}]", "bad-key"),
    ("power = [{on = 1, of = 2}]", "bad-key"),
    ("power = {on = 1}", "bad-value"),
    ("other = 1", "bad-key"),
    ("other = 1\nretained = 5", "bad-key"),
    ("readings = 3", "bad-value"),
    ("readings = {temp = 3}", "bad-value"),
    (
        "readings = {temp = [1], radio = [2, 3]}",
        "feed 7 2 3;feed 0 1;retained",
    ),
    (
        "readings = {radio = [2, 3], temp = []}",
        "feed 7 2 3;feed 0;retained",
    ),
    ("readings = {hum = [1]}", "unknown-peripheral"),
    ("readings = {hum = 1}", "bad-value"),
    (
        "[readings]\nhum = [1]\n[[power]]\non = 4194305",
        "unknown-peripheral",
    ),
    ("[[power]]\non = 4194304", "row 4194304 0 0;retained"),
    ("[[power]]\non = 4194305", "too-many-steps 4194305"),
    (
        "[[power]]\non = 4194304\n[[power]]\non = 2",
        "too-many-steps 4194306",
    ),
    (
        "[[power]]\non = 1\noff = 4294967294",
        "row 1 4294967294 0;retained",
    ),
    (
        "[[power]]\non = 1\noff = 4294967294\n[[power]]\non = 0\noff = 4294967295",
        "too-many-ticks 8589934590",
    ),
    ("a = ", "not-toml"),
    ("[power]\non = 1", "bad-value"),
    ("[[power]]\non = [1]", "bad-value"),
    ("[[power]]\non = 1\nfill = \"x\"", "bad-value"),
    ("[[readings]]\ntemp = [1]", "bad-value"),
    ("readings.temp = [1, 2]", "feed 0 1 2;retained"),
    ("\"retained\" = [1]", "retained 1"),
    ("retained = [[1]]", "bad-value"),
    ("retained = [1979-05-27]", "bad-value"),
    (
        "retained = [0x10, 2, 2]\nextra = 1\n[readings]\nradio = []\n",
        "bad-key",
    ),
    ("extra = 1\n", "bad-key"),
    (
        "[[power]]\non = 3\noff = 2\n[readings]\ntemp = [2, 2, 4194304]\nhum = []\n",
        "unknown-peripheral",
    ),
    (
        "retained = []\n[[power]]\non = 1000\n[[power]]\non = 5\n[[power]]\non = 5\n",
        "row 1000 0 0;row 5 0 0;row 5 0 0;retained",
    ),
    (
        "retained = [3]\n[[power]]\non = 5\n[readings]\ntemp = [1, 3, 1]\ntemp = [0x10]\n",
        "not-toml",
    ),
    (
        "[[power]]\non = 3\noff = 2\n[[power]]\non = 5\n[[power]]\non = 5\n[readings]\ntemp = []\nhum = []\n",
        "unknown-peripheral",
    ),
    (
        "extra = 1\n[[power]]\non = 1\nfill = 9\n[[power]]\non = 3\noff = 2\n[[power]]\noff = 5\nof = 5\n[readings]\n",
        "bad-key",
    ),
    (
        "retained = true\n[[power]]\non = 1\nfill = 9\n[[power]]\non = 5\n",
        "bad-value",
    ),
    (
        "[[power]]\non = 5\n[readings]\nradio = [0, 2, 2]\n",
        "row 5 0 0;feed 7 0 2 2;retained",
    ),
    (
        "extra = 1\n[[power]]\non = 1\nfill = 9\n[readings]\n",
        "bad-key",
    ),
];

#[test]
fn a_file_tells_its_world_or_its_first_fault(rt: HostRuntime) -> Result<(), Fail> {
    for (file, expected) in FILES.iter() {
        let line = told(rt.alloc(), file.as_bytes())?;
        assert_eq!(rt; line.as_str(), *expected, "at {file}");
    }
    Ok(())
}
