//! What each change of one place of a world file is refused as.
use crate::bed::told;
use ease_base::NoMemory;
use std::alloc::Global;
use std::test::Fail;

/// The example of docs/FORMATS.md, "World files", without its comments.
const EXAMPLE: &str =
    "retained = [25, 26]\n[[power]]\non = 100\noff = 50\nfill = 0\n[readings]\ntemp = [20, 21]\n";

/// A change: the text that goes, what stands in its place, and what is then told.
static CHANGES: [(&str, &str, &str); 38] = [
    ("", "", "row 100 50 0;feed 0 20 21;retained 25 26"),
    ("26]", "26", "not-toml"),
    ("retained = ", "retained ", "not-toml"),
    ("on = 100", "on = 100\non = 100", "not-toml"),
    ("[readings]", "[power]", "not-toml"),
    ("26", "9223372036854775808", "not-toml"),
    ("26", "99999999999999999999999999", "not-toml"),
    ("26", "026", "not-toml"),
    ("26", "0X1F", "not-toml"),
    ("retained", "retain", "bad-key"),
    ("readings", "reading", "bad-key"),
    ("[[power]]", "[[powers]]", "bad-key"),
    ("off", "of", "bad-key"),
    ("on = 100\n", "", "bad-key"),
    ("fill = 0", "fill = 0\nlast = 1", "bad-key"),
    ("[readings]", "[[power]]\n[readings]", "bad-key"),
    ("off = 50", "off = -1\n[[power]]", "bad-key"),
    ("[[power]]", "[power]", "bad-value"),
    ("[25, 26]", "25", "bad-value"),
    ("[25, 26]", "{ a = 25 }", "bad-value"),
    ("26", "-1", "bad-value"),
    ("26", "4294967296", "bad-value"),
    ("26", "9223372036854775807", "bad-value"),
    ("26", "1.0", "bad-value"),
    ("26", "inf", "bad-value"),
    ("26", "true", "bad-value"),
    ("26", "\"26\"", "bad-value"),
    ("26", "1979-05-27", "bad-value"),
    ("26", "[26]", "bad-value"),
    ("on = 100", "on = [100]", "bad-value"),
    ("fill = 0", "fill = 4294967296", "bad-value"),
    ("[20, 21]", "20", "bad-value"),
    ("[readings]", "[[readings]]", "bad-value"),
    ("temp", "hum", "unknown-peripheral"),
    ("temp", "Temp", "unknown-peripheral"),
    ("on = 100", "on = 4194305", "too-many-steps 4194305"),
    ("off = 50", "off = 4294967295", "too-many-ticks 4294967395"),
    (
        "[readings]",
        "[[power]]\non = 4294967295\n[readings]",
        "too-many-steps 4294967395",
    ),
];

// The example with the first place of `old` changed.
fn changed(alloc: Global, old: &str, new: &str) -> Result<String, NoMemory> {
    let text = match EXAMPLE.split_once(old) {
        Some((front, behind)) => format!(in alloc; "{front}{new}{behind}")?,
        None => format!(in alloc; "no {old}")?,
    };
    Ok(text)
}

#[test]
fn each_change_of_a_place_has_its_refusal(rt: HostRuntime) -> Result<(), Fail> {
    for (old, new, expected) in CHANGES.iter() {
        let file = changed(rt.alloc(), *old, *new)?;
        let line = told(rt.alloc(), file.as_bytes())?;
        assert_eq!(rt; line.as_str(), *expected, "at {old} and {new}");
    }
    Ok(())
}

#[test]
fn bytes_that_are_no_text_are_no_toml(rt: HostRuntime) -> Result<(), Fail> {
    let files: [(&[u8], &str); 6] = [
        (b"retained = [1]\n\xff", "not-toml"),
        (b"# \xc3\x28\n", "not-toml"),
        (b"# \xc0\x80\n", "not-toml"),
        (b"\x00", "not-toml"),
        (b"# \xc3\xa9\n", "retained"),
        (b"\xef\xbb\xbfretained = [1]\n", "retained 1"),
    ];
    for (file, expected) in files {
        let line = told(rt.alloc(), file)?;
        assert_eq!(rt; line.as_str(), expected);
    }
    Ok(())
}
