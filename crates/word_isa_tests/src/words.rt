//! Words that are listed and decoded.
use ease_base::Text;
use word_isa::{Instr, decode, encode, is_symbol_name, list_word};

#[test]
fn words_list_their_rows(rt: HostRuntime) {
    let table = [
        (0x0210_0007, "LDI r1 7"),
        (0x1720_0000, "TIME r2"),
        (0x1631_0100, "IO r3 r1 256"),
        (0x1330_0005, "ST r3 r0 5"),
        (0x0100_0000, "HALT"),
        (0x1400_000c, "JMP 12"),
        (0x0512_0000, "ADD r1 r2"),
        (0x1812_0003, "DMA r1 r2 r3"),
        (0x1900_0010, "TRAP 16"),
        (0x0000_0000, "?"),
        (0x0100_0001, "?"),
    ];
    for (word, want) in table {
        let mut out = Text::new(rt.alloc());
        list_word(&mut out, word).expect(&rt, "memory");
        assert_eq!(rt; out.as_slice(), want.as_bytes(), "at {word}");
    }
}

#[test]
fn an_instruction_that_fits_is_read_back(rt: HostRuntime) {
    assert_eq!(rt; encode(Instr::Ldi(1, 7)), 0x0210_0007);
    assert_eq!(rt; decode(0x0210_0007), Some(Instr::Ldi(1, 7)));
    assert_eq!(rt; decode(0x1501_0000), None);
    assert_eq!(rt; decode(0x1631_0500), None);
}

#[test]
fn names_of_symbols_are_short_and_free(rt: HostRuntime) {
    let table = [
        ("temp", true),
        ("_", true),
        ("x9_Z", true),
        ("a2345678901234567890123456789012", true),
        ("a23456789012345678901234567890123", false),
        ("", false),
        ("9x", false),
        ("a-b", false),
        ("DMA", false),
        ("dma", true),
        ("\u{e9}", false),
    ];
    for (name, want) in table {
        assert_eq!(rt; is_symbol_name(name.as_bytes()), want, "at {name}");
    }
}
