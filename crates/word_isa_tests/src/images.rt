//! Parts of images that pass or fail their tests, and the smallest image.
use ease_base::{List, NoMemory, Peripheral, Text, Words};
use std::alloc::Global;
use task_ast::Kind;
use word_isa::{
    Mark, MarkKind, Scheme, Symbol, banks_pass, first_bad_mark, first_bad_peripheral,
    first_bad_symbol, first_bad_word, first_too_large, kind_code, kind_of, unnamed_image,
    version_passes,
};

#[test]
fn the_first_count_past_its_limit_is_told(rt: HostRuntime) {
    assert_eq!(rt;
        first_too_large(4_194_304, 65_536, 256, 256, 2_097_152),
        None
    );
    assert_eq!(rt;
        first_too_large(4_194_305, 65_537, 0, 0, 0),
        Some(4_194_305)
    );
    assert_eq!(rt; first_too_large(0, 65_537, 257, 0, 0), Some(65_537));
    assert_eq!(rt; first_too_large(0, 0, 257, 258, 0), Some(257));
    assert_eq!(rt; first_too_large(0, 0, 0, 258, 2_097_153), Some(258));
    assert_eq!(rt; first_too_large(0, 0, 0, 0, 2_097_153), Some(2_097_153));
}

#[test]
fn kept_words_end_with_the_memory(rt: HostRuntime) {
    assert!(rt; banks_pass(Scheme::Undo, 0, 65_535, 1));
    assert!(rt; !banks_pass(Scheme::Undo, 0, 65_535, 2));
    assert!(rt; !banks_pass(Scheme::Undo, 1, 0, 0));
    assert!(rt; banks_pass(Scheme::Bank, 1, 65_535, 0));
    assert_eq!(rt;
        first_bad_word(&[0x0100_0000, 0x1900_0000, 0x1901_0000]),
        Some(2)
    );
}

// A list of one symbol `a` of one nonvolatile word at 10, and of this one.
fn two_symbols(
    alloc: Global,
    name: &str,
    kind: Kind,
    base: u32,
    length: u32,
) -> Result<List<Symbol>, NoMemory> {
    let mut symbols = List::new(alloc);
    let first = Text::from_slice(alloc, b"a")?;
    symbols.push(Symbol {
        name: first,
        kind: Kind::Nv,
        base: 10,
        length: 1,
    })?;
    let second = Text::from_slice(alloc, name.as_bytes())?;
    symbols.push(Symbol {
        name: second,
        kind,
        base,
        length,
    })?;
    Ok(symbols)
}

#[test]
fn a_symbol_lies_in_its_memory_and_apart(rt: HostRuntime) {
    // with kept words at 20 and 21, and a stride of 100
    let table = [
        ("b", Kind::Nv, 11, 2, None),
        ("a", Kind::Nv, 11, 2, Some(1)),
        ("9", Kind::Nv, 11, 2, Some(1)),
        ("b", Kind::Nv, 11, 0, Some(1)),
        ("b", Kind::Nv, 9, 2, Some(1)),
        ("b", Kind::Const, 110, 1, Some(1)),
        ("b", Kind::Nv, 19, 2, Some(1)),
        ("b", Kind::Const, 22, 1, None),
        ("b", Kind::Const, 65_535, 1, None),
        ("b", Kind::Const, 65_535, 2, Some(1)),
        ("b", Kind::Nv, 65_435, 1, None),
        ("b", Kind::Nv, 65_436, 1, Some(1)),
        ("b", Kind::Vol, 1_048_576, 4_096, None),
        ("b", Kind::Vol, 1_048_576, 4_097, Some(1)),
        ("b", Kind::Vol, 11, 1, Some(1)),
    ];
    for (name, kind, base, length, want) in table {
        let symbols = two_symbols(rt.alloc(), name, kind, base, length).expect(&rt, "memory");
        assert_eq!(rt;
            first_bad_symbol(20, 2, 100, symbols.as_slice()),
            want,
            "at {name} {base} {length}"
        );
    }
}

fn two_peripherals(alloc: Global, name: &str, number: u8) -> Result<List<Peripheral>, NoMemory> {
    let mut peripherals = List::new(alloc);
    let first = Text::from_slice(alloc, b"temp")?;
    peripherals.push(Peripheral {
        name: first,
        number: 0,
    })?;
    let second = Text::from_slice(alloc, name.as_bytes())?;
    peripherals.push(Peripheral {
        name: second,
        number,
    })?;
    Ok(peripherals)
}

#[test]
fn a_peripheral_has_a_name_and_a_number_of_its_own(rt: HostRuntime) {
    let symbols = two_symbols(rt.alloc(), "b", Kind::Nv, 11, 1).expect(&rt, "memory");
    let table = [
        ("radio", 1, None),
        ("temp", 1, Some(1)),
        ("b", 1, Some(1)),
        ("radio", 0, Some(1)),
        ("IO", 1, Some(1)),
    ];
    for (name, number, want) in table {
        let peripherals = two_peripherals(rt.alloc(), name, number).expect(&rt, "memory");
        assert_eq!(rt;
            first_bad_peripheral(symbols.as_slice(), peripherals.as_slice()),
            want,
            "at {name} {number}"
        );
    }
}

#[test]
fn a_mark_stands_at_an_instruction_of_its_kind(rt: HostRuntime) {
    // LDI, TIME, MOV, ST, IO, DMA, HALT
    let code = [
        0x0210_0007,
        0x1720_0000,
        0x0412_0000,
        0x1330_0005,
        0x1631_0100,
        0x1812_0003,
        0x0100_0000,
    ];
    let table = [
        (1, MarkKind::Look, 1, None),
        (2, MarkKind::Kept, 1, None),
        (3, MarkKind::Drop, 1, None),
        (3, MarkKind::Seal, 1, None),
        (3, MarkKind::Commit, 0, None),
        (4, MarkKind::Issue, 1, None),
        (5, MarkKind::Copy, 255, None),
        (3, MarkKind::Drop, 0, Some(1)),
        (3, MarkKind::Copy, 1, Some(1)),
        (0, MarkKind::Begin, 1, Some(1)),
        (6, MarkKind::Begin, 1, Some(1)),
        (7, MarkKind::Commit, 1, Some(1)),
    ];
    for (at, kind, site, want) in table {
        let begin = Mark {
            at: 0,
            kind: MarkKind::Begin,
            site: 1,
            task: 0,
        };
        let second = Mark {
            at,
            kind,
            site,
            task: 0,
        };
        assert_eq!(rt;
            first_bad_mark(1, &code, &[begin, second]),
            want,
            "at {at} {site}"
        );
    }
}

#[test]
fn a_mark_of_version_2_names_a_task(rt: HostRuntime) {
    let code = [0x0210_0007, 0x1720_0000];
    let table = [
        (1, MarkKind::Look, 1, 1, None),
        (1, MarkKind::Look, 128, 64, None),
        (1, MarkKind::Look, 129, 1, Some(0)),
        (1, MarkKind::Look, 1, 0, Some(0)),
        (1, MarkKind::Look, 1, 65, Some(0)),
        (0, MarkKind::Begin, 64, 64, None),
        (0, MarkKind::Begin, 1, 2, Some(0)),
    ];
    for (at, kind, site, task, want) in table {
        let mark = Mark {
            at,
            kind,
            site,
            task,
        };
        assert_eq!(rt;
            first_bad_mark(2, &code, &[mark]),
            want,
            "at {at} {site} {task}"
        );
        let version_1 = if task == 0 { None } else { Some(0) };
        assert_eq!(rt;
            first_bad_mark(1, &code, &[mark]),
            version_1,
            "at {at} {site} {task}"
        );
    }
}

#[test]
fn bytes_stand_for_versions_schemes_and_kinds(rt: HostRuntime) {
    let versions = [(0, false), (1, true), (2, true), (3, false)];
    for (version, passes) in versions {
        assert_eq!(rt; version_passes(version), passes, "at {version}");
    }
    assert_eq!(rt; Scheme::of(1), Some(Scheme::Bank));
    assert_eq!(rt; Scheme::of(2), None);
    assert_eq!(rt; Scheme::Bank.code(), 1);
    assert!(rt; kind_of(2) == Some(Kind::Vol));
    assert!(rt; kind_of(3) == None);
    assert_eq!(rt; kind_code(Kind::Const), 1);
    assert_eq!(rt; MarkKind::of(0), None);
    assert_eq!(rt; MarkKind::of(6), Some(MarkKind::Seal));
    assert_eq!(rt; MarkKind::of(9), None);
    assert_eq!(rt; MarkKind::Commit.code(), 8);
}

#[test]
fn an_image_is_made_of_code_whose_words_have_rows(rt: HostRuntime) {
    let table = [(0x0100_0000, true), (0, false), (0x0110_0000, false)];
    for (word, made) in table {
        let code = Words::from_slice(rt.alloc(), &[word]).expect(&rt, "memory");
        let image = unnamed_image(
            rt.alloc(),
            code,
            Words::new(rt.alloc()),
            List::new(rt.alloc()),
        );
        assert_eq!(rt; image.is_some(), made, "at {word}");
    }
}
