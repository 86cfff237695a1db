//! Loads and stores, and the words that are read from outside.
use crate::bed::Bed;
use ease_base::List;
use std::test::Fail;
use word_machine::Stepped;

#[test]
fn the_address_of_a_store_wraps(rt: HostRuntime) -> Result<(), Fail> {
    // LDI r1 9, LDI r2 65535, LUI r2 65535, ST r1 r2 6, LD r3 r2 6
    let code = [
        0x0210_0009,
        0x0220_ffff,
        0x0320_ffff,
        0x1312_0006,
        0x1232_0006,
    ];
    let bed = Bed::make(rt.alloc(), &code, &[], List::new(rt.alloc()))?;
    let mut bed = bed.expect(&rt, "an image");
    assert_eq!(rt; bed.steps(5), Some(Stepped::Ran(None)));
    assert_eq!(rt; bed.machine.word(5), Some(9));
    assert_eq!(rt; bed.machine.register(3), 9);
    Ok(())
}

#[test]
fn loads_and_stores_end_where_the_memories_end(rt: HostRuntime) -> Result<(), Fail> {
    // LD r1 r2 M and ST r1 r2 M, the base in r2, M, and whether the address has a word
    let table = [
        (65_535, 0, true),
        (65_535, 1, false),
        (1_048_575, 0, false),
        (1_048_575, 1, true),
        (1_048_576, 4_095, true),
        (1_048_576, 4_096, false),
        (0xffff_ffff, 0, false),
    ];
    for (base, m, there) in table {
        for word in [0x1212_0000, 0x1312_0000] {
            let code = [
                0x0220_0000 | base % 65_536,
                0x0320_0000 | base / 65_536,
                word | m,
            ];
            let bed = Bed::make(rt.alloc(), &code, &[], List::new(rt.alloc()))?;
            let mut bed = bed.expect(&rt, "an image");
            let answer = if there {
                Stepped::Ran(None)
            } else {
                Stepped::Trapped(16)
            };
            assert_eq!(rt; bed.steps(3), Some(answer), "at {word} of {base} and {m}");
            assert_eq!(rt; bed.machine.pc(), 3);
        }
    }
    Ok(())
}

#[test]
fn words_are_read_where_a_memory_has_them(rt: HostRuntime) -> Result<(), Fail> {
    let bed = Bed::make(rt.alloc(), &[], &[5, 0xffff_ffff], List::new(rt.alloc()))?;
    let mut bed = bed.expect(&rt, "an image");
    bed.machine.fail(8);
    let table = [
        (0, Some(5)),
        (1, Some(0xffff_ffff)),
        (2, Some(0)),
        (65_535, Some(0)),
        (65_536, None),
        (1_048_575, None),
        (1_048_576, Some(8)),
        (1_052_671, Some(8)),
        (1_052_672, None),
    ];
    for (at, word) in table {
        assert_eq!(rt; bed.machine.word(at), word, "at {at}");
    }
    assert_eq!(rt; bed.machine.register(15), 8);
    Ok(())
}
