//! Tables with twins, look-ups that find and miss, and the reserved words.
use op_table::{Table, reserved, rows};

#[test]
fn rows_with_equal_codes_or_names_make_no_table(rt: HostRuntime) {
    let distinct = rows! { 1 "HALT" 0; 2 "LDI" 1; 7 "JMP" 2; };
    let equal_codes = rows! { 1 "HALT" 0; 1 "LDI" 1; 7 "JMP" 2; };
    let equal_codes_apart = rows! { 1 "HALT" 0; 2 "LDI" 1; 1 "JMP" 2; };
    let equal_names = rows! { 1 "HALT" 0; 2 "LDI" 1; 7 "LDI" 2; };
    let equal_names_apart = rows! { 1 "HALT" 0; 2 "LDI" 1; 7 "HALT" 2; };
    assert!(rt; Table::<3>::new(&distinct).is_some());
    assert!(rt; Table::<3>::new(&equal_codes).is_none());
    assert!(rt; Table::<3>::new(&equal_codes_apart).is_none());
    assert!(rt; Table::<3>::new(&equal_names).is_none());
    assert!(rt; Table::<3>::new(&equal_names_apart).is_none());
}

#[test]
fn rows_are_found_at_their_places(rt: HostRuntime) {
    let rows = rows! { 1 "HALT" 0; 2 "LDI" 1; 7 "JMP" 2; };
    let table = Table::<3>::new(&rows).expect(&rt, "no twins");
    assert_eq!(rt; table.find_code(1), Some(0));
    assert_eq!(rt; table.find_code(7), Some(2));
    assert_eq!(rt; table.find_code(3), None);
    assert_eq!(rt; table.find_name("HALT"), Some(0));
    assert_eq!(rt; table.find_name("LDI"), Some(1));
    assert_eq!(rt; table.find_name("LD"), None);
    assert_eq!(rt; table.find_name(""), None);
}

#[test]
fn sixteen_words_are_reserved(rt: HostRuntime) {
    let table = [
        ("nv", true),
        ("const", true),
        ("word", true),
        ("peripheral", true),
        ("task", true),
        ("if", true),
        ("else", true),
        ("for", true),
        ("IO", true),
        ("IO_BLOCK", true),
        ("DMA", true),
        ("NEXT", true),
        ("STOP", true),
        ("SINGLE", true),
        ("TIMELY", true),
        ("ALWAYS", true),
        ("nvx", false),
        ("NV", false),
        ("", false),
    ];
    for (name, want) in table {
        assert_eq!(rt; reserved(name), want, "at {name}");
    }
}
