//! Image files as bytes: what is read and written again, and what each change of one place is refused as.
use ease_base::NoMemory;
use image_file::{ImageError, read_image, write_image};
use std::alloc::Global;
use std::process::Abort;
use std::test::Fail;

/// One HALT and nothing else, in version 1.
const HALT: &[u8] = &[
    69, 65, 83, 69, 1, 0, 0, 0, 0, 0, 0, 0, 0, 0, 1, 0, 0, 0, 0, 0, 0, 1, 0, 0, 0, 0, 0, 0, 0, 0,
    0, 0, 0, 0,
];

/// Two banks 100 words apart, seven instructions, three symbols, two peripherals and six marks, in version 2. The code
/// begins at byte 18, the symbols at 56, the peripherals at 91, the marks at 108, seven bytes each.
const WHOLE: &[u8] = &[
    69, 65, 83, 69, 2, 1, 0, 0, 100, 0, 44, 1, 10, 0, 7, 0, 0, 0, 1, 0, 16, 2, 0, 0, 32, 23, 0, 0,
    18, 4, 5, 0, 48, 19, 0, 1, 49, 22, 3, 0, 18, 24, 0, 0, 0, 1, 1, 0, 0, 0, 2, 1, 0, 0, 3, 0, 1,
    97, 0, 1, 0, 0, 0, 2, 0, 0, 0, 1, 103, 1, 201, 0, 0, 0, 1, 0, 0, 0, 1, 118, 2, 0, 0, 16, 0, 0,
    16, 0, 0, 2, 0, 4, 116, 101, 109, 112, 0, 5, 114, 97, 100, 105, 111, 7, 6, 0, 0, 0, 0, 0, 0, 0,
    1, 1, 1, 1, 0, 0, 0, 2, 128, 1, 2, 0, 0, 0, 3, 1, 1, 3, 0, 0, 0, 8, 0, 1, 4, 0, 0, 0, 5, 2, 1,
    5, 0, 0, 0, 7, 3, 64,
];

// Asserts that the image of these bytes has these bytes.
fn expect_image(rt: &impl Abort, alloc: Global, bytes: &[u8]) -> Result<(), Fail> {
    let image = match read_image(alloc, bytes) {
        Ok(image) => image,
        Err(fault) => {
            assert_eq!(rt; Some(fault), None);
            return Ok(());
        }
    };
    let written = write_image(alloc, &image)?;
    assert_eq!(rt; written.as_slice(), bytes);
    Ok(())
}

fn refusal(alloc: Global, bytes: &[u8]) -> Option<ImageError> {
    match read_image(alloc, bytes) {
        Ok(_) => None,
        Err(fault) => Some(fault),
    }
}

// The bytes of the larger image with some of them changed.
fn changed(alloc: Global, changes: &[(usize, u8)]) -> Result<Vec<u8>, NoMemory> {
    let mut bytes = Vec::from_slice(alloc, WHOLE)?;
    for (at, byte) in changes {
        if let Some(place) = bytes.get_mut(*at) {
            *place = *byte;
        }
    }
    Ok(bytes)
}

#[test]
fn an_image_is_read_and_written_again(rt: HostRuntime) -> Result<(), Fail> {
    expect_image(&rt, rt.alloc(), HALT)?;
    expect_image(&rt, rt.alloc(), WHOLE)
}

#[test]
fn each_change_of_a_place_has_its_refusal(rt: HostRuntime) -> Result<(), Fail> {
    let table: [(&str, &[(usize, u8)], ImageError); 36] = [
        ("another magic", &[(0, 88)], ImageError::BadMagic),
        ("version 3", &[(4, 3)], ImageError::BadVersion(3)),
        ("version 0", &[(4, 0)], ImageError::BadVersion(0)),
        ("scheme 2", &[(5, 2)], ImageError::BadScheme(2)),
        (
            "both the version and the scheme",
            &[(4, 9), (5, 9)],
            ImageError::BadVersion(9),
        ),
        (
            "a stride with one bank",
            &[(5, 0)],
            ImageError::BadSymbol(0),
        ),
        (
            "kept words past the memory",
            &[(10, 250), (11, 255)],
            ImageError::BadSymbol(0),
        ),
        ("a word without a row", &[(21, 0)], ImageError::BadWord(0)),
        ("HALT with an operand", &[(42, 1)], ImageError::BadWord(6)),
        ("two bad words", &[(21, 0), (42, 1)], ImageError::BadWord(0)),
        (
            "more symbols than there are bytes",
            &[(55, 1)],
            ImageError::Short,
        ),
        (
            "a symbol's name that is none",
            &[(57, 57)],
            ImageError::BadSymbol(1),
        ),
        ("a symbol of kind 3", &[(58, 3)], ImageError::BadSymbol(1)),
        (
            "a symbol without words",
            &[(63, 0)],
            ImageError::BadSymbol(1),
        ),
        (
            "a second bank over the kept words",
            &[(59, 201)],
            ImageError::BadSymbol(1),
        ),
        ("a symbol past FRAM", &[(61, 1)], ImageError::BadSymbol(1)),
        (
            "a second bank past FRAM",
            &[(59, 156), (60, 255)],
            ImageError::BadSymbol(1),
        ),
        (
            "two symbols of one name",
            &[(68, 97)],
            ImageError::BadSymbol(2),
        ),
        (
            "a constant in another's second bank",
            &[(70, 101)],
            ImageError::BadSymbol(2),
        ),
        ("a constant in RAM", &[(72, 16)], ImageError::BadSymbol(2)),
        (
            "a volatile symbol past RAM",
            &[(85, 1)],
            ImageError::BadSymbol(3),
        ),
        (
            "a nonvolatile symbol in RAM",
            &[(80, 0)],
            ImageError::BadSymbol(3),
        ),
        (
            "a kind behind a bad name",
            &[(57, 57), (80, 7)],
            ImageError::BadSymbol(1),
        ),
        (
            "a bad name behind a kind",
            &[(58, 3), (68, 57)],
            ImageError::BadSymbol(1),
        ),
        (
            "a peripheral with a reserved name",
            &[(92, 119), (93, 111), (94, 114), (95, 100)],
            ImageError::BadSymbol(4),
        ),
        (
            "two peripherals of one number",
            &[(103, 0)],
            ImageError::BadSymbol(5),
        ),
        ("a mark past the code", &[(108, 7)], ImageError::BadMark(1)),
        ("a mark of kind 9", &[(112, 9)], ImageError::BadMark(1)),
        ("a mark of kind 0", &[(112, 0)], ImageError::BadMark(1)),
        ("a look at LDI", &[(112, 2)], ImageError::BadMark(1)),
        (
            "the begin of another task",
            &[(113, 2)],
            ImageError::BadMark(1),
        ),
        (
            "two marks at one address",
            &[(115, 0), (119, 1), (120, 1)],
            ImageError::BadMark(2),
        ),
        ("a mark of task 0", &[(121, 0)], ImageError::BadMark(2)),
        ("a mark of task 65", &[(121, 65)], ImageError::BadMark(2)),
        ("a mark of site 129", &[(120, 129)], ImageError::BadMark(2)),
        (
            "site 0 where nothing commits",
            &[(127, 0)],
            ImageError::BadMark(3),
        ),
    ];
    for (name, changes, expected) in table {
        let bytes = changed(rt.alloc(), changes)?;
        assert_eq!(rt;
            refusal(rt.alloc(), bytes.as_slice()),
            Some(expected),
            "at {name}"
        );
    }
    Ok(())
}

#[test]
fn an_image_that_is_cut_is_short_and_one_that_goes_on_is_trailing(
    rt: HostRuntime,
) -> Result<(), Fail> {
    for length in 0..WHOLE.len() {
        let expected = if length < 4 {
            ImageError::BadMagic
        } else {
            ImageError::Short
        };
        assert_eq!(rt;
            refusal(rt.alloc(), &WHOLE[..length]),
            Some(expected),
            "of {length} bytes"
        );
    }
    let mut longer = Vec::from_slice(rt.alloc(), WHOLE)?;
    longer.push(0)?;
    assert_eq!(rt;
        refusal(rt.alloc(), longer.as_slice()),
        Some(ImageError::Trailing)
    );
    Ok(())
}

// An image of so many HALTs and nothing else.
fn of_halts(alloc: Global, count: u16) -> Result<Vec<u8>, NoMemory> {
    let mut bytes = Vec::from_slice(alloc, &HALT[..14])?;
    bytes.extend_from_slice(&u32::from(count).to_le_bytes())?;
    for _word in 0..count {
        bytes.extend_from_slice(&[0, 0, 0, 1])?;
    }
    bytes.extend_from_slice(&HALT[22..])?;
    Ok(bytes)
}

#[test]
fn each_front_of_an_image_of_310_bytes_is_short(rt: HostRuntime) -> Result<(), Fail> {
    let whole = of_halts(rt.alloc(), 70)?;
    expect_image(&rt, rt.alloc(), whole.as_slice())?;
    for length in 4..whole.len() {
        let (front, _) = whole.as_slice().split_at(length);
        assert_eq!(rt;
            refusal(rt.alloc(), front),
            Some(ImageError::Short),
            "of {length} bytes"
        );
    }
    Ok(())
}

// An image without code that has so many symbols of no name and no words.
fn with_symbols(alloc: Global, count: u16) -> Result<Vec<u8>, NoMemory> {
    let mut bytes = Vec::from_slice(alloc, &HALT[..14])?;
    bytes.extend_from_slice(&[0; 8])?;
    bytes.extend_from_slice(&count.to_le_bytes())?;
    for _symbol in 0..count {
        bytes.extend_from_slice(&[0; 10])?;
    }
    bytes.extend_from_slice(&[0; 6])?;
    Ok(bytes)
}

#[test]
fn a_count_is_past_its_limit_where_the_entries_are_there(rt: HostRuntime) -> Result<(), Fail> {
    let most = with_symbols(rt.alloc(), 256)?;
    assert_eq!(rt;
        refusal(rt.alloc(), most.as_slice()),
        Some(ImageError::BadSymbol(1))
    );
    let more = with_symbols(rt.alloc(), 257)?;
    assert_eq!(rt;
        refusal(rt.alloc(), more.as_slice()),
        Some(ImageError::TooLarge(257))
    );
    let (cut, _) = more.as_slice().split_at(more.len().min(2000));
    assert_eq!(rt; refusal(rt.alloc(), cut), Some(ImageError::Short));
    Ok(())
}
