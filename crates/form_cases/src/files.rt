// The canonical files of small tables, worked by hand.
use canon_file::plain_canon;
use std::alloc::Global;
use std::test::Fail;

/// The truth values' pointers.
const ZERO: u64 = 0x8000_0000_0000_0000;

const ONE: u64 = 0x8000_0000_0000_0001;

/// The first node of each of three levels, and the next one of the second level.
const LEVEL_0: u64 = 0x0000_7fff_ffff_ffff;

const LEVEL_1: u64 = 0x0000_ffff_ffff_ffff;

const LEVEL_1_NEXT: u64 = 0x0000_ffff_ffff_fffe;

const LEVEL_2: u64 = 0x0001_7fff_ffff_ffff;

fn bytes_of_words(alloc: Global, words: &[u64]) -> Result<Vec<u8>, Fail> {
    let mut bytes = Vec::new(alloc);
    for word in words {
        bytes.extend_from_slice(&word.to_be_bytes())?;
    }
    Ok(bytes)
}

/// A table of three variables from its eight values, the first as the highest bit.
fn values(bits: u8) -> [bool; 8] {
    [
        bits & 128 != 0,
        bits & 64 != 0,
        bits & 32 != 0,
        bits & 16 != 0,
        bits & 8 != 0,
        bits & 4 != 0,
        bits & 2 != 0,
        bits & 1 != 0,
    ]
}

/// Whether the canonical file of a table of two variables has these words.
fn two_make(alloc: Global, table: &[bool; 4], words: &[u64]) -> Result<bool, Fail> {
    let bytes = plain_canon(alloc, 2, table)?;
    let wanted = bytes_of_words(alloc, words)?;
    Ok(bytes.as_slice() == wanted.as_slice())
}

#[test]
fn makes_the_files_of_two_variables(rt: HostRuntime) -> Result<(), Fail> {
    let cases: [(&str, [bool; 4], &[u64]); 4] = [
        ("0", [false, false, false, false], &[ZERO, 0, 2]),
        (
            "a and b",
            [false, false, false, true],
            &[LEVEL_1, ZERO, ONE, LEVEL_0, ZERO, LEVEL_1, LEVEL_0, 2, 2],
        ),
        (
            "a xor b",
            [false, true, true, false],
            &[
                LEVEL_1,
                ZERO,
                ONE,
                LEVEL_1_NEXT,
                ONE,
                ZERO,
                LEVEL_0,
                LEVEL_1,
                LEVEL_1_NEXT,
                LEVEL_0,
                3,
                2,
            ],
        ),
        (
            "not (a and b)",
            [true, true, true, false],
            &[LEVEL_1, ONE, ZERO, LEVEL_0, ONE, LEVEL_1, LEVEL_0, 2, 2],
        ),
    ];
    for (name, table, words) in cases {
        assert!(rt; two_make(rt.alloc(), &table, words)?, "{name}");
    }
    Ok(())
}

/// Whether the canonical file of a table of three variables has these words.
fn three_make(alloc: Global, bits: u8, words: &[u64]) -> Result<bool, Fail> {
    let bytes = plain_canon(alloc, 3, &values(bits))?;
    let wanted = bytes_of_words(alloc, words)?;
    Ok(bytes.as_slice() == wanted.as_slice())
}

#[test]
fn makes_the_files_of_three_variables(rt: HostRuntime) -> Result<(), Fail> {
    let cases: [(&str, u8, &[u64]); 3] = [
        ("b", 0b0011_0011, &[LEVEL_1, ZERO, ONE, LEVEL_1, 1, 3]),
        (
            "b and c",
            0b0001_0001,
            &[LEVEL_2, ZERO, ONE, LEVEL_1, ZERO, LEVEL_2, LEVEL_1, 2, 3],
        ),
        (
            "if a then b and c else c",
            0b0101_0001,
            &[
                LEVEL_2, ZERO, ONE, LEVEL_1, ZERO, LEVEL_2, LEVEL_0, LEVEL_2, LEVEL_1, LEVEL_0, 3,
                3,
            ],
        ),
    ];
    for (name, bits, words) in cases {
        assert!(rt; three_make(rt.alloc(), bits, words)?, "{name}");
    }
    Ok(())
}
