//! Subframes and preambles of the standard.

use aes3_cell::Level;
use aes3_slot::{
    Mark, Place, block_preambles, find_marks, match_mark, preambles, subframe_cells, take_either,
    take_subframe,
};

/// The first subframe of the zero block after the low level.
pub(crate) const ZEROS: u64 = 0x3333_3333_3333_3317;

/// The same with the first bit 1.
const FIRST_BIT: u64 = 0x4CCC_CCCC_CCCC_CD17;

/// The same with a wrong parity bit.
const WRONG_PARITY: u64 = 0xB333_3333_3333_3317;

fn writes_subframes() -> bool {
    subframe_cells(Level::Low, Mark::Z, 0) == ZEROS
        && subframe_cells(Level::High, Mark::Z, 0) == !ZEROS
        && subframe_cells(Level::Low, Mark::Z, 1) == FIRST_BIT
        && subframe_cells(Level::High, Mark::Z, 1) == !FIRST_BIT
}

fn reads_subframes() -> bool {
    take_subframe(Level::Low, Mark::Z, ZEROS) == Ok(0)
        && take_subframe(Level::Low, Mark::Z, FIRST_BIT) == Ok(1)
}

fn refuses_subframes() -> bool {
    take_subframe(Level::Low, Mark::Z, WRONG_PARITY) == Err(Place { offset: 63 })
        && take_subframe(Level::Low, Mark::Z, ZEROS ^ 1) == Err(Place { offset: 0 })
        && take_either(Level::Low, Mark::Z, WRONG_PARITY) == Ok((0, false))
}

#[test]
fn subframes_and_cells(rt: HostRuntime) {
    assert!(rt; writes_subframes() && reads_subframes() && refuses_subframes());
}

const PREAMBLES: &[(u8, Mark, Level)] = &[
    (0x47, Mark::X, Level::Low),
    (0xB8, Mark::X, Level::High),
    (0x27, Mark::Y, Level::Low),
    (0xD8, Mark::Y, Level::High),
    (0x17, Mark::Z, Level::Low),
    (0xE8, Mark::Z, Level::High),
];

/// The preamble that has these cells, and the level before it.
fn preamble_of(window: u8) -> Option<(Mark, Level)> {
    for (cells, mark, before) in PREAMBLES {
        if *cells == window {
            return Some((*mark, *before));
        }
    }
    None
}

#[test]
fn preambles_among_all_octets(rt: HostRuntime) {
    for window in 0..=255 {
        assert!(rt; match_mark(window) == preamble_of(window), "octet {window}");
    }
}

/// The cells of a word, the octet after them, and where the preambles of blocks begin.
const BEGINNINGS: &[(u64, u8, u64)] = &[
    (0, 0, 0),
    (0x17, 0, 1),
    (0xE8, 0, 1),
    (0xE000_0000_0000_0000, 0x02, 0x2000_0000_0000_0000),
    (0xE000_0000_0000_0000, 0x82, 0x2000_0000_0000_0000),
    (0x745D_1745_D174_5D17, 0x51, 0x1084_2108_4210_8421),
    (ZEROS, 0x27, 1),
];

/// Where the preambles of blocks begin in a word, searched alone and among words.
fn found_in(cells: u64, next: u8) -> (u64, u64) {
    let mut found = [0];
    find_marks(&[cells], next, &mut found);
    (block_preambles(cells, u64::from(next)), found[0])
}

#[test]
fn preambles_in_words(rt: HostRuntime) {
    for (row, (cells, next, places)) in BEGINNINGS.iter().enumerate() {
        assert!(rt; found_in(*cells, *next) == (*places, *places), "row {row}");
    }
    assert!(rt; preambles(ZEROS, 0x27) == 1);
}

/// A preamble across the border of the eighth and the ninth of ten words.
#[test]
fn a_preamble_across_a_border(rt: HostRuntime) {
    let mut words = [0; 10];
    words[7] = 0xE000_0000_0000_0000;
    words[8] = 0x02;
    let mut found = [1; 10];
    find_marks(&words, 0, &mut found);
    assert!(rt; found == [0, 0, 0, 0, 0, 0, 0, 0x2000_0000_0000_0000, 0, 0]);
}
