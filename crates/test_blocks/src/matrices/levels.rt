//! The block of a matrix that is written level by level has the bytes of the block that is built at once.
use crate::matrices::matrices::{MATRIX, NUMBERS, mixed_numbers};
use matrix_block::{build, seal_levels, size, write_level};
use std::process::Abort;
use std::test::Fail;

/// Writes the block level by level; whether there is room for it.
fn write_by_levels(
    numbers: &mut [u64],
    width: u8,
    quarters: bool,
    hints: bool,
    scratch: &mut [u64],
    block: &mut [u64],
) -> bool {
    let len = numbers.len();
    if size(len, width, quarters, hints) != Some(block.len()) || scratch.len() != len {
        return false;
    }
    for depth in 0..width {
        let room = &mut *scratch;
        write_level(
            &mut *numbers,
            width,
            quarters,
            hints,
            depth,
            room,
            &mut *block,
        );
    }
    seal_levels(len, width, quarters, hints, block);
    true
}

#[test]
fn levels_make_the_bytes_of_a_small_block(rt: HostRuntime) -> Result<(), Fail> {
    let mut numbers = NUMBERS;
    let mut scratch = [7u64; 6];
    let mut block = [0x5555_5555_5555_5555u64; 80];
    let made = write_by_levels(
        numbers.as_mut_slice(),
        3,
        false,
        false,
        scratch.as_mut_slice(),
        block.as_mut_slice(),
    );
    assert!(rt; made);
    assert!(rt; block == MATRIX);
    assert!(rt; numbers == [4, 1, 1, 1, 5, 3]);
    Ok(())
}

#[test]
fn levels_make_the_bytes_that_build_makes(rt: HostRuntime) -> Result<(), Fail> {
    let numbers = mixed_numbers();
    let mut at_once = [0u64; 168];
    let mut room = [0u64; 600];
    let made = build(
        numbers.as_slice(),
        10,
        true,
        true,
        room.as_mut_slice(),
        at_once.as_mut_slice(),
    );
    assert!(rt; made.is_ok());
    let mut level = numbers;
    let mut scratch = [0u64; 300];
    let mut block = [0x5555_5555_5555_5555u64; 168];
    let written = write_by_levels(
        level.as_mut_slice(),
        10,
        true,
        true,
        scratch.as_mut_slice(),
        block.as_mut_slice(),
    );
    assert!(rt; written);
    assert!(rt; block == at_once);
    Ok(())
}
