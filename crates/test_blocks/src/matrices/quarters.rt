//! A matrix with quarters: its answers beside a plain loop, and other numbers in the place of its quarters.
use crate::matrices::matrices::{mixed_numbers, wrong_answers};
use matrix_block::{MatrixView, build, size};
use std::process::Abort;
use std::test::Fail;

/// Where the quarters of 300 numbers of ten bits begin: after the sections of the compact block.
const QUARTERS: usize = 136;

/// The block of the mixed numbers with quarters.
fn block_with_quarters() -> [u64; 144] {
    let numbers = mixed_numbers();
    let mut block = [0u64; 144];
    let mut scratch = [0u64; 600];
    let room = scratch.as_mut_slice();
    let _made = build(
        numbers.as_slice(),
        10,
        true,
        false,
        room,
        block.as_mut_slice(),
    );
    block
}

/// How many flipped bits of the six numbers of quarters `check` does not see.
fn unseen_flips(words: &mut [u64]) -> usize {
    let mut unseen = 0usize;
    for i in QUARTERS..words.len().min(QUARTERS + 6) {
        for bit in 0..64u32 {
            words[i] ^= 1u64 << bit;
            if let Some(matrix) = MatrixView::open(&*words) {
                unseen = unseen.wrapping_add(matrix.check() as usize);
            }
            words[i] ^= 1u64 << bit;
        }
    }
    unseen
}

#[test]
fn a_matrix_with_quarters_answers_as_its_numbers(rt: HostRuntime) -> Result<(), Fail> {
    assert!(rt; size(300, 10, true, false) == Some(144));
    let block = block_with_quarters();
    let Some(matrix) = MatrixView::open(block.as_slice()) else {
        assert!(rt; false, "not opened");
        return Ok(());
    };
    assert!(rt; matrix.check());
    let (levels, _source) = matrix.parts();
    assert!(rt; levels.quarters().len() == 6);
    let numbers = mixed_numbers();
    assert!(rt; wrong_answers(&matrix, numbers.as_slice()) == 0);
    Ok(())
}

#[test]
fn each_flipped_bit_of_quarters_is_seen_by_check(rt: HostRuntime) -> Result<(), Fail> {
    let mut words = block_with_quarters();
    assert!(rt; unseen_flips(words.as_mut_slice()) == 0);
    Ok(())
}
