//! A matrix with hints: its indices beside a plain loop, its hints beside a walk over its bits, other numbers for its
//! hints, and hints of another length.
use crate::matrices::matrices::{mixed_numbers, wrong_answers};
use bitm_block::{Head, Section, seal};
use matrix_block::{Answer, MATRIX, MatrixView, build, matrix_sections, size};
use std::process::Abort;
use std::test::Fail;

/// How many words the hints of 300 numbers of ten bits take: of 47 words of bits.
const HINTS: usize = 13;

/// The block of the mixed numbers with hints, and without quarters.
fn block_with_hints() -> [u64; 152] {
    let numbers = mixed_numbers();
    let mut block = [0u64; 152];
    let mut scratch = [0u64; 600];
    let room = scratch.as_mut_slice();
    let _made = build(
        numbers.as_slice(),
        10,
        false,
        true,
        room,
        block.as_mut_slice(),
    );
    block
}

/// The block of the mixed numbers with quarters and hints.
fn block_with_both() -> [u64; 168] {
    let numbers = mixed_numbers();
    let mut block = [0u64; 168];
    let mut scratch = [0u64; 600];
    let room = scratch.as_mut_slice();
    let _made = build(
        numbers.as_slice(),
        10,
        true,
        true,
        room,
        block.as_mut_slice(),
    );
    block
}

/// How many numbers are not found at their index of the list, or are found more often than they are there.
fn wrong_indices(matrix: &MatrixView<'_>, numbers: &[u64]) -> usize {
    let mut wrong = 0usize;
    for i in 0..numbers.len() {
        let mut before = 0usize;
        let mut all = 0usize;
        for k in 0..numbers.len() {
            let same = numbers[k] == numbers[i];
            before = before.wrapping_add((same && k < i) as usize);
            all = all.wrapping_add(same as usize);
        }
        let index = matrix.select(numbers[i], before);
        wrong = wrong.wrapping_add((index != Answer::Found(i)) as usize);
        let none = matrix.select(numbers[i], all);
        wrong = wrong.wrapping_add((none != Answer::Absent) as usize);
    }
    wrong
}

/// How many bits of the words are 1 bits.
fn ones_of(words: &[u64]) -> usize {
    let mut ones = 0usize;
    for i in 0..words.len() {
        ones = ones.wrapping_add(words[i].count_ones() as usize);
    }
    ones
}

/// The position of the bit of this kind with the given number of such bits before it; 2^32 - 1 where there is none.
fn position_of(words: &[u64], kind: u64, before: usize) -> u64 {
    let mut seen = 0usize;
    for i in 0..words.len() {
        for bit in 0..64u32 {
            if (words[i] >> bit) % 2 == kind {
                if seen == before {
                    return (i as u64).wrapping_mul(64).wrapping_add(bit as u64);
                }
                seen = seen.wrapping_add(1);
            }
        }
    }
    0xFFFF_FFFF
}

/// How many halves of the words of hints from one on are not the hints of the bits of this kind.
fn wrong_hints(words: &[u64], kind: u64, hints: &[u64]) -> usize {
    let mut wrong = 0usize;
    for k in 0..hints.len() {
        let low = position_of(words, kind, k.wrapping_mul(256));
        let high = position_of(words, kind, k.wrapping_mul(256).wrapping_add(128));
        wrong = wrong.wrapping_add((hints[k] != (high << 32 | low)) as usize);
    }
    wrong
}

/// How many words of the hints of a matrix are not those of its words, or are missing.
fn unlike(matrix: &MatrixView<'_>) -> usize {
    let words = matrix.words();
    let hints = matrix.hints();
    let of_ones = ones_of(words).div_ceil(256);
    if hints.len() != HINTS || of_ones > HINTS {
        return 100;
    }
    let wrong = wrong_hints(words, 1, &hints[..of_ones]);
    wrong.wrapping_add(wrong_hints(words, 0, &hints[of_ones..]))
}

/// Whether each index that is found is one of the numbers.
fn are_within(matrix: &MatrixView<'_>, numbers: &[u64]) -> bool {
    for i in 0..numbers.len() {
        if let Answer::Found(index) = matrix.select(numbers[i], i % 9) {
            if index >= matrix.len() {
                return false;
            }
        }
    }
    true
}

/// How many flipped bits of the hints, which begin at word `at`, `check` does not see, or lead past the numbers.
fn unseen_flips(words: &mut [u64], at: usize, numbers: &[u64]) -> usize {
    let mut unseen = 0usize;
    for i in at..words.len().min(at.saturating_add(HINTS)) {
        for bit in 0..64u32 {
            words[i] ^= 1u64 << bit;
            if let Some(matrix) = MatrixView::open(&*words) {
                unseen = unseen.wrapping_add(matrix.check() as usize);
                unseen = unseen.wrapping_add(
                    !are_within(&matrix, &numbers[..numbers.len().min(9)]) as usize,
                );
            }
            words[i] ^= 1u64 << bit;
        }
    }
    unseen
}

#[test]
fn a_matrix_with_hints_answers_as_its_numbers(rt: HostRuntime) -> Result<(), Fail> {
    assert!(rt; size(300, 10, false, true) == Some(152));
    let block = block_with_hints();
    let Some(matrix) = MatrixView::open(block.as_slice()) else {
        assert!(rt; false, "not opened");
        return Ok(());
    };
    assert!(rt; matrix.check());
    let numbers = mixed_numbers();
    assert!(rt; wrong_answers(&matrix, numbers.as_slice()) == 0);
    assert!(rt; wrong_indices(&matrix, numbers.as_slice()) == 0);
    assert!(rt; unlike(&matrix) == 0);
    Ok(())
}

#[test]
fn a_matrix_with_quarters_and_hints_answers_too(rt: HostRuntime) -> Result<(), Fail> {
    // the directory has seven entries, so that the first section begins 8 words later
    assert!(rt; size(300, 10, true, true) == Some(168));
    let block = block_with_both();
    let Some(matrix) = MatrixView::open(block.as_slice()) else {
        assert!(rt; false, "not opened");
        return Ok(());
    };
    assert!(rt; matrix.check());
    let (levels, _source) = matrix.parts();
    assert!(rt; levels.quarters().len() == 6);
    let numbers = mixed_numbers();
    assert!(rt; wrong_answers(&matrix, numbers.as_slice()) == 0);
    assert!(rt; wrong_indices(&matrix, numbers.as_slice()) == 0);
    assert!(rt; unlike(&matrix) == 0);
    Ok(())
}

#[test]
fn each_flipped_bit_of_hints_is_seen_by_check(rt: HostRuntime) -> Result<(), Fail> {
    let numbers = mixed_numbers();
    let mut words = block_with_hints();
    assert!(rt; unseen_flips(words.as_mut_slice(), 136, numbers.as_slice()) == 0);
    let mut words = block_with_both();
    assert!(rt; unseen_flips(words.as_mut_slice(), 152, numbers.as_slice()) == 0);
    Ok(())
}

#[test]
fn hints_of_other_words_change_neither_numbers_nor_ranks(rt: HostRuntime) -> Result<(), Fail> {
    let mut words = block_with_hints();
    for i in 136..149 {
        words[i] = words[i].wrapping_mul(0x9e37_79b9_7f4a_7c15);
    }
    let Some(matrix) = MatrixView::open(words.as_slice()) else {
        assert!(rt; false, "not opened");
        return Ok(());
    };
    assert!(rt; !matrix.check());
    let numbers = mixed_numbers();
    assert!(rt; wrong_answers(&matrix, numbers.as_slice()) == 0);
    assert!(rt; are_within(&matrix, numbers.as_slice()));
    Ok(())
}

#[test]
fn hints_of_another_length_are_none(rt: HostRuntime) -> Result<(), Fail> {
    let numbers = mixed_numbers();
    // the words of the hints are there, and the directory says that there are fewer
    let mut words = block_with_hints();
    let five = matrix_sections(300, 10);
    let fewer = Section::of(22, 12);
    let sections = [five[0], five[1], five[2], five[3], five[4], fewer];
    let head = Head {
        kind: MATRIX,
        len: 300,
        width: 10,
        ones_log2: 0,
        zeros_log2: 0,
        a: 0,
        b: 0,
        c: 0,
    };
    let made = seal(&head, sections.as_slice(), words.as_mut_slice());
    assert!(rt; made.is_ok());
    let Some(matrix) = MatrixView::open_checked(words.as_slice()) else {
        assert!(rt; false, "not opened");
        return Ok(());
    };
    assert!(rt; matrix.hints().is_empty());
    assert!(rt; wrong_indices(&matrix, numbers.as_slice()) == 0);
    Ok(())
}
