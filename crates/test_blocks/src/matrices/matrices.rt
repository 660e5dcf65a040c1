//! The block of a small matrix: its words, its answers, and the answers of other words in its place.
use bitm_block::{Block, checksum_of};
use matrix_block::{Answer, BuildError, MatrixView, build, size};
use std::process::Abort;
use std::test::Fail;

/// The numbers of the matrix.
pub(crate) const NUMBERS: [u64; 6] = [3, 1, 4, 1, 5, 1];

/// The block of these numbers of three bits, as a program in Python made it from the tables of docs/FORMAT.md.
pub(crate) const MATRIX: [u64; 80] = [
    0x046261746d746962,
    0x0000000000000006,
    0x0000000000000280,
    0x0000000000000006,
    0x0000000000000003,
    0x0000000000000000,
    0x0000000000000000,
    0x0000000000000000,
    0x0000000000000000,
    0x0000000000000000,
    0x0000000000000000,
    0x0000000000000005,
    0x0000000000000000,
    0x0000000000000000,
    0xa63bab0c5219df35,
    0xb0f9727d50ebe9ec,
    0x0000000000000001,
    0x0000000000000140,
    0x0000000000000001,
    0x714d7548b5ceba02,
    0x0000000000000002,
    0x0000000000000180,
    0x0000000000000001,
    0xa37da37158bd2c5f,
    0x0000000000000003,
    0x00000000000001c0,
    0x0000000000000001,
    0xaee0bc5f6c9addff,
    0x000000000000000b,
    0x0000000000000200,
    0x0000000000000003,
    0xa6352d1a15be3e65,
    0x000000000000000c,
    0x0000000000000240,
    0x0000000000000003,
    0x2e30c77a6ee4ed8e,
    0x0000000000000000,
    0x0000000000000000,
    0x0000000000000000,
    0x0000000000000000,
    0x0000000000037054,
    0x0000000000000000,
    0x0000000000000000,
    0x0000000000000000,
    0x0000000000000000,
    0x0000000000000000,
    0x0000000000000000,
    0x0000000000000000,
    0x0000000000000000,
    0x0000000000000000,
    0x0000000000000000,
    0x0000000000000000,
    0x0000000000000000,
    0x0000000000000000,
    0x0000000000000000,
    0x0000000000000000,
    0x0200400800000000,
    0x0000000000000000,
    0x0000000000000000,
    0x0000000000000000,
    0x0000000000000000,
    0x0000000000000000,
    0x0000000000000000,
    0x0000000000000000,
    0x0000000000000000,
    0x0000000000000002,
    0x0000000000000003,
    0x0000000000000000,
    0x0000000000000000,
    0x0000000000000000,
    0x0000000000000000,
    0x0000000000000000,
    0x0000000000000004,
    0x0000000000000005,
    0x0000000000000001,
    0x0000000000000000,
    0x0000000000000000,
    0x0000000000000000,
    0x0000000000000000,
    0x0000000000000000,
];

/// The number that was found, or 100 for `Absent`, 101 for `Wrong`.
pub(crate) fn coded(answer: Answer<usize>) -> usize {
    match answer {
        Answer::Found(number) => number,
        Answer::Absent => 100,
        Answer::Wrong => 101,
    }
}

/// The number that was found, or 100 for `Absent`, 101 for `Wrong`.
pub(crate) fn number_coded(answer: Answer<u64>) -> u64 {
    match answer {
        Answer::Found(number) => number,
        Answer::Absent => 100,
        Answer::Wrong => 101,
    }
}

/// The six numbers, and one more.
fn numbers(matrix: &MatrixView<'_>) -> [u64; 7] {
    let mut all = [0u64; 7];
    for i in 0..7usize {
        all[i] = number_coded(matrix.get(i));
    }
    all
}

/// The ranks of 1, 4 and 9 before each index up to 7.
fn ranks(matrix: &MatrixView<'_>) -> [usize; 24] {
    let mut all = [0usize; 24];
    for i in 0..8usize {
        all[i] = coded(matrix.rank(1, i));
        all[i + 8] = coded(matrix.rank(4, i));
        all[i + 16] = coded(matrix.rank(9, i));
    }
    all
}

/// Whether each number has three bits, and each rank is at most its index.
fn are_within(numbers: &[u64], ranks: &[usize]) -> bool {
    let mut within = numbers.len() == 7 && ranks.len() == 24;
    for number in numbers {
        within &= *number >= 100 || *number < 8;
    }
    for i in 0..ranks.len() {
        within &= ranks[i] >= 100 || ranks[i] <= i % 8;
    }
    within
}

/// How many flipped bits of the sections are not seen by `check`, or give an answer that no numbers could have.
fn unseen_flips(words: &mut [u64]) -> usize {
    let mut unseen = 0usize;
    for i in 40..words.len() {
        for bit in 0..64u32 {
            words[i] ^= 1u64 << bit;
            if let Some(matrix) = MatrixView::open(&*words) {
                let is_part = i == 40 || i == 48 || i == 56 || i / 8 >= 8 && i % 8 < 3;
                unseen = unseen.wrapping_add((is_part && matrix.check()) as usize);
                let within = are_within(numbers(&matrix).as_slice(), ranks(&matrix).as_slice());
                unseen = unseen.wrapping_add(!within as usize);
            }
            words[i] ^= 1u64 << bit;
        }
    }
    unseen
}

/// How many prefixes of the words, or flipped bits of header and directory, are opened.
fn opened(words: &mut [u64]) -> usize {
    let mut opened = 0usize;
    for len in 0..words.len() {
        opened = opened.wrapping_add(MatrixView::open(&words[..len]).is_some() as usize);
    }
    for i in 0..words.len().min(40) {
        for bit in 0..64u32 {
            words[i] ^= 1u64 << bit;
            opened = opened.wrapping_add(MatrixView::open(&*words).is_some() as usize);
            words[i] ^= 1u64 << bit;
        }
    }
    opened
}

#[test]
fn a_matrix_is_written_and_answers(rt: HostRuntime) -> Result<(), Fail> {
    assert!(rt; size(6, 3, false, false) == Some(80));
    let mut block = [0x5555_5555_5555_5555u64; 80];
    let mut scratch = [0u64; 12];
    let made = build(
        NUMBERS.as_slice(),
        3,
        false,
        false,
        scratch.as_mut_slice(),
        block.as_mut_slice(),
    );
    assert!(rt; made.is_ok());
    assert!(rt; block == MATRIX);
    let Some(matrix) = MatrixView::open(block.as_slice()) else {
        assert!(rt; false, "not opened");
        return Ok(());
    };
    assert!(rt; matrix.check());
    assert!(rt; coded(matrix.select(1, 2)) == 5);
    assert!(rt; coded(matrix.select(5, 0)) == 4);
    assert!(rt; coded(matrix.select(4, 1)) == 100);
    assert!(rt; numbers(&matrix) == [3, 1, 4, 1, 5, 1, 100]);
    assert!(rt;
        ranks(&matrix)
            == [
                0, 0, 1, 1, 2, 2, 3, 100, 0, 0, 0, 1, 1, 1, 1, 100, 0, 0, 0, 0, 0, 0, 0, 100
            ]
    );
    Ok(())
}

/// Numbers below 1000.
pub(crate) fn mixed_numbers() -> [u64; 300] {
    let mut all = [0u64; 300];
    for i in 0..300usize {
        all[i] = (i * 7919 + 13) as u64 % 37 * 27;
    }
    all
}

/// How many numbers, and ranks of these before their indices, differ from the list.
pub(crate) fn wrong_answers(matrix: &MatrixView<'_>, numbers: &[u64]) -> usize {
    let mut wrong = 0usize;
    for i in 0..numbers.len() {
        let mut before = 0usize;
        for k in 0..i {
            before = before.wrapping_add((numbers[k] == numbers[i]) as usize);
        }
        wrong = wrong.wrapping_add((matrix.get(i) != Answer::Found(numbers[i])) as usize);
        let rank = matrix.rank(numbers[i], i);
        wrong = wrong.wrapping_add((rank != Answer::Found(before)) as usize);
    }
    wrong
}

#[test]
fn numbers_of_many_words_come_back(rt: HostRuntime) -> Result<(), Fail> {
    let numbers = mixed_numbers();
    assert!(rt; size(300, 10, false, false) == Some(136));
    let mut block = [0u64; 136];
    let mut scratch = [0u64; 600];
    let made = build(
        numbers.as_slice(),
        10,
        false,
        false,
        scratch.as_mut_slice(),
        block.as_mut_slice(),
    );
    assert!(rt; made.is_ok());
    let Some(matrix) = MatrixView::open(block.as_slice()) else {
        assert!(rt; false, "not opened");
        return Ok(());
    };
    assert!(rt; matrix.check());
    assert!(rt; wrong_answers(&matrix, numbers.as_slice()) == 0);
    Ok(())
}

#[test]
fn each_flipped_bit_of_a_matrix_is_seen_by_check(rt: HostRuntime) -> Result<(), Fail> {
    let mut words = MATRIX;
    assert!(rt; unseen_flips(words.as_mut_slice()) == 0);
    Ok(())
}

#[test]
fn no_prefix_and_no_damaged_header_is_opened(rt: HostRuntime) -> Result<(), Fail> {
    let mut words = MATRIX;
    assert!(rt; opened(words.as_mut_slice()) == 0);
    Ok(())
}

#[test]
fn another_kind_is_no_matrix(rt: HostRuntime) -> Result<(), Fail> {
    let mut words = MATRIX;
    words[1] = 7;
    words[15] = checksum_of(&words.as_slice()[..15]);
    assert!(rt; Block::open(words.as_slice()).is_ok());
    assert!(rt; MatrixView::open(words.as_slice()).is_none());
    let mut words = MATRIX;
    words[3] = 100;
    words[15] = checksum_of(&words.as_slice()[..15]);
    assert!(rt; Block::open(words.as_slice()).is_ok());
    assert!(rt; MatrixView::open(words.as_slice()).is_none());
    Ok(())
}

#[test]
fn no_matrix_is_written_where_there_is_none(rt: HostRuntime) -> Result<(), Fail> {
    let numbers = NUMBERS.as_slice();
    let mut words = [7u64; 80];
    let mut scratch = [0u64; 12];
    let room = scratch.as_mut_slice();
    let block = words.as_mut_slice();
    let wrong = build(numbers, 0, false, false, &mut *room, &mut *block);
    assert!(rt; wrong == Err(BuildError::WrongWidth));
    let wrong = build(numbers, 65, true, true, &mut *room, &mut *block);
    assert!(rt; wrong == Err(BuildError::WrongWidth));
    let wrong = build(numbers, 2, false, false, &mut *room, &mut *block);
    assert!(rt; wrong == Err(BuildError::TooWide));
    // whatever the numbers are, a wrong length comes first
    let wrong = build(numbers, 2, false, false, &mut *room, &mut block[..72]);
    assert!(rt; wrong == Err(BuildError::WrongLength));
    let wrong = build(numbers, 2, false, false, &mut room[..11], &mut *block);
    assert!(rt; wrong == Err(BuildError::WrongScratch));
    let wrong = build(numbers, 3, false, false, &mut *room, &mut block[..72]);
    assert!(rt; wrong == Err(BuildError::WrongLength));
    let wrong = build(numbers, 3, true, false, &mut *room, &mut *block);
    assert!(rt; wrong == Err(BuildError::WrongLength));
    let wrong = build(numbers, 3, false, true, &mut *room, &mut *block);
    assert!(rt; wrong == Err(BuildError::WrongLength));
    let wrong = build(numbers, 3, false, false, &mut room[..11], &mut *block);
    assert!(rt; wrong == Err(BuildError::WrongScratch));
    assert!(rt; words == [7u64; 80]);
    assert!(rt; size(1 << 60, 8, true, true).is_none());
    Ok(())
}
