//! The block of seven numbers: its words, its answers, and the answers of other words in its place.
use bitm_block::{Block, checksum_of};
use sequence_block::{Answer, BuildError, SequenceView, build, check, open, size};
use std::process::Abort;
use std::test::Fail;

/// The numbers of the block.
pub const NUMBERS: [u64; 7] = [2, 3, 5, 7, 11, 13, 24];

/// Their block, as a program in Python made it from the tables of docs/FORMAT.md.
pub const BLOCK: [u64; 80] = [
    0x046261746d746962,
    0x0000000000000003,
    0x0000000000000280,
    0x0000000000000007,
    0x0000000000000001,
    0x0000000000000000,
    0x0000000000000000,
    0x0000000000000000,
    0x0000000000000000,
    0x0000000000000000,
    0x0000000000000000,
    0x0000000000000005,
    0x0000000000000000,
    0x0000000000000000,
    0xc0b91d17fdb7d694,
    0x58bb0df21bf0b097,
    0x0000000000000001,
    0x0000000000000140,
    0x0000000000000001,
    0x6167cdd58045d726,
    0x0000000000000002,
    0x0000000000000180,
    0x0000000000000001,
    0xa37da37158bd2c5f,
    0x0000000000000003,
    0x00000000000001c0,
    0x0000000000000001,
    0x88858817877cf213,
    0x0000000000000009,
    0x0000000000000200,
    0x0000000000000001,
    0x059cb294c469d5af,
    0x0000000000000016,
    0x0000000000000240,
    0x0000000000000002,
    0xb214668b4d20dab5,
    0x0000000000000000,
    0x0000000000000000,
    0x0000000000000000,
    0x0000000000000000,
    0x0000000000040a56,
    0x0000000000000000,
    0x0000000000000000,
    0x0000000000000000,
    0x0000000000000000,
    0x0000000000000000,
    0x0000000000000000,
    0x0000000000000000,
    0x0000000000000000,
    0x0000000000000000,
    0x0000000000000000,
    0x0000000000000000,
    0x0000000000000000,
    0x0000000000000000,
    0x0000000000000000,
    0x0000000000000000,
    0x01c0380700000000,
    0x0000000000000000,
    0x0000000000000000,
    0x0000000000000000,
    0x0000000000000000,
    0x0000000000000000,
    0x0000000000000000,
    0x0000000000000000,
    0x000000000000003e,
    0x0000000000000000,
    0x0000000000000000,
    0x0000000000000000,
    0x0000000000000000,
    0x0000000000000000,
    0x0000000000000000,
    0x0000000000000000,
    0xffffffff00000001,
    0xffffffff00000000,
    0x0000000000000000,
    0x0000000000000000,
    0x0000000000000000,
    0x0000000000000000,
    0x0000000000000000,
    0x0000000000000000,
];

/// The number that was found, or 1000 for `Absent`, 1001 for `Wrong`.
fn number_of(answer: Answer<u64>) -> u64 {
    match answer {
        Answer::Found(number) => number,
        Answer::Absent => 1000,
        Answer::Wrong => 1001,
    }
}

/// The index that was found, or 1000 for `Absent`, 1001 for `Wrong`.
fn position_of(answer: Answer<usize>) -> usize {
    match answer {
        Answer::Found(position) => position,
        Answer::Absent => 1000,
        Answer::Wrong => 1001,
    }
}

/// The numbers, and one after them.
pub fn numbers(sequence: &SequenceView<'_>) -> [u64; 8] {
    let mut all = [0u64; 8];
    for i in 0..8usize {
        all[i] = number_of(sequence.get(i));
    }
    all
}

/// The successors of 0, 8, 24 and 25, and the predecessors of 1, 2, 12 and 100.
pub fn positions(sequence: &SequenceView<'_>) -> [usize; 8] {
    [
        position_of(sequence.first_at_least(0)),
        position_of(sequence.first_at_least(8)),
        position_of(sequence.first_at_least(24)),
        position_of(sequence.first_at_least(25)),
        position_of(sequence.last_at_most(1)),
        position_of(sequence.last_at_most(2)),
        position_of(sequence.last_at_most(12)),
        position_of(sequence.last_at_most(100)),
    ]
}

/// How many bits of the words can be flipped, one at a time, so that they are accepted all the same.
fn unseen_flips(words: &mut [u64]) -> usize {
    let mut unseen = 0usize;
    for i in 0..words.len() {
        for bit in 0..64u32 {
            words[i] ^= 1u64 << bit;
            unseen = unseen.wrapping_add(check(&*words) as usize);
            words[i] ^= 1u64 << bit;
        }
    }
    unseen
}

/// How many prefixes of the words are opened.
fn opened_prefixes(words: &[u64]) -> usize {
    let mut opened = 0usize;
    for len in 0..words.len() {
        opened = opened.wrapping_add(open(&words[..len]).is_some() as usize);
    }
    opened
}

#[test]
fn numbers_are_written_and_answer(rt: HostRuntime) -> Result<(), Fail> {
    assert!(rt; size(7, 24) == Some(80));
    assert!(rt; size(1 << 56, 24).is_none());
    let mut block = [0x5555_5555_5555_5555u64; 80];
    assert!(rt; build(NUMBERS.as_slice(), block.as_mut_slice()).is_ok());
    assert!(rt; block == BLOCK);
    assert!(rt; check(block.as_slice()));
    let Some(sequence) = open(block.as_slice()) else {
        assert!(rt; false, "not opened");
        return Ok(());
    };
    assert!(rt; sequence.len() == 7);
    assert!(rt; numbers(&sequence) == [2, 3, 5, 7, 11, 13, 24, 1000]);
    assert!(rt; positions(&sequence) == [0, 4, 6, 1000, 1000, 0, 4, 6]);
    Ok(())
}

#[test]
fn each_flipped_bit_is_seen(rt: HostRuntime) -> Result<(), Fail> {
    let mut words = BLOCK;
    assert!(rt; unseen_flips(words.as_mut_slice()) == 0);
    assert!(rt; opened_prefixes(words.as_slice()) == 0);
    Ok(())
}

#[test]
fn other_words_are_no_sequence(rt: HostRuntime) -> Result<(), Fail> {
    // another kind, another number of numbers, more low bits than a number has, with the right checksum
    let mut words = BLOCK;
    words[1] = 2;
    words[15] = checksum_of(&words.as_slice()[..15]);
    assert!(rt; Block::open(words.as_slice()).is_ok());
    assert!(rt; open(words.as_slice()).is_none());
    let mut words = BLOCK;
    words[3] = 65;
    words[15] = checksum_of(&words.as_slice()[..15]);
    assert!(rt; open(words.as_slice()).is_none());
    let mut words = BLOCK;
    words[4] = 257;
    words[15] = checksum_of(&words.as_slice()[..15]);
    assert!(rt; open(words.as_slice()).is_none());
    Ok(())
}

#[test]
fn a_wrong_length_is_reported_before_numbers_that_fall(rt: HostRuntime) -> Result<(), Fail> {
    let mut longer = [7u64; 80];
    assert!(rt; build([3u64, 2].as_slice(), longer.as_mut_slice()) == Err(BuildError::WrongLength));
    let mut block = [7u64; 72];
    assert!(rt; build([3u64, 2].as_slice(), block.as_mut_slice()) == Err(BuildError::NotSorted));
    assert!(rt; longer == [7u64; 80] && block == [7u64; 72]);
    Ok(())
}

#[test]
fn nothing_is_written_where_there_is_no_block(rt: HostRuntime) -> Result<(), Fail> {
    let mut block = [7u64; 80];
    assert!(rt;
        build(NUMBERS.as_slice(), &mut block.as_mut_slice()[..72]) == Err(BuildError::WrongLength)
    );
    assert!(rt; block == [7u64; 80]);
    Ok(())
}
