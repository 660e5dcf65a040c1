//! The block of four 1 bits among 5000: its words, its answers, and the answers of other words in its place.
use bitm_block::{Block, checksum_of};
use sequence_block::sparse::{Answer, BuildError, SparseView, build, check, size};
use std::process::Abort;
use std::test::Fail;

/// The positions of the 1 bits.
const POSITIONS: [u64; 4] = [3, 100, 101, 4000];

/// Their block, as a program in Python made it from the tables of docs/FORMAT.md.
const BLOCK: [u64; 80] = [
    0x046261746d746962,
    0x0000000000000004,
    0x0000000000000280,
    0x0000000000000004,
    0x0000000000000009,
    0x0000000000000000,
    0x0000000000000000,
    0x0000000000000000,
    0x0000000000000000,
    0x0000000000001388,
    0x0000000000000000,
    0x0000000000000005,
    0x0000000000000000,
    0x0000000000000000,
    0x1ce2a7803ff017ac,
    0xe8904e17a99dd6ce,
    0x0000000000000001,
    0x0000000000000140,
    0x0000000000000001,
    0xa56b82b3991bbbc0,
    0x0000000000000002,
    0x0000000000000180,
    0x0000000000000001,
    0xa37da37158bd2c5f,
    0x0000000000000003,
    0x00000000000001c0,
    0x0000000000000001,
    0xbe90b554423902f2,
    0x0000000000000009,
    0x0000000000000200,
    0x0000000000000001,
    0xbebb8afc9acd2f71,
    0x0000000000000016,
    0x0000000000000240,
    0x0000000000000002,
    0x0d41f1b7dac9fee7,
    0x0000000000000000,
    0x0000000000000000,
    0x0000000000000000,
    0x0000000000000000,
    0x0000000000000407,
    0x0000000000000000,
    0x0000000000000000,
    0x0000000000000000,
    0x0000000000000000,
    0x0000000000000000,
    0x0000000000000000,
    0x0000000000000000,
    0x0000000000000000,
    0x0000000000000000,
    0x0000000000000000,
    0x0000000000000000,
    0x0000000000000000,
    0x0000000000000000,
    0x0000000000000000,
    0x0000000000000000,
    0x0100200400000000,
    0x0000000000000000,
    0x0000000000000000,
    0x0000000000000000,
    0x0000000000000000,
    0x0000000000000000,
    0x0000000000000000,
    0x0000000000000000,
    0x0000000d0194c803,
    0x0000000000000000,
    0x0000000000000000,
    0x0000000000000000,
    0x0000000000000000,
    0x0000000000000000,
    0x0000000000000000,
    0x0000000000000000,
    0xffffffff00000000,
    0xffffffff00000003,
    0x0000000000000000,
    0x0000000000000000,
    0x0000000000000000,
    0x0000000000000000,
    0x0000000000000000,
    0x0000000000000000,
];

/// The number that was found, or 9000 for `Absent`, 9001 for `Wrong`.
fn number_of(answer: Answer<usize>) -> usize {
    match answer {
        Answer::Found(number) => number,
        Answer::Absent => 9000,
        Answer::Wrong => 9001,
    }
}

/// 0 or 1 for the bit that was found, or 9000 for `Absent`, 9001 for `Wrong`.
fn digit_of(answer: Answer<bool>) -> usize {
    match answer {
        Answer::Found(bit) => bit as usize,
        Answer::Absent => 9000,
        Answer::Wrong => 9001,
    }
}

/// How many of the first 0, 3, 4, 101, 102, 4001, 5000 and 5001 bits are 1 bits.
fn ranks(bits: &SparseView<'_>) -> [usize; 8] {
    [
        number_of(bits.rank(0)),
        number_of(bits.rank(3)),
        number_of(bits.rank(4)),
        number_of(bits.rank(101)),
        number_of(bits.rank(102)),
        number_of(bits.rank(4001)),
        number_of(bits.rank(5000)),
        number_of(bits.rank(5001)),
    ]
}

/// How many of them are 0 bits.
fn ranks0(bits: &SparseView<'_>) -> [usize; 8] {
    [
        number_of(bits.rank0(0)),
        number_of(bits.rank0(3)),
        number_of(bits.rank0(4)),
        number_of(bits.rank0(101)),
        number_of(bits.rank0(102)),
        number_of(bits.rank0(4001)),
        number_of(bits.rank0(5000)),
        number_of(bits.rank0(5001)),
    ]
}

/// The positions of the 1 bits with ranks 0 to 4, and of the 0 bits with ranks 0, 3, 98, 99, 3996, 3997, 4995 and 4996.
fn selections(bits: &SparseView<'_>) -> [usize; 13] {
    [
        number_of(bits.select(0)),
        number_of(bits.select(1)),
        number_of(bits.select(2)),
        number_of(bits.select(3)),
        number_of(bits.select(4)),
        number_of(bits.select0(0)),
        number_of(bits.select0(3)),
        number_of(bits.select0(98)),
        number_of(bits.select0(99)),
        number_of(bits.select0(3996)),
        number_of(bits.select0(3997)),
        number_of(bits.select0(4995)),
        number_of(bits.select0(4996)),
    ]
}

/// The bits at positions 3, 4, 100, 4999 and 5000.
fn digits(bits: &SparseView<'_>) -> [usize; 5] {
    [
        digit_of(bits.get_bit(3)),
        digit_of(bits.get_bit(4)),
        digit_of(bits.get_bit(100)),
        digit_of(bits.get_bit(4999)),
        digit_of(bits.get_bit(5000)),
    ]
}

/// The nearest bits: the 1 bits from 4 and 4001 on, the 0 bits from 100 and 5000 on, the 1 bits up to 99, 2 and 9000,
/// and the 0 bits up to 101.
fn neighbours(bits: &SparseView<'_>) -> [usize; 8] {
    [
        number_of(bits.next(true, 4)),
        number_of(bits.next(true, 4001)),
        number_of(bits.next(false, 100)),
        number_of(bits.next(false, 5000)),
        number_of(bits.previous(true, 99)),
        number_of(bits.previous(true, 2)),
        number_of(bits.previous(true, 9000)),
        number_of(bits.previous(false, 101)),
    ]
}

/// How many bits of the words can be flipped, one at a time, so that they are accepted all the same.
fn unseen_flips(words: &mut [u64]) -> usize {
    let mut unseen = 0usize;
    for i in 0..words.len() {
        for bit in 0..64u32 {
            words[i] ^= 1u64 << bit;
            unseen = unseen.wrapping_add(check(&*words) as usize);
            words[i] ^= 1u64 << bit;
        }
    }
    unseen
}

#[test]
fn positions_are_written_and_answer(rt: HostRuntime) -> Result<(), Fail> {
    assert!(rt; size(4, 4000) == Some(80));
    let mut block = [7u64; 80];
    assert!(rt; build(POSITIONS.as_slice(), 5000, block.as_mut_slice()) == Ok(()));
    assert!(rt; block == BLOCK);
    assert!(rt; check(block.as_slice()));
    let Some(bits) = SparseView::open(block.as_slice()) else {
        assert!(rt; false, "not opened");
        return Ok(());
    };
    assert!(rt; bits.len() == 5000 && bits.count_bit_ones() == 4);
    assert!(rt; ranks(&bits) == [0, 0, 1, 2, 3, 4, 4, 9000]);
    assert!(rt; ranks0(&bits) == [0, 3, 3, 99, 99, 3997, 4996, 9000]);
    assert!(rt;
        selections(&bits)
            == [
                3, 100, 101, 4000, 9000, 0, 4, 99, 102, 3999, 4001, 4999, 9000
            ]
    );
    assert!(rt; digits(&bits) == [1, 0, 1, 0, 9000]);
    assert!(rt; neighbours(&bits) == [100, 9000, 102, 9000, 3, 9000, 4000, 99]);
    Ok(())
}

#[test]
fn each_flipped_bit_is_seen(rt: HostRuntime) -> Result<(), Fail> {
    let mut words = BLOCK;
    assert!(rt; unseen_flips(words.as_mut_slice()) == 0);
    for len in 0..80usize {
        assert!(rt; SparseView::open(&BLOCK.as_slice()[..len]).is_none());
    }
    Ok(())
}

#[test]
fn fewer_bits_than_positions_are_wrong(rt: HostRuntime) -> Result<(), Fail> {
    // three bits, with the right checksum, in which no position but 0 to 2 is a bit
    let mut words = BLOCK;
    words[9] = 3;
    words[15] = checksum_of(&words.as_slice()[..15]);
    assert!(rt; Block::open(words.as_slice()).is_ok() && !check(words.as_slice()));
    let Some(bits) = SparseView::open(words.as_slice()) else {
        assert!(rt; false, "not opened");
        return Ok(());
    };
    assert!(rt; bits.select(0) == Answer::Wrong && bits.select(4) == Answer::Absent);
    assert!(rt; bits.select0(0) == Answer::Wrong);
    assert!(rt; bits.rank(3) == Answer::Found(0) && bits.rank(4) == Answer::Absent);
    Ok(())
}

#[test]
fn other_words_are_no_sparse_bits(rt: HostRuntime) -> Result<(), Fail> {
    // the kind of a sequence, with the right checksum
    let mut words = BLOCK;
    words[1] = 3;
    words[15] = checksum_of(&words.as_slice()[..15]);
    assert!(rt; Block::open(words.as_slice()).is_ok());
    assert!(rt; SparseView::open(words.as_slice()).is_none());
    Ok(())
}

#[test]
fn nothing_is_written_where_there_is_no_block(rt: HostRuntime) -> Result<(), Fail> {
    let mut block = [7u64; 80];
    let all = block.as_mut_slice();
    assert!(rt; build([3u64, 3].as_slice(), 5000, &mut all[..72]) == Err(BuildError::NotRising));
    assert!(rt; build([3u64, 3].as_slice(), 2, &mut all[..72]) == Err(BuildError::NotRising));
    assert!(rt; build(POSITIONS.as_slice(), 4000, &mut *all) == Err(BuildError::PastEnd));
    // whatever the positions are, a wrong length comes first
    assert!(rt; build(POSITIONS.as_slice(), 5000, &mut all[..72]) == Err(BuildError::WrongLength));
    assert!(rt; build(POSITIONS.as_slice(), 4000, &mut all[..72]) == Err(BuildError::WrongLength));
    assert!(rt; build([3u64, 3].as_slice(), 2, &mut *all) == Err(BuildError::WrongLength));
    assert!(rt; block == [7u64; 80]);
    Ok(())
}

#[test]
fn all_bits_and_none(rt: HostRuntime) -> Result<(), Fail> {
    let mut block = [0u64; 72];
    assert!(rt; size(3, 2) == Some(72));
    assert!(rt; build([0u64, 1, 2].as_slice(), 3, block.as_mut_slice()) == Ok(()));
    let Some(bits) = SparseView::open(block.as_slice()) else {
        assert!(rt; false, "not opened");
        return Ok(());
    };
    assert!(rt; bits.rank(3) == Answer::Found(3) && bits.rank0(3) == Answer::Found(0));
    assert!(rt; bits.select0(0) == Answer::Absent && bits.select(2) == Answer::Found(2));
    Ok(())
}
