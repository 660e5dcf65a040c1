//! Blocks of sequences with hints, without them, and with wrong ones.
use crate::sequences::sequences::{BLOCK, NUMBERS, numbers, positions};
use bitm_block::checksum_of;
use sequence_block::{Answer, SequenceView, build, check, open, size};
use std::process::Abort;
use std::test::Fail;

/// The block of the seven numbers as it was written before there were hints.
fn without_hints() -> [u64; 64] {
    let mut words = [0u64; 64];
    for at in 0..32usize {
        words[at] = BLOCK[at];
        words[at + 32] = BLOCK[at + 40];
    }
    // the size, the number of sections, and both checksums, by the same program
    words[2] = 0x200;
    words[11] = 4;
    words[14] = 0xafcf_3260_ef18_e354;
    words[15] = 0x991d_9e47_36e4_8afc;
    // where the sections begin
    for i in 0..4usize {
        words[17 + 4 * i] = 0x100 + 0x40 * i as u64;
    }
    words
}

#[test]
fn a_block_without_hints_answers_too(rt: HostRuntime) -> Result<(), Fail> {
    let words = without_hints();
    assert!(rt; check(words.as_slice()));
    let Some(sequence) = open(words.as_slice()) else {
        assert!(rt; false, "not opened");
        return Ok(());
    };
    assert!(rt; numbers(&sequence) == [2, 3, 5, 7, 11, 13, 24, 1000]);
    assert!(rt; positions(&sequence) == [0, 4, 6, 1000, 1000, 0, 4, 6]);
    Ok(())
}

/// Whether each index is one of the seven numbers, or none.
fn are_within(positions: &[usize]) -> bool {
    for i in 0..positions.len() {
        if positions[i] >= NUMBERS.len() && positions[i] < 1000 {
            return false;
        }
    }
    true
}

#[test]
fn wrong_hints_are_seen_by_check(rt: HostRuntime) -> Result<(), Fail> {
    // the first 1 bit would be at position 3
    let mut words = BLOCK;
    words[72] ^= 2;
    let Some(sequence) = open(words.as_slice()) else {
        assert!(rt; false, "not opened");
        return Ok(());
    };
    assert!(rt; !sequence.check());
    assert!(rt; are_within(positions(&sequence).as_slice()));
    Ok(())
}

/// A thousand numbers: 500 in a row, and after a gap of more than eight words of high bits as many again.
fn apart() -> [u64; 1000] {
    let mut all = [0u64; 1000];
    for i in 0..1000usize {
        all[i] = if i < 500 {
            i as u64
        } else {
            1_000_000 + i as u64
        };
    }
    all
}

/// How many of these numbers a sequence answers otherwise than they are, or finds elsewhere, or not.
fn unlike(sequence: &SequenceView<'_>, all: &[u64]) -> usize {
    let mut wrong = 0usize;
    for i in 0..all.len() {
        let v = all[i];
        wrong = wrong.wrapping_add((sequence.get(i) != Answer::Found(v)) as usize);
        wrong = wrong.wrapping_add((sequence.first_at_least(v) != Answer::Found(i)) as usize);
        wrong = wrong.wrapping_add((sequence.last_at_most(v) != Answer::Found(i)) as usize);
        wrong = wrong.wrapping_add((sequence.contains(v) != Some(true)) as usize);
    }
    wrong
}

#[test]
fn numbers_far_from_their_hints_are_found(rt: HostRuntime) -> Result<(), Fail> {
    let all = apart();
    assert!(rt; size(1000, 1_000_999) == Some(264));
    let mut block = [0u64; 264];
    assert!(rt; build(all.as_slice(), block.as_mut_slice()).is_ok());
    assert!(rt; check(block.as_slice()));
    // by a program in Python, from the tables of docs/FORMAT.md
    assert!(rt; checksum_of(block.as_slice()) == 0xf321_034a_0b6f_1906);
    let Some(sequence) = open(block.as_slice()) else {
        assert!(rt; false, "not opened");
        return Ok(());
    };
    assert!(rt; unlike(&sequence, all.as_slice()) == 0);
    // a value in the gap, and one past the last number
    assert!(rt; sequence.first_at_least(5000) == Answer::Found(500));
    assert!(rt; sequence.last_at_most(5000) == Answer::Found(499));
    assert!(rt; sequence.contains(5000) == Some(false));
    assert!(rt; sequence.first_at_least(1_001_000) == Answer::Absent);
    assert!(rt; sequence.contains(1_001_000) == Some(false));
    Ok(())
}
