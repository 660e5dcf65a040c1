//! Each query of each position and rank beside a walk over the digits.
use crate::digit_lines::made::{Made, drawn, make_lines};
use digits::answer::Answer;
use std::alloc::Global;
use std::process::Abort;
use std::test::Fail;

/// Whether the queries at the end of the digits are right, of which each has a count.
fn agrees_at_end(made: &Made, counts: &[usize; 4]) -> bool {
    let len = made.len;
    let mut agrees = made.digit(len) == None && made.digit_and_rank(len) == None;
    for digit in 0..4u8 {
        let count = counts[digit as usize];
        agrees &= made.rank(digit, len) == Some(count) && made.count(digit) == Some(count);
        agrees &= made.rank(digit, len.wrapping_add(1)) == None;
        agrees &= made.rank(digit, usize::MAX) == None;
        agrees &= made.select(digit, count) == Some(Answer::Absent);
        agrees &= made.select(digit, usize::MAX) == Some(Answer::Absent);
    }
    agrees
}

/// Whether the queries of a position are right: its digit, and how many of each are before it.
fn agrees_at(made: &Made, position: usize, digit: u8, counts: &[usize; 4]) -> bool {
    let seen = counts[digit as usize % 4];
    let mut agrees = made.digit(position) == Some(digit);
    for other in 0..4u8 {
        agrees &= made.rank(other, position) == Some(counts[other as usize]);
    }
    agrees &= made.digit_and_rank(position) == Some((digit, seen));
    agrees && made.select(digit, seen) == Some(Answer::Found(position))
}

/// Whether the queries are as a walk over the numbers counts, of which a digit is worked out by division: at each of
/// the last 300 positions, and before them at one of `step`.
fn agrees(made: &Made, numbers: &[u64], power: u64, step: usize) -> bool {
    let mut counts = [0usize; 4];
    let mut agrees = made.len == numbers.len() && made.is_right();
    for position in 0..numbers.len() {
        let value = (numbers[position] / power.max(1) % 4) as usize;
        if position % step.max(1) == 0 || numbers.len() - position <= 300 {
            agrees &= agrees_at(made, position, value as u8, &counts);
        }
        counts[value] = counts[value].wrapping_add(1);
    }
    agrees && agrees_at_end(made, &counts)
}

/// Whether the queries of a drawn list are right, its digits taken from bit 4 on.
fn is_right(alloc: Global, len: usize, kind: u64, step: usize) -> Result<bool, Fail> {
    let numbers = drawn(alloc, len, kind)?;
    let made = make_lines(alloc, numbers.as_slice(), 4)?;
    Ok(agrees(&made, numbers.as_slice(), 16, step))
}

#[test]
fn queries_of_edge_lengths_agree_with_a_walk(rt: HostRuntime) -> Result<(), Fail> {
    for len in [0, 1, 127, 128, 129, 223, 224, 225, 447, 448, 449] {
        for kind in 0..6u64 {
            assert!(rt; is_right(rt.alloc(), len, kind, 1)?);
        }
    }
    Ok(())
}

#[test]
fn queries_around_the_end_of_an_entry_agree_with_a_walk(rt: HostRuntime) -> Result<(), Fail> {
    // An entry of the table counts 256 lines of 224 digits.
    for (len, kind) in [
        (57343, 0),
        (57344, 1),
        (57345, 4),
        (120_000, 0),
        (60_000, 5),
    ] {
        assert!(rt; is_right(rt.alloc(), len, kind, 61)?);
    }
    Ok(())
}

#[test]
fn digits_are_the_two_bits_from_any_position_on(rt: HostRuntime) -> Result<(), Fail> {
    let numbers = drawn(rt.alloc(), 500, 0)?;
    let numbers = numbers.as_slice();
    for (position, power) in [(0, 1), (1, 2), (31, 1 << 31), (62, 1 << 62), (63, 1 << 63)] {
        let made = make_lines(rt.alloc(), numbers, position)?;
        assert!(rt; agrees(&made, numbers, power, 1));
    }
    Ok(())
}
