//! Each query of each index and number beside a walk over the numbers.
use crate::digit_matrix::kept::{Kept, make_levels};
use digit_levels::answer::Answer;
use std::alloc::Global;
use std::process::Abort;
use std::test::Fail;

/// Numbers of `width` bits that look random (xorshift), few of them distinct for an odd kind.
pub fn drawn(alloc: Global, len: usize, width: u8, kind: u64) -> Result<Vec<u64>, Fail> {
    let mut numbers = Vec::new(alloc);
    let mut state = 88_172_645_463_325_252u64 ^ kind;
    let mask = u64::MAX >> (64 - width.clamp(1, 64));
    for _ in 0..len {
        state ^= state << 13;
        state ^= state >> 7;
        state ^= state << 17;
        numbers.push(if kind % 2 == 0 {
            state & mask
        } else {
            state % 5 * 0x3333_3333_3333_3333 & mask
        })?;
    }
    Ok(numbers)
}

/// Whether the ranks and the selections of one number are right.
fn agrees_of(kept: &Kept, numbers: &[u64], number: u64) -> bool {
    let mut agrees = true;
    let mut seen = 0usize;
    for i in 0..numbers.len() {
        agrees &= kept.rank(number, i) == Some(Answer::Found(seen));
        if numbers[i] == number {
            agrees &= kept.select(number, seen) == Some(Answer::Found(i));
            seen = seen.wrapping_add(1);
        }
    }
    agrees &= kept.rank(number, numbers.len()) == Some(Answer::Found(seen));
    agrees &= kept.rank(number, numbers.len().wrapping_add(1)) == Some(Answer::Absent);
    agrees && kept.select(number, seen) == Some(Answer::Absent)
}

/// Whether each number is found by its index, and some numbers by their ranks.
fn agrees(kept: &Kept, numbers: &[u64]) -> bool {
    let mut agrees = kept.get(numbers.len()) == Some(Answer::Absent);
    for i in 0..numbers.len() {
        agrees &= kept.get(i) == Some(Answer::Found(numbers[i]));
    }
    for k in 0..2usize {
        let at = k.wrapping_mul(31);
        let number = if at < numbers.len() {
            numbers[at]
        } else {
            k as u64
        };
        agrees &= agrees_of(kept, numbers, number);
        agrees &= agrees_of(kept, numbers, number ^ 1);
    }
    agrees && agrees_of(kept, numbers, u64::MAX)
}

/// Whether the queries of a drawn list are right.
fn is_right(alloc: Global, len: usize, width: u8, kind: u64) -> Result<bool, Fail> {
    let numbers = drawn(alloc, len, width, kind)?;
    let kept = make_levels(alloc, numbers.as_slice(), width)?;
    Ok(agrees(&kept, numbers.as_slice()))
}

#[test]
fn queries_of_each_width_agree_with_a_walk(rt: HostRuntime) -> Result<(), Fail> {
    for width in 1..65u8 {
        for kind in 0..2u64 {
            assert!(rt; is_right(rt.alloc(), 34, width, kind)?);
        }
    }
    Ok(())
}

#[test]
fn queries_of_edge_lengths_agree_with_a_walk(rt: HostRuntime) -> Result<(), Fail> {
    for len in [0, 1, 128, 129, 224, 225] {
        for width in [2, 5] {
            assert!(rt; is_right(rt.alloc(), len, width, 0)?);
            assert!(rt; is_right(rt.alloc(), len, width, 1)?);
        }
    }
    Ok(())
}
