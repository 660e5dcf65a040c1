//! Sequences, by rows that are worked out by hand. Of the first one, 2, 3, 5, 7, 11, 13 and 24, each number keeps one
//! low bit (0, 1, 1, 1, 1, 1, 0), and its 1 bit in the upper vector stands at its half, rounded down, plus its index:
//! 1, 1 + 1, 2 + 2, 3 + 3, 5 + 4, 6 + 5 and 12 + 6. The upper vectors of the five rows have 20, 1, 9, 3 and 3 bits, so
//! one word each.
use bitm::{BitAccess, GetSize};
use elias_fano::{EfError, EliasFano};
use example_callers::between::between;
use std::alloc::{AllocError, Global};
use std::process::Abort;
use std::test::Fail;

/// Numbers, how many low bits each keeps, the positions of the 1 bits in the upper vector, and values, each with the
/// index of the first number that is at least as great.
#[derive(Clone, Copy)]
struct Case<'a> {
    items: &'a [u64],
    width: u8,
    ones: &'a [usize],
    asked: &'a [(u64, Option<usize>)],
}

const CASES: [Case<'static>; 5] = [
    Case {
        items: &[2, 3, 5, 7, 11, 13, 24],
        width: 1,
        ones: &[1, 2, 4, 6, 9, 11, 18],
        asked: &[(8, Some(4)), (25, None), (0, Some(0)), (24, Some(6))],
    },
    Case {
        items: &[],
        width: 0,
        ones: &[],
        asked: &[(0, None)],
    },
    Case {
        items: &[5, 5, 5],
        width: 0,
        ones: &[5, 6, 7],
        asked: &[(5, Some(0)), (6, None)],
    },
    Case {
        items: &[0, 0],
        width: 0,
        ones: &[0, 1],
        asked: &[(0, Some(0))],
    },
    Case {
        items: &[u64::MAX],
        width: 63,
        ones: &[1],
        asked: &[(u64::MAX, Some(0)), (0, Some(0))],
    },
];

/// Whether a sequence has these numbers at their indices.
fn has_items(sequence: &EliasFano, items: &[u64]) -> bool {
    let mut agrees = sequence.len() == items.len();
    for (i, x) in items.iter().enumerate() {
        agrees &= sequence.try_get(i) == Some(*x);
        agrees &= i < sequence.len() && sequence.get(i) == *x;
    }
    agrees
}

/// Whether its low bits, and the 1 bits of its upper vector, are as the case says.
fn is_kept(sequence: &EliasFano, case: &Case<'_>) -> bool {
    let upper = sequence.upper_words();
    if upper.len() != 1 {
        return false;
    }
    let mut agrees = sequence.low_width() == case.width;
    for (i, position) in case.ones.iter().enumerate() {
        agrees &= upper.bit_ones().nth(i) == Some(*position);
    }
    agrees
}

/// Whether values are found as the rows say, and none past the end.
fn finds(sequence: &EliasFano, len: usize, asked: &[(u64, Option<usize>)]) -> bool {
    let mut agrees = (sequence.try_get(len), sequence.try_get(usize::MAX)) == (None, None);
    for (value, position) in asked {
        agrees &= sequence.first_at_least(*value) == *position;
    }
    agrees
}

/// Whether a sequence of the numbers is kept, found and given back as the case says.
fn agrees(alloc: Global, case: &Case<'_>) -> Result<bool, EfError> {
    let sequence = EliasFano::build(alloc, case.items)?;
    let has_items = has_items(&sequence, case.items) && is_kept(&sequence, case);
    let is_found = finds(&sequence, case.items.len(), case.asked);
    Ok(has_items && is_found && come_in_order(&sequence, case.items))
}

/// Whether the numbers come from the start, and none past them.
fn come_rising(sequence: &EliasFano, items: &[u64]) -> bool {
    let mut rising = sequence.iter();
    let mut agrees = rising.len() == items.len();
    for x in items {
        agrees &= rising.next() == Some(*x);
    }
    agrees && rising.next() == None
}

/// Whether they come from the back, and none past them.
fn come_falling(sequence: &EliasFano, items: &[u64]) -> bool {
    let mut falling = sequence.iter();
    let mut agrees = true;
    for x in items.iter().rev() {
        agrees &= falling.next_back() == Some(*x);
    }
    agrees && falling.next_back() == None
}

/// Whether the numbers come from either end, and none past them.
fn come_in_order(sequence: &EliasFano, items: &[u64]) -> bool {
    come_rising(sequence, items) && come_falling(sequence, items)
}

#[test]
fn numbers_are_kept_found_and_given_back_in_order(rt: HostRuntime) -> Result<(), Fail> {
    for case in CASES {
        assert!(rt; agrees(rt.alloc(), &case)?);
    }
    Ok(())
}

#[test]
fn values_between_the_numbers_have_the_nearest_below_them(rt: HostRuntime) -> Result<(), Fail> {
    let sequence = EliasFano::build(rt.alloc(), CASES[0].items)?;
    expect_nearest(&rt, &sequence);
    Ok(())
}

/// Values, each with the last index of a number that is at most as great, and whether it is one of them.
const NEAREST: [(u64, Option<usize>, bool); 8] = [
    (1u64, None, false),
    (2, Some(0), true),
    (8, Some(3), false),
    (13, Some(5), true),
    (14, Some(5), false),
    (23, Some(5), false),
    (25, Some(6), false),
    (u64::MAX, Some(6), false),
];

/// Stops where what is near a value in the first case is another than by hand.
fn expect_nearest(rt: &impl Abort, sequence: &EliasFano) {
    assert!(rt; sequence.low_words() == [0b0111110u64].as_slice());
    for (v, position, is_kept) in NEAREST {
        assert!(rt; (sequence.last_at_most(v), sequence.contains(v)) == (position, is_kept));
    }
}

/// Ranges, from a number on and below another, each with the first index at which a number of the first case is at
/// least the one, and the first at which it is at least the other.
const RANGES: [(u64, u64, (usize, usize)); 6] = [
    (4u64, 12u64, (2usize, 5usize)),
    (8, 11, (4, 4)),
    (0, 100, (0, 7)),
    (13, 14, (5, 6)),
    (25, 30, (7, 7)),
    (12, 3, (5, 1)),
];

#[test]
fn numbers_in_a_range_stand_between_two_searches(rt: HostRuntime) -> Result<(), Fail> {
    let sequence = EliasFano::build(rt.alloc(), CASES[0].items)?;
    expect_between(&rt, &sequence);
    Ok(())
}

/// Stops where the numbers of a range stand elsewhere in the first case than by hand.
fn expect_between(rt: &impl Abort, sequence: &EliasFano) {
    for (from, to, indexes) in RANGES {
        assert!(rt; between(sequence, from, to) == indexes);
    }
}

/// The given number of multiples of 256, from 0 on.
fn multiples(alloc: Global, count: u32) -> Result<Vec<u64>, AllocError> {
    let mut items = Vec::new(alloc);
    for i in 0..count {
        items.push(u64::from(i) * 256)?;
    }
    Ok(items)
}

/// Whether each of the numbers, which all differ, is found at its index.
fn each_is_found(sequence: &EliasFano, items: &[u64]) -> bool {
    for (i, x) in items.iter().enumerate() {
        if (sequence.try_get(i), sequence.first_at_least(*x)) != (Some(*x), Some(i)) {
            return false;
        }
    }
    true
}

/// Whether each of the numbers is found at its index in a sequence of them, and none past them.
fn are_found(alloc: Global, items: &[u64]) -> Result<bool, EfError> {
    let sequence = EliasFano::build(alloc, items)?;
    Ok(each_is_found(&sequence, items) && sequence.try_get(usize::MAX) == None)
}

#[test]
fn each_of_many_numbers_is_found_at_its_position(rt: HostRuntime) -> Result<(), Fail> {
    let items = multiples(rt.alloc(), 1 << 18)?;
    assert!(rt; are_found(rt.alloc(), items.as_slice())?);
    Ok(())
}

/// Whether the searches for a number answer the first and the last index, where all numbers are that one.
fn finds_ends(sequence: &EliasFano, value: u64, last: Option<usize>) -> bool {
    let found = (sequence.first_at_least(value), sequence.last_at_most(value));
    found == (Some(0), last) && sequence.contains(value)
}

/// Whether the searches for a number that is less, and for one that is greater, find that there is none.
fn finds_none(sequence: &EliasFano, less: u64, greater: u64, last: Option<usize>) -> bool {
    let above = (sequence.first_at_least(0), sequence.first_at_least(greater));
    let below = (sequence.last_at_most(less), sequence.last_at_most(greater));
    let are_none = !sequence.contains(less) && !sequence.contains(greater);
    above == (Some(0), None) && below == (None, last) && are_none
}

/// Stops where the searches among `count` numbers 2^40, in many rounds, answer otherwise than the first and the last
/// index. A search that went over the numbers that share the high bits of a value would not end in time.
fn expect_among_equals(rt: &impl Abort, sequence: &EliasFano, count: usize) {
    let value = 1 << 40;
    let last = count.checked_sub(1);
    for _ in 0..0x2_0000u32 {
        assert!(rt; finds_ends(sequence, value, last));
    }
    assert!(rt; finds_none(sequence, value - 1, value + 1, last));
}

/// The given number of numbers 2^40.
fn equals(alloc: Global, count: usize) -> Result<Vec<u64>, AllocError> {
    let mut items = Vec::new(alloc);
    for _ in 0..count {
        items.push(1u64 << 40)?;
    }
    Ok(items)
}

/// A sequence of the given number of numbers 2^40.
fn sequence_of_equals(alloc: Global, count: usize) -> Result<EliasFano, Fail> {
    let items = equals(alloc, count)?;
    Ok(EliasFano::build(alloc, items.as_slice())?)
}

#[test]
fn equal_numbers_are_searched_without_going_over_them(rt: HostRuntime) -> Result<(), Fail> {
    let count = 0x40_0000;
    let sequence = sequence_of_equals(rt.alloc(), count)?;
    expect_among_equals(&rt, &sequence, count);
    Ok(())
}

/// Whether an error prints this text.
fn says(alloc: Global, error: EfError, text: &str) -> Result<bool, Fail> {
    Ok(format!(in alloc; "{error}")?.as_str() == text)
}

#[test]
fn errors_print_why(rt: HostRuntime) -> Result<(), Fail> {
    let texts = [
        (EfError::TooLong, "there are 2^56 numbers or more"),
        (
            EfError::NotSorted,
            "a number is less than the one before it",
        ),
        (EfError::OutOfMemory, "no memory"),
    ];
    for (error, text) in texts {
        assert!(rt; says(rt.alloc(), error, text)?);
    }
    let falling = EliasFano::build(rt.alloc(), [3u64, 2].as_slice());
    assert!(rt; falling.err() == Some(EfError::NotSorted));
    Ok(())
}

#[test]
fn a_sequence_may_use_the_heap(rt: HostRuntime) {
    assert!(rt; EliasFano::USES_DYN_MEM);
}
