//! The ranges of a matrix in a block, beside plain loops, and the ranges of other words in its place.
use crate::matrices::matrices::{MATRIX, NUMBERS, coded, number_coded};
use matrix_block::{Answer, MatrixView};
use std::process::Abort;
use std::test::Fail;

/// How many numbers are less than a bound.
fn less(numbers: &[u64], bound: u64) -> usize {
    let mut count = 0usize;
    for number in numbers {
        count = count.wrapping_add((*number < bound) as usize);
    }
    count
}

/// How many numbers are at least one bound, and less than another.
fn between(numbers: &[u64], low: u64, high: u64) -> usize {
    let mut count = 0usize;
    for number in numbers {
        count = count.wrapping_add((*number >= low && *number < high) as usize);
    }
    count
}

/// How many counts of a range between bounds up to 7 differ from a loop's.
fn wrong_counts_between(m: &MatrixView<'_>, numbers: &[u64], start: usize, end: usize) -> usize {
    let mut wrong = 0usize;
    for low in 0..8u64 {
        for high in 0..8u64 {
            let count = m.range_count(start, end, low, high);
            let counted = Answer::Found(between(numbers, low, high));
            wrong = wrong.wrapping_add((count != counted) as usize);
        }
    }
    wrong
}

/// How many counts of a range, by bounds up to 9, differ from a loop's.
fn wrong_counts_of(matrix: &MatrixView<'_>, numbers: &[u64], start: usize, end: usize) -> usize {
    let mut wrong = 0usize;
    for bound in 0..10u64 {
        let count = matrix.count_less(start, end, bound);
        wrong = wrong.wrapping_add((count != Answer::Found(less(numbers, bound))) as usize);
    }
    wrong
}

/// How many counts of ranges differ from a loop's.
fn wrong_counts(matrix: &MatrixView<'_>, numbers: &[u64]) -> usize {
    let mut wrong = 0usize;
    for start in 0..numbers.len() {
        for end in start..numbers.len() + 1 {
            let range = &numbers[start..end];
            wrong = wrong.wrapping_add(wrong_counts_of(matrix, range, start, end));
            wrong = wrong.wrapping_add(wrong_counts_between(matrix, range, start, end));
        }
    }
    wrong
}

/// The counts of 1 4 1 5 that are less than 0, 1, 2, 4, 5, 6 and 9, as the matrix has them.
fn counts(matrix: &MatrixView<'_>) -> [usize; 7] {
    let bounds = [0u64, 1, 2, 4, 5, 6, 9];
    let mut all = [0usize; 7];
    for i in 0..7usize {
        all[i] = coded(matrix.count_less(1, 5, bounds[i]));
    }
    all
}

#[test]
fn ranges_are_counted_as_a_loop_counts(rt: HostRuntime) -> Result<(), Fail> {
    let words = MATRIX;
    let Some(matrix) = MatrixView::open(words.as_slice()) else {
        assert!(rt; false, "not opened");
        return Ok(());
    };
    assert!(rt; counts(&matrix) == [0, 0, 2, 2, 3, 4, 4]);
    assert!(rt; wrong_counts(&matrix, NUMBERS.as_slice()) == 0);
    assert!(rt; coded(matrix.count_less(0, 6, 4)) == 4);
    assert!(rt; coded(matrix.count_less(6, 6, 4)) == 0);
    assert!(rt; coded(matrix.range_count(1, 5, 1, 5)) == 3);
    assert!(rt; coded(matrix.range_count(1, 5, 4, u64::MAX)) == 2);
    assert!(rt; coded(matrix.range_count(1, 5, 5, 1)) == 0);
    assert!(rt; coded(matrix.range_count(1, 7, 5, 1)) == 100);
    assert!(rt; coded(matrix.count_less(2, 1, 4)) == 100);
    assert!(rt; coded(matrix.count_less(0, 7, 4)) == 100);
    assert!(rt; coded(matrix.count_less(usize::MAX, 3, u64::MAX)) == 100);
    Ok(())
}

/// How many times a number is among the numbers.
fn times(numbers: &[u64], number: u64) -> usize {
    let mut count = 0usize;
    for other in numbers {
        count = count.wrapping_add((*other == number) as usize);
    }
    count
}

/// How many quantiles of a range, with their counts, differ from a loop's.
fn wrong_quantiles_of(matrix: &MatrixView<'_>, range: &[u64], start: usize, end: usize) -> usize {
    let mut wrong = 0usize;
    let mut k = 0usize;
    for number in 0..1000u64 {
        let count = times(range, number);
        for _ in 0..count {
            let found = matrix.quantile(start, end, k);
            let tally = matrix.quantile_and_count(start, end, k);
            wrong = wrong.wrapping_add((found != Answer::Found(number)) as usize);
            wrong = wrong.wrapping_add((tally != Answer::Found((number, count))) as usize);
            k = k.wrapping_add(1);
        }
    }
    wrong.wrapping_add((matrix.quantile(start, end, k) != Answer::Absent) as usize)
}

/// How many quantiles of ranges differ from a loop's.
fn wrong_quantiles(matrix: &MatrixView<'_>, numbers: &[u64]) -> usize {
    let mut wrong = 0usize;
    for start in 0..numbers.len() {
        for end in start..numbers.len() + 1 {
            let of_range = wrong_quantiles_of(matrix, &numbers[start..end], start, end);
            wrong = wrong.wrapping_add(of_range);
        }
    }
    wrong
}

/// The quantiles of 1 4 1 5, and one past them, as the matrix has them.
fn quantiles(matrix: &MatrixView<'_>) -> [u64; 5] {
    let mut all = [0u64; 5];
    for k in 0..5usize {
        all[k] = number_coded(matrix.quantile(1, 5, k));
    }
    all
}

#[test]
fn the_numbers_of_a_range_come_in_order(rt: HostRuntime) -> Result<(), Fail> {
    let words = MATRIX;
    let Some(matrix) = MatrixView::open(words.as_slice()) else {
        assert!(rt; false, "not opened");
        return Ok(());
    };
    assert!(rt; quantiles(&matrix) == [1, 1, 4, 5, 100]);
    assert!(rt; wrong_quantiles(&matrix, NUMBERS.as_slice()) == 0);
    assert!(rt; matrix.quantile_and_count(0, 6, 2) == Answer::Found((1, 3)));
    assert!(rt; number_coded(matrix.quantile(0, 6, 5)) == 5);
    assert!(rt; number_coded(matrix.quantile(0, 7, 0)) == 100);
    assert!(rt; number_coded(matrix.quantile(5, 1, 0)) == 100);
    assert!(rt; number_coded(matrix.quantile(0, 6, usize::MAX)) == 100);
    Ok(())
}

/// The least of the numbers that is at least `bound`, or 100.
fn next_of(numbers: &[u64], bound: u64) -> u64 {
    let mut least = 100u64;
    for number in numbers {
        if *number >= bound && *number < least {
            least = *number;
        }
    }
    least
}

/// The greatest of the numbers that is less than `bound`, or 100.
fn previous_of(numbers: &[u64], bound: u64) -> u64 {
    let mut greatest = 100u64;
    for number in numbers {
        if *number < bound && (greatest == 100 || *number > greatest) {
            greatest = *number;
        }
    }
    greatest
}

/// How many numbers of ranges beside bounds up to 9 differ from a loop's.
fn wrong_bounds(matrix: &MatrixView<'_>, numbers: &[u64]) -> usize {
    let mut wrong = 0usize;
    for start in 0..numbers.len() {
        for end in start..numbers.len() + 1 {
            let range = &numbers[start..end];
            for bound in 0..10u64 {
                let next = number_coded(matrix.next_value(start, end, bound));
                let previous = number_coded(matrix.previous_value(start, end, bound));
                wrong = wrong.wrapping_add((next != next_of(range, bound)) as usize);
                wrong = wrong.wrapping_add((previous != previous_of(range, bound)) as usize);
            }
        }
    }
    wrong
}

/// The numbers of 1 4 1 5 beside 0, 1, 2, 4, 5, 6 and 9, as the matrix has them.
fn beside(matrix: &MatrixView<'_>) -> [u64; 14] {
    let bounds = [0u64, 1, 2, 4, 5, 6, 9];
    let mut all = [0u64; 14];
    for i in 0..7usize {
        all[i] = number_coded(matrix.next_value(1, 5, bounds[i]));
        all[i + 7] = number_coded(matrix.previous_value(1, 5, bounds[i]));
    }
    all
}

#[test]
fn the_numbers_beside_a_bound_are_found(rt: HostRuntime) -> Result<(), Fail> {
    let words = MATRIX;
    let Some(matrix) = MatrixView::open(words.as_slice()) else {
        assert!(rt; false, "not opened");
        return Ok(());
    };
    assert!(rt; beside(&matrix) == [1, 1, 4, 4, 5, 100, 100, 100, 100, 1, 1, 4, 5, 5]);
    assert!(rt; wrong_bounds(&matrix, NUMBERS.as_slice()) == 0);
    assert!(rt; number_coded(matrix.next_value(0, 7, 0)) == 100);
    assert!(rt; number_coded(matrix.next_value(3, 2, 0)) == 100);
    assert!(rt; number_coded(matrix.previous_value(0, 7, 9)) == 100);
    assert!(rt; number_coded(matrix.previous_value(0, 6, u64::MAX)) == 5);
    Ok(())
}

/// Whether an answer is at most `most`, or there is none.
fn is_within(answer: Answer<usize>, most: usize) -> bool {
    match answer {
        Answer::Found(count) => count <= most,
        _ => true,
    }
}

/// Whether a number has three bits and is at least `low`, or there is none.
fn is_number(answer: Answer<u64>, low: u64) -> bool {
    match answer {
        Answer::Found(number) => number < 8 && number >= low,
        _ => true,
    }
}

/// Whether the answers of all ranges are those that some numbers could have.
fn are_ranges_within(matrix: &MatrixView<'_>) -> bool {
    let mut within = true;
    for start in 0..7usize {
        for end in start..7usize {
            within &= is_within(matrix.count_less(start, end, 4), end - start);
            within &= is_number(matrix.next_value(start, end, 4), 4);
            within &= is_number(matrix.previous_value(start, end, 7), 0);
            within &= is_number(matrix.quantile(start, end, 1), 0);
        }
    }
    within
}

/// How many flipped bits of the words and tables leave answers of ranges that no numbers could have.
fn flips_outside(words: &mut [u64]) -> usize {
    let mut outside = 0usize;
    for i in 40..words.len() {
        let is_part = i == 40 || i == 48 || i == 56 || i / 8 >= 8 && i % 8 < 3;
        if is_part {
            for bit in 0..64u32 {
                words[i] ^= 1u64 << bit;
                if let Some(matrix) = MatrixView::open(&*words) {
                    outside = outside.wrapping_add(!are_ranges_within(&matrix) as usize);
                }
                words[i] ^= 1u64 << bit;
            }
        }
    }
    outside
}

#[test]
fn flipped_bits_leave_answers_of_ranges_in_bounds(rt: HostRuntime) -> Result<(), Fail> {
    let mut words = MATRIX;
    assert!(rt; flips_outside(words.as_mut_slice()) == 0);
    Ok(())
}
