//! Answers of a wavelet matrix worked by hand, and compared with plain loops over the numbers.
use bitm::{Select0ForRank101111, SelectForRank101111};
use std::alloc::{AllocError, Global};
use std::process::Abort;
use wavelet_matrix::{BinaryWaveletMatrix, WaveletMatrix, all_fit};

/// Some numbers below 2^width, which repeat.
fn draw(alloc: Global, len: usize, width: u8) -> Result<Vec<u64>, AllocError> {
    let mut made = Vec::new(alloc);
    let mut state: u64 = 88172645463325252;
    for _ in 0..len {
        state ^= state << 13;
        state ^= state >> 7;
        state ^= state << 17;
        let number = if width == 64 {
            state
        } else {
            state & ((1u64 << (width % 64)) - 1)
        };
        made.push(number)?;
    }
    Ok(made)
}

/// How many of these numbers are less than a number, and how many are that number.
fn counted(list: &[u64], number: u64) -> (usize, usize) {
    let (mut less, mut equal) = (0usize, 0usize);
    for x in list {
        if *x < number {
            less = less.wrapping_add(1);
        }
        if *x == number {
            equal = equal.wrapping_add(1);
        }
    }
    (less, equal)
}

/// Whether two answers are the same.
fn same(found: Option<u64>, wanted: Option<u64>) -> bool {
    found == wanted
}

/// Whether two answers that are indices are the same.
fn are_same(found: Option<usize>, wanted: Option<usize>) -> bool {
    found == wanted
}

/// Whether access, rank and selection of a number agree, at an index with the given number of equal ones before it.
fn number_agrees<S: SelectForRank101111, S0: Select0ForRank101111>(
    matrix: &WaveletMatrix<S, S0>,
    i: usize,
    number: u64,
    before: usize,
) -> bool {
    let mut agrees = same(matrix.try_get(i), Some(number));
    agrees &= are_same(matrix.try_rank(number, i), Some(before));
    agrees & are_same(matrix.try_select(number, before), Some(i))
}

/// Whether access, ranks and selections agree with a count, for each number, of those passed.
fn counts_agree<S: SelectForRank101111, S0: Select0ForRank101111>(
    matrix: &WaveletMatrix<S, S0>,
    list: &[u64],
) -> bool {
    let mut counts = [0usize; 1024];
    let mut agrees = true;
    let mut i = 0usize;
    for number in matrix.iter() {
        let at = (number % 1024) as usize;
        let before = counts[at];
        agrees &= i < list.len() && list[i] == number && number < 1024;
        agrees &= number_agrees(matrix, i, number, before);
        counts[at] = before.wrapping_add(1);
        i = i.wrapping_add(1);
    }
    agrees
}

/// Whether the queries of the ranges from an index by a bound agree with a walk: how many numbers are less, and those
/// next to the bound.
fn bound_agrees<S: SelectForRank101111, S0: Select0ForRank101111>(
    matrix: &WaveletMatrix<S, S0>,
    list: &[u64],
    start: usize,
    bound: u64,
) -> bool {
    if list.len() > matrix.len() {
        return false;
    }
    let (mut less, mut next, mut previous) = (0usize, None, None);
    let mut agrees = true;
    for last in start..list.len() {
        let x = list[last];
        if x < bound {
            less = less.wrapping_add(1);
            previous = Some(previous.unwrap_or(x).max(x));
        } else {
            next = Some(next.unwrap_or(x).min(x));
        }
        agrees &= matrix.count_less(start..last + 1, bound) == less;
        agrees &= same(matrix.next_value(start..last + 1, bound), next);
        agrees &= same(matrix.previous_value(start..last + 1, bound), previous);
    }
    agrees
}

/// Whether the quantiles of a range are its sorted numbers, and whether the numbers from half a quantile up to it are
/// counted right.
fn order_agrees<S: SelectForRank101111, S0: Select0ForRank101111>(
    matrix: &WaveletMatrix<S, S0>,
    sorted: &[u64],
    start: usize,
) -> bool {
    let end = start.saturating_add(sorted.len());
    if end > matrix.len() || sorted.len() > end - start {
        return false;
    }
    let mut agrees = true;
    for k in 0..sorted.len() {
        let x = sorted[k];
        let between = counted(sorted, x).0.wrapping_sub(counted(sorted, x / 2).0);
        agrees &= matrix.quantile(start..end, k) == x;
        agrees &= matrix.range_count(start..end, x / 2, x) == between;
    }
    agrees
}

/// Whether numbers with their counts are the first of these pairs, at most three.
fn are_first(top: &[(u64, usize)], pairs: &[(usize, u64)]) -> bool {
    let mut agrees = top.len() == pairs.len().min(3);
    for i in 0..top.len().min(pairs.len()) {
        let ((number, count), (without, other)) = (top[i], pairs[i]);
        agrees &= (number == other) & (count == usize::MAX.wrapping_sub(without));
    }
    agrees
}

/// Whether the distinct numbers of a range of at most 100, and the three most frequent ones, are as the sorted range
/// says.
fn tallies_agree<S: SelectForRank101111, S0: Select0ForRank101111>(
    alloc: Global,
    matrix: &WaveletMatrix<S, S0>,
    sorted: &[u64],
    start: usize,
) -> bool {
    let end = start.saturating_add(sorted.len());
    if start > end || end > matrix.len() {
        return false;
    }
    // The most frequent first and then by size, each after how often it is not there.
    let mut pairs = [(usize::MAX, u64::MAX); 100];
    let (mut many, mut passed, mut agrees) = (0usize, 0usize, true);
    for (number, count) in matrix.distinct(start..end) {
        let (less, equal) = counted(sorted, number);
        agrees &= (many < 100) & (passed == less) & (count == equal);
        pairs[many.min(99)] = (usize::MAX - count, number);
        many = many.wrapping_add(1);
        passed = passed.wrapping_add(count);
    }
    pairs.as_mut_slice().sort_unstable();
    match matrix.top_k(alloc, start..end, 3) {
        Ok(top) => {
            agrees & (passed == sorted.len()) & are_first(top.as_slice(), &pairs[..many.min(100)])
        }
        Err(_) => false,
    }
}

/// Whether the queries of a range by its order agree with the sorted range.
fn sorted_agrees<S: SelectForRank101111, S0: Select0ForRank101111>(
    alloc: Global,
    matrix: &WaveletMatrix<S, S0>,
    range: &[u64],
    start: usize,
) -> bool {
    let Ok(mut sorted) = range.to_vec(alloc) else {
        return false;
    };
    sorted.sort_unstable();
    let sorted = sorted.as_slice();
    tallies_agree(alloc, matrix, sorted, start) & order_agrees(matrix, sorted, start)
}

/// Whether the queries of ranges that start at an index, or end there, agree with plain loops.
fn ranges_agree<S: SelectForRank101111, S0: Select0ForRank101111>(
    alloc: Global,
    matrix: &WaveletMatrix<S, S0>,
    list: &[u64],
    start: usize,
) -> bool {
    if start > list.len() {
        return false;
    }
    let mut agrees = true;
    for bound in 0..10 {
        agrees &= bound_agrees(matrix, list, start, bound);
    }
    agrees &= sorted_agrees(alloc, matrix, &list[start..], start);
    agrees & sorted_agrees(alloc, matrix, &list[start / 2..start], start / 2)
}

/// Whether all answers of a matrix of these numbers agree with plain loops.
fn matrix_agrees<S: SelectForRank101111, S0: Select0ForRank101111>(
    alloc: Global,
    matrix: &WaveletMatrix<S, S0>,
    list: &[u64],
) -> bool {
    let mut agrees = matrix.len() == list.len() && same(matrix.try_get(list.len()), None);
    for i in 0..list.len() {
        agrees &= number_agrees(matrix, i, list[i], counted(&list[..i], list[i]).1);
        agrees &= ranges_agree(alloc, matrix, list, i);
    }
    agrees
}

/// A matrix of these numbers, compact or not; `None` where they are too many or too great.
fn made(alloc: Global, list: &[u64], width: u8, compact: bool) -> Option<BinaryWaveletMatrix> {
    if width < 1 || width > 64 || list.len() >= 1 << 20 || !all_fit(list, width) {
        return None;
    }
    if compact {
        BinaryWaveletMatrix::build_compact(alloc, list, width).ok()
    } else {
        BinaryWaveletMatrix::build(alloc, list, width).ok()
    }
}

/// Whether a matrix was made of these numbers, compact or not, and all its answers agree with plain loops, or with a
/// count where there are more than 100 numbers.
fn all_agrees<S: SelectForRank101111, S0: Select0ForRank101111>(
    alloc: Global,
    made: &Option<WaveletMatrix<S, S0>>,
    list: &[u64],
    compact: bool,
) -> bool {
    match made {
        Some(matrix) if list.len() > 100 => {
            matrix.is_compact() == compact && counts_agree(matrix, list)
        }
        Some(matrix) => matrix.is_compact() == compact && matrix_agrees(alloc, matrix, list),
        None => false,
    }
}

/// Whether the answers of matrices of the given number and width of numbers, compact and not, do so.
fn both_agree(alloc: Global, len: usize, width: u8) -> bool {
    let Ok(drawn) = draw(alloc, len, width) else {
        return false;
    };
    let list = drawn.as_slice();
    let mut agrees = list.len() == len;
    for compact in [false, true] {
        agrees &= all_agrees(alloc, &made(alloc, list, width, compact), list, compact);
    }
    agrees
}

#[test]
fn numbers_of_one_three_and_all_digits_are_answered_as_a_walk_answers(rt: HostRuntime) {
    for (len, width) in [(100, 1), (60, 3), (40, 64), (0, 5)] {
        assert!(rt; both_agree(rt.alloc(), len, width));
    }
}

#[test]
fn a_million_answers_are_those_of_a_count(rt: HostRuntime) {
    assert!(rt; both_agree(rt.alloc(), 1 << 18, 10));
}

/// Whether a matrix of 3 1 4 1 5 1 answers as worked out of one number, of ranges, and of the first two distinct
/// numbers of a range.
fn is_worked_out<S: SelectForRank101111, S0: Select0ForRank101111>(
    matrix: &WaveletMatrix<S, S0>,
) -> bool {
    if matrix.len() != 6 {
        return false;
    }
    let mut agrees = same(matrix.try_get(2), Some(4)) & are_same(matrix.try_rank(1, 4), Some(2));
    agrees &= are_same(matrix.try_select(1, 2), Some(5));
    agrees &= are_same(matrix.try_select(1, 3), None);
    agrees &= same(matrix.next_value(0..6, 2), Some(3));
    agrees &= same(matrix.previous_value(0..6, 3), Some(1));
    agrees &= (matrix.quantile(1..5, 2) == 4) & (matrix.range_count(0..6, 2, 5) == 2);
    let mut distinct = matrix.distinct(1..5);
    agrees &= distinct.next() == Some((1, 2));
    agrees & (distinct.next() == Some((4, 1)))
}

/// Whether its ranks, by one call for all, are those worked out by hand.
fn many_are_worked_out<S: SelectForRank101111, S0: Select0ForRank101111>(
    matrix: &WaveletMatrix<S, S0>,
) -> bool {
    if matrix.len() != 6 {
        return false;
    }
    let mut ranks = [9usize; 3];
    let (numbers, positions) = ([1u64, 4, 7], [4usize, 6, 6]);
    matrix.rank_many(
        numbers.as_slice(),
        positions.as_slice(),
        ranks.as_mut_slice(),
    );
    ranks == [2usize, 1, 0]
}

/// Whether the numbers that two of its ranges share are as worked out.
fn shared_are_worked_out<S: SelectForRank101111, S0: Select0ForRank101111>(
    alloc: Global,
    matrix: &WaveletMatrix<S, S0>,
) -> bool {
    if matrix.len() != 6 {
        return false;
    }
    match matrix.intersect(alloc, 0..2, 3..6) {
        Ok(shared) => shared.as_slice() == [1].as_slice(),
        Err(_) => false,
    }
}

/// Whether its most frequent numbers are as worked out.
fn top_is_worked_out<S: SelectForRank101111, S0: Select0ForRank101111>(
    alloc: Global,
    matrix: &WaveletMatrix<S, S0>,
) -> bool {
    if matrix.len() != 6 {
        return false;
    }
    match matrix.top_k(alloc, 0..6, 2) {
        Ok(top) => top.as_slice() == [(1, 3), (3, 1)].as_slice(),
        Err(_) => false,
    }
}

/// Whether a matrix of the picture's numbers was made, and answers as worked out.
fn all_is_worked_out<S: SelectForRank101111, S0: Select0ForRank101111>(
    alloc: Global,
    made: &Option<WaveletMatrix<S, S0>>,
) -> bool {
    let Some(matrix) = made else {
        return false;
    };
    let agrees = !matrix.is_compact() & is_worked_out(matrix) & many_are_worked_out(matrix);
    agrees & shared_are_worked_out(alloc, matrix) & top_is_worked_out(alloc, matrix)
}

#[test]
fn the_numbers_of_the_picture_are_answered_as_worked_out(rt: HostRuntime) {
    let numbers = [3u64, 1, 4, 1, 5, 1];
    let agrees = all_is_worked_out(rt.alloc(), &made(rt.alloc(), numbers.as_slice(), 3, false));
    assert!(rt; agrees);
}
