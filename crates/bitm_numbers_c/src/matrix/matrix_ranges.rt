//! Queries of a range of the numbers of a matrix in a block: from index `start` on and before index `end`.
ghost use Rattle.bitm_numbers_c.specs.Matrix.{CountAnswered, NextAnswered, PreviousAnswered, SmallestAnswered};

use bitm_abi::{BAD_SIZE, Matrix, report};

/// How many numbers of a range are less than `bound`.
#[unsafe(no_mangle)]
pub extern "C" fn bitm_matrix_count_less(
    matrix: &Matrix<'_>,
    start: usize,
    end: usize,
    bound: u64,
    out: &mut usize,
) -> u32
    ensures { CountAnswered matrix.now start end bound result out.old out.new }
{
    match matrix.view() {
        Some(view) => report(view.count_less(start, end, bound), out),
        None => BAD_SIZE,
    }
}

/// The number of a range that would stand at index `k` if the range were sorted.
#[unsafe(no_mangle)]
pub extern "C" fn bitm_matrix_quantile(
    matrix: &Matrix<'_>,
    start: usize,
    end: usize,
    k: usize,
    out: &mut u64,
) -> u32
    ensures { SmallestAnswered matrix.now start end k result out.old out.new }
{
    match matrix.view() {
        Some(view) => report(view.quantile(start, end, k), out),
        None => BAD_SIZE,
    }
}

/// The least number of a range that is at least `bound`.
#[unsafe(no_mangle)]
pub extern "C" fn bitm_matrix_next_value(
    matrix: &Matrix<'_>,
    start: usize,
    end: usize,
    bound: u64,
    out: &mut u64,
) -> u32
    ensures { NextAnswered matrix.now start end bound result out.old out.new }
{
    match matrix.view() {
        Some(view) => report(view.next_value(start, end, bound), out),
        None => BAD_SIZE,
    }
}

/// The greatest number of a range that is less than `bound`.
#[unsafe(no_mangle)]
pub extern "C" fn bitm_matrix_previous_value(
    matrix: &Matrix<'_>,
    start: usize,
    end: usize,
    bound: u64,
    out: &mut u64,
) -> u32
    ensures { PreviousAnswered matrix.now start end bound result out.old out.new }
{
    match matrix.view() {
        Some(view) => report(view.previous_value(start, end, bound), out),
        None => BAD_SIZE,
    }
}
