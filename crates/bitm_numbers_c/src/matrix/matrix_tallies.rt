//! The distinct, the most frequent and the common numbers of ranges of a matrix in a block.
ghost use Rattle.std.specs.Prelude.{◌≡◌, ◌⊎◌};
ghost use Rattle.bitm_numbers_c.specs.Matrix.{DistinctAnswered, FrequentAnswered, SharedAnswered};

use bitm_abi::{BAD_SIZE, Matrix, report};

/// The distinct numbers of a range that are at least `from`, rising, and how often each is there.
#[unsafe(no_mangle)]
pub extern "C" fn bitm_matrix_distinct(
    matrix: &Matrix<'_>,
    start: usize,
    end: usize,
    from: u64,
    numbers: &mut [u64],
    counts: &mut [usize],
    written: &mut usize,
) -> u32
    ensures answer { DistinctAnswered matrix.now start end from numbers.old numbers.new counts.old
        counts.new result written.old written.new }
    ensures kept { (result ≡ 1) ⊎ (result ≡ 2) → (numbers.new ≡ numbers.old)
        × (counts.new ≡ counts.old) }
{
    match matrix.view() {
        Some(view) => {
            if counts.len() != numbers.len() {
                return BAD_SIZE;
            }
            report(view.distinct(start, end, from, numbers, counts), written)
        }
        None => BAD_SIZE,
    }
}

/// The most frequent numbers of a range, the most frequent first, and how often each is there.
#[unsafe(no_mangle)]
pub extern "C" fn bitm_matrix_top(
    matrix: &Matrix<'_>,
    start: usize,
    end: usize,
    numbers: &mut [u64],
    counts: &mut [usize],
    written: &mut usize,
) -> u32
    ensures answer { FrequentAnswered matrix.now start end numbers.old numbers.new counts.old
        counts.new result written.old written.new }
    ensures kept { (result ≡ 1) ⊎ (result ≡ 2) → (numbers.new ≡ numbers.old)
        × (counts.new ≡ counts.old) }
{
    match matrix.view() {
        Some(view) => {
            if counts.len() != numbers.len() {
                return BAD_SIZE;
            }
            report(view.top_k(start, end, numbers, counts), written)
        }
        None => BAD_SIZE,
    }
}

/// The numbers that are in both ranges and at least `from`, each once, rising.
#[unsafe(no_mangle)]
pub extern "C" fn bitm_matrix_intersect(
    matrix: &Matrix<'_>,
    first_start: usize,
    first_end: usize,
    second_start: usize,
    second_end: usize,
    from: u64,
    numbers: &mut [u64],
    written: &mut usize,
) -> u32
    ensures answer { SharedAnswered matrix.now first_start first_end second_start second_end from
        numbers.old numbers.new result written.old written.new }
    ensures kept { (result ≡ 1) ⊎ (result ≡ 2) → numbers.new ≡ numbers.old }
{
    match matrix.view() {
        Some(view) => {
            let (first, second) = (first_start..first_end, second_start..second_end);
            report(view.intersect(first, second, from, numbers), written)
        }
        None => BAD_SIZE,
    }
}
