//! Queries of a matrix in a block.
ghost use Rattle.bitm_numbers_c.specs.Matrix.{IndexAnswered, NumberAnswered, RankAnswered};

use bitm_abi::{BAD_SIZE, Matrix, report};

/// The number at an index.
#[unsafe(no_mangle)]
pub extern "C" fn bitm_matrix_get(matrix: &Matrix<'_>, index: usize, out: &mut u64) -> u32
    ensures { NumberAnswered matrix.now index result out.old out.new }
{
    match matrix.view() {
        Some(view) => report(view.get(index), out),
        None => BAD_SIZE,
    }
}

/// How many of the numbers before an index are this one.
#[unsafe(no_mangle)]
pub extern "C" fn bitm_matrix_rank(
    matrix: &Matrix<'_>,
    number: u64,
    index: usize,
    out: &mut usize,
) -> u32
    ensures { RankAnswered matrix.now number index result out.old out.new }
{
    match matrix.view() {
        Some(view) => report(view.rank(number, index), out),
        None => BAD_SIZE,
    }
}

/// The index of this number with exactly `rank` such numbers before it, by the hints.
#[unsafe(no_mangle)]
pub extern "C" fn bitm_matrix_select(
    matrix: &Matrix<'_>,
    number: u64,
    rank: usize,
    out: &mut usize,
) -> u32
    ensures { IndexAnswered matrix.now number rank result out.old out.new }
{
    match matrix.view() {
        Some(view) => report(view.select(number, rank), out),
        None => BAD_SIZE,
    }
}
