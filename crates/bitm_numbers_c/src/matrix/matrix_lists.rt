//! Lists of queries of a matrix in a block.
ghost use Rattle.std.specs.Prelude.{◌≡◌, ◌≢◌, ◌<◌, ◌≤◌, ◌↔◌, ℕ, length, slice_index};
ghost use Rattle.bitm_tables.specs.declared.answer.Answer.TheVariants.{Found};
ghost use Rattle.bitm_abi.specs.Lists.{AreAnswersCounted, IsStopped};
ghost use Rattle.bitm_view.specs.Queries.{selected_by};
ghost use Rattle.bit_lists.specs.Kept.{IsKeptFrom};
ghost use Rattle.matrix_block.specs.Block.{HasLengths};
ghost use Rattle.bitm_abi.specs.Matrix.{matrix_parts};
ghost use Rattle.bitm_numbers_c.specs.Matrix.{IsIndexOfNumber, IsMatrixNumber, IsRankOfNumber, IsUnanswered, Seeks};

use bitm_abi::{BAD_SIZE, ListCounts, Matrix, NONE, OK, WRONG, code_of, report_list};
use bitm_tables::answer::Answer;
use matrix_block::MatrixView;
use tuning::RANKS_SIDE_BY_SIDE;

/// A query of a number.
#[derive(Clone, Copy)]
pub enum Sought {
    /// How often it stands before an index.
    Rank,
    /// The index where it stands for the given time.
    Index,
}

/// The status of a list of indices of a matrix: why no more than the numbers at the first `written` were written.
#[inline(always)]
fn stop_status(view: &MatrixView<'_>, indices: &[usize], written: usize) -> u32
    requires { written ≤ length indices.now }
    ensures { IsStopped view.now.levels.len indices.now written result }
{
    if written == indices.len() {
        OK
    } else if indices[written] < view.len() {
        WRONG
    } else {
        NONE
    }
}

/// Writes the numbers at a list of indices, up to the first that is not found, and how many were written; the status
/// says why there are no more.
#[unsafe(no_mangle)]
pub extern "C" fn bitm_matrix_get_list(
    matrix: &Matrix<'_>,
    indices: &[usize],
    out: &mut [u64],
    written: &mut usize,
) -> u32
    ensures bad { (result ≡ 2)
        ↔ ¬ (HasLengths (matrix_parts matrix.now) × (length out.old ≡ length indices.now)) }
    ensures kept { result ≡ 2 → (out.new ≡ out.old) × (written.new ≡ written.old) }
    ensures stopped { result ≢ 2
        → IsStopped (matrix_parts matrix.now).levels.len indices.now written.new result }
    ensures most { result ≢ 2 → written.new ≤ length indices.now }
    ensures numbers { result ≢ 2 → (j : ℕ) → j < written.new → IsMatrixNumber
        (slice_index indices.now j) (matrix_parts matrix.now) (Found (slice_index out.new j)) }
    ensures last { result ≢ 2 → written.new < length indices.now
        → IsUnanswered (slice_index indices.now written.new) (matrix_parts matrix.now) }
    ensures behind { result ≢ 2 → IsKeptFrom written.new out.old out.new }
{
    let Some(view) = matrix.view() else {
        return BAD_SIZE;
    };
    if out.len() != indices.len() {
        return BAD_SIZE;
    }
    *written = view.get_list(indices, out);
    stop_status(&view, indices, *written)
}

/// How often each number stands before an index, of a group that goes from level to level together, with as many
/// positions to work with.
fn rank_with(
    view: &MatrixView<'_>,
    numbers: &[u64],
    indices: &[usize],
    firsts: &mut [usize],
    lasts: &mut [usize],
    out: &mut [usize],
)
    requires room { length out.old ≡ length numbers.now }
    requires indices { length indices.now ≡ length numbers.now }
    requires firsts { length firsts.old ≡ length numbers.now }
    requires lasts { length lasts.old ≡ length numbers.now }
    ensures ranks { (j : ℕ) → j < length numbers.now → IsRankOfNumber (slice_index numbers.now j)
        (slice_index indices.now j) view.now (selected_by (slice_index out.new j)) }
    ensures len { length out.new ≡ length out.old }
{
    let (levels, mut source) = view.parts();
    levels.total_positions_of_many_on(&mut source, numbers, indices, &mut *firsts, &mut *lasts);
    for at in 0..numbers.len() {
        let answer = levels.rank_between(numbers[at], indices[at], firsts[at], lasts[at]);
        out[at] = code_of(answer);
    }
}

/// How often each number stands before an index, of no more numbers than go from level to level together.
fn rank_group(view: &MatrixView<'_>, numbers: &[u64], indices: &[usize], out: &mut [usize])
    requires room { length out.old ≡ length numbers.now }
    requires indices { length indices.now ≡ length numbers.now }
    requires few { length numbers.now ≤ 32 }
    ensures ranks { (j : ℕ) → j < length numbers.now → IsRankOfNumber (slice_index numbers.now j)
        (slice_index indices.now j) view.now (selected_by (slice_index out.new j)) }
    ensures len { length out.new ≡ length out.old }
{
    // No zeros, which would be written by a call of C's `memset`: the archive calls nothing.
    let mut firsts = [1usize; RANKS_SIDE_BY_SIDE];
    let mut lasts = [1usize; RANKS_SIDE_BY_SIDE];
    let count = numbers.len();
    rank_with(
        view,
        numbers,
        indices,
        &mut firsts[..count],
        &mut lasts[..count],
        out,
    );
}

/// How often each number stands before an index.
fn rank_each(view: &MatrixView<'_>, numbers: &[u64], indices: &[usize], out: &mut [usize])
    requires room { length out.old ≡ length numbers.now }
    requires indices { length indices.now ≡ length numbers.now }
    ensures ranks { (j : ℕ) → j < length numbers.now → IsRankOfNumber (slice_index numbers.now j)
        (slice_index indices.now j) view.now (selected_by (slice_index out.new j)) }
    ensures len { length out.new ≡ length out.old }
{
    let mut from = 0;
    while from < numbers.len() {
        let to = from + (numbers.len() - from).min(RANKS_SIDE_BY_SIDE);
        rank_group(
            view,
            &numbers[from..to],
            &indices[from..to],
            &mut out[from..to],
        );
        from = to;
    }
}

/// The index of a number, by the codes of lists. Hints are not read.
#[inline(always)]
fn index_code(view: &MatrixView<'_>, number: u64, k: usize) -> usize
    ensures { IsIndexOfNumber number k view.now (selected_by result) }
{
    let (levels, mut source) = view.parts();
    code_of(levels.total_select_on(&mut source, number, k))
}

/// The index of each number.
fn select_each(view: &MatrixView<'_>, numbers: &[u64], ks: &[usize], out: &mut [usize])
    requires room { length out.old ≡ length numbers.now }
    requires ks { length ks.now ≡ length numbers.now }
    ensures indices { (j : ℕ) → j < length numbers.now → IsIndexOfNumber (slice_index numbers.now j)
        (slice_index ks.now j) view.now (selected_by (slice_index out.new j)) }
    ensures len { length out.new ≡ length out.old }
{
    for at in 0..numbers.len() {
        out[at] = index_code(view, numbers[at], ks[at]);
    }
}

/// Answers a query of each number.
fn seek_each(
    view: &MatrixView<'_>,
    sought: Sought,
    numbers: &[u64],
    ks: &[usize],
    out: &mut [usize],
)
    requires room { length out.old ≡ length numbers.now }
    requires ks { length ks.now ≡ length numbers.now }
    ensures { (j : ℕ) → j < length numbers.now → Seeks sought (slice_index numbers.now j)
        (slice_index ks.now j) view.now (selected_by (slice_index out.new j)) }
{
    match sought {
        Sought::Rank => rank_each(view, numbers, ks, out),
        Sought::Index => select_each(view, numbers, ks, out),
    }
}

/// Answers a query of each number of a list, by a status.
#[inline(always)]
fn seek_list(
    matrix: &Matrix<'_>,
    sought: Sought,
    numbers: &[u64],
    ks: &[usize],
    out: &mut [usize],
    counts: &mut ListCounts,
) -> u32
    ensures ok { (result ≡ 0) ↔ HasLengths (matrix_parts matrix.now)
        × (length ks.now ≡ length numbers.now) × (length out.old ≡ length numbers.now) }
    ensures kept { result ≢ 0 → (result ≡ 2) × (out.new ≡ out.old) × (counts.new ≡ counts.old) }
    ensures answers { result ≡ 0 → (j : ℕ) → j < length numbers.now → Seeks sought
        (slice_index numbers.now j) (slice_index ks.now j) (matrix_parts matrix.now)
        (selected_by (slice_index out.new j)) }
    ensures counts { result ≡ 0 → AreAnswersCounted out.new counts.new }
{
    let Some(view) = matrix.view() else {
        return BAD_SIZE;
    };
    if ks.len() != numbers.len() || out.len() != numbers.len() {
        return BAD_SIZE;
    }
    seek_each(&view, sought, numbers, ks, &mut *out);
    report_list(true, &*out, counts)
}

/// How often each number `numbers[i]` stands before index `indices[i]`, and how many of the answers are codes.
#[unsafe(no_mangle)]
pub extern "C" fn bitm_matrix_rank_list(
    matrix: &Matrix<'_>,
    numbers: &[u64],
    indices: &[usize],
    out: &mut [usize],
    counts: &mut ListCounts,
) -> u32
    ensures ok { (result ≡ 0) ↔ HasLengths (matrix_parts matrix.now)
        × (length indices.now ≡ length numbers.now) × (length out.old ≡ length numbers.now) }
    ensures kept { result ≢ 0 → (result ≡ 2) × (out.new ≡ out.old) × (counts.new ≡ counts.old) }
    ensures ranks { result ≡ 0 → (j : ℕ) → j < length numbers.now → IsRankOfNumber
        (slice_index numbers.now j) (slice_index indices.now j) (matrix_parts matrix.now)
        (selected_by (slice_index out.new j)) }
    ensures counts { result ≡ 0 → AreAnswersCounted out.new counts.new }
{
    seek_list(matrix, Sought::Rank, numbers, indices, out, counts)
}

/// The index of each number `numbers[i]` with `ranks[i]` such before it, and how many of the answers are codes.
#[unsafe(no_mangle)]
pub extern "C" fn bitm_matrix_select_list(
    matrix: &Matrix<'_>,
    numbers: &[u64],
    ranks: &[usize],
    out: &mut [usize],
    counts: &mut ListCounts,
) -> u32
    ensures ok { (result ≡ 0) ↔ HasLengths (matrix_parts matrix.now)
        × (length ranks.now ≡ length numbers.now) × (length out.old ≡ length numbers.now) }
    ensures kept { result ≢ 0 → (result ≡ 2) × (out.new ≡ out.old) × (counts.new ≡ counts.old) }
    ensures indices { result ≡ 0 → (j : ℕ) → j < length numbers.now → IsIndexOfNumber
        (slice_index numbers.now j) (slice_index ranks.now j) (matrix_parts matrix.now)
        (selected_by (slice_index out.new j)) }
    ensures counts { result ≡ 0 → AreAnswersCounted out.new counts.new }
{
    seek_list(matrix, Sought::Index, numbers, ranks, out, counts)
}
