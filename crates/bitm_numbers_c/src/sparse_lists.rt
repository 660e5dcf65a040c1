//! Lists of queries of sparse bits in a block.
ghost use Rattle.std.specs.Prelude.{◌≡◌, ◌≢◌, ◌-◌, ◌^◌, ◌<◌, ◌↔◌, ℕ, length, slice_index};
ghost use Rattle.bitm_abi.specs.Lists.{AreAnswersCounted};
ghost use Rattle.bitm_abi.specs.Sequence.{IsSequenceSized};
ghost use Rattle.bitm_view.specs.Queries.{selected_by};
ghost use Rattle.bitm_numbers_c.specs.Sparse.{sparse_parts, IsBit, IsRankIn, IsSelectIn, Responds};

use crate::sparse::Sparse;
use bitm_abi::{BAD_SIZE, ListCounts, as_number, code_of, report_list};
use bitm_select::search::selected::WRONG_TABLES;
use sequence_block::sparse::SparseView;

/// A query of each number of a list.
#[derive(Clone, Copy)]
pub enum Query {
    /// The bit at this position.
    Bit,
    /// How many bits of a kind, true for the 1 bits, there are before this position.
    Rank(bool),
    /// The position of the bit of a kind with this rank.
    Select(bool),
}

/// The answer to a query of a number, by the codes of lists.
#[inline(always)]
fn code_for(view: &SparseView<'_>, query: Query, number: usize) -> usize
    requires { view.now.len < 2 ^ 64 - 2 }
    ensures { Responds query number view.now (selected_by result) }
{
    match query {
        Query::Bit => code_of(as_number(view.get_bit(number))),
        Query::Rank(one) => code_of(view.rank_of(one, number)),
        Query::Select(one) => code_of(view.select_of(one, number)),
    }
}

/// The answer to a query of each number.
fn respond_each(view: &SparseView<'_>, query: Query, numbers: &[usize], out: &mut [usize])
    requires codes { view.now.len < 2 ^ 64 - 2 }
    requires room { length out.old ≡ length numbers.now }
    ensures { (j : ℕ) → j < length numbers.now
        → Responds query (slice_index numbers.now j) view.now (selected_by (slice_index out.new j)) }
{
    for at in 0..numbers.len() {
        out[at] = code_for(view, query, numbers[at]);
    }
}

/// The answers to a query of each number of a list, by a status.
#[inline(always)]
fn respond_list(
    sparse: &Sparse<'_>,
    query: Query,
    numbers: &[usize],
    out: &mut [usize],
    counts: &mut ListCounts,
) -> u32
    ensures ok { (result ≡ 0) ↔ IsSequenceSized sparse.now.positions
        × (sparse.now.bits_len < 2 ^ 64 - 2) × (length out.old ≡ length numbers.now) }
    ensures kept { result ≢ 0 → (result ≡ 2) × (out.new ≡ out.old) × (counts.new ≡ counts.old) }
    ensures answers { result ≡ 0 → (j : ℕ) → j < length numbers.now → Responds query
        (slice_index numbers.now j) (sparse_parts sparse.now) (selected_by (slice_index out.new j)) }
    ensures counts { result ≡ 0 → AreAnswersCounted out.new counts.new }
{
    let Some(view) = sparse.view() else {
        return BAD_SIZE;
    };
    // a position that is found, and a count, is no code then
    if view.len() >= WRONG_TABLES || out.len() != numbers.len() {
        return BAD_SIZE;
    }
    respond_each(&view, query, numbers, &mut *out);
    report_list(true, &*out, counts)
}

/// The bit at each position of a list, as 0 or 1, and how many of the answers are codes.
#[unsafe(no_mangle)]
pub extern "C" fn bitm_sparse_get_list(
    sparse: &Sparse<'_>,
    positions: &[usize],
    out: &mut [usize],
    counts: &mut ListCounts,
) -> u32
    ensures ok { (result ≡ 0) ↔ IsSequenceSized sparse.now.positions
        × (sparse.now.bits_len < 2 ^ 64 - 2) × (length out.old ≡ length positions.now) }
    ensures kept { result ≢ 0 → (result ≡ 2) × (out.new ≡ out.old) × (counts.new ≡ counts.old) }
    ensures bits { result ≡ 0 → (j : ℕ) → j < length positions.now → IsBit
        (slice_index positions.now j) (sparse_parts sparse.now) (selected_by (slice_index out.new j)) }
    ensures counts { result ≡ 0 → AreAnswersCounted out.new counts.new }
{
    respond_list(sparse, Query::Bit, positions, out, counts)
}

/// How many bits of a kind there are before each position of a list, and how many of the answers are codes.
#[unsafe(no_mangle)]
pub extern "C" fn bitm_sparse_rank_list(
    sparse: &Sparse<'_>,
    one: bool,
    positions: &[usize],
    out: &mut [usize],
    counts: &mut ListCounts,
) -> u32
    ensures ok { (result ≡ 0) ↔ IsSequenceSized sparse.now.positions
        × (sparse.now.bits_len < 2 ^ 64 - 2) × (length out.old ≡ length positions.now) }
    ensures kept { result ≢ 0 → (result ≡ 2) × (out.new ≡ out.old) × (counts.new ≡ counts.old) }
    ensures ranks { result ≡ 0 → (j : ℕ) → j < length positions.now → IsRankIn one
        (slice_index positions.now j) (sparse_parts sparse.now) (selected_by (slice_index out.new j)) }
    ensures counts { result ≡ 0 → AreAnswersCounted out.new counts.new }
{
    respond_list(sparse, Query::Rank(one), positions, out, counts)
}

/// The position of the bit of a kind with each rank of a list, and how many of the answers are codes.
#[unsafe(no_mangle)]
pub extern "C" fn bitm_sparse_select_list(
    sparse: &Sparse<'_>,
    one: bool,
    ranks: &[usize],
    out: &mut [usize],
    counts: &mut ListCounts,
) -> u32
    ensures ok { (result ≡ 0) ↔ IsSequenceSized sparse.now.positions
        × (sparse.now.bits_len < 2 ^ 64 - 2) × (length out.old ≡ length ranks.now) }
    ensures kept { result ≢ 0 → (result ≡ 2) × (out.new ≡ out.old) × (counts.new ≡ counts.old) }
    ensures positions { result ≡ 0 → (j : ℕ) → j < length ranks.now → IsSelectIn one
        (slice_index ranks.now j) (sparse_parts sparse.now) (selected_by (slice_index out.new j)) }
    ensures counts { result ≡ 0 → AreAnswersCounted out.new counts.new }
{
    respond_list(sparse, Query::Select(one), ranks, out, counts)
}
