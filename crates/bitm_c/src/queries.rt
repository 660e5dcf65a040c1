//! Lists of ranks and selections of an index, and the positions of its bits and their number.
ghost use Rattle.std.specs.Prelude.{◌≡◌, ◌≢◌, ◌<◌, ◌↔◌, ℕ, length, slice_index};
ghost use Rattle.bit_lists.specs.Count.{count_of};
ghost use Rattle.bitm_view.specs.Cut.{bits_of_cut, IsSizedCut};
ghost use Rattle.bitm_view.specs.Queries.{ranked_by, selected_by, RanksIn, SelectsIn};
ghost use Rattle.bitm_c.specs.Queries.{PositionsWritten};
ghost use Rattle.bitm_abi.specs.Index.{cut_of};
ghost use Rattle.bitm_abi.specs.Lists.{AreAnswersCounted};

use bitm_abi::{BAD_SIZE, Index, ListCounts, OK, report_list};

/// Writes the rank of each position of a list, and how many of the ranks are codes.
#[unsafe(no_mangle)]
pub extern "C" fn bitm_index_rank_list(
    index: &Index<'_>,
    one: bool,
    positions: &[usize],
    out: &mut [usize],
    counts: &mut ListCounts,
) -> u32
    ensures ok { (result ≡ 0) ↔ IsSizedCut (cut_of index.now)
        × (length out.old ≡ length positions.now) }
    ensures kept { result ≢ 0 → (result ≡ 2) × (out.new ≡ out.old) × (counts.new ≡ counts.old) }
    ensures ranks { result ≡ 0 → (j : ℕ) → j < length positions.now
        → RanksIn one (cut_of index.now) (slice_index positions.now j)
        (ranked_by (slice_index out.new j)) }
    ensures counts { result ≡ 0 → AreAnswersCounted out.new counts.new }
{
    let Some(view) = index.view() else {
        return BAD_SIZE;
    };
    let done = if one {
        view.rank_each::<1>(positions, &mut *out)
    } else {
        view.rank_each::<0>(positions, &mut *out)
    };
    report_list(done, &*out, counts)
}

/// Writes the position of the bit with each rank of a list, and how many of the positions are codes.
#[unsafe(no_mangle)]
pub extern "C" fn bitm_index_select_list(
    index: &Index<'_>,
    one: bool,
    ranks: &[usize],
    out: &mut [usize],
    counts: &mut ListCounts,
) -> u32
    ensures ok { (result ≡ 0) ↔ IsSizedCut (cut_of index.now)
        × (length out.old ≡ length ranks.now) }
    ensures kept { result ≢ 0 → (result ≡ 2) × (out.new ≡ out.old) × (counts.new ≡ counts.old) }
    ensures selects { result ≡ 0 → (j : ℕ) → j < length ranks.now
        → SelectsIn one (cut_of index.now) (slice_index ranks.now j)
        (selected_by (slice_index out.new j)) }
    ensures counts { result ≡ 0 → AreAnswersCounted out.new counts.new }
{
    let Some(view) = index.view() else {
        return BAD_SIZE;
    };
    let done = if one {
        view.select_each::<1>(ranks, &mut *out)
    } else {
        view.select_each::<0>(ranks, &mut *out)
    };
    report_list(done, &*out, counts)
}

/// The number of 1 bits, or of 0 bits, in the bit vector, counted in the words alone.
#[unsafe(no_mangle)]
pub extern "C" fn bitm_index_count(index: &Index<'_>, one: bool, out: &mut usize) -> u32
    ensures ok { (result ≡ 0) ↔ IsSizedCut (cut_of index.now) }
    ensures count { result ≡ 0 → out.new ≡ count_of (bits_of_cut (cut_of index.now)) one }
    ensures kept { result ≢ 0 → (result ≡ 2) × (out.new ≡ out.old) }
{
    let Some(view) = index.view() else {
        return BAD_SIZE;
    };
    *out = if one {
        view.count::<1>()
    } else {
        view.count::<0>()
    };
    OK
}

/// Writes the positions of the bit vector's 1 bits, or 0 bits, from `from` on, in rising order, until none is left or
/// `out` is full, and how many were written.
#[unsafe(no_mangle)]
pub extern "C" fn bitm_index_positions(
    index: &Index<'_>,
    one: bool,
    from: usize,
    out: &mut [usize],
    written: &mut usize,
) -> u32
    ensures ok { (result ≡ 0) ↔ IsSizedCut (cut_of index.now) }
    ensures positions { result ≡ 0
        → PositionsWritten one (bits_of_cut (cut_of index.now)) from out.old out.new written.new }
    ensures kept { result ≢ 0 → (result ≡ 2) × (out.new ≡ out.old)
        × (written.new ≡ written.old) }
{
    let Some(view) = index.view() else {
        return BAD_SIZE;
    };
    *written = if one {
        view.positions_from::<1>(from, out)
    } else {
        view.positions_from::<0>(from, out)
    };
    OK
}
