//! Lists of ranks and selections of bits in shards.
ghost use Rattle.std.specs.Prelude.{◌≡◌, ◌≢◌, ◌<◌, ◌↔◌, ℕ, length, slice_index};
ghost use Rattle.bitm_view.specs.Queries.{ranked_by, selected_by};
ghost use Rattle.bitm_c.specs.Shards.{HasTellableShards, RanksJoined, SelectsJoined};
ghost use Rattle.bitm_abi.specs.Lists.{AreAnswersCounted};

use bitm_abi::{BAD_SIZE, ListCounts, Shards, report_list};

/// The ranks of a list of positions of the joined bits, and how many of these are codes.
#[unsafe(no_mangle)]
pub extern "C" fn bitm_shards_rank_list(
    shards: &Shards<'_>,
    one: bool,
    positions: &[usize],
    out: &mut [usize],
    room: &mut [usize],
    counts: &mut ListCounts,
) -> u32
    ensures ok { (result ≡ 0) ↔ HasTellableShards shards.now
        × (length out.old ≡ length positions.now) }
    ensures kept { result ≢ 0 → (result ≡ 2) × (out.new ≡ out.old) × (counts.new ≡ counts.old) }
    ensures ranks { result ≡ 0 → (j : ℕ) → j < length positions.now → RanksJoined one shards.now
        (slice_index positions.now j) (ranked_by (slice_index out.new j)) }
    ensures counts { result ≡ 0 → AreAnswersCounted out.new counts.new }
{
    let Some(index) = shards.index() else {
        return BAD_SIZE;
    };
    let done = index.rank_list(one, positions, &mut *out, room);
    report_list(done, &*out, counts)
}

/// The positions, in the joined bits, of the bits with a list of ranks, and how many of these are codes.
#[unsafe(no_mangle)]
pub extern "C" fn bitm_shards_select_list(
    shards: &Shards<'_>,
    one: bool,
    ranks: &[usize],
    out: &mut [usize],
    room: &mut [usize],
    counts: &mut ListCounts,
) -> u32
    ensures ok { (result ≡ 0) ↔ HasTellableShards shards.now × (length out.old ≡ length ranks.now) }
    ensures kept { result ≢ 0 → (result ≡ 2) × (out.new ≡ out.old) × (counts.new ≡ counts.old) }
    ensures selects { result ≡ 0 → (j : ℕ) → j < length ranks.now → SelectsJoined one shards.now
        (slice_index ranks.now j) (selected_by (slice_index out.new j)) }
    ensures counts { result ≡ 0 → AreAnswersCounted out.new counts.new }
{
    let Some(index) = shards.index() else {
        return BAD_SIZE;
    };
    let done = index.select_list(one, ranks, &mut *out, room);
    report_list(done, &*out, counts)
}
