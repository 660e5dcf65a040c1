//! Rank and select over slices of `u64`, and the bits and fragments of `bitm_bits` under the same names.
//!
//! Contracts see a bit vector as the list of its bits, and rank as plain counting in that list.
//!
//! ```
//! let mut content = BoxedSlice::with_zeroed_bits(alloc, 2048)?;
//! words::set_bit(content.as_mut_slice(), 100);
//! let Ok((bits, ones)) = ArrayWithRank101111::build(alloc, content) else { return Err(AllocError) };
//! bits.try_rank(101);     // Some(1)
//! bits.try_select(0);     // Some(100)
//! ```
//!
//! The crate `example_callers` proves this and more about a caller's code; `CALLING.md` says which call establishes
//! which fact.
#![tactic(auto)]

// What is in each file:
// - `counted`: a value whose ranks and selections are counted
// - `index`: the index, `RankSelect101111`
// - `index_laws`: laws of tables and words
// - `near`: the first 0 bit from a position on, where it is near
// - `queries`: the traits `Rank`, `Access`, `Select` and `Select0`
// - `ranges`: counts in a range, nearest bits and selection from a position on, for any value with these traits
// - `samples`: how samples are built and read elsewhere
// - `simple`: rank by one number for each 512 bits, `RankSimple`
mod counted;
mod index;
pub mod index_laws;
mod near;
mod queries;
pub mod ranges;
pub mod samples;
mod simple;

pub use bit_lists::laws;
pub use bit_words::{
    BitBIterator, BitIterator, BitOnesIterator, BitZerosIterator, bits_to_store, ceiling_div,
    get_bits25, get_bits57, init_bits25, init_bits57, n_lowest_bits, n_lowest_bits_0_64,
    n_lowest_bits_1_64, set_bits25, set_bits57, words,
};
pub use bitm_bits::{BitAccess, BitAccessMut, BitVec, BitWriter, CloneWords, GetSize};
pub use bitm_select::many::lists::{rank_many_on, select_many_on, total_select_many_on};
pub use bitm_select::search::selected::{NO_ANSWER, WRONG_TABLES};
pub use bitm_select::search::selecting::{binary_select_on, total_select_on};
pub use bitm_strategies::{
    AdaptiveCombinedSamplingDensity, BinaryRankSearch, CombinedSampling, CombinedSamplingDensity,
    ConstCombinedSamplingDensity, Select0ForRank101111, SelectForRank101111,
    optimal_combined_sampling,
};
pub use bitm_tables::answer::Answer;
pub use bitm_tables::entry::complement_entry;
pub use bitm_tables::levels::{
    BITS_PER_L1_ENTRY, BITS_PER_L2_ENTRY, BITS_PER_L2_RECORDS, L2_ENTRIES_PER_L1_ENTRY,
    U64_PER_L1_ENTRY, U64_PER_L2_ENTRY, U64_PER_L2_RECORDS,
};
pub use bitm_tables::quarters::{bit_and_rank_by_quarters_on, make_quarters, rank_by_quarters_on};
pub use bitm_tables::ranking::{bit_and_rank_on, bit_on, rank_on, total_rank_on};
pub use bitm_tables::source::counts::ReadCounts;
pub use bitm_tables::source::{Probe, TableSource};
pub use broadword::{byte_sums, bytes_at_most, select64};
pub use index::{ArrayWithRank101111, RankSelect101111};
pub use near::near_zero_on;
pub use queries::{Access, HasBits, Rank, Select, Select0};
pub use simple::{ArrayWithRankSimple, RankSimple};
