//! The strategies by which an index selects: by binary search, and by samples. `bitm` hands on their names.
#![tactic(auto)]

// What is in each file:
// - `binary`: selection by binary search in the tables
// - `combined`: selection from samples: the strategy and what it owns
// - `density`: how many items share a sample
// - `optimal`: how densely to sample, for a share of items
// - `sampled`: selection from samples over a source, with a bound on its reads
// - `samples`: samples, built from the tables alone
// - `traits`: what a strategy is
// - `walking`: the walk from a sample to the entry of a rank
mod binary;
mod combined;
mod density;
mod optimal;
mod sampled;
mod samples;
mod traits;
mod walking;

pub use binary::BinaryRankSearch;
pub use combined::CombinedSampling;
pub use density::{
    AdaptiveCombinedSamplingDensity, CombinedSamplingDensity, ConstCombinedSamplingDensity,
};
pub use optimal::optimal_combined_sampling;
pub use sampled::first_entry;
pub use samples::{Summary, items_in, sample_from};
pub use traits::{Select0ForRank101111, SelectForRank101111};
