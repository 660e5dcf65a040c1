//! Sparse bits: a bit vector with few 1 bits, kept as the positions of its 1 bits, with the queries of the dense index
//! under the same names.
//!
//! The positions are an Elias-Fano sequence, so `n` 1 bits among `len` bits take about `n * (log2(len / n) + 2)` bits;
//! `build` has the bound. Contracts see sparse bits as the list of their bits, as they see `bitm::RankSelect101111`, so
//! code that is generic over `bitm::Rank`, `Access`, `Select` and `Select0` takes both, and `bitm::ranges` has counts
//! in a range and the nearest bits.
//!
//! ```
//! let Ok(bits) = SampledSparseBits::build(alloc, &[3, 100, 101, 4000], 5000) else { .. };
//! bits.try_rank(101);                  // Some(2)
//! bits.try_select(3);                  // Some(4000)
//! bits.try_select0(3);                 // Some(4): position 3 is the first 1 bit
//! bits.try_get_bit(100);               // Some(true)
//! ranges::next_one(&bits, 102);        // Some(4000)
//! ranges::previous_zero(&bits, 101);   // Some(99)
//! ```
#![tactic(auto)]

// What is in each file:
// - `checking`: which numbers are positions of 1 bits
// - `counted`: the queries of borrowed positions, whose searches and reads are counted
// - `error`: why positions or words were refused
// - `sparse`: the type of sparse bits
mod checking;
mod counted;
mod error;
mod sparse;

pub use checking::check_positions;
pub use counted::Ones;
pub use error::SparseError;
pub use sparse::{BinarySparseBits, SampledSparseBits, SparseBits};
