//! What C passes and gets: the structs of `include/bitm.h`, each as the view that the library queries, and an answer as
//! a status and a number that is written. Each struct may hold any numbers, and says which lengths are right.
//!
//! Nothing here is exported: `bitm_c` has one call for each query over these.
#![tactic(auto)]

// What is in each file:
// - `answer`: statuses, and how an answer is reported by one
// - `counts`: how a list of answers is reported, the number of its codes, and an answer as a code
// - `hash`: a perfect hash, and the numbers of hashes
// - `hash_blocks`: a hash in a block
// - `header`: the header of a stored file: which lengths it can have, and how it is read
// - `index`: an index
// - `layout`: where each part of a file is
// - `lengths`: whether words and bytes have the bits that a call needs
// - `matrix`: a matrix in a block
// - `rooms`: the room for the samples of a stored index
// - `samples`: samples of one kind of bit
// - `sequence`: an Elias-Fano sequence, and the lengths of its parts
// - `sequence_lists`: lists of queries of a sequence
// - `shards`: indexes over shards
// - `tree`: a tree
mod answer;
mod counts;
mod hash;
mod hash_blocks;
mod header;
mod index;
mod layout;
mod lengths;
mod matrix;
mod rooms;
mod samples;
mod sequence;
mod sequence_lists;
mod shards;
mod tree;

pub use answer::{
    BAD_SIZE, NONE, OK, UNSORTED, WRONG, as_number, done, report, report_both, report_option,
};
pub use counts::{ListCounts, code_of, report_list};
pub use hash::{Hash, PerfectHashView, SeededHash};
pub use hash_blocks::{hash_at, hash_view};
pub use header::{HEADER_WORDS, header_at, header_of, index_of, sequence_of};
pub use index::Index;
pub use layout::{Span, Stored};
pub use lengths::{has_bits, has_bytes, has_counted_bits, has_range};
pub use matrix::Matrix;
pub use rooms::{is_log, most_samples};
pub use samples::{Samples, narrow_log2, samples_room};
pub use sequence::{Sequence, SequenceLens, report_list_answer};
pub use sequence_lists::{contains_list, last_at_most_list};
pub use shards::{Prefixes, ShardLocation, Shards, in_c, kind_of};
pub use tree::Tree;
