//! Bits, the index, sequences in parts and sections of blocks for C: the caller owns the memory, and no call allocates,
//! keeps a pointer or has state. Each call is defined for all numbers: it tests its arguments, and answers by a status.
//!
//! `include/bitm.h` declares the exports for C and C++ and says what each one answers.
#![tactic(auto)]

// What is in each file:
// - `bits`: single bits and numbers in words
// - `block`: a whole stored index, built in one call
// - `bytes`: a few bits anywhere in bytes
// - `copying`: copies and comparisons of ranges of bits
// - `fragments`: arrays of numbers in words, and the size of a bit vector
// - `index`: building and checking tables
// - `index_blocks`: the block of bits with their index, written, opened as an index and checked
// - `listed`: writes at a list of positions
// - `numbers`: predecessors, membership and runs of numbers of a sequence
// - `order`: where lists of numbers stop ascending, and where they pass a bound
// - `queries`: lists of queries, counts and positions of an index
// - `ranges`: counts, nearest bits, positions and writes over ranges, without tables
// - `ranks`: the rank of an index
// - `sampled`: building and checking samples
// - `sections`: a copy of a block with one section more, a section as it stands, and checksums
// - `selections`: the selection of an index, and nearest bits
// - `sequence`: Elias-Fano sequences
// - `sequence_lists`: lists of queries of a sequence
// - `shard_lists`: lists of queries of shards
// - `shards`: indexes over shards, queried as one
// - `stored`: the header of a file
// - `version`: the version
// - `whole`: bitwise operations on two bit vectors
// - `word`: selection in a word, and numbers of layouts
mod bits;
mod block;
mod bytes;
mod copying;
mod fragments;
mod index;
mod index_blocks;
mod listed;
mod numbers;
mod order;
mod queries;
mod ranges;
mod ranks;
mod sampled;
mod sections;
mod selections;
mod sequence;
mod sequence_lists;
mod shard_lists;
mod shards;
mod stored;
mod version;
mod whole;
mod word;
