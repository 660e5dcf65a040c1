//! How many bits, words and entries the levels of the tables cover.

/// Bits of one upper block, which has one upper entry. The number of 1 bits before a lower block, in its upper block,
/// fits 32 bits.
pub const BITS_PER_L1_ENTRY: usize = 1 << 32;

/// 64-bit words of one upper block.
pub const U64_PER_L1_ENTRY: usize = 1 << (32 - 6);

/// 64-bit words of one lower block: four basic blocks.
pub const U64_PER_L2_ENTRY: usize = 4 * U64_PER_L2_RECORDS;

/// Bits of one lower block, which has one lower entry.
pub const BITS_PER_L2_ENTRY: usize = 64 * U64_PER_L2_ENTRY;

/// 64-bit words of one basic block: a cache line of 64 bytes.
pub const U64_PER_L2_RECORDS: usize = 8;

/// Bits of one basic block of eight words.
pub const BITS_PER_L2_RECORDS: u64 = 64 * U64_PER_L2_RECORDS as u64;

/// Bits of one basic block, as `usize`.
pub(crate) const RECORD_BITS: usize = 64 * U64_PER_L2_RECORDS;

/// Basic blocks of one lower block.
pub(crate) const RECORDS_PER_L2_ENTRY: usize = U64_PER_L2_ENTRY / U64_PER_L2_RECORDS;

/// Lower entries of one upper block: 2^32 / 2048.
pub const L2_ENTRIES_PER_L1_ENTRY: usize = 1 << (32 - 11);

const _: () = prove!(BITS_PER_L1_ENTRY == 0x1_0000_0000);

const _: () = prove!(U64_PER_L1_ENTRY * 64 == BITS_PER_L1_ENTRY);

const _: () = prove!(U64_PER_L2_ENTRY == 32);

const _: () = prove!(BITS_PER_L2_ENTRY == 2048);

const _: () = prove!(BITS_PER_L2_RECORDS == 512);

const _: () = prove!(L2_ENTRIES_PER_L1_ENTRY * U64_PER_L2_ENTRY == U64_PER_L1_ENTRY);
