//! The two tables of an index, built in one pass over the words.
ghost use Rattle.std.specs.Prelude.{◌≡◌, ◌+◌, ◌*◌, ◌^◌, ◌<◌, ◌≤◌, length, map, min, IfOk};
ghost use Rattle.std.specs.Box.{boxed_slice_items};
ghost use Rattle.std.specs.Int.{div_ceil};
ghost use Rattle.std.specs.List.{range_with_len};
ghost use Rattle.bit_lists.specs.Bits.{bits_of, IsShort};
ghost use Rattle.bit_lists.specs.Count.{ones_before, ones_of};
ghost use Rattle.bitm_tables.specs.Entry.{packed_counts, before_in_part, lower_entry};
ghost use Rattle.bitm_tables.specs.Tables.{AreTablesOf};

use crate::levels::{
    L2_ENTRIES_PER_L1_ENTRY, U64_PER_L1_ENTRY, U64_PER_L2_ENTRY, U64_PER_L2_RECORDS,
};
use broadword::count_bit_ones;
use std::alloc::{AllocError, Global};
use std::boxed::BoxedSlice;

/// The two tables of a bit vector.
#[derive(Drop)]
pub struct Tables {
    /// The number of 1 bits before each upper block.
    pub l1ranks: BoxedSlice<usize, Global>,
    /// The packed entry of each lower block.
    pub l2ranks: BoxedSlice<u64, Global>,
}

/// Four counts in one number, as `RankSelect101111` shows them: the number of 1 bits before an entry in its upper
/// block, and in its first one, two and three basic blocks.
#[inline(always)]
fn pack(before: usize, one: usize, two: usize, three: usize) -> u64
    requires before { before < 2 ^ 32 }
    requires one { one ≤ 512 }
    requires two { two ≤ 1024 }
    requires three { three ≤ 1536 }
    ensures { result ≡ packed_counts before one two three }
{
    before as u64 + ((three as u64) << 32) + ((two as u64) << 43) + ((one as u64) << 54)
}

/// The number of 1 bits in the basic block from word `first` on, which the end of the words cuts off. Called for the
/// last entry alone, and not inlined, so that the other basic blocks are counted without its bounds.
#[cold]
#[inline(never)]
fn ones_of_cut_record(words: &[u64], first: usize) -> usize
    requires short { IsShort words.now }
    requires cut { length words.now < first + 8 }
    ensures ones { ones_before (bits_of words.now) (64 * first) + result
        ≡ ones_before (bits_of words.now) (64 * (first + 8)) }
    ensures most { result ≤ 512 }
{
    count_bit_ones(&words[words.len().min(first)..])
}

/// The number of 1 bits in the basic block from word `first` on: in eight words, or in the fewer that exist.
#[inline(always)]
pub fn ones_of_record(words: &[u64], first: usize) -> usize
    requires short { IsShort words.now }
    requires near { first < 2 ^ 59 }
    ensures ones { ones_before (bits_of words.now) (64 * first) + result
        ≡ ones_before (bits_of words.now) (64 * (first + 8)) }
    ensures most { result ≤ 512 }
{
    let end = first + U64_PER_L2_RECORDS;
    if end <= words.len() {
        count_bit_ones(&words[first..end])
    } else {
        ones_of_cut_record(words, first)
    }
}

/// Lower entry `at`, before which its upper block has `before` 1 bits, and the number of 1 bits in its lower block.
///
/// # Conditions
/// The lower block starts within the words, which are fewer than 2^58.
/// # Cost
/// Each of its 32 words is read once.
#[inline(always)]
pub fn make_entry(words: &[u64], at: usize, before: usize) -> (u64, usize)
    requires short { IsShort words.now }
    requires begun { 32 * at < length words.now }
    requires before { before ≡ before_in_part (bits_of words.now) at }
    ensures entry { result.0 ≡ lower_entry (bits_of words.now) at }
    ensures ones { ones_before (bits_of words.now) (2048 * at) + result.1
        ≡ ones_before (bits_of words.now) (2048 * (at + 1)) }
{
    let first = at * U64_PER_L2_ENTRY;
    let one = ones_of_record(words, first);
    let two = one + ones_of_record(words, first + U64_PER_L2_RECORDS);
    let three = two + ones_of_record(words, first + 2 * U64_PER_L2_RECORDS);
    let ones = three + ones_of_record(words, first + 3 * U64_PER_L2_RECORDS);
    (pack(before, one, two, three), ones)
}

/// Pushes the lower entries of an upper block in order, and returns the number of its 1 bits.
fn push_entries(words: &[u64], part: usize, l2ranks: &mut Vec<u64>) -> Result<usize, AllocError>
    requires short { IsShort words.now }
    requires begun { part * 2 ^ 26 < length words.now }
    requires so_far { l2ranks.old.items
        ≡ map (lower_entry (bits_of words.now)) (range_with_len 0 (part * 2 ^ 21)) }
    ensures entries { IfOk result (λ _. l2ranks.new.items ≡ map (lower_entry (bits_of words.now))
        (range_with_len 0 (min (div_ceil (length words.now) 32) ((part + 1) * 2 ^ 21)))) }
    ensures ones { IfOk result (λ ones. ones_before (bits_of words.now) (part * 2 ^ 32) + ones
        ≡ ones_before (bits_of words.now) ((part + 1) * 2 ^ 32)) }
{
    let first = part * L2_ENTRIES_PER_L1_ENTRY;
    let end = words
        .len()
        .div_ceil(U64_PER_L2_ENTRY)
        .min(first + L2_ENTRIES_PER_L1_ENTRY);
    let mut in_part = 0;
    for at in first..end {
        let (entry, ones) = make_entry(words, at, in_part);
        l2ranks.push(entry)?;
        in_part += ones;
    }
    Ok(in_part)
}

/// Builds the tables of the words, and returns them with the number of 1 bits.
///
/// # Errors
/// `AllocError` if memory for a table was refused; nothing is leaked.
pub fn make(alloc: Global, words: &[u64]) -> Result<(Tables, usize), AllocError>
    requires { IsShort words.now }
    ensures tables { IfOk result (λ pair. AreTablesOf (bits_of words.now)
        (boxed_slice_items pair.0.l1ranks) (boxed_slice_items pair.0.l2ranks)) }
    ensures ones { IfOk result (λ pair. pair.1 ≡ ones_of (bits_of words.now)) }
{
    let parts = words.len().div_ceil(U64_PER_L1_ENTRY);
    let mut l1ranks = Vec::with_capacity(alloc, parts)?;
    let mut l2ranks = Vec::with_capacity(alloc, words.len().div_ceil(U64_PER_L2_ENTRY))?;
    let mut ones = 0;
    for part in 0..parts {
        l1ranks.push(ones)?;
        ones += push_entries(words, part, &mut l2ranks)?;
    }
    let tables = Tables {
        l1ranks: l1ranks.into_boxed_slice(),
        l2ranks: l2ranks.into_boxed_slice(),
    };
    Ok((tables, ones))
}
