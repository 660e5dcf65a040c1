//! The block of a hash, written into the caller's memory.
ghost use Rattle.std.specs.Prelude.{◌≡◌, ◌≢◌, ◌^◌, ◌<◌, ◌≤◌, ◌↔◌, IfErr, IfOk, IsErr, IsErrOf, IsOk, length};
ghost use Rattle.std.specs.Int.{div_ceil};
ghost use Rattle.bit_lists.specs.Bits.{bits_of};
ghost use Rattle.bit_lists.specs.Count.{ones_of};
ghost use Rattle.bitm_block.specs.Layout.{end_of};
ghost use Rattle.bitm_block.specs.Written.{IsSealed};
ghost use Rattle.perfect_hash.specs.Numbers.{AreSizes};
ghost use Rattle.hash_block.specs.Block.{hash_head, hash_sections, AreFew, AreParts, CanHold, IsBlockOf, StandsIn};

use crate::error::BuildError;
use crate::levels::are_levels;
use crate::sections::{block_len, hash_head, hash_sections};
use bitm::RankSelect101111;
use bitm_block::{aligned, copy_items, seal_sized};
use bitm_strategies::{Select0ForRank101111, SelectForRank101111};
use block_tables::{as_entries_mut, fill_tables};
use perfect_hash::PerfectHash;
use std::convert::AsSlice;
use tables_view::{lower_len, upper_len};

/// Writes the words of levels, their tables and their sizes where a block has them, and returns how many 1 bits there
/// are: for who writes a block with these sections and others.
///
/// # Conditions
/// There are fewer than 2^58 words, and the memory of each has the length that it needs.
/// # Cost
/// Two passes over the words (evident from the code). Nothing is allocated.
///
/// ```
/// let ones = write_levels(&words, &sizes, to, upper, lower, to_sizes);   // 3 of one word 0b1101
/// ```
pub fn write_levels(
    words: &[u64],
    sizes: &[usize],
    to: &mut [u64],
    upper: &mut [u64],
    lower: &mut [u64],
    to_sizes: &mut [u64],
) -> usize
    requires short { length words.now < 2 ^ 58 }
    requires words { length to.old ≡ length words.now }
    requires upper { length upper.old ≡ div_ceil (length words.now) (2 ^ 26) }
    requires lower { length lower.old ≡ div_ceil (length words.now) 32 }
    requires sizes { length to_sizes.old ≡ length sizes.now }
    ensures words { to.new ≡ words.now }
    ensures parts { AreParts words.now sizes.now upper.new lower.new to_sizes.new }
    ensures ones { result ≡ ones_of (bits_of words.now) }
{
    copy_items(to, words);
    copy_items(as_entries_mut(to_sizes), sizes);
    fill_tables(words, upper, lower)
}

/// Writes the sections of levels where their block has them, and returns how many 1 bits there are.
fn write_parts(words: &[u64], sizes: &[usize], block: &mut [u64]) -> usize
    requires { CanHold words.now sizes.now block.old }
    ensures stands { StandsIn words.now sizes.now block.new }
    ensures ones { result ≡ ones_of (bits_of words.now) }
    ensures len { length block.new ≡ length block.old }
{
    let needed = words.len();
    let uppers = upper_len(needed);
    let lowers = lower_len(needed);
    let (_head, rest) = block.split_at_mut(32);
    let (room, rest) = rest.split_at_mut(aligned(needed));
    let (to, _gap) = room.split_at_mut(needed);
    let (room, rest) = rest.split_at_mut(aligned(uppers));
    let (upper, _gap) = room.split_at_mut(uppers);
    let (room, rest) = rest.split_at_mut(aligned(lowers));
    let (lower, _gap) = room.split_at_mut(lowers);
    let (to_sizes, _gap) = rest.split_at_mut(sizes.len());
    write_levels(words, sizes, to, upper, lower, to_sizes)
}

/// Writes the header and the directory of a hash.
fn seal_hash(words: usize, levels: usize, keys: usize, seed: u64, block: &mut [u64])
    requires few { AreFew words levels }
    requires room { length block.old ≡ end_of (hash_sections words levels) }
    ensures { IsSealed (hash_head keys seed) (hash_sections words levels) block.old block.new }
{
    let sections = hash_sections(words, levels);
    seal_sized(&hash_head(keys, seed), sections.as_slice(), block);
}

/// Writes the block of a hash.
fn write_block(words: &[u64], sizes: &[usize], seed: u64, block: &mut [u64])
    requires { CanHold words.now sizes.now block.old }
    ensures { IsBlockOf sizes.now (bits_of words.now) seed block.new }
{
    let keys = write_parts(words, sizes, &mut *block);
    seal_hash(words.len(), sizes.len(), keys, seed, block);
}

/// Writes the block of the hash whose levels have these words and sizes, as `build_in_place` and `Levels::build` make
/// them, with a seed of the caller's: that by which the keys were hashed. `open` opens it, and `check` accepts it.
///
/// # Errors
/// `TooLong` exactly where there are 2^58 words or more; else `NotLevels` exactly where a level has no word, they have
/// not all the words together, or there are more than 256; else `WrongLength` exactly where the words of the block are
/// more or fewer than it takes (`size`). These stay as they are then.
/// # Cost
/// Two passes over the words and one over the block (evident from the code). Nothing is allocated.
///
/// ```
/// let mut block = [0u64; 64];                             // size(1, 1): Some(64)
/// build(&[0b1101], &[1], 7, block.as_mut_slice());        // Ok(()): a level of one word, for three keys
/// build(&[0b1101], &[2], 7, block.as_mut_slice());        // Err(BuildError::NotLevels)
/// ```
pub fn build(words: &[u64], sizes: &[usize], seed: u64, block: &mut [u64]) -> Result<(), BuildError>
    ensures ok { IsOk result ↔ CanHold words.now sizes.now block.old }
    ensures too_long { IsErrOf result BuildError.TooLong ↔ (2 ^ 58 ≤ length words.now) }
    ensures not_levels { IsErrOf result BuildError.NotLevels ↔ ((length words.now < 2 ^ 58)
        × (¬ (AreSizes sizes.now (bits_of words.now)))) }
    ensures wrong_length { IsErrOf result BuildError.WrongLength ↔ ((length words.now < 2 ^ 58)
        × AreSizes sizes.now (bits_of words.now)
        × (length block.old ≢ end_of (hash_sections (length words.now) (length sizes.now)))) }
    ensures block { IfOk result (λ _. IsBlockOf sizes.now (bits_of words.now) seed block.new) }
    ensures kept { IfErr result (λ _. block.new ≡ block.old) }
{
    if words.len() >= 1 << 58 {
        return Err(BuildError::TooLong);
    }
    if !are_levels(words, sizes) {
        return Err(BuildError::NotLevels);
    }
    if block.len() != block_len(words.len(), sizes.len()) {
        return Err(BuildError::WrongLength);
    }
    write_block(words, sizes, seed, block);
    Ok(())
}

/// Writes the block of a perfect hash over an index, as `build` does of its levels.
///
/// # Errors
/// `WrongLength` exactly where the words of the block are more or fewer than it takes (`size` of the index's words and
/// the levels). These stay as they are then.
/// # Cost
/// The cost of `build`.
///
/// ```
/// let words = made.index().content().as_slice();
/// build_of(&made, 7, block.as_mut_slice());   // as build(words, made.sizes(), 7, block.as_mut_slice())
/// ```
pub fn build_of<H, S: SelectForRank101111, S0: Select0ForRank101111, BV: AsSlice<u64>>(
    hash: &PerfectHash<H, RankSelect101111<S, S0, BV>>,
    seed: u64,
    block: &mut [u64],
) -> Result<(), BuildError>
    ensures wrong_length { IsErr result ↔ (length block.old
        ≢ end_of (hash_sections (length (BV.items hash.now.index.content)) (length hash.now.sizes))) }
    ensures error { IfErr result (λ e. e ≡ BuildError.WrongLength) }
    ensures block { IfOk result (λ _. IsBlockOf hash.now.sizes hash.now.bits seed block.new) }
    ensures kept { IfErr result (λ _. block.new ≡ block.old) }
{
    let words = hash.index().content().as_slice();
    if block.len() != block_len(words.len(), hash.sizes().len()) {
        return Err(BuildError::WrongLength);
    }
    write_block(words, hash.sizes(), seed, block);
    Ok(())
}
