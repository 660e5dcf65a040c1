//! The block of a hash with seeds, written into the caller's memory.
ghost use Rattle.std.specs.Prelude.{◌≡◌, ◌≢◌, ◌^◌, ◌<◌, ◌≤◌, ◌↔◌, IfErr, IfOk, IsErrOf, IsOk, length};
ghost use Rattle.bit_lists.specs.Bits.{bits_of};
ghost use Rattle.bit_lists.specs.Count.{ones_of};
ghost use Rattle.bitm_block.specs.Layout.{end_of};
ghost use Rattle.bitm_block.specs.Written.{IsSealed};
ghost use Rattle.perfect_hash.specs.Numbers.{AreSizes};
ghost use Rattle.hash_block.specs.Block.{hash_head, AreFew};
ghost use Rattle.hash_block.specs.SeededBlock.{seeded_sections, CanHold, IsBlockOf, RoundTrip, StandsIn};

use crate::seeded::error::BuildError;
use crate::seeded::packed::pack;
use crate::seeded::sections::{block_len, seeded_sections};
use crate::{are_levels, hash_head, write_levels};
use bitm_block::{aligned, seal_sized};
use tables_view::{lower_len, upper_len};

/// Writes the sections of levels where their block has them, and returns how many 1 bits there are.
fn write_parts(words: &[u64], seeds: &[u8], sizes: &[usize], block: &mut [u64]) -> usize
    requires { CanHold words.now seeds.now sizes.now block.old }
    ensures stands { StandsIn words.now seeds.now sizes.now block.new }
    ensures ones { result ≡ ones_of (bits_of words.now) }
    ensures len { length block.new ≡ length block.old }
{
    let needed = words.len();
    let (uppers, lowers, packed) = (upper_len(needed), lower_len(needed), needed.div_ceil(8));
    let (_head, rest) = block.split_at_mut(40);
    let (room, rest) = rest.split_at_mut(aligned(needed));
    let (to, _gap) = room.split_at_mut(needed);
    let (room, rest) = rest.split_at_mut(aligned(uppers));
    let (upper, _gap) = room.split_at_mut(uppers);
    let (room, rest) = rest.split_at_mut(aligned(lowers));
    let (lower, _gap) = room.split_at_mut(lowers);
    let (room, rest) = rest.split_at_mut(aligned(packed));
    let (to_seeds, _gap) = room.split_at_mut(packed);
    let (to_sizes, _gap) = rest.split_at_mut(sizes.len());
    pack(seeds, to_seeds);
    write_levels(words, sizes, to, upper, lower, to_sizes)
}

/// Writes the header and the directory of a hash with seeds.
fn seal_seeded(words: usize, levels: usize, keys: usize, seed: u64, block: &mut [u64])
    requires few { AreFew words levels }
    requires room { length block.old ≡ end_of (seeded_sections words levels) }
    ensures { IsSealed (hash_head keys seed) (seeded_sections words levels) block.old block.new }
{
    let sections = seeded_sections(words, levels);
    seal_sized(&hash_head(keys, seed), sections.as_slice(), block);
}

/// Writes the block of a hash with seeds.
fn write_block(words: &[u64], seeds: &[u8], sizes: &[usize], seed: u64, block: &mut [u64])
    requires { CanHold words.now seeds.now sizes.now block.old }
    ensures { IsBlockOf sizes.now (bits_of words.now) seeds.now seed block.new }
{
    let keys = write_parts(words, seeds, sizes, &mut *block);
    seal_seeded(words.len(), sizes.len(), keys, seed, block);
}

/// Writes the block of the hash whose levels have these words, seeds and sizes, as `build_seeded_in_place` makes them,
/// with a seed of the caller's: that by which the keys were hashed. `open` opens it, and `check` accepts it.
///
/// # Errors
/// `TooLong` exactly where there are 2^58 words or more; else `NotLevels` exactly where a level has no word, they have
/// not all the words together, or there are more than 256; else `NotSeeds` exactly where there are not as many seeds as
/// words; else `WrongLength` exactly where the words of the block are more or fewer than it takes (`size`). These stay
/// as they are then.
/// # Cost
/// Two passes over the words and one over the block (evident from the code). Nothing is allocated.
///
/// ```
/// let mut block = [0u64; 80];                                   // size(1, 1): Some(80)
/// build(&[0b1101], &[17], &[1], 7, block.as_mut_slice());       // Ok(()): a level of one word, for three keys
/// build(&[0b1101], &[17, 3], &[1], 7, block.as_mut_slice());    // Err(BuildError::NotSeeds)
/// ```
pub fn build(
    words: &[u64],
    seeds: &[u8],
    sizes: &[usize],
    seed: u64,
    block: &mut [u64],
) -> Result<(), BuildError>
    ensures ok { IsOk result ↔ CanHold words.now seeds.now sizes.now block.old }
    ensures too_long { IsErrOf result BuildError.TooLong ↔ (2 ^ 58 ≤ length words.now) }
    ensures not_levels { IsErrOf result BuildError.NotLevels ↔ ((length words.now < 2 ^ 58)
        × (¬ (AreSizes sizes.now (bits_of words.now)))) }
    ensures not_seeds { IsErrOf result BuildError.NotSeeds ↔ ((length words.now < 2 ^ 58)
        × AreSizes sizes.now (bits_of words.now) × (length seeds.now ≢ length words.now)) }
    ensures wrong_length { IsErrOf result BuildError.WrongLength ↔ ((length words.now < 2 ^ 58)
        × AreSizes sizes.now (bits_of words.now) × (length seeds.now ≡ length words.now)
        × (length block.old ≢ end_of (seeded_sections (length words.now) (length sizes.now)))) }
    ensures block { IfOk result
        (λ _. IsBlockOf sizes.now (bits_of words.now) seeds.now seed block.new) }
    ensures kept { IfErr result (λ _. block.new ≡ block.old) }
{
    if words.len() >= 1 << 58 {
        return Err(BuildError::TooLong);
    }
    if !are_levels(words, sizes) {
        return Err(BuildError::NotLevels);
    }
    if seeds.len() != words.len() {
        return Err(BuildError::NotSeeds);
    }
    if block.len() != block_len(words.len(), sizes.len()) {
        return Err(BuildError::WrongLength);
    }
    write_block(words, seeds, sizes, seed, block);
    Ok(())
}

/// What `build` wrote of levels that number some hashes, as `build_seeded_in_place` makes them, is accepted by `check`,
/// and gives each of these hashes a number of its own below how many they are.
///
/// ```
/// round_trip();   // its clause is the law, over the clauses of `build`, `check` and `get`
/// ```
pub fn round_trip()
    ensures { RoundTrip }
{}
