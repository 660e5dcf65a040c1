//! A perfect hash with a seed for each word in a block: how many words it takes, writing it, opening it as a hash and
//! checking it.
ghost use Rattle.std.specs.Prelude.{◌≡◌, ◌≢◌, ◌*◌, ◌≤◌, ◌↔◌, ◌⊎◌, length};
ghost use Rattle.bit_lists.specs.Bits.{bits_of};
ghost use Rattle.bitm_block.specs.Layout.{end_of};
ghost use Rattle.hash_block.specs.Block.{AreFew, IsHashBlock};
ghost use Rattle.hash_block.specs.SeededBlock.{seeded_in, seeded_sections, seeds_in, CanHold, IsBlockOf};
ghost use Rattle.hash_block.specs.SeededBlock.{IsSeededBlock, IsSoundBlock};
ghost use Rattle.hash_block.specs.Seeds.{AreBytesOf};
ghost use Rattle.bitm_abi.specs.HashBlock.{hash_parts};
ghost use Rattle.bitm_keys_c.specs.Seeded.{seed_bytes, CanBeOpened};

use bitm_abi::{BAD_SIZE, OK, SeededHash, WRONG, hash_at};
use bitm_block::Block;
use hash_block::seeded::{build, check, open, size};

/// Writes how many words the block of a hash takes, whose levels have that many words together, with a seed for each.
#[unsafe(no_mangle)]
pub extern "C" fn bitm_hash_block_size_seeded(words: usize, levels: usize, out: &mut usize) -> u32
    ensures ok { (result ≡ 0) ↔ AreFew words levels }
    ensures size { result ≡ 0 → out.new ≡ end_of (seeded_sections words levels) }
    ensures kept { result ≢ 0 → (result ≡ 2) × (out.new ≡ out.old) }
{
    match size(words, levels) {
        Some(len) => {
            *out = len;
            OK
        }
        None => BAD_SIZE,
    }
}

/// Writes the block of a hash whose levels have these words, seeds and sizes, with a seed of the caller's.
#[unsafe(no_mangle)]
pub extern "C" fn bitm_hash_block_build_seeded(
    words: &[u64],
    seeds: &[u8],
    sizes: &[usize],
    seed: u64,
    block: &mut [u64],
) -> u32
    ensures ok { (result ≡ 0) ↔ CanHold words.now seeds.now sizes.now block.old }
    ensures block { result ≡ 0
        → IsBlockOf sizes.now (bits_of words.now) seeds.now seed block.new }
    ensures kept { result ≢ 0 → (result ≡ 2) × (block.new ≡ block.old) }
{
    match build(words, seeds, sizes, seed, block) {
        Ok(()) => OK,
        Err(_) => BAD_SIZE,
    }
}

/// The seeds of a block among as many bytes as it has.
#[inline(always)]
#[tactic(auto, using(hash_block::proofs::MovedLemmas::seeds_position))]
fn seeds_of<'a>(block: &[u64], bytes: &'a [u8]) -> &'a [u8]
    requires { CanBeOpened block.now bytes.now }
    ensures { result.now ≡ seed_bytes block.now bytes.now }
{
    let (_before, from) = bytes.split_at(block[29] as usize);
    let (seeds, _after) = from.split_at(block[30] as usize);
    seeds
}

/// Opens a block, which is passed as words and once more as bytes: writes the hash that queries take, and its seed. Its
/// seeds are a part of the bytes. What the words and tables hold is not looked at.
#[unsafe(no_mangle)]
pub extern "C" fn bitm_hash_block_open_seeded_bytes<'a>(
    block: &'a [u64],
    bytes: &'a [u8],
    hash: &mut SeededHash<'a>,
    seed: &mut u64,
) -> u32
    ensures ok { (result ≡ 0) ↔ CanBeOpened block.now bytes.now }
    ensures wrong { (result ≡ 3) ↔ ¬ (IsSeededBlock block.now) }
    ensures status { (result ≡ 0) ⊎ (result ≡ 2) ⊎ (result ≡ 3) }
    ensures hash { result ≡ 0 → hash_parts hash.new.hash seed.new ≡ (seeded_in block.now).hash }
    ensures part { result ≡ 0 → hash.new.seeds.now ≡ seed_bytes block.now bytes.now }
    ensures seeds { result ≡ 0 → AreBytesOf block.now bytes.now
        → hash.new.seeds.now ≡ seeds_in block.now }
    ensures apart { result ≡ 0 → ¬ (IsHashBlock block.now) }
    ensures kept { result ≢ 0 → (hash.new ≡ hash.old) × (seed.new ≡ seed.old) }
{
    match (open(block), Block::open(block)) {
        (Some(view), Ok(opened)) => {
            if bytes.len() != 8 * block.len() {
                return BAD_SIZE;
            }
            *hash = SeededHash {
                hash: hash_at(&opened, 4),
                seeds: seeds_of(block, bytes),
            };
            *seed = view.parts().seed();
            OK
        }
        _ => WRONG,
    }
}

/// Whether a block is as it was written, and holds a hash with seeds: two passes over its words.
#[unsafe(no_mangle)]
pub extern "C" fn bitm_hash_block_check_seeded(block: &[u64]) -> u32
    ensures ok { (result ≡ 0) ↔ IsSoundBlock block.now }
    ensures status { (result ≡ 0) ⊎ (result ≡ 3) }
{
    if check(block) { OK } else { WRONG }
}
