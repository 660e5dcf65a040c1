//! A perfect hash in a block: how many words it takes, writing it, opening it as a hash and checking it.
ghost use Rattle.std.specs.Prelude.{◌≡◌, ◌≢◌, ◌↔◌, ◌⊎◌};
ghost use Rattle.bit_lists.specs.Bits.{bits_of};
ghost use Rattle.bitm_block.specs.Layout.{end_of};
ghost use Rattle.hash_block.specs.Block.{hash_in, hash_sections, AreFew, CanHold, IsBlockOf, IsHashBlock, IsSoundBlock};
ghost use Rattle.bitm_abi.specs.HashBlock.{hash_parts};

use bitm_abi::{BAD_SIZE, Hash, OK, WRONG, hash_at};
use bitm_block::Block;
use hash_block::{build, check, open, size};

/// Writes how many words the block of a hash takes, whose levels have that many words together.
#[unsafe(no_mangle)]
pub extern "C" fn bitm_hash_block_size(words: usize, levels: usize, out: &mut usize) -> u32
    ensures ok { (result ≡ 0) ↔ AreFew words levels }
    ensures size { result ≡ 0 → out.new ≡ end_of (hash_sections words levels) }
    ensures kept { result ≢ 0 → (result ≡ 2) × (out.new ≡ out.old) }
{
    match size(words, levels) {
        Some(len) => {
            *out = len;
            OK
        }
        None => BAD_SIZE,
    }
}

/// Writes the block of a hash whose levels have these words and sizes, with a seed of the caller's.
#[unsafe(no_mangle)]
pub extern "C" fn bitm_hash_block_build(
    words: &[u64],
    sizes: &[usize],
    seed: u64,
    block: &mut [u64],
) -> u32
    ensures ok { (result ≡ 0) ↔ CanHold words.now sizes.now block.old }
    ensures block { result ≡ 0 → IsBlockOf sizes.now (bits_of words.now) seed block.new }
    ensures kept { result ≢ 0 → (result ≡ 2) × (block.new ≡ block.old) }
{
    match build(words, sizes, seed, block) {
        Ok(()) => OK,
        Err(_) => BAD_SIZE,
    }
}

/// Opens a block: writes the hash that queries take, and its seed. What the words and tables hold is not looked at.
#[unsafe(no_mangle)]
pub extern "C" fn bitm_hash_block_open<'a>(
    block: &'a [u64],
    hash: &mut Hash<'a>,
    seed: &mut u64,
) -> u32
    ensures ok { (result ≡ 0) ↔ IsHashBlock block.now }
    ensures hash { result ≡ 0 → hash_parts hash.new seed.new ≡ hash_in block.now }
    ensures kept { result ≢ 0 → (result ≡ 3) × (hash.new ≡ hash.old) × (seed.new ≡ seed.old) }
{
    match (open(block), Block::open(block)) {
        (Some(view), Ok(opened)) => {
            *hash = hash_at(&opened, 3);
            *seed = view.seed();
            OK
        }
        _ => WRONG,
    }
}

/// Whether a block is as it was written, and holds a hash: two passes over its words.
#[unsafe(no_mangle)]
pub extern "C" fn bitm_hash_block_check(block: &[u64]) -> u32
    ensures ok { (result ≡ 0) ↔ IsSoundBlock block.now }
    ensures status { (result ≡ 0) ⊎ (result ≡ 3) }
{
    if check(block) { OK } else { WRONG }
}
