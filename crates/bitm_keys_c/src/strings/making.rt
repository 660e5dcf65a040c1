//! The block of strings: how many words it takes, writing it, opening it and checking it.
ghost use Rattle.std.specs.Prelude.{◌≡◌, ◌≢◌, ◌↔◌, ◌⊎◌};
ghost use Rattle.bitm_block.specs.Layout.{end_of};
ghost use Rattle.hash_block.specs.StringsBlock.{sections_of, strings_in};
ghost use Rattle.hash_block.specs.StringsBlock.{AreFewStrings, IsBlockOf, IsSoundBlock, IsStringBlock, NumberStrings};
ghost use Rattle.hash_block.specs.StringsParts.{string_number};
ghost use Rattle.bitm_abi.specs.HashBlock.{hash_parts};
ghost use Rattle.bitm_keys_c.specs.Strings.{string_parts, AreWritableStrings};

use crate::strings::strings::Strings;
use bitm_abi::{BAD_SIZE, Hash, OK, WRONG, hash_at, hash_view};
use bitm_block::Block;
use hash_block::strings::{BuildError, StringsView, build, check, open, size};

/// Writes how many words the block of that many strings takes, which have that many bytes together, and the levels of
/// whose hash have that many words together.
#[unsafe(no_mangle)]
pub extern "C" fn bitm_strings_size(
    words: usize,
    levels: usize,
    strings: usize,
    bytes: usize,
    out: &mut usize,
) -> u32
    ensures ok { (result ≡ 0) ↔ AreFewStrings words levels strings bytes }
    ensures size { result ≡ 0 → out.new ≡ end_of (sections_of words levels strings bytes) }
    ensures kept { result ≢ 0 → (result ≡ 2) × (out.new ≡ out.old) }
{
    match size(words, levels, strings, bytes) {
        Some(len) => {
            *out = len;
            OK
        }
        None => BAD_SIZE,
    }
}

/// Writes the block of the strings that stand one after another in `bytes`, each up to its end, by a hash of their
/// hashes.
#[unsafe(no_mangle)]
pub extern "C" fn bitm_strings_build(
    hash: &Hash<'_>,
    seed: u64,
    bytes: &[u8],
    ends: &[usize],
    block: &mut [u64],
) -> u32
    ensures ok { (result ≡ 0)
        ↔ AreWritableStrings (hash_parts hash.now seed) bytes.now ends.now block.old
        × NumberStrings (hash_parts hash.now seed) bytes.now ends.now }
    ensures wrong { (result ≡ 3)
        ↔ AreWritableStrings (hash_parts hash.now seed) bytes.now ends.now block.old
        × (¬ (NumberStrings (hash_parts hash.now seed) bytes.now ends.now)) }
    ensures status { (result ≡ 0) ⊎ (result ≡ 2) ⊎ (result ≡ 3) }
    ensures block { result ≡ 0 → IsBlockOf (string_number (hash_parts hash.now seed)) bytes.now
        ends.now block.new }
    ensures kept { result ≡ 2 → block.new ≡ block.old }
{
    let Some(view) = hash_view(hash, seed) else {
        return BAD_SIZE;
    };
    match build(&view, bytes, ends, block) {
        Ok(()) => OK,
        Err(BuildError::NotNumbered) => WRONG,
        Err(BuildError::TooLong) => BAD_SIZE,
        Err(BuildError::NotGiven) => BAD_SIZE,
        Err(BuildError::WrongLength) => BAD_SIZE,
    }
}

/// What C is passed for the strings of a block, with their hash.
#[inline(always)]
fn strings_of<'a>(view: &StringsView<'a>, hash: Hash<'a>) -> Strings<'a>
    requires { hash_parts hash view.now.hash.seed ≡ view.now.hash }
    ensures { string_parts result ≡ view.now }
{
    Strings {
        hash,
        starts: view.starts(),
        bytes: view.bytes(),
        seed: view.hash().seed(),
        kind: view.kind(),
        reserved: [0; 1],
    }
}

/// Opens a block: writes the strings that queries take. What the sections hold is not looked at.
#[unsafe(no_mangle)]
pub extern "C" fn bitm_strings_open<'a>(block: &'a [u64], strings: &mut Strings<'a>) -> u32
    ensures ok { (result ≡ 0) ↔ IsStringBlock block.now }
    ensures strings { result ≡ 0 → string_parts strings.new ≡ strings_in block.now }
    ensures kept { result ≢ 0 → (result ≡ 3) × (strings.new ≡ strings.old) }
{
    let Some(view) = open(block) else {
        return WRONG;
    };
    let Ok(opened) = Block::open(block) else {
        return WRONG;
    };
    let Some(first) = opened.section(0) else {
        return WRONG;
    };
    let Ok(nested) = Block::open(first) else {
        return WRONG;
    };
    *strings = strings_of(&view, hash_at(&nested, 3));
    OK
}

/// Whether a block is as it was written, and holds strings.
#[unsafe(no_mangle)]
pub extern "C" fn bitm_strings_check(block: &[u64]) -> u32
    ensures ok { (result ≡ 0) ↔ IsSoundBlock block.now }
    ensures status { (result ≡ 0) ⊎ (result ≡ 3) }
{
    if check(block) { OK } else { WRONG }
}
