//! The block of a dictionary: how many words it takes, writing it, opening it and checking it.
ghost use Rattle.std.specs.Prelude.{◌≡◌, ◌≢◌, ◌↔◌, ◌⊎◌};
ghost use Rattle.bitm_block.specs.Layout.{end_of};
ghost use Rattle.hash_block.specs.Dictionary.{dictionary_in, dictionary_sections, number_of_key, AreFewKeys};
ghost use Rattle.hash_block.specs.Dictionary.{IsDictionaryBlock, IsDictionaryIn, IsDictionaryOf, IsSoundDictionary};
ghost use Rattle.bitm_keys_c.specs.Dictionary.{dictionary_parts, IsWritable};

use crate::dictionary::Dictionary;
use bitm_abi::{BAD_SIZE, OK, WRONG, hash_at};
use bitm_block::Block;
use hash_block::{BuildError, build_keyed, check_dictionary, dictionary_size, open_dictionary};

/// Writes how many words the block of that many keys takes, the levels of whose hash have that many words together.
#[unsafe(no_mangle)]
pub extern "C" fn bitm_dictionary_size(
    words: usize,
    levels: usize,
    keys: usize,
    out: &mut usize,
) -> u32
    ensures ok { (result ≡ 0) ↔ AreFewKeys words levels keys }
    ensures size { result ≡ 0 → out.new ≡ end_of (dictionary_sections words levels keys) }
    ensures kept { result ≢ 0 → (result ≡ 2) × (out.new ≡ out.old) }
{
    match dictionary_size(words, levels, keys) {
        Some(len) => {
            *out = len;
            OK
        }
        None => BAD_SIZE,
    }
}

/// Writes the block of a dictionary whose parts lie elsewhere.
#[unsafe(no_mangle)]
pub extern "C" fn bitm_dictionary_build(dictionary: &Dictionary<'_>, block: &mut [u64]) -> u32
    ensures ok { (result ≡ 0) ↔ IsWritable (dictionary_parts dictionary.now) block.old
        × IsDictionaryIn (dictionary_parts dictionary.now) }
    ensures wrong { (result ≡ 3) ↔ IsWritable (dictionary_parts dictionary.now) block.old
        × (¬ (IsDictionaryIn (dictionary_parts dictionary.now))) }
    ensures status { (result ≡ 0) ⊎ (result ≡ 2) ⊎ (result ≡ 3) }
    ensures block { result ≡ 0 → IsDictionaryOf
        (number_of_key (dictionary_parts dictionary.now).hash) dictionary.now.keys.now block.new }
    ensures kept { result ≢ 0 → block.new ≡ block.old }
{
    let Some(view) = dictionary.view() else {
        return BAD_SIZE;
    };
    match build_keyed(&view, block) {
        Ok(()) => OK,
        Err(BuildError::NotKeys) => WRONG,
        Err(BuildError::TooLong) => BAD_SIZE,
        Err(BuildError::NotLevels) => BAD_SIZE,
        Err(BuildError::WrongLength) => BAD_SIZE,
    }
}

/// Opens a block: writes the dictionary that queries take. What the words and tables hold is not looked at.
#[unsafe(no_mangle)]
pub extern "C" fn bitm_dictionary_open<'a>(block: &'a [u64], dictionary: &mut Dictionary<'a>) -> u32
    ensures ok { (result ≡ 0) ↔ IsDictionaryBlock block.now }
    ensures dictionary { result ≡ 0 → dictionary_parts dictionary.new ≡ dictionary_in block.now }
    ensures kept { result ≢ 0 → (result ≡ 3) × (dictionary.new ≡ dictionary.old) }
{
    match (open_dictionary(block), Block::open(block)) {
        (Some(view), Ok(opened)) => {
            *dictionary = Dictionary {
                hash: hash_at(&opened, 3),
                keys: view.keys(),
                seed: view.hash().seed(),
                reserved: [0; 2],
            };
            OK
        }
        _ => WRONG,
    }
}

/// Whether a block is as it was written, and holds a dictionary: two passes over its words, and a look-up of each key.
#[unsafe(no_mangle)]
pub extern "C" fn bitm_dictionary_check(block: &[u64]) -> u32
    ensures ok { (result ≡ 0) ↔ IsSoundDictionary block.now }
    ensures status { (result ≡ 0) ⊎ (result ≡ 3) }
{
    if check_dictionary(block) { OK } else { WRONG }
}
