//! The block of a dictionary, written into the caller's memory.
ghost use Rattle.std.specs.Prelude.{◌≡◌, ◌≢◌, ◌^◌, ◌<◌, ◌≤◌, ◌↔◌, IfErr, IfOk, IsErrOf, IsOk, length};
ghost use Rattle.bit_lists.specs.Bits.{bits_of};
ghost use Rattle.bit_lists.specs.Count.{ones_of};
ghost use Rattle.bitm_block.specs.Layout.{end_of};
ghost use Rattle.bitm_block.specs.Written.{IsSealed};
ghost use Rattle.perfect_hash.specs.Parts.{number_of};
ghost use Rattle.perfect_hash.specs.Perfect.{IsMinimalPerfect};
ghost use Rattle.hash_block.specs.Block.{hash_head};
ghost use Rattle.hash_block.specs.Dictionary.{dictionary_sections, hashed, number_of_key};
ghost use Rattle.hash_block.specs.Dictionary.{AreFewKeys, CanHoldKeys, IsDictionaryIn, IsDictionaryOf};
ghost use Rattle.hash_block.specs.Numbered.{key_number, CanHoldParts, NumberKeys};

use crate::dictionary::DictionaryView;
use crate::error::BuildError;
use crate::hashing::Added;
use crate::keyed_parts::write_key_parts;
use crate::sections::{dictionary_sections, dictionary_size, hash_head};
use bitm::{HasBits, Rank, RankSelect101111};
use bitm_block::seal_sized;
use bitm_strategies::{Select0ForRank101111, SelectForRank101111};
use perfect_hash::PerfectHash;
use std::convert::AsSlice;

/// Writes the header and the directory of a dictionary.
fn seal_dictionary(words: usize, levels: usize, keys: usize, seed: u64, block: &mut [u64])
    requires few { AreFewKeys words levels keys }
    requires room { length block.old ≡ end_of (dictionary_sections words levels keys) }
    ensures { IsSealed (hash_head keys seed) (dictionary_sections words levels keys) block.old
        block.new }
{
    let sections = dictionary_sections(words, levels, keys);
    seal_sized(&hash_head(keys, seed), sections.as_slice(), block);
}

/// Writes the block of a dictionary.
fn write_dictionary(words: &[u64], sizes: &[usize], seed: u64, keys: &[u64], block: &mut [u64])
    requires holds { CanHoldKeys words.now sizes.now (length keys.now) block.old }
    requires numbers { NumberKeys words.now sizes.now seed keys.now }
    ensures { IsDictionaryOf (key_number words.now sizes.now seed) keys.now block.new }
{
    write_key_parts(words, sizes, seed, keys, &mut *block);
    seal_dictionary(words.len(), sizes.len(), keys.len(), seed, block);
}

/// Writes the block of a dictionary whose hash is built.
fn write_hashed<S: SelectForRank101111, S0: Select0ForRank101111, BV: AsSlice<u64>>(
    hash: &PerfectHash<Added, RankSelect101111<S, S0, BV>>,
    words: &[u64],
    keys: &[u64],
    block: &mut [u64],
)
    requires perfect { IsMinimalPerfect (number_of hashed hash.now) keys.now }
    requires ones { ones_of hash.now.bits ≡ length keys.now }
    requires bits { bits_of words.now ≡ hash.now.bits }
    requires holds { CanHoldKeys words.now hash.now.sizes (length keys.now) block.old }
    ensures { IsDictionaryOf (number_of hashed hash.now) keys.now block.new }
{
    write_dictionary(words, hash.sizes(), hash.hasher().seed, keys, block);
}

/// Writes the block of the dictionary of the given numbers, whose hash is the hash of the same numbers by `Added`: each
/// stands at its number. `open_dictionary` opens it, `check_dictionary` accepts it, and so do `open` and `check` as the
/// block of its hash.
///
/// # Conditions
/// The perfect hash is of these keys.
/// # Errors
/// `TooLong` exactly where there are 2^58 keys or more; else `NotKeys` exactly where the hash has not as many 1 bits as
/// there are keys, which one that was built of them has; else `WrongLength` exactly where the words of the block are
/// more or fewer than it takes (`dictionary_size` of the index's words, the levels and the keys). These stay as they
/// are then.
/// # Cost
/// Two passes over the words of the levels, `get` for each key, and one pass over the block (evident from the code).
/// Nothing is allocated.
///
/// ```
/// let Ok(made) = perfect_hash::build(alloc, Added { seed: 0 }, &[4u64, 9, 49], 100) else { .. };
/// build_dictionary(&made, &[4, 9, 49], block.as_mut_slice());   // Ok(())
/// ```
pub fn build_dictionary<S: SelectForRank101111, S0: Select0ForRank101111, BV: AsSlice<u64>>(
    hash: &PerfectHash<Added, RankSelect101111<S, S0, BV>>,
    keys: &[u64],
    block: &mut [u64],
) -> Result<(), BuildError>
    requires { IsMinimalPerfect (number_of hashed hash.now) keys.now }
    ensures too_long { IsErrOf result BuildError.TooLong ↔ (2 ^ 58 ≤ length keys.now) }
    ensures not_keys { IsErrOf result BuildError.NotKeys ↔ ((length keys.now < 2 ^ 58)
        × (ones_of hash.now.bits ≢ length keys.now)) }
    ensures wrong_length { IsErrOf result BuildError.WrongLength ↔ ((length keys.now < 2 ^ 58)
        × (ones_of hash.now.bits ≡ length keys.now)
        × (length block.old ≢ end_of (dictionary_sections (length (BV.items hash.now.index.content))
        (length hash.now.sizes) (length keys.now)))) }
    ensures dictionary { IfOk result (λ _.
        IsDictionaryOf (number_of hashed hash.now) keys.now block.new) }
    ensures kept { IfErr result (λ _. block.new ≡ block.old) }
{
    let index = hash.index();
    let words = index.content().as_slice();
    let Some(len) = dictionary_size(words.len(), hash.sizes().len(), keys.len()) else {
        return Err(BuildError::TooLong);
    };
    if index.rank(index.len()) != keys.len() {
        return Err(BuildError::NotKeys);
    }
    if block.len() != len {
        return Err(BuildError::WrongLength);
    }
    write_hashed(hash, words, keys, block);
    Ok(())
}

/// Writes the block of a dictionary whose parts lie elsewhere, as `build_dictionary` does. Nothing is required of the
/// parts: whether each key stands at its number is looked for.
///
/// # Errors
/// `TooLong` exactly where there are 2^58 keys or more; else `WrongLength` exactly where the words of the block are
/// more or fewer than it takes (`dictionary_size`); else `NotKeys` exactly where the parts form no dictionary
/// (`DictionaryView::check`). The words stay as they are then.
/// # Cost
/// Four passes over the words of the levels, two look-ups for each key, and one pass over the block (evident from the
/// code). Nothing is allocated.
///
/// ```
/// let Some(squares) = DictionaryView::over(hash, &[49, 4, 9]) else { .. };   // each at its number
/// build_keyed(&squares, block.as_mut_slice());                              // Ok(())
/// ```
pub fn build_keyed(dictionary: &DictionaryView<'_>, block: &mut [u64]) -> Result<(), BuildError>
    ensures ok { IsOk result ↔ CanHoldParts dictionary.now block.old × IsDictionaryIn dictionary.now }
    ensures too_long { IsErrOf result BuildError.TooLong ↔ (2 ^ 58 ≤ length dictionary.now.keys) }
    ensures not_keys { IsErrOf result BuildError.NotKeys
        ↔ CanHoldParts dictionary.now block.old × (¬ (IsDictionaryIn dictionary.now)) }
    ensures dictionary { IfOk result (λ _. IsDictionaryOf (number_of_key dictionary.now.hash)
        dictionary.now.keys block.new) }
    ensures kept { IfErr result (λ _. block.new ≡ block.old) }
{
    let (hash, keys) = (dictionary.hash(), dictionary.keys());
    let (words, sizes) = (hash.tables().words(), hash.sizes());
    let Some(len) = dictionary_size(words.len(), sizes.len(), keys.len()) else {
        return Err(BuildError::TooLong);
    };
    if block.len() != len {
        return Err(BuildError::WrongLength);
    }
    if !dictionary.check() {
        return Err(BuildError::NotKeys);
    }
    write_dictionary(words, sizes, hash.seed(), keys, block);
    Ok(())
}
