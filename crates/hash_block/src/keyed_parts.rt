//! The sections of a dictionary, written where its block has them.
ghost use Rattle.std.specs.Prelude.{◌≡◌, ◌≤◌, length};
ghost use Rattle.bit_lists.specs.Bits.{bits_of};
ghost use Rattle.bitm_tables.specs.Tables.{HasSizes, HasTables};
ghost use Rattle.tables_view.specs.Sizes.{lists_of};
ghost use Rattle.perfect_hash.specs.Numbers.{AreSizes};
ghost use Rattle.perfect_hash.specs.Perfect.{IsMinimalPerfect};
ghost use Rattle.hash_block.specs.Dictionary.{number_of_key, CanHoldKeys, KeysStandIn, StandAtNumbers};
ghost use Rattle.hash_block.specs.Numbered.{key_number, NumberKeys};
ghost use Rattle.hash_block.specs.Parts.{IsHash};

use crate::building::write_levels;
use crate::view::HashView;
use bitm_block::aligned;
use block_tables::as_entries;
use tables_view::{TablesView, lower_len, upper_len};

/// Writes each key at its number.
///
/// # Conditions
/// The hash is of these keys, and there are as many words.
fn write_keys(hash: &HashView<'_>, keys: &[u64], to: &mut [u64])
    requires hash { IsHash hash.now }
    requires perfect { IsMinimalPerfect (number_of_key hash.now) keys.now }
    requires room { length to.old ≡ length keys.now }
    ensures all { StandAtNumbers (number_of_key hash.now) keys.now to.new }
    ensures len { length to.new ≡ length keys.now }
{
    for key in keys {
        match hash.number_of(*key) {
            Some(number) => to[number] = *key,
            None => {}
        }
    }
}

/// A hash over levels with their tables, whose lengths are right.
#[inline(always)]
fn hash_over<'a>(
    words: &'a [u64],
    upper: &'a [u64],
    lower: &'a [u64],
    sizes: &'a [usize],
    keys: usize,
    seed: u64,
) -> HashView<'a>
    requires sized { HasSizes (lists_of words.now upper.now lower.now) }
    requires few { length sizes.now ≤ 256 }
    ensures { result ≡ record {
      lists = lists_of words.now upper.now lower.now;
      sizes = sizes.now;
      keys = keys;
      seed = seed;
    } }
{
    match TablesView::over(words, as_entries(upper), lower) {
        Some(tables) => match HashView::over(tables, sizes, keys, seed) {
            Some(hash) => hash,
            None => unreachable!(),
        },
        None => unreachable!(),
    }
}

/// Writes each key at its number by levels with their tables.
fn write_keys_by(
    words: &[u64],
    upper: &[u64],
    lower: &[u64],
    sizes: &[usize],
    seed: u64,
    keys: &[u64],
    to: &mut [u64],
)
    requires sized { HasSizes (lists_of words.now upper.now lower.now) }
    requires tables { HasTables (lists_of words.now upper.now lower.now) }
    requires levels { AreSizes sizes.now (bits_of words.now) }
    requires numbers { NumberKeys words.now sizes.now seed keys.now }
    requires room { length to.old ≡ length keys.now }
    ensures all { StandAtNumbers (key_number words.now sizes.now seed) keys.now to.new }
    ensures len { length to.new ≡ length keys.now }
{
    let hash = hash_over(words, upper, lower, sizes, keys.len(), seed);
    write_keys(&hash, keys, to);
}

/// Writes the sections of a dictionary where its block has them.
pub(crate) fn write_key_parts(
    words: &[u64],
    sizes: &[usize],
    seed: u64,
    keys: &[u64],
    block: &mut [u64],
)
    requires holds { CanHoldKeys words.now sizes.now (length keys.now) block.old }
    requires numbers { NumberKeys words.now sizes.now seed keys.now }
    ensures stands { KeysStandIn words.now sizes.now (key_number words.now sizes.now seed) keys.now
        block.new }
    ensures len { length block.new ≡ length block.old }
{
    let uppers = upper_len(words.len());
    let lowers = lower_len(words.len());
    let (_head, rest) = block.split_at_mut(40);
    let (room, rest) = rest.split_at_mut(aligned(words.len()));
    let (to, _gap) = room.split_at_mut(words.len());
    let (room, rest) = rest.split_at_mut(aligned(uppers));
    let (upper, _gap) = room.split_at_mut(uppers);
    let (room, rest) = rest.split_at_mut(aligned(lowers));
    let (lower, _gap) = room.split_at_mut(lowers);
    let (room, rest) = rest.split_at_mut(aligned(sizes.len()));
    let (to_sizes, _gap) = room.split_at_mut(sizes.len());
    let (to_keys, _gap) = rest.split_at_mut(keys.len());
    write_levels(words, sizes, to, &mut *upper, &mut *lower, to_sizes);
    write_keys_by(words, &*upper, &*lower, sizes, seed, keys, to_keys);
}
