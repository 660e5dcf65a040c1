//! A hash, built in the caller's memory.
ghost use Rattle.std.specs.Prelude.{◌≡◌, ◌+◌, ◌-◌, ◌*◌, ◌^◌, ◌<◌, ◌≤◌, ℕ, false, length, min, take, IfErr, IfOk};
ghost use Rattle.std.specs.Prelude.{IfSome};
ghost use Rattle.bit_lists.specs.Bits.{bits_of, item};
ghost use Rattle.hash_buckets.specs.Building.{AreEqualAt, AreLeft, IfEqual, IfLeft, IsBuilt, IsRefused, IsWithinRoom};

use crate::filling::write_free;
use crate::levels::{Made, build_levels};
use crate::positions::{Level, next_hash};
use bit_words::words;

/// Why no hash was built.
#[derive(Clone, Copy, PartialEq, Eq, Debug)]
pub enum BuildError {
    /// These two items of the list are equal: no seed can give them different slots.
    Equal(usize, usize),
    /// So far levels were built, and hashes are left: there is no room for more levels, or the next one has no room for
    /// its seeds, its ends or its slots.
    Left(Made),
}

/// At most this many levels are built.
const LEVELS: usize = 24;

/// What is made of no hashes.
const NOTHING: Made = Made {
    levels: 0,
    seeds: 0,
    slots: 0,
    left: 0,
};

/// Of the hashes that are left at most this many are sought among all.
const SOUGHT: usize = 16;

/// Makes all bits 0.
fn clear_bits(words: &mut [u64])
    requires { length words.old < 2 ^ 52 }
    ensures len { length words.new ≡ length words.old }
    ensures zeros { (i : ℕ) → item (bits_of words.new) i ≡ false }
{
    let bits = 64 * words.len();
    words::fill_range(words, 0, bits, false);
}

/// The hash of a key after some levels.
fn hash_after(hash: u64, levels: usize) -> u64 {
    let mut here = hash;
    for _ in 0..levels {
        here = next_hash(here);
    }
    here
}

/// The first two hashes that are this one after some levels, where they are equal.
fn find_twice(hashes: &[u64], levels: usize, left: u64) -> Option<(usize, usize)>
    ensures { IfSome result (λ found. AreEqualAt hashes.now found.0 found.1) }
{
    let mut first = hashes.len();
    for i in 0..hashes.len() {
        if hash_after(hashes[i], levels) == left {
            if first < i {
                return if hashes[first] == hashes[i] {
                    Some((first, i))
                } else {
                    None
                };
            }
            first = i;
        }
    }
    None
}

/// Two hashes that are equal, and are among the first of the hashes that are left after some levels.
fn find_equal(hashes: &[u64], levels: usize, left: &[u64]) -> Option<(usize, usize)>
    ensures { IfSome result (λ found. AreEqualAt hashes.now found.0 found.1) }
{
    for i in 0..left.len().min(SOUGHT) {
        let found = find_twice(hashes, levels, left[i]);
        if found.is_some() {
            return found;
        }
    }
    None
}

/// Why a hash has not enough levels: two hashes are equal, or else how far levels were built.
fn refusal(hashes: &[u64], left: &[u64], made: Made) -> BuildError
    ensures { IfEqual result (AreEqualAt hashes.now) (λ reported. reported ≡ made) }
{
    match find_equal(hashes, made.levels, left) {
        Some((i, j)) => BuildError::Equal(i, j),
        None => BuildError::Left(made),
    }
}

/// Builds a hash of the given hashes of keys, each of which then has a number of its own below their count: levels, the
/// seeds of their buckets, and the free slots. Of `levels` the first `made.levels` are the hash's, of `seeds` the first
/// `made.seeds`, and of `free` the first `made.slots` less the number of hashes; what the others hold afterwards, and
/// `work`, `sorted`, `ends` and `used`, means nothing.
///
/// # Conditions
/// `work` and `sorted` have an item for each hash, and `used` has fewer than 2^52 words. How much room is enough is not
/// proved: 24 levels, n / 4 + 64 ends, seeds and free slots, and n / 50 + 8 words of `used` were, in tests of n hashes.
/// # Errors
/// `Equal` only where the two items that it names are equal; the first 16 hashes that are left are compared with all
/// (evident from the code). `Left` only where hashes are left: there are 24 levels, or as many as `levels` has, or
/// the next level has not an end in `ends` and a seed in `seeds` for each of its buckets, and a bit in `used` and an
/// item in `free` for each of its slots. So `build` succeeds for no list with two equal hashes.
/// # Cost
/// Each level takes four passes over the hashes that are left, and tries 255 seeds for each bucket (evident from the
/// code).
///
/// ```
/// build(&hashes, &mut work, &mut sorted, &mut ends, &mut used, &mut levels, &mut seeds, &mut free);   // Ok(made)
/// ```
pub fn build(
    hashes: &[u64],
    work: &mut [u64],
    sorted: &mut [u64],
    ends: &mut [u64],
    used: &mut [u64],
    levels: &mut [Level],
    seeds: &mut [u8],
    free: &mut [u64],
) -> Result<Made, BuildError>
    requires work { length hashes.now ≤ length work.old }
    requires sorted { length hashes.now ≤ length sorted.old }
    requires short { length used.old < 2 ^ 52 }
    ensures built { IfOk result (λ made. IsBuilt hashes.now (record {
      levels = take made.levels levels.new;
      seeds = take made.seeds seeds.new;
      free = take (made.slots - length hashes.now) free.new;
      keys = length hashes.now;
    })) }
    ensures room { IfOk result (λ made. IsWithinRoom made (length levels.old) (length seeds.old)
        (length hashes.now + length free.old)) }
    ensures refused { IfErr result (λ error. IsRefused hashes.now
        (min (64 * length used.old) (length hashes.now + length free.old))
        (min (length levels.old) 24) (length ends.old) (length seeds.old) error) }
    ensures left { IfErr result (λ error. IfLeft error (λ made. AreLeft made
        (take made.levels levels.new) seeds.new hashes.now)) }
{
    let keys = hashes.len();
    if keys == 0 {
        return Ok(NOTHING);
    }
    clear_bits(&mut *used);
    let work = &mut work[..keys];
    work.copy_from_slice(hashes);
    let limit = (64 * used.len()).min(keys + free.len());
    let most = levels.len().min(LEVELS);
    let made = build_levels(
        &mut *work,
        0,
        limit,
        &mut levels[..most],
        ends,
        sorted,
        seeds,
        &mut *used,
    );
    if made.left != 0 {
        return Err(refusal(hashes, &work[..made.left.min(keys)], made));
    }
    write_free(&*used, keys, &mut free[..made.slots - keys]);
    Ok(made)
}
