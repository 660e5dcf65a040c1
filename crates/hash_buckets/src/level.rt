//! One level: a seed for each bucket, and the hashes that go on to the next level.
ghost use Rattle.std.specs.Prelude.{◌≡◌, ◌≢◌, ◌<◌, ◌≤◌, ℕ, ◌==◌, count_by, filter, length, map, slice_index, take};
ghost use Rattle.bit_lists.specs.Bits.{bits_of};
ghost use Rattle.hash_buckets.specs.Groups.{AreStretches};
ghost use Rattle.hash_buckets.specs.Positions.{bucket_of, next_of, IsBucketLevel};
ghost use Rattle.hash_buckets.specs.Seeds.{count_at, has_slot, next_hashes, AddsBits, AddsSlots, FitsWords};

use crate::choosing::{best_seed, mark};
use crate::grouping::{begin_of, between, group};
use crate::positions::{Level, bucket_in, next_hash};
use crate::window::{WINDOW, Window};

/// Chooses the seed of a bucket that has these hashes, and makes the bits of their slots 1; 0 where no seed gives them
/// free slots of their own.
fn place(hashes: &[u64], level: &Level, first: usize, used: &mut [u64]) -> u8
    requires { FitsWords level.now first (length used.old) }
    ensures marks { result ≢ 0 → AddsBits (bits_of used.old)
        (count_at level.now result first hashes.now) (bits_of used.new) }
    ensures kept { result ≡ 0 → used.new ≡ used.old }
    ensures len { length used.new ≡ length used.old }
{
    if hashes.is_empty() {
        return 0;
    }
    let seed = best_seed(hashes, level, first, &*used);
    if seed != 0 {
        mark(hashes, level, seed, first, used);
    }
    seed
}

/// Chooses the seed of a bucket that has none, and makes the bits of its hashes' slots 1. Only the contract names all
/// hashes in their own order. There is nothing to do for a bucket that has a seed, or that is none.
fn place_bucket(
    _hashes: &[u64],
    sorted: &[u64],
    ends: &[u64],
    level: &Level,
    first: usize,
    bucket: usize,
    seeds: &mut [u8],
    used: &mut [u64],
)
    requires fits { FitsWords level.now first (length used.old) }
    requires len { length ends.now ≡ level.now.buckets }
    requires same { length seeds.old ≡ level.now.buckets }
    requires grouped { AreStretches level.now _hashes.now ends.now sorted.now }
    ensures marks { AddsSlots level.now first _hashes.now
        (bits_of used.old) seeds.old (bits_of used.new) seeds.new }
    ensures len { length used.new ≡ length used.old }
{
    if bucket >= seeds.len() || seeds[bucket] != 0 {
        return;
    }
    let from = begin_of(ends, bucket);
    let hashes = between(sorted, from, ends[bucket] as usize);
    seeds[bucket] = place(hashes, level, first, used);
}

/// Makes all seeds 0.
fn clear_seeds(seeds: &mut [u8])
    ensures zeros { (k : ℕ) → slice_index seeds.new k ≡ 0 }
    ensures len { length seeds.new ≡ length seeds.old }
{
    for seed in seeds.iter_mut() {
        *seed = 0;
    }
}

/// Chooses a seed for each bucket, and makes the bits of its hashes' slots 1: of the buckets that wait in a window, the
/// larger before the smaller, and the earlier before the later.
fn place_each(
    _hashes: &[u64],
    sorted: &[u64],
    ends: &[u64],
    level: &Level,
    first: usize,
    seeds: &mut [u8],
    used: &mut [u64],
)
    requires fits { FitsWords level.now first (length used.old) }
    requires len { length ends.now ≡ level.now.buckets }
    requires same { length seeds.old ≡ level.now.buckets }
    requires grouped { AreStretches level.now _hashes.now ends.now sorted.now }
    ensures marks { AddsBits (bits_of used.old)
        (λ q. count_by (has_slot level.now seeds.new first q) _hashes.now) (bits_of used.new) }
    ensures len { length used.new ≡ length used.old }
{
    clear_seeds(&mut *seeds);
    let mut window = Window::new();
    for bucket in 0..ends.len() + WINDOW {
        if let Some(next) = window.pass(bucket, ends) {
            place_bucket(
                _hashes,
                sorted,
                ends,
                level,
                first,
                next,
                &mut *seeds,
                &mut *used,
            );
        }
    }
}

/// Moves the hashes whose seed is 0 to the start of the list, in their order, and answers how many they are.
fn keep_left(hashes: &mut [u64], level: &Level, seeds: &[u8]) -> usize
    requires some { 0 < level.now.buckets }
    requires len { length seeds.now ≡ level.now.buckets }
    ensures left { take result hashes.new
        ≡ filter (λ hash. slice_index seeds.now (bucket_of level.now hash) == 0) hashes.old }
    ensures few { result ≤ length hashes.old }
{
    let mut kept = 0;
    for i in 0..hashes.len() {
        let hash = hashes[i];
        if seeds[bucket_in(level, hash)] == 0 {
            hashes[kept] = hash;
            kept += 1;
        }
    }
    kept
}

/// Makes each hash its hash in the next level.
fn mix_each(hashes: &mut [u64])
    ensures { hashes.new ≡ map next_of hashes.old }
{
    for hash in hashes.iter_mut() {
        *hash = next_hash(*hash);
    }
}

/// Gives each bucket of a level a seed, by which its hashes have slots of their own among the slots of the level, or 0
/// where none was found; the bits of these slots become 1. The hashes of the buckets whose seed is 0, as they are in
/// the next level, go to the start of the list, and the answer is how many they are.
///
/// # Conditions
/// There is a bit for each slot of the level, whose slots begin at number `first`, and fewer than 2^52 words; a seed
/// and an end for each bucket, and room to sort the hashes. What `ends` and `sorted` hold afterwards means nothing.
/// # Cost
/// Four passes over the hashes, and 255 seeds are tried for each bucket.
#[inline(never)]
pub fn place_level(
    hashes: &mut [u64],
    level: &Level,
    first: usize,
    ends: &mut [u64],
    sorted: &mut [u64],
    seeds: &mut [u8],
    used: &mut [u64],
) -> usize
    requires fits { FitsWords level.now first (length used.old) }
    requires ends { length ends.old ≡ level.now.buckets }
    requires sorted { length sorted.old ≡ length hashes.old }
    requires seeds { length seeds.old ≡ level.now.buckets }
    ensures marks { AddsBits (bits_of used.old)
        (λ q. count_by (has_slot level.now seeds.new first q) hashes.old) (bits_of used.new) }
    ensures left { take result hashes.new ≡ next_hashes level.now seeds.new hashes.old }
    ensures few { result ≤ length hashes.old }
{
    group(&*hashes, level, &mut *ends, &mut *sorted);
    place_each(&*hashes, &*sorted, &*ends, level, first, &mut *seeds, used);
    let left = keep_left(&mut *hashes, level, &*seeds);
    mix_each(&mut hashes[..left]);
    left
}
