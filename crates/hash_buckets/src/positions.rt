//! The bucket and the slot of a hash in a level, and its hash in the next.
ghost use Rattle.std.specs.Prelude.{◌≡◌, ◌+◌, ◌*◌, ◌/◌, ◌^◌, ◌<◌, ◌≤◌};
ghost use Rattle.hash_buckets.specs.Positions.{bucket_of, mixed, next_of, scaled_to, slice_of, slot_of, IsBucketLevel};

use perfect_hash::levels::spread_at;

/// A level: how many buckets it has, how many slots, and how many slots the slice has by which a seed shifts a hash.
#[derive(Clone, Copy, PartialEq, Eq, Debug)]
pub struct Level {
    /// How many buckets it has.
    pub buckets: usize,
    /// How many slots it has.
    pub slots: usize,
    /// How many slots a slice has: a seed shifts a hash by fewer.
    pub slice: usize,
}

/// The fraction `x / 2^64` of a number, rounded down.
///
/// # Source
/// Lemire, 'Fast random integer generation in an interval' (ACM Transactions on Modeling
/// and Computer Simulation, 2019).
#[inline(always)]
fn scaled(x: u64, len: usize) -> usize
    requires { 0 < len }
    ensures at { result ≡ scaled_to len x }
    ensures inside { result < len }
{
    ((x as u128 * len as u128) >> 64) as usize
}

/// A hash, mixed with a seed.
#[inline(always)]
#[tactic(auto, unfolding(crate::specs::Positions::mixed))]
fn mix(seed: u8, hash: u64) -> u64
    ensures { result ≡ mixed seed hash }
{
    (hash ^ (seed as u64).wrapping_mul(0xC2B2_AE3D_27D4_EB4F)).wrapping_mul(0x9FB2_1C65_1E98_DF25)
}

/// The hash of a key in the next level.
#[inline(always)]
#[tactic(auto, unfolding(crate::specs::Positions::next_of))]
pub fn next_hash(hash: u64) -> u64
    ensures { result ≡ next_of hash }
{
    spread_at(hash, 0)
}

/// The bucket of a hash in a level.
///
/// # Conditions
/// The level has a bucket.
#[inline(always)]
pub fn bucket_in(level: &Level, hash: u64) -> usize
    requires { 0 < level.now.buckets }
    ensures at { result ≡ bucket_of level.now hash }
    ensures inside { result < level.now.buckets }
{
    scaled(hash, level.buckets)
}

/// Where the slice of a hash begins in a level.
///
/// # Conditions
/// A slice of the level has a slot, and no more than the level, which has fewer than 2^58.
#[inline(always)]
pub(crate) fn slice_in(level: &Level, hash: u64) -> usize
    requires level { IsBucketLevel level.now }
    requires short { level.now.slots < 2 ^ 58 }
    ensures at { result ≡ slice_of level.now hash }
    ensures inside { result + level.now.slice ≤ level.now.slots }
{
    scaled(hash, level.slots - level.slice + 1)
}

/// The slot of a hash whose slice begins at slot `begin` of a level, by the seed of its bucket.
#[inline(always)]
#[tactic(auto, unfolding(crate::specs::Positions::slot_of))]
pub(crate) fn slot_at(level: &Level, begin: usize, seed: u8, hash: u64) -> usize
    requires level { IsBucketLevel level.now }
    requires short { level.now.slots < 2 ^ 58 }
    requires begin { begin ≡ slice_of level.now hash }
    requires inside { begin + level.now.slice ≤ level.now.slots }
    ensures at { result ≡ slot_of level.now seed hash }
    ensures inside { result < level.now.slots }
{
    begin + scaled(mix(seed, hash), level.slice)
}

/// The slot of a hash in a level, by the seed of its bucket.
///
/// # Conditions
/// A slice of the level has a slot, and no more than the level, which has fewer than 2^58.
#[inline(always)]
pub fn slot_in(level: &Level, seed: u8, hash: u64) -> usize
    requires level { IsBucketLevel level.now }
    requires short { level.now.slots < 2 ^ 58 }
    ensures at { result ≡ slot_of level.now seed hash }
    ensures inside { result < level.now.slots }
{
    slot_at(level, slice_in(level, hash), seed, hash)
}
