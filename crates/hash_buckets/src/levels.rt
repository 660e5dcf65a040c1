//! Level after level, in the caller's memory.
ghost use Rattle.std.specs.Prelude.{◌≡◌, ◌+◌, ◌-◌, ◌*◌, ◌^◌, ◌<◌, ◌≤◌, ◌↔◌, ℕ, IsTrue, length, take};
ghost use Rattle.bit_lists.specs.Bits.{bits_of};
ghost use Rattle.hash_buckets.specs.Building.{count_left, level_of, slots_at, AreMade, HasBucketRoom, IsMadeSoFar};
ghost use Rattle.hash_buckets.specs.Positions.{IsBucketLevel};
ghost use Rattle.hash_buckets.specs.Seeds.{AddsBits};

use crate::level::place_level;
use crate::positions::Level;

/// How far levels were built.
#[derive(Clone, Copy, PartialEq, Eq, Debug)]
pub struct Made {
    /// How many levels there are.
    pub levels: usize,
    /// How many seeds they have together.
    pub seeds: usize,
    /// How many slots they have together.
    pub slots: usize,
    /// How many hashes are left.
    pub left: usize,
}

/// The level for some keys: a slot for each, a bucket for each 4.75, or for each where they are few, and slices of at
/// most 512 slots.
#[tactic(auto, unfolding(crate::specs::Building::level_of))]
fn level_for(keys: usize) -> Level
    requires some { 0 < keys }
    requires short { keys < 2 ^ 60 }
    ensures is { result ≡ level_of keys }
    ensures level { IsBucketLevel result }
    ensures slots { result.slots ≡ keys }
{
    Level {
        buckets: if keys < 64 { keys } else { keys * 4 / 19 + 1 },
        slots: keys,
        slice: keys.min(512.min(64.max(keys / 16))),
    }
}

/// Whether a level has a seed and an end for each bucket, and ends before a limit.
fn has_room(level: &Level, first: usize, limit: usize, ends: usize, seeds: usize) -> bool
    requires { first ≤ limit }
    ensures { IsTrue result ↔ HasBucketRoom level.now first limit ends seeds }
{
    level.buckets <= ends && level.buckets <= seeds && level.slots <= limit - first
}

/// Builds level after level for the hashes, the slots of the first from number `first` on, until no hash is left, or
/// the room for levels, ends, seeds or slots is full. The bit of each slot that a hash has becomes 1.
pub(crate) fn build_levels(
    hashes: &mut [u64],
    first: usize,
    limit: usize,
    levels: &mut [Level],
    ends: &mut [u64],
    sorted: &mut [u64],
    seeds: &mut [u8],
    used: &mut [u64],
) -> Made
    requires before { first ≤ limit }
    requires limit { limit ≤ 64 * length used.old }
    requires short { length used.old < 2 ^ 52 }
    requires room { length hashes.old ≤ length sorted.old }
    ensures made { IsMadeSoFar first limit (length levels.old) (length ends.old) (length seeds.old) result }
    ensures levels { AreMade result first limit (take result.levels levels.new) }
    ensures marks { AddsBits (bits_of used.old)
        (slots_at (take result.levels levels.new) seeds.new first hashes.old) (bits_of used.new) }
    ensures left { result.left
        ≡ count_left (take result.levels levels.new) seeds.new first hashes.old }
    ensures all { result.left ≡ 0 → first + length hashes.old ≤ result.slots }
{
    let keys = hashes.len();
    let none = Made {
        levels: 0,
        seeds: 0,
        slots: first,
        left: keys,
    };
    if keys == 0 || levels.is_empty() {
        return none;
    }
    let level = level_for(keys);
    if !has_room(&level, first, limit, ends.len(), seeds.len()) {
        return none;
    }
    let (own, later) = seeds.split_at_mut(level.buckets);
    let left = place_level(
        &mut *hashes,
        &level,
        first,
        &mut ends[..level.buckets],
        &mut sorted[..keys],
        &mut *own,
        &mut *used,
    );
    let (head, tail) = levels.split_at_mut(1);
    head[0] = level;
    let rest = build_levels(
        &mut hashes[..left],
        first + level.slots,
        limit,
        tail,
        ends,
        sorted,
        later,
        used,
    );
    Made {
        levels: rest.levels + 1,
        seeds: rest.seeds + level.buckets,
        slots: rest.slots,
        left: rest.left,
    }
}
