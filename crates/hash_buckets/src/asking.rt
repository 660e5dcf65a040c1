//! The number of a hash, over parts that may hold anything.
ghost use Rattle.std.specs.Prelude.{◌≡◌, ◌+◌, ◌^◌, ◌<◌, ◌≤◌, ◌↔◌, ℕ, List, All, length, slice_index, IsTrue, None};
ghost use Rattle.bitm_tables.specs.Reads.{word_read, ReadsAtMost};
ghost use Rattle.hash_buckets.specs.Numbers.{bucket_number, slot_from, slots_of, AreBucketLevels, AreFree};
ghost use Rattle.hash_buckets.specs.Numbers.{IsNumberAnswer};
ghost use Rattle.bitm_tables.specs.Answers.{IfAbsent};
ghost use Rattle.hash_buckets.specs.Numbers.{WhereFound, IfWrong};
ghost use Rattle.hash_buckets.specs.Positions.{IsBucketLevel};

use crate::free::FreeSlots;
use crate::positions::{Level, bucket_in, next_hash, slot_in};
use bitm_tables::answer::Answer;
use bitm_tables::source::counts::ReadCounts;

/// All levels have fewer slots.
const SLOTS: usize = 1 << 58;

/// Whether it is a level whose buckets have one of `seeds` seeds each, and which ends before slot 2^58.
#[inline(always)]
pub(crate) fn fits(level: &Level, seeds: usize, first: usize) -> bool
    requires { first < 2 ^ 58 }
    ensures { IsTrue result ↔ (IsBucketLevel level.now
        × (level.now.buckets ≤ seeds) × (first + level.now.slots < 2 ^ 58)) }
{
    level.buckets != 0
        && level.buckets <= seeds
        && level.slice != 0
        && level.slice <= level.slots
        && level.slots < SLOTS - first
}

/// The slot of a hash among the slots of all levels, whatever levels and seeds hold: `Wrong` only where they are not
/// levels with a seed for each bucket, and `Absent` only where the seed of the hash is 0 in each level.
///
/// # Cost
/// One seed is read of each level up to the one where the seed is not 0.
#[inline(always)]
pub fn slot_on(levels: &[Level], seeds: &[u8], hash: u64, reads: &mut ReadCounts) -> Answer<usize>
    ensures found { WhereFound result (λ slot. slot_from levels.now seeds.now 0 hash ≡ Some slot) }
    ensures inside { WhereFound result (λ slot. slot < slots_of levels.now) }
    ensures none { IfAbsent result (slot_from levels.now seeds.now 0 hash ≡ None) }
    ensures wrong { IfWrong result (AreBucketLevels levels.now (length seeds.now) → ⊥) }
    ensures reads { ReadsAtMost reads.old reads.new 0 0 (length levels.now) }
{
    let mut begin = 0;
    let mut first = 0;
    let mut here = hash;
    for level in levels {
        if !fits(level, seeds.len() - begin, first) {
            return Answer::Wrong;
        }
        reads.read_word();
        let seed = seeds[begin + bucket_in(level, here)];
        if seed != 0 {
            return Answer::Found(first + slot_in(level, seed, here));
        }
        begin += level.buckets;
        first += level.slots;
        here = next_hash(here);
    }
    Answer::Absent
}

/// The free slot that is item `at` of the list; `Wrong` where that is none below `keys`.
#[inline(always)]
fn free_slot<F: FreeSlots>(
    free: &F,
    keys: usize,
    at: usize,
    reads: &mut ReadCounts,
) -> Answer<usize>
    ensures below { WhereFound result (λ slot. slot < keys) }
    ensures found { (items : List ℕ) → F.holds items free.now
        → WhereFound result (λ slot. slot ≡ slice_index items at) }
    ensures some { IfAbsent result ⊥ }
    ensures wrong { (items : List ℕ) → F.holds items free.now
        → IfWrong result (at < length items → All (λ slot. slot < keys) items → ⊥) }
    ensures counted { reads.new ≡ word_read reads.old }
{
    reads.read_word();
    match free.item(at) {
        Answer::Found(slot) if (slot as usize) < keys => Answer::Found(slot as usize),
        _ => Answer::Wrong,
    }
}

/// The number of a hash among `keys` keys, whatever levels, seeds and free slots hold: it is less than `keys`,
/// and the number by the definition; `Absent` only where the seed of the hash is 0 in each level. Where these are
/// levels with a seed for each bucket, and each slot from `keys` on has a free slot, the answer is never `Wrong`.
///
/// # Cost
/// One seed is read of each level up to the one where the seed is not 0, and at most one free slot.
///
/// ```
/// number_on(&levels, &seeds, &free, 3, 9, &mut ReadCounts::new());   // Found(number), Absent or Wrong
/// ```
#[inline(always)]
pub fn number_on<F: FreeSlots>(
    levels: &[Level],
    seeds: &[u8],
    free: &F,
    keys: usize,
    hash: u64,
    reads: &mut ReadCounts,
) -> Answer<usize>
    ensures below { WhereFound result (λ number. number < keys) }
    ensures found { (items : List ℕ) → F.holds items free.now
        → WhereFound result (λ number. bucket_number levels.now seeds.now keys items hash ≡ Some number) }
    ensures none { IfAbsent result (slot_from levels.now seeds.now 0 hash ≡ None) }
    ensures answer { (items : List ℕ) → F.holds items free.now
        → AreBucketLevels levels.now (length seeds.now) → AreFree levels.now keys items
        → IsNumberAnswer (bucket_number levels.now seeds.now keys items hash) result }
    ensures reads { ReadsAtMost reads.old reads.new 0 0 (length levels.now + 1) }
{
    match slot_on(levels, seeds, hash, &mut *reads) {
        Answer::Found(slot) if slot < keys => Answer::Found(slot),
        Answer::Found(slot) => free_slot(free, keys, slot - keys, reads),
        Answer::Absent => Answer::Absent,
        Answer::Wrong => Answer::Wrong,
    }
}
