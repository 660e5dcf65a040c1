//! The seed of a bucket, by which its hashes have free slots of their own.
ghost use Rattle.std.specs.Prelude.{◌≡◌, ◌≢◌, ◌+◌, ◌^◌, ◌<◌, ◌≤◌, ℕ, IsTrue, length, false};
ghost use Rattle.bit_lists.specs.Bits.{bits_of};
ghost use Rattle.hash_buckets.specs.Positions.{IsBucketLevel};
ghost use Rattle.hash_buckets.specs.Seeds.{count_at, AddsBits, HaveFreeSlots, AreBegins, FitsWords};

use crate::positions::{Level, slice_in, slot_at, slot_in};
use bit_words::words;

/// Whether one of the hashes has this slot, as the next hash has.
fn is_among(hashes: &[u64], level: &Level, seed: u8, slot: usize) -> bool
    requires level { IsBucketLevel level.now }
    requires short { level.now.slots < 2 ^ 58 }
    ensures { result ≡ false → (first : ℕ) → count_at level.now seed first hashes.now (first + slot) ≡ 0 }
{
    for hash in hashes {
        if slot_in(level, seed, *hash) == slot {
            return true;
        }
    }
    false
}

/// Whether the hashes, whose slices begin there, have free slots of their own by this seed, where the level's slots
/// begin at number `first`.
#[inline(always)]
fn fits_seed(
    hashes: &[u64],
    begins: &[usize],
    level: &Level,
    seed: u8,
    first: usize,
    used: &[u64],
) -> bool
    requires fits { FitsWords level.now first (length used.now) }
    requires begins { AreBegins level.now hashes.now (length hashes.now) begins.now }
    ensures { IsTrue result → HaveFreeSlots level.now seed first hashes.now (bits_of used.now) }
{
    for i in 0..hashes.len() {
        let slot = slot_at(level, begins[i], seed, hashes[i]);
        if words::get_bit(used, first + slot) || is_among(&hashes[..i], level, seed, slot) {
            return false;
        }
    }
    true
}

/// The sum of the slots of the hashes by this seed.
fn sum_of(hashes: &[u64], level: &Level, seed: u8) -> u64
    requires level { IsBucketLevel level.now }
    requires short { level.now.slots < 2 ^ 58 }
{
    let mut sum = 0u64;
    for hash in hashes {
        sum = sum.wrapping_add(slot_in(level, seed, *hash) as u64);
    }
    sum
}

/// Writes where the slice of each hash begins.
fn write_begins(hashes: &[u64], level: &Level, begins: &mut [usize])
    requires level { IsBucketLevel level.now }
    requires short { level.now.slots < 2 ^ 58 }
    requires room { length hashes.now ≤ length begins.old }
    ensures { AreBegins level.now hashes.now (length hashes.now) begins.new }
{
    for i in 0..hashes.len() {
        begins[i] = slice_in(level, hashes[i]);
    }
}

/// The seed by which the hashes have free slots of their own, and the sum of these is least; 0 where no seed does, or
/// there are more than 64 hashes. That the sum is least is evident from the code.
///
/// # Cost
/// Each of 255 seeds is tried, with each hash up to the first whose slot is not free.
pub(crate) fn best_seed(hashes: &[u64], level: &Level, first: usize, used: &[u64]) -> u8
    requires { FitsWords level.now first (length used.now) }
    ensures { result ≢ 0 → HaveFreeSlots level.now result first hashes.now (bits_of used.now) }
{
    if hashes.len() > 64 {
        return 0;
    }
    let mut begins = [0; 64];
    write_begins(hashes, level, begins.as_mut_slice());
    let mut best = 0;
    let mut least = u64::MAX;
    for seed in 1..256u16 {
        if fits_seed(hashes, begins.as_slice(), level, seed as u8, first, used) {
            let sum = sum_of(hashes, level, seed as u8);
            if sum < least {
                least = sum;
                best = seed as u8;
            }
        }
    }
    best
}

/// Makes the bit of each hash's slot 1.
///
/// # Conditions
/// By this seed the hashes have slots of their own, whose bits are 0.
pub(crate) fn mark(hashes: &[u64], level: &Level, seed: u8, first: usize, used: &mut [u64])
    requires fits { FitsWords level.now first (length used.old) }
    requires apart { HaveFreeSlots level.now seed first hashes.now (bits_of used.old) }
    ensures marks { AddsBits (bits_of used.old)
        (count_at level.now seed first hashes.now) (bits_of used.new) }
    ensures len { length used.new ≡ length used.old }
{
    for hash in hashes {
        words::set_bit(used, first + slot_in(level, seed, *hash));
    }
}
