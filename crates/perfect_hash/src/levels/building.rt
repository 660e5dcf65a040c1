//! Building: level after level, until no hash is left.
ghost use Rattle.std.specs.Prelude.{◌≡◌, ◌↔◌, ℕ, ◌+◌, ◌^◌, ◌<◌, ◌≤◌, [], length, map, IfOk, IfErr, IsErrOf, OnOk};
ghost use Rattle.bit_lists.specs.Bits.{bits_of, IsShort};
ghost use Rattle.perfect_hash.specs.Collisions.{CollideBySize, CollideChosen, CollideOfSize, IfCollide, IfCollideBy};
ghost use Rattle.perfect_hash.specs.Levels.{fall_in, AddsLevel, AreChosen, AreSized, Leave};
ghost use Rattle.perfect_hash.specs.Numbers.{AreLevels};
ghost use Rattle.perfect_hash.specs.Positions.{position_in, words_for};

use crate::levels::error::BuildError;
use crate::levels::hashing::KeyHash;
use crate::levels::level::{Buffers, keep_left, make_level};
use crate::levels::placing::{Placing, Plain};
use crate::levels::positions::level_words;
use std::alloc::{AllocError, Global};

/// The greatest number of levels that are made.
const LEVELS: u32 = 256;

/// The first level has fewer words, so that all levels together have fewer than 2^58.
const TOO_MANY: u128 = 1 << 50;

/// The levels of keys: how many words each has, the words of all, one level after another, and what placed the hashes.
#[derive(Drop)]
pub struct Levels<P: Placing = Plain> {
    /// How many words each level has.
    pub sizes: Vec<usize>,
    /// The words of all levels, one level after another.
    pub words: Vec<u64>,
    /// What placed the hashes.
    pub placing: P,
}

/// The hash of each key.
fn hash_all<K, H: KeyHash<K>>(alloc: Global, hasher: &H, keys: &[K]) -> Result<Vec<u64>, AllocError>
    ensures { IfOk result (λ hashes. hashes.items ≡ map (H.hash hasher.now) keys.now) }
{
    let mut hashes = Vec::with_capacity(alloc, keys.len())?;
    for key in keys {
        hashes.push(hasher.hash(key))?;
    }
    Ok(hashes)
}

/// Adds a level for the hashes that are left, and leaves the hashes that are left then.
///
/// # Conditions
/// There are as many levels as `level` says; with this one, which has a word, there are fewer than 2^58 words.
fn add_level<P: Placing>(
    alloc: Global,
    levels: &mut Levels<P>,
    buffers: &mut Buffers,
    hashes: &mut Vec<u64>,
    level: u32,
    size: usize,
) -> Result<(), AllocError>
    requires count { length levels.old.sizes.items ≡ level }
    requires some { 0 < size }
    requires short { length levels.old.words.items + size < 2 ^ 58 }
    ensures added { OnOk result (AddsLevel
        (P.fall levels.new.placing (length levels.old.words.items))
        hashes.old.items levels.old.sizes.items levels.old.words.items
        levels.new.sizes.items levels.new.words.items hashes.new.items) }
    ensures len { OnOk result
        (length levels.new.words.items ≡ length levels.old.words.items + size) }
    ensures kept { OnOk result ((begin hash number words : ℕ) → 0 < words
        → begin + words ≤ length levels.old.words.items
        → P.fall levels.new.placing begin hash number words
        ≡ P.fall levels.old.placing begin hash number words) }
    ensures chosen { OnOk result (P.chooses levels.old.placing levels.new.placing
        (length levels.old.words.items) hashes.old.items level size) }
{
    let begin = levels.words.len();
    levels
        .placing
        .add_level(alloc, begin, hashes.as_slice(), level, size)?;
    let placing = &levels.placing;
    make_level(placing, begin, buffers, hashes.as_slice(), level, size)?;
    let left = keep_left(
        placing,
        begin,
        hashes.as_mut_slice(),
        level,
        buffers.hit.as_slice(),
    );
    hashes.truncate(left);
    levels.sizes.push(size)?;
    levels.words.extend_from_slice(buffers.hit.as_slice())?;
    Ok(())
}

/// The levels of hashes.
///
/// # Conditions
/// The first level has fewer than 2^50 words.
fn make_levels<P: Placing>(
    alloc: Global,
    placing: P,
    mut hashes: Vec<u64>,
    percent: u16,
) -> Result<Levels<P>, BuildError>
    requires { words_for percent (length hashes.items) < 2 ^ 50 }
    ensures leave { IfOk result (λ levels. Leave
        (fall_in (P.fall levels.placing) levels.sizes.items)
        hashes.items levels.sizes.items levels.words.items []) }
    ensures short { IfOk result (λ levels. IsShort levels.words.items) }
    ensures few { IfOk result (λ levels. length levels.sizes.items ≤ 256) }
    ensures sized { IfOk result (λ levels. AreSized (words_for percent)
        (fall_in (P.fall levels.placing) levels.sizes.items)
        hashes.items (bits_of levels.words.items) 0 0 levels.sizes.items) }
    ensures chosen { IfOk result (λ levels. AreChosen P.chooses
        (fall_in (P.fall levels.placing) levels.sizes.items)
        hashes.items (bits_of levels.words.items) 0 0 0 levels.sizes.items placing levels.placing) }
    ensures collide { IfErr result (λ error. IfCollideBy P.fall error hashes.items) }
    ensures collide_sized { IfErr result (λ error.
        CollideBySize (words_for percent) P.fall error hashes.items) }
    ensures collide_chosen { IfErr result (λ error.
        CollideChosen P.chooses P.fall placing error hashes.items) }
    ensures room { IsErrOf result BuildError.TooLarge → ⊥ }
{
    let mut levels = Levels {
        sizes: Vec::new(alloc),
        words: Vec::new(alloc),
        placing,
    };
    let mut buffers = Buffers {
        hit: Vec::new(alloc),
        again: Vec::new(alloc),
    };
    for level in 0..LEVELS {
        if hashes.is_empty() {
            levels.words.shrink_to_fit();
            return Ok(levels);
        }
        let size = level_words(percent, hashes.len()) as usize;
        add_level(alloc, &mut levels, &mut buffers, &mut hashes, level, size)?;
    }
    if hashes.is_empty() {
        levels.words.shrink_to_fit();
        Ok(levels)
    } else {
        Err(BuildError::KeysCollide(hashes.len()))
    }
}

impl Levels {
    /// The levels of the keys, over which an index of any kind makes a perfect hash (`PerfectHash::over`). A hash's
    /// bits alone place it.
    ///
    /// # Errors
    /// As `build_by`.
    /// # Cost
    /// As `build_by`.
    pub fn build<K, H: KeyHash<K>>(
        alloc: Global,
        hasher: &H,
        keys: &[K],
        percent: u16,
    ) -> Result<Levels, BuildError>
        ensures levels { IfOk result (λ levels. AreLevels position_in (H.hash hasher.now) keys.now
            levels.sizes.items levels.words.items) }
        ensures too_large { IsErrOf result BuildError.TooLarge
            ↔ (2 ^ 50 ≤ words_for percent (length keys.now)) }
        ensures collide { IfErr result (λ error.
            IfCollide error (map (H.hash hasher.now) keys.now)) }
        ensures sized { IfOk result (λ levels. AreSized (words_for percent) position_in
            (map (H.hash hasher.now) keys.now) (bits_of levels.words.items) 0 0 levels.sizes.items) }
        ensures leave { IfOk result (λ levels. Leave position_in
            (map (H.hash hasher.now) keys.now) levels.sizes.items levels.words.items []) }
        ensures collide_sized { IfErr result (λ error. CollideOfSize (words_for percent)
            error (map (H.hash hasher.now) keys.now)) }
    {
        Levels::build_by(alloc, Plain, hasher, keys, percent)
    }
}

impl<P: Placing> Levels<P> {
    /// The levels of the keys, over which an index of any kind makes a perfect hash (`PerfectHash::over_by`).
    ///
    /// # Errors
    /// `TooLarge` exactly where the first level would have 2^50 words or more; else `KeysCollide` where keys are left
    /// after 256 levels, with how many; else `OutOfMemory` if memory was refused.
    /// # Cost
    /// Each level takes two passes over the hashes that are left; each hash goes to two random words. While it works it
    /// takes 8 bytes a key for the hashes, two buffers as long as the first level, the levels, and what `P` takes.
    pub fn build_by<K, H: KeyHash<K>>(
        alloc: Global,
        placing: P,
        hasher: &H,
        keys: &[K],
        percent: u16,
    ) -> Result<Levels<P>, BuildError>
        ensures levels { IfOk result (λ levels. AreLevels
            (fall_in (P.fall levels.placing) levels.sizes.items) (H.hash hasher.now) keys.now
            levels.sizes.items levels.words.items) }
        ensures too_large { IsErrOf result BuildError.TooLarge
            ↔ (2 ^ 50 ≤ words_for percent (length keys.now)) }
        ensures collide { IfErr result (λ error.
            IfCollideBy P.fall error (map (H.hash hasher.now) keys.now)) }
        ensures sized { IfOk result (λ levels. AreSized (words_for percent)
            (fall_in (P.fall levels.placing) levels.sizes.items)
            (map (H.hash hasher.now) keys.now) (bits_of levels.words.items) 0 0 levels.sizes.items) }
        ensures leave { IfOk result (λ levels. Leave
            (fall_in (P.fall levels.placing) levels.sizes.items)
            (map (H.hash hasher.now) keys.now) levels.sizes.items levels.words.items []) }
        ensures chosen { IfOk result (λ levels. AreChosen P.chooses
            (fall_in (P.fall levels.placing) levels.sizes.items)
            (map (H.hash hasher.now) keys.now) (bits_of levels.words.items) 0 0 0
            levels.sizes.items placing levels.placing) }
        ensures collide_sized { IfErr result (λ error. CollideBySize (words_for percent) P.fall
            error (map (H.hash hasher.now) keys.now)) }
        ensures collide_chosen { IfErr result (λ error. CollideChosen P.chooses P.fall placing
            error (map (H.hash hasher.now) keys.now)) }
    {
        if level_words(percent, keys.len()) >= TOO_MANY {
            return Err(BuildError::TooLarge);
        }
        let hashes = hash_all(alloc, hasher, keys)?;
        let levels = make_levels(alloc, placing, hashes, percent)?;
        Ok(levels)
    }
}
