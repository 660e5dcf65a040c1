//! Building a perfect hash: the levels of the keys, and an index over their words.
ghost use Rattle.std.specs.Prelude.{◌≡◌, ◌↔◌, ◌^◌, ◌<◌, ◌≤◌, [], length, map, IfOk, IfErr};
ghost use Rattle.perfect_hash.specs.Collisions.{CollideBySize, CollideChosen, CollideOfSize, IfCollide, IfCollideBy};
ghost use Rattle.perfect_hash.specs.Levels.{fall_in, AreChosen, AreSized, LeadTo};
ghost use Rattle.perfect_hash.specs.Perfect.{IsMinimalPerfect};
ghost use Rattle.perfect_hash.specs.Positions.{position_in, words_for};
ghost use Rattle.perfect_hash.specs.Parts.{number_at, number_of};

use crate::levels::{BuildError, KeyHash, Levels, Placing, Plain};
use crate::table::PerfectHash;
use bitm::ArrayWithRank101111;
use std::alloc::Global;

/// A refusal: why, and the hasher that was handed in.
#[derive(Drop)]
pub struct Refused<H> {
    /// Why.
    pub error: BuildError,
    /// The hasher that was handed in.
    pub hasher: H,
}

/// Numbers the keys, each by a number of its own below their count, over an index with rank.
///
/// `percent` is how many bits a level has for each 100 keys: 100 takes least memory, 200 less time; less than
/// 50 is taken as 50.
///
/// # Errors
/// As `Levels::build`; the hasher comes back.
/// # Cost
/// As `Levels::build`, and one pass over the words for the index.
/// # Source
/// Müller, Sanders, Schulze and Zhou, 'Retrieval and perfect hashing using fingerprinting' (SEA 2014), and Limasset,
/// Rizk, Chikhi and Peterlongo, 'Fast and scalable minimal perfect hashing for massive key sets' (SEA 2017).
pub fn build<K, H: KeyHash<K>>(
    alloc: Global,
    hasher: H,
    keys: &[K],
    percent: u16,
) -> Result<PerfectHash<H, ArrayWithRank101111>, Refused<H>>
    ensures perfect { IfOk result (λ made. IsMinimalPerfect (number_of H.hash made) keys.now) }
    ensures kept { IfOk result (λ made. made.hasher ≡ hasher) }
    ensures room { IfOk result (λ _. words_for percent (length keys.now) < 2 ^ 50) }
    ensures hasher_back { IfErr result (λ refused. refused.hasher ≡ hasher) }
    ensures too_large { IfErr result (λ refused. (refused.error ≡ BuildError.TooLarge)
        ↔ (2 ^ 50 ≤ words_for percent (length keys.now))) }
    ensures sized { IfOk result (λ made. AreSized (words_for percent) position_in
        (map (H.hash hasher) keys.now) made.bits 0 0 made.sizes) }
    ensures levels { IfOk result (λ made. LeadTo position_in
        (map (H.hash hasher) keys.now) made.bits 0 0 made.sizes []) }
    ensures collide { IfErr result (λ refused.
        IfCollide refused.error (map (H.hash hasher) keys.now)) }
    ensures collide_sized { IfErr result (λ refused. CollideOfSize (words_for percent)
        refused.error (map (H.hash hasher) keys.now)) }
{
    build_by(alloc, Plain, hasher, keys, percent)
}

/// Numbers the keys, each by a number of its own below their count, over an index with rank, where `placing` says on
/// which bits hashes fall: `Plain`, as `build` does, or `Grouped`, in fewer bits and more time.
///
/// # Errors
/// As `Levels::build_by`; the hasher comes back.
/// # Cost
/// As `Levels::build_by`, and one pass over the words for the index.
pub fn build_by<K, H: KeyHash<K>, P: Placing>(
    alloc: Global,
    placing: P,
    hasher: H,
    keys: &[K],
    percent: u16,
) -> Result<PerfectHash<H, ArrayWithRank101111, P>, Refused<H>>
    ensures perfect { IfOk result (λ made.
        IsMinimalPerfect (number_at P.fall H.hash made) keys.now) }
    ensures kept { IfOk result (λ made. made.hasher ≡ hasher) }
    ensures room { IfOk result (λ _. words_for percent (length keys.now) < 2 ^ 50) }
    ensures hasher_back { IfErr result (λ refused. refused.hasher ≡ hasher) }
    ensures too_large { IfErr result (λ refused. (refused.error ≡ BuildError.TooLarge)
        ↔ (2 ^ 50 ≤ words_for percent (length keys.now))) }
    ensures sized { IfOk result (λ made. AreSized (words_for percent)
        (fall_in (P.fall made.placing) made.sizes)
        (map (H.hash hasher) keys.now) made.bits 0 0 made.sizes) }
    ensures levels { IfOk result (λ made. LeadTo (fall_in (P.fall made.placing) made.sizes)
        (map (H.hash hasher) keys.now) made.bits 0 0 made.sizes []) }
    ensures chosen { IfOk result (λ made. AreChosen P.chooses
        (fall_in (P.fall made.placing) made.sizes)
        (map (H.hash hasher) keys.now) made.bits 0 0 0 made.sizes placing made.placing) }
    ensures collide { IfErr result (λ refused.
        IfCollideBy P.fall refused.error (map (H.hash hasher) keys.now)) }
    ensures collide_sized { IfErr result (λ refused. CollideBySize (words_for percent) P.fall
        refused.error (map (H.hash hasher) keys.now)) }
    ensures collide_chosen { IfErr result (λ refused. CollideChosen P.chooses P.fall placing
        refused.error (map (H.hash hasher) keys.now)) }
{
    let made = match Levels::build_by(alloc, placing, &hasher, keys, percent) {
        Ok(made) => made,
        Err(error) => return Err(Refused { error, hasher }),
    };
    match ArrayWithRank101111::build(alloc, made.words.into_boxed_slice()) {
        Ok((index, _ones)) => Ok(PerfectHash::over_by(hasher, made.placing, made.sizes, index)),
        Err(_) => Err(Refused {
            error: BuildError::OutOfMemory,
            hasher,
        }),
    }
}
