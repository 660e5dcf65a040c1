//! The levels, and the queries of them.
ghost use Rattle.std.specs.Prelude.{◌≡◌, ◌+◌, ◌*◌, ◌<◌, ◌≤◌, length, IfOk, IfSome};
ghost use Rattle.bit_lists.specs.Bits.{bits_of};
ghost use Rattle.bit_lists.specs.Count.{ones_of};
ghost use Rattle.bitm_bits.specs.Size.{saturated_size};
ghost use Rattle.bitm_tables.specs.Reads.{none_read, ReadsAtMost};
ghost use Rattle.perfect_hash.specs.Levels.{ExceedsBy};
ghost use Rattle.perfect_hash.specs.Positions.{position_in};
ghost use Rattle.perfect_hash.specs.Parts.{levels_looked, number_at, number_from, number_of};
ghost use Rattle.perfect_hash.specs.Numbers.{AreSizes};

use crate::asking::{number_by, number_by_on};
use crate::levels::{KeyHash, Placing, Plain};
use crate::querying::{ByIndex, no_source};
use bitm::{Access, ArrayWithRank101111, RankSelect101111};
use bitm_bits::{CloneWords, GetSize};
use bitm_select::search::selected::found;
use bitm_strategies::{Select0ForRank101111, SelectForRank101111};
use bitm_tables::source::Probe;
use bitm_tables::source::counts::ReadCounts;
use std::alloc::{AllocError, Global};
use std::boxed::BoxedSlice;
use std::convert::AsSlice;
use std::marker::Model;

/// A minimal perfect hash: each key that it was built of has a number of its own, below their count.
///
/// The levels stand one after another in the bits of an index, which answers one bit for each level, and one rank. With
/// `n` keys at 100 per cent the levels have about `e * n` bits, 2.72 a key, and the index's tables 3.125 per cent more;
/// with a seed for each word (`Grouped`) all is 2.26 bits a key. A contract sees a perfect hash as its hasher, what
/// places hashes, how many words each level has, and the bits.
///
/// # Source
/// Müller, Sanders, Schulze and Zhou, 'Retrieval and perfect hashing using fingerprinting' (SEA 2014).
#[derive(Drop)]
pub struct PerfectHash<H, I: Access = ArrayWithRank101111, P: Placing = Plain> {
    hasher: H,
    placing: P,
    sizes: BoxedSlice<usize, Global>,
    index: I,
}

impl<H, I: Access, P: Placing> Model for PerfectHash<H, I, P> {
    ghost use Rattle.std.specs.Box.{boxed_slice_items};
    ghost use Rattle.perfect_hash.specs.Parts.{Parts};
    ghost use Rattle.perfect_hash.specs.Numbers.{AreSizes};

    ghost Value = { Parts H I P };

    ghost view = { λ p. record {
      hasher = p.hasher;
      placing = p.placing;
      sizes = boxed_slice_items p.sizes;
      bits = I.bits p.index;
      index = p.index;
    } };

    ghost invariant = { λ p. AreSizes (boxed_slice_items p.sizes) (I.bits p.index) };
}

impl<H, I: Access> PerfectHash<H, I> {
    /// A perfect hash over an index of the bits of levels.
    ///
    /// # Conditions
    /// The bits are levels of these sizes, as `Levels::build` makes them.
    pub fn over(hasher: H, sizes: Vec<usize>, index: I) -> Self
        requires { AreSizes sizes.items (I.bits index) }
        ensures hasher { result.hasher ≡ hasher }
        ensures sizes { result.sizes ≡ sizes.items }
        ensures bits { result.bits ≡ I.bits index }
        ensures index { result.index ≡ index }
    {
        PerfectHash::over_by(hasher, Plain, sizes, index)
    }
}

impl<H, I: Access, P: Placing> PerfectHash<H, I, P> {
    /// A perfect hash over an index of the bits of levels, and what placed the hashes.
    ///
    /// # Conditions
    /// The bits are levels of these sizes, as `Levels::build_by` makes them.
    pub fn over_by(hasher: H, placing: P, sizes: Vec<usize>, index: I) -> Self
        requires { AreSizes sizes.items (I.bits index) }
        ensures { result ≡ record {
          hasher = hasher;
          placing = placing;
          sizes = sizes.items;
          bits = I.bits index;
          index = index;
        } }
    {
        PerfectHash {
            hasher,
            placing,
            sizes: sizes.into_boxed_slice(),
            index,
        }
    }

    /// How many levels there are: at most 256.
    #[inline(always)]
    pub fn levels(&self) -> usize
        ensures count { result ≡ length self.now.sizes }
        ensures bound { result ≤ 256 }
    {
        self.sizes.len()
    }

    /// How many words each level has.
    #[inline(always)]
    pub fn sizes(&self) -> &[usize]
        ensures value { result.now ≡ self.now.sizes }
        ensures sizes { AreSizes result.now self.now.bits }
    {
        self.sizes.as_slice()
    }

    /// The index over the bits of all levels.
    #[inline(always)]
    pub fn index(&self) -> &I
        ensures value { result.now ≡ self.now.index }
        ensures bits { I.bits result.now ≡ self.now.bits }
    {
        &self.index
    }

    /// What places the hashes.
    #[inline(always)]
    pub fn placing(&self) -> &P
        ensures { result.now ≡ self.now.placing }
    {
        &self.placing
    }

    /// The hasher.
    #[inline(always)]
    pub fn hasher(&self) -> &H
        ensures { result.now ≡ self.now.hasher }
    {
        &self.hasher
    }

    /// The number of a key; of a value that is no key, some number below the count of keys, or `None`.
    ///
    /// # Cost
    /// One bit a level, up to the level where the key is done, and one rank.
    #[inline]
    pub fn get<K>(&self, key: &K) -> Option<usize>
    where
        H: KeyHash<K>,
        ensures { result ≡ number_at P.fall H.hash self.now key.now }
    {
        self.number(self.hash(key))
    }

    /// The hash of a key.
    #[inline(always)]
    pub(crate) fn hash<K>(&self, key: &K) -> u64
    where
        H: KeyHash<K>,
        ensures { result ≡ H.hash self.now.hasher key.now }
    {
        self.hasher.hash(key)
    }

    /// The number of a hash.
    #[inline(always)]
    pub(crate) fn number(&self, hash: u64) -> Option<usize>
        ensures value { result ≡ number_from P.fall self.now hash }
        ensures below { IfSome result (λ number. number < ones_of self.now.bits) }
    {
        let (query, sizes) = (ByIndex { index: &self.index }, self.sizes.as_slice());
        let (source, reads) = (&mut no_source(), &mut ReadCounts::new());
        found(number_by::<0, ByIndex<'_, I>, Probe<'_>, P>(
            &query,
            source,
            &self.placing,
            sizes,
            0,
            hash,
            reads,
        ))
    }
}

impl<H, S: SelectForRank101111, S0: Select0ForRank101111, BV: AsSlice<u64>> PerfectHash<
    H,
    RankSelect101111<S, S0, BV>,
> {
    /// What `get` answers, and what was read for it: one word of each level up to the one where the key falls on a 1
    /// bit, and one rank.
    #[inline]
    pub fn get_counted<K>(&self, key: &K) -> (Option<usize>, ReadCounts)
    where
        H: KeyHash<K>,
        ensures value { result.0 ≡ number_of H.hash self.now key.now }
        ensures reads { ReadsAtMost none_read result.1 1 1 (length self.now.sizes + 8) }
        ensures looked { ExceedsBy 8 (levels_looked (λ _ _. position_in) H.hash self.now key.now)
            result.1.words }
    {
        let mut probe = self.index.probe();
        let hash = self.hash(key);
        let (sizes, seeds) = (self.sizes.as_slice(), &mut ReadCounts::new());
        let number = number_by_on(&mut probe, &self.placing, sizes, hash, seeds);
        (number, probe.into_reads())
    }
}

impl<
    H: Copy,
    S: SelectForRank101111,
    S0: Select0ForRank101111,
    BV: CloneWords,
    P: Placing,
> PerfectHash<H, RankSelect101111<S, S0, BV>, P> {
    /// A copy of the perfect hash, with an index of its own.
    ///
    /// # Errors
    /// `AllocError` if memory was refused; this value is as it was.
    pub fn try_clone(&self, alloc: Global) -> Result<Self, AllocError>
        ensures hasher { IfOk result (λ copy. copy.hasher ≡ self.now.hasher) }
        ensures sizes { IfOk result (λ copy. copy.sizes ≡ self.now.sizes) }
        ensures bits { IfOk result (λ copy. copy.bits ≡ self.now.bits) }
        ensures placing { IfOk result (λ copy. copy.placing ≡ self.now.placing) }
    {
        let sizes = BoxedSlice::from_slice(alloc, self.sizes.as_slice())?;
        let index = self.index.try_clone(alloc)?;
        let placing = self.placing.try_clone(alloc)?;
        Ok(PerfectHash {
            hasher: self.hasher,
            placing,
            sizes,
            index,
        })
    }
}

impl<H, I: Access + GetSize, P: Placing + GetSize> GetSize for PerfectHash<H, I, P> {
    // eight bytes a level, and what the index and the placing keep; what the hasher keeps is not counted
    ghost dyn_bytes = { λ p.
        saturated_size (8 * length p.sizes + I.dyn_bytes p.index + P.dyn_bytes p.placing) };

    const USES_DYN_MEM: bool = true;

    fn size_bytes_dyn(&self) -> usize {
        self.sizes
            .size_bytes_dyn()
            .saturating_add(self.index.size_bytes_dyn())
            .saturating_add(self.placing.size_bytes_dyn())
    }
}
