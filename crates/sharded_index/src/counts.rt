//! How many bits, and how many 1 bits, there are before each shard, and which shard holds a position or a rank.
ghost use Rattle.std.specs.Prelude.{◌≡◌, ◌+◌, ◌-◌, ◌<◌, ◌≤◌, ◌↔◌, ℕ, Bool, IsTrue, List, SomeIff, length};
ghost use Rattle.sharded_index.specs.Joined.{count_of_kind, joined, joined_to};
ghost use Rattle.sharded_index.specs.Prefixes.{claimed, claimed_in_all, prefixes_of, shard_count};
ghost use Rattle.sharded_index.specs.Prefixes.{ArePrefixes, HasLengths, IsClaimed, IsClaimedBy, IsShardFound};
ghost use Rattle.bitm_select.specs.Search.{IsLastWithin};

use bitm_tables::answer::Answer;
use std::marker::Model;

/// What is numbered over all shards.
#[derive(Clone, Copy, PartialEq, Eq, Debug)]
pub enum Kind {
    /// Positions of bits.
    Positions,
    /// Ranks of 0 bits.
    Zeros,
    /// Ranks of 1 bits.
    Ones,
}

/// Where a number leads: to a shard, and to a number of the same kind in it.
#[derive(Clone, Copy, PartialEq, Eq, Debug)]
pub struct Location {
    /// The shard.
    pub shard: usize,
    /// The position, or the rank, in the shard.
    pub within: usize,
}

/// How many bits, and how many 1 bits, there are before each shard, and in all: borrowed numbers, one more than shards.
///
/// Contracts see the two lists. They may hold anything: a call says its answer where they match the shards, and where
/// they do not.
#[derive(Drop)]
pub struct PrefixCounts<'a> {
    bits: &'a [u64],
    ones: &'a [u64],
}

impl<'a> Model for PrefixCounts<'a> {
    ghost use Rattle.sharded_index.specs.Prefixes.{HasLengths, Prefixes, prefixes_of};

    ghost Value = { Prefixes };

    ghost view = { λ c. prefixes_of c.bits.now c.ones.now };

    ghost invariant = { λ c. HasLengths (prefixes_of c.bits.now c.ones.now) };
}

/// How many bits, or bits of a kind, the numbers claim before a shard.
#[inline(always)]
fn claimed_before(bits: &[u64], ones: &[u64], of: Kind, shard: usize) -> usize
    requires inside { shard < length bits.now }
    requires same_length { length ones.now ≡ length bits.now }
    ensures { result ≡ claimed of (prefixes_of bits.now ones.now) shard }
{
    match of {
        Kind::Positions => bits[shard] as usize,
        Kind::Zeros => bits[shard].saturating_sub(ones[shard]) as usize,
        Kind::Ones => ones[shard] as usize,
    }
}

impl<'a> PrefixCounts<'a> {
    /// These numbers; `None` exactly where there is none, or not as many of either kind.
    #[inline(always)]
    pub fn over(bits: &'a [u64], ones: &'a [u64]) -> Option<PrefixCounts<'a>>
        ensures { SomeIff result (HasLengths (prefixes_of bits.now ones.now))
            (prefixes_of bits.now ones.now) }
    {
        if bits.is_empty() || ones.len() != bits.len() {
            return None;
        }
        Some(PrefixCounts { bits, ones })
    }

    /// How many shards there are.
    #[inline(always)]
    pub fn shards(&self) -> usize
        ensures { result ≡ shard_count self.now }
    {
        self.bits.len() - 1
    }

    /// How many bits, or bits of a kind, the numbers claim before a shard; in all, before the shard after the last.
    #[inline(always)]
    pub fn before(&self, of: Kind, shard: usize) -> usize
        requires { shard ≤ shard_count self.now }
        ensures claimed { result ≡ claimed of self.now shard }
        ensures right { (bs : List (List Bool)) → ArePrefixes bs self.now
            → result ≡ count_of_kind of (joined_to bs shard) }
    {
        claimed_before(self.bits, self.ones, of, shard)
    }

    /// How many bits, or bits of a kind, the numbers claim in all.
    #[inline(always)]
    pub fn total(&self, of: Kind) -> usize
        ensures claimed { result ≡ claimed_in_all of self.now }
        ensures right { (bs : List (List Bool)) → ArePrefixes bs self.now
            → result ≡ count_of_kind of (joined bs) }
    {
        self.before(of, self.shards())
    }

    /// The last shard before which the numbers claim at most `number` of a kind, judged by the numbers of the next
    /// shard; or the number of shards, where they claim at most that in all.
    ///
    /// # Conditions
    /// They claim no more before the first shard.
    /// # Cost
    /// A pair of numbers for each halving of how many there are: evident from the code.
    fn last_before(&self, of: Kind, number: usize) -> usize
        requires { claimed of self.now 0 ≤ number }
        ensures { IsLastWithin (claimed of self.now) (length self.now.bits) number result }
    {
        let mut low = 0;
        let mut left = self.bits.len();
        while left > 1 {
            let half = left / 2;
            if self.before(of, low + half) <= number {
                low += half;
                left -= half;
            } else {
                left = half;
            }
        }
        low
    }

    /// The shard that holds a position, or the bit with a rank of its kind, and the position or rank there. `Absent`
    /// exactly where there are no more in all.
    ///
    /// Whatever the numbers are, a shard that is found is one, and they claim that it holds the number. Where they
    /// match the shards it does, and `Wrong` is never answered.
    ///
    /// # Cost
    /// A pair of numbers for each halving of how many there are, and three more: evident from the code.
    pub fn find(&self, of: Kind, number: usize) -> Answer<Location>
        ensures claimed { IsClaimedBy of self.now number result }
        ensures right { (bs : List (List Bool)) → ArePrefixes bs self.now
            → IsShardFound of bs number result }
    {
        if self.total(of) <= number {
            return Answer::Absent;
        }
        if self.before(of, 0) > number {
            return Answer::Wrong;
        }
        let shard = self.last_before(of, number);
        Answer::Found(Location {
            shard,
            within: number - self.before(of, shard),
        })
    }

    /// Whether the prefix counts claim that a position, or the bit with a rank of its kind, is in a shard.
    #[inline(always)]
    pub(crate) fn is_in(&self, of: Kind, number: usize, shard: usize) -> bool
        ensures { IsTrue result ↔ (shard < shard_count self.now)
            × (claimed of self.now shard ≤ number) × (number < claimed of self.now (shard + 1)) }
    {
        shard < self.shards()
            && self.before(of, shard) <= number
            && number < self.before(of, shard + 1)
    }

    /// Whether the prefix counts claim that a position or rank belongs to this shard and index.
    #[inline(always)]
    pub fn has(&self, of: Kind, number: usize, location: Location) -> bool
        ensures { IsTrue result ↔ IsClaimed of self.now number location × (number < claimed_in_all of self.now) }
    {
        self.is_in(of, number, location.shard)
            && number - self.before(of, location.shard) == location.within
            && number < self.total(of)
    }
}
