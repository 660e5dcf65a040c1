//! The type of a tree, and its queries.
ghost use Rattle.std.specs.Prelude.{◌≡◌, ◌==◌, ◌+◌, ◌*◌, ◌^◌, ◌<◌, ◌≤◌, ◌↔◌, IfOk, IfSome, IsErrOf, length};
ghost use Rattle.std.specs.Prelude.{slice_index};
ghost use Rattle.std.specs.Box.{boxed_slice_items};
ghost use Rattle.std.specs.Int.{div_ceil};
ghost use Rattle.bitm_tables.specs.Reads.{none_read};
ghost use Rattle.bitm_tables.specs.Tables.{HasSizes};
ghost use Rattle.bitm_bits.specs.Size.{saturated_size};
ghost use Rattle.louds.specs.Counted.{degrees_in, IsLouds};
ghost use Rattle.louds.specs.Held.{degrees_of, tree_words, zero_position, IsHeld};
ghost use Rattle.bit_lists.specs.Bits.{bits_of};
ghost use Rattle.louds.specs.Tree.{AreChildren, IsTree, MatchesChild, MatchesLastChild};
ghost use Rattle.louds.specs.Tree.{MatchesParent, MatchesChildRank, MatchesNextSibling, MatchesPreviousSibling};

use crate::checking::is_tree;
use crate::children::{child_by, children_by, degree_by, end_after_by};
use crate::error::LoudsError;
use crate::making::make_bits;
use crate::queries::{
    child_rank_by, is_leaf_by, next_sibling_by, parent_by, previous_sibling_by, zero_by,
};
use bitm::{RankSelect101111, index_laws};
use bitm_bits::GetSize;
use bitm_strategies::{
    AdaptiveCombinedSamplingDensity, BinaryRankSearch, CombinedSampling, Select0ForRank101111,
    SelectForRank101111,
};
use bitm_tables::answer::Answer;
use bitm_tables::source::Probe;
use std::alloc::{AllocError, Global};
use std::boxed::BoxedSlice;
use std::marker::Model;
use std::ops::Range;

/// As many degrees as are not taken.
pub(crate) const TOO_MANY: usize = 1 << 60;

/// A tree whose nodes are numbered level by level from the root, node 0: child `k` of node `i` is one more than the
/// children of all nodes before `i`, and `k`.
///
/// It is held as 10 and then for each node its degree in 1 bits and a 0 bit, `2 * n + 1` bits for `n` nodes, with an
/// index. The 1 bit of rank `v` is the bit of node `v`, among the 1 bits of its parent; the 0 bit of rank `v` stands
/// before the 1 bits of node `v`. Generic in the two strategies that select 1 bits and 0 bits.
#[derive(Drop)]
pub struct Louds<S: SelectForRank101111, S0: Select0ForRank101111> {
    len: usize,
    index: RankSelect101111<S, S0, BoxedSlice<u64, Global>>,
}

impl<S: SelectForRank101111, S0: Select0ForRank101111> Model for Louds<S, S0> {
    ghost use Rattle.std.specs.Box.{boxed_slice_items};
    ghost use Rattle.bit_lists.specs.Bits.{bits_of};
    ghost use Rattle.louds.specs.Held.{degrees_of, IsHeld};
    ghost use Rattle.louds.specs.Value.{TreeValue};

    ghost Value = { TreeValue S S0 };

    ghost view = { λ t. record {
      degrees = degrees_of (bits_of (boxed_slice_items t.index.content)) t.len;
      select = t.index.select;
      select0 = t.index.select0;
    } };

    ghost invariant = { λ t. let bits = bits_of (boxed_slice_items t.index.content) in
        IsHeld (degrees_of bits t.len) t.len bits };
}

impl<S: SelectForRank101111, S0: Select0ForRank101111> Louds<S, S0> {
    /// The tree of the degrees, which stay as they are.
    ///
    /// # Errors
    /// `TooLong` exactly where there are 2^60 degrees or more; else `NotATree` exactly where they are the degrees of no
    /// tree; else `OutOfMemory` where memory was refused. Nothing stays allocated then.
    /// # Cost
    /// One pass over the degrees to test them, one to write their bits, and one over the bits for the index.
    pub fn build(alloc: Global, degrees: &[usize]) -> Result<Self, LoudsError>
        ensures ok { IfOk result (λ made. made.degrees ≡ degrees.now) }
        ensures too_long { IsErrOf result LoudsError.TooLong ↔ (2 ^ 60 ≤ length degrees.now) }
        ensures not_a_tree { IsErrOf result LoudsError.NotATree
            ↔ ((length degrees.now < 2 ^ 60) × (¬ (IsTree degrees.now))) }
    {
        if degrees.len() >= TOO_MANY {
            return Err(LoudsError::TooLong);
        }
        if !is_tree(degrees) {
            return Err(LoudsError::NotATree);
        }
        let bits = make_bits(alloc, degrees)?;
        match RankSelect101111::build(alloc, bits) {
            Ok((index, _ones)) => Ok(Louds {
                len: degrees.len(),
                index,
            }),
            Err(_) => Err(LoudsError::OutOfMemory),
        }
    }

    /// How many nodes there are; at least the root.
    #[inline(always)]
    pub fn len(&self) -> usize
        ensures count { result ≡ length self.now.degrees }
        ensures short { result < 2 ^ 60 }
        ensures tree { IsTree self.now.degrees }
    {
        self.len
    }

    /// A source over the bits and the tables, with no reads counted yet: what the calls of `counted`, `queries` and
    /// `children` take.
    #[inline(always)]
    pub fn probe(&self) -> Probe<'_>
        ensures tree { IsLouds (length self.now.degrees) result.lists }
        ensures degrees { degrees_in (length self.now.degrees) result.lists ≡ self.now.degrees }
        ensures sized { HasSizes result.lists }
        ensures reads { result.reads ≡ none_read }
    {
        index_laws::tables_have_sizes();
        self.index.probe()
    }

    /// The index, and a source over its words and tables, with no reads counted yet: what the calls of `queries` take.
    #[inline(always)]
    pub(crate) fn parts(&self) -> (&RankSelect101111<S, S0, BoxedSlice<u64, Global>>, Probe<'_>)
        ensures tree { IsLouds (length self.now.degrees) result.1.lists }
        ensures degrees { degrees_in (length self.now.degrees) result.1.lists ≡ self.now.degrees }
        ensures selects { result.1.lists.words ≡ boxed_slice_items result.0.now.content }
        ensures sized { HasSizes result.1.lists }
        ensures reads { result.1.reads ≡ none_read }
    {
        index_laws::tables_have_sizes();
        (&self.index, self.index.probe())
    }

    /// The words with the bits.
    #[inline(always)]
    pub(crate) fn words(&self) -> &[u64]
        ensures held { IsHeld self.now.degrees (length self.now.degrees) (bits_of result.now) }
        ensures degrees { degrees_of (bits_of result.now) (length self.now.degrees)
            ≡ self.now.degrees }
    {
        self.index.content().as_slice()
    }

    /// The position of the 0 bit before the 1 bits of a node, or of the last 0 bit.
    #[inline(always)]
    pub(crate) fn zero(&self, node: usize) -> usize
        requires { node ≤ length self.now.degrees }
        ensures position { result ≡ zero_position self.now.degrees node }
        ensures small { result < 2 ^ 62 }
    {
        let (index, mut probe) = self.parts();
        match zero_by(index, &mut probe, self.len(), node) {
            Some(position) => position,
            None => unreachable!(),
        }
    }

    /// The position of the 0 bit after the 1 bits of a node, where the 0 bit before them stands at `start`.
    ///
    /// # Cost
    /// Two words, and a selection where these have no 0 bit after `start`.
    #[inline(always)]
    pub(crate) fn end(&self, node: usize, start: usize) -> usize
        requires node { node < length self.now.degrees }
        requires start { start ≡ zero_position self.now.degrees node }
        ensures position { result ≡ zero_position self.now.degrees (node + 1) }
        ensures small { result < 2 ^ 62 }
    {
        let (index, mut probe) = self.parts();
        match end_after_by(index, &mut probe, self.len(), node, start) {
            Some(end) => end,
            None => unreachable!(),
        }
    }

    /// How many children a node has.
    ///
    /// # Conditions
    /// There is such a node.
    /// # Cost
    /// One selection and two words; two selections where it has more than 64 children.
    #[inline]
    pub fn degree(&self, node: usize) -> usize
        requires { node < length self.now.degrees }
        ensures { result ≡ slice_index self.now.degrees node }
    {
        let (index, mut probe) = self.parts();
        match degree_by(index, &mut probe, self.len(), node) {
            Answer::Found(degree) => degree,
            _ => unreachable!(),
        }
    }

    /// Whether a node has no children.
    ///
    /// # Conditions
    /// There is such a node.
    /// # Cost
    /// One selection, and one word of the bits.
    #[inline]
    pub fn is_leaf(&self, node: usize) -> bool
        requires { node < length self.now.degrees }
        ensures { result ≡ (slice_index self.now.degrees node == 0) }
    {
        let (index, mut probe) = self.parts();
        match is_leaf_by(index, &mut probe, self.len(), node) {
            Answer::Found(leaf) => leaf,
            _ => unreachable!(),
        }
    }

    /// Child `k` of a node; `None` exactly where it has no more than `k` children.
    ///
    /// # Conditions
    /// There is such a node.
    /// # Cost
    /// One selection and two words; two selections where `k` is 64 or more.
    #[inline]
    pub fn child(&self, node: usize, k: usize) -> Option<usize>
        requires { node < length self.now.degrees }
        ensures child { MatchesChild self.now.degrees node k result }
        ensures inside { IfSome result (λ child. child < length self.now.degrees) }
    {
        let (index, mut probe) = self.parts();
        child_by(index, &mut probe, self.len(), node, k).right()
    }

    /// The first child of a node; `None` exactly where it has none.
    ///
    /// # Conditions
    /// There is such a node.
    /// # Cost
    /// One selection and two words.
    #[inline]
    pub fn first_child(&self, node: usize) -> Option<usize>
        requires { node < length self.now.degrees }
        ensures child { MatchesChild self.now.degrees node 0 result }
        ensures inside { IfSome result (λ child. child < length self.now.degrees) }
    {
        self.child(node, 0)
    }

    /// The children of a node, in their order: an iterator from either end, which reads nothing.
    ///
    /// # Conditions
    /// There is such a node.
    /// # Cost
    /// One selection and two words; two selections where it has more than 64 children.
    #[inline]
    pub fn children(&self, node: usize) -> Range<usize>
        requires { node < length self.now.degrees }
        ensures { AreChildren self.now.degrees node result.start result.end }
    {
        let (index, mut probe) = self.parts();
        match children_by(index, &mut probe, self.len(), node) {
            Answer::Found((first, past)) => first..past,
            _ => unreachable!(),
        }
    }

    /// The last child of a node; `None` exactly where it has none.
    ///
    /// # Conditions
    /// There is such a node.
    /// # Cost
    /// One selection and two words; two selections where it has more than 64 children.
    #[inline]
    pub fn last_child(&self, node: usize) -> Option<usize>
        requires { node < length self.now.degrees }
        ensures { MatchesLastChild self.now.degrees node result }
    {
        let all = self.children(node);
        if all.start == all.end {
            None
        } else {
            Some(all.end - 1)
        }
    }

    /// The parent of a node; `None` exactly where it is the root.
    ///
    /// # Conditions
    /// There is such a node.
    /// # Cost
    /// One selection.
    #[inline]
    pub fn parent(&self, node: usize) -> Option<usize>
        requires { node < length self.now.degrees }
        ensures { MatchesParent self.now.degrees node result }
    {
        let (index, mut probe) = self.parts();
        parent_by(index, &mut probe, self.len(), node).right()
    }

    /// Which child of its parent a node is; `None` exactly where it is the root.
    ///
    /// # Conditions
    /// There is such a node.
    /// # Cost
    /// Two selections.
    #[inline]
    pub fn child_rank(&self, node: usize) -> Option<usize>
        requires { node < length self.now.degrees }
        ensures { MatchesChildRank self.now.degrees node result }
    {
        let (index, mut probe) = self.parts();
        child_rank_by(index, &mut probe, self.len(), node).right()
    }

    /// The next child of a node's parent; `None` exactly where the node is the last child or the root.
    ///
    /// # Conditions
    /// There is such a node.
    /// # Cost
    /// One selection, and one word of the bits.
    #[inline]
    pub fn next_sibling(&self, node: usize) -> Option<usize>
        requires { node < length self.now.degrees }
        ensures { MatchesNextSibling self.now.degrees node result }
    {
        let (index, mut probe) = self.parts();
        match next_sibling_by(index, &mut probe, self.len(), node) {
            Answer::Found(sibling) => Some(sibling),
            Answer::Absent => None,
            Answer::Wrong => unreachable!(),
        }
    }

    /// The child of a node's parent before it; `None` exactly where the node is the first child or the root.
    ///
    /// # Conditions
    /// There is such a node.
    /// # Cost
    /// One selection, and one word of the bits; none of them at the root.
    #[inline]
    pub fn previous_sibling(&self, node: usize) -> Option<usize>
        requires { node < length self.now.degrees }
        ensures { MatchesPreviousSibling self.now.degrees node result }
    {
        let (index, mut probe) = self.parts();
        match previous_sibling_by(index, &mut probe, self.len(), node) {
            Answer::Found(sibling) => Some(sibling),
            Answer::Absent => None,
            Answer::Wrong => unreachable!(),
        }
    }

    /// All nodes, level by level from the root: an iterator from either end, which reads nothing.
    #[inline(always)]
    pub fn nodes(&self) -> Range<usize>
        ensures first { result.start ≡ 0 }
        ensures past { result.end ≡ length self.now.degrees }
    {
        0..self.len
    }

    /// A copy of the tree, with bits, tables and strategies of its own.
    ///
    /// # Errors
    /// `AllocError` if memory was refused; this value is as it was.
    pub fn try_clone(&self, alloc: Global) -> Result<Self, AllocError>
        ensures { IfOk result (λ copy. copy.degrees ≡ self.now.degrees) }
    {
        let index = self.index.try_clone(alloc)?;
        Ok(Louds {
            len: self.len,
            index,
        })
    }
}

impl<S: SelectForRank101111 + GetSize, S0: Select0ForRank101111 + GetSize> GetSize
    for Louds<S, S0> {
    // the bits, eight bytes for each upper block and each lower block of them, and the two strategies
    ghost dyn_bytes = { λ t. let words = tree_words (length t.degrees) in saturated_size
        (8 * words + 8 * div_ceil words (2 ^ 26) + 8 * div_ceil words 32
        + S.dyn_bytes t.select + S0.dyn_bytes t.select0) };

    const USES_DYN_MEM: bool = true;

    #[tactic(auto, using(bitm::proofs::BitLaws::bits_are_counted))]
    fn size_bytes_dyn(&self) -> usize {
        self.index.size_bytes_dyn()
    }
}

/// Samples: one for each 2^13 1 bits, or fewer where there are fewer of these.
pub(crate) type SampledOnes = CombinedSampling<AdaptiveCombinedSamplingDensity<13>>;

/// Samples: one for each 2^11 0 bits, or fewer. A child, a degree and a leaf wait for a 0 bit, a parent for a 1 bit.
pub(crate) type SampledZeros = CombinedSampling<AdaptiveCombinedSamplingDensity<11>>;

/// A tree that selects by samples, the fastest: what to take unless the reads of binary search are wanted.
pub type SampledLouds = Louds<SampledOnes, SampledZeros>;

/// A tree that selects by binary search, and keeps nothing for it.
pub type BinaryLouds = Louds<BinaryRankSearch, BinaryRankSearch>;
