//! A tree in a block that may hold anything.
ghost use Rattle.std.specs.Prelude.{◌≡◌, ◌^◌, ◌<◌, ◌≤◌, ◌↔◌, true, false, IsTrue, SomeIff};
ghost use Rattle.bitm_block.specs.Header.{count_in};
ghost use Rattle.bitm_tables.specs.Reads.{none_read};
ghost use Rattle.bitm_selection.specs.Hints.{AreHints, Lead};
ghost use Rattle.louds.specs.Answers.{IsChildOf, IsChildWithin, IsDegreeOf, IsDegreeWithin};
ghost use Rattle.louds.specs.Answers.{IsChildRankOf, IsChildRankWithin, IsLeafOf, IsLeafWithin};
ghost use Rattle.louds.specs.Answers.{IsNextSiblingOf, IsNextSiblingWithin, IsParentOf, IsParentWithin};
ghost use Rattle.louds.specs.Answers.{IsPreviousSiblingOf, IsPreviousSiblingWithin};
ghost use Rattle.louds.specs.Counted.{degrees_in};
ghost use Rattle.tree_block.specs.Block.{parts_of, tree_in, tree_with_hints, HasLengths, HoldsIn, HoldsTree};
ghost use Rattle.tree_block.specs.Block.{IsTreeBlock};

use crate::checking::holds_tree;
use crate::sections::{Lens, is_tree_block};
use bitm_block::Block;
use bitm_selection::{Hints, are_all_hints};
use bitm_tables::answer::Answer;
use bitm_tables::source::Probe;
use block_tables::{are_tables, hints_of, probe};
use louds::children::{child_by, degree_by};
use louds::queries::{child_rank_by, is_leaf_by, next_sibling_by, parent_by, previous_sibling_by};
use std::marker::Model;

/// A view of a tree in a block whose header and directory are right.
///
/// Contracts see the number of nodes, the words, the two tables and the hints. These may hold anything: a call says its
/// answer where they form a tree, and where they do not. A search of a bit reads one hint and at most nine words, and
/// where these do not have the bit, or there are no hints, what a selection by binary search reads besides.
///
/// ```
/// let Some(tree) = LoudsView::open(&block) else { .. };
/// tree.check();       // true of a block that `build` wrote
/// tree.parent(3);     // Found(2), Absent or Wrong
/// ```
#[derive(Drop)]
pub struct LoudsView<'a> {
    len: usize,
    words: &'a [u64],
    upper: &'a [u64],
    lower: &'a [u64],
    hints: &'a [u64],
}

impl<'a> Model for LoudsView<'a> {
    ghost use Rattle.tree_block.specs.Block.{parts_of, HasLengths, TreeParts};

    ghost Value = { TreeParts };

    ghost view = { λ t. parts_of t.len t.words.now t.upper.now t.lower.now t.hints.now };

    ghost invariant = { λ t.
        HasLengths (parts_of t.len t.words.now t.upper.now t.lower.now t.hints.now) };
}

impl<'a> LoudsView<'a> {
    /// The tree in a block; `None` exactly where the words are no block (`Block::open` says why), the block is of
    /// another kind, or a section has a length that does not fit the number of nodes. The hints are in the fourth
    /// section (`of_block`). What the sections hold is not looked at.
    ///
    /// # Cost
    /// Header and directory are read, at most 80 words (evident from the code).
    ///
    /// ```
    /// LoudsView::open(block.as_slice());   // Some(..)
    /// ```
    pub fn open(words: &'a [u64]) -> Option<LoudsView<'a>>
        ensures { SomeIff result (IsTreeBlock words.now) (tree_in words.now) }
    {
        let Ok(block) = Block::open(words) else {
            return None;
        };
        if !is_tree_block(&block) {
            return None;
        }
        LoudsView::of_block(&block, 3)
    }

    /// The tree whose words and tables are the first three sections of a block, of any kind; `None` exactly where there
    /// are fewer, or the length of one does not fit the number of nodes. The hints are in section `hints`, where it is
    /// one of hints and its length fits the number of nodes; else there are none.
    ///
    /// ```
    /// LoudsView::of_block(&block, 3);   // Some(..), with hints, of a block that `build` wrote
    /// ```
    pub fn of_block(block: &Block<'a>, hints: usize) -> Option<LoudsView<'a>>
        ensures { SomeIff result
            ((3 ≤ count_in block.now) × HasLengths (tree_with_hints block.now hints))
            (tree_with_hints block.now hints) }
    {
        match (block.section(0), block.section(1), block.section(2)) {
            (Some(bits), Some(upper), Some(lower)) => {
                let len = block.words()[3] as usize;
                let hints = hints_of(block, hints, len, bits.len());
                LoudsView::over(len, bits, upper, lower, hints)
            }
            _ => None,
        }
    }

    /// The tree in a block that is as it was written; `None` exactly where `open` says so, a section or the zeros after
    /// it are not as they were written (`Block::verify`), or the sections hold no tree (`check`). So a block in which
    /// one word was changed is refused, and every answer agrees with the tree.
    ///
    /// # Cost
    /// Three passes over the words, and one selection for each hint (evident from the code).
    ///
    /// ```
    /// LoudsView::open_checked(block.as_slice());   // Some(..) of a block that `build` wrote
    /// ```
    pub fn open_checked(words: &'a [u64]) -> Option<LoudsView<'a>>
        ensures { SomeIff result (HoldsTree words.now) (tree_in words.now) }
    {
        let view = LoudsView::open(words)?;
        let Ok(block) = Block::open(words) else {
            return None;
        };
        if !block.verify() {
            return None;
        }
        if view.check() { Some(view) } else { None }
    }

    /// The given number of nodes in words with two tables, and hints or none; `None` exactly where a length does not
    /// fit the number of nodes.
    ///
    /// ```
    /// LoudsView::over(4, words, upper, lower, &[]);   // Some(..) of one word each, without hints
    /// ```
    #[inline]
    pub fn over(
        len: usize,
        words: &'a [u64],
        upper: &'a [u64],
        lower: &'a [u64],
        hints: &'a [u64],
    ) -> Option<LoudsView<'a>>
        ensures { SomeIff result (HasLengths (parts_of len words.now upper.now lower.now hints.now))
            (parts_of len words.now upper.now lower.now hints.now) }
    {
        if len >= 1 << 60 {
            return None;
        }
        let lens = Lens::of(len);
        if words.len() != lens.words || upper.len() != lens.upper || lower.len() != lens.lower {
            return None;
        }
        if !hints.is_empty() && hints.len() != lens.hints {
            return None;
        }
        Some(LoudsView {
            len,
            words,
            upper,
            lower,
            hints,
        })
    }

    /// How many nodes the header announces.
    ///
    /// ```
    /// tree.len();   // 4
    /// ```
    #[inline(always)]
    pub fn len(&self) -> usize
        ensures len { result ≡ self.now.len }
        ensures short { result < 2 ^ 60 }
    {
        self.len
    }

    /// The words that hold the tree.
    ///
    /// ```
    /// tree.words().len();   // 1
    /// ```
    #[inline(always)]
    pub fn words(&self) -> &'a [u64]
        ensures { result.now ≡ self.now.lists.words }
    {
        self.words
    }

    /// The upper table of the words.
    ///
    /// ```
    /// tree.upper().len();   // 1
    /// ```
    #[inline(always)]
    pub fn upper(&self) -> &'a [u64]
        ensures { result.now ≡ self.now.lists.upper }
    {
        self.upper
    }

    /// The lower table of the words.
    ///
    /// ```
    /// tree.lower().len();   // 1
    /// ```
    #[inline(always)]
    pub fn lower(&self) -> &'a [u64]
        ensures { result.now ≡ self.now.lists.lower }
    {
        self.lower
    }

    /// The hints of the words; no words where there are none.
    ///
    /// ```
    /// tree.hints().len();   // 2
    /// ```
    #[inline(always)]
    pub fn hints(&self) -> &'a [u64]
        ensures { result.now ≡ self.now.hints }
    {
        self.hints
    }

    /// A source over the words and tables, whose reads are counted from 0.
    ///
    /// ```
    /// total_parent_on(&mut tree.probe(), tree.len(), 3);   // Found(2)
    /// ```
    #[inline(always)]
    pub fn probe(&self) -> Probe<'_>
        ensures lists { result.lists ≡ self.now.lists }
        ensures lengths { HasLengths self.now }
        ensures reads { result.reads ≡ none_read }
    {
        probe(self.words, self.upper, self.lower)
    }

    /// A way to find the bits of the words, by the hints: what the calls of `louds::queries` and `louds::children`
    /// take.
    ///
    /// ```
    /// children_by(&tree.finder(), &mut tree.probe(), tree.len(), 0);   // Found((1, 3))
    /// ```
    #[inline(always)]
    pub fn finder(&self) -> Hints<'a>
        ensures { Lead self.now.len self.now.hints self.now.lists.words
            → AreHints true self.now.lists.words result.ones.now
            × AreHints false self.now.lists.words result.zeros.now }
    {
        Hints::over(self.hints, self.len)
    }

    /// Whether the block holds a tree, with the hints of its words or none: then the answers agree with the tree.
    ///
    /// # Cost
    /// Two passes over the words, and one selection for each hint (evident from the code).
    ///
    /// ```
    /// tree.check();   // true
    /// ```
    pub fn check(&self) -> bool
        ensures { IsTrue result ↔ HoldsIn self.now }
    {
        are_tables(self.words, self.upper, self.lower)
            && holds_tree(self.words, self.len)
            && (self.hints.is_empty() || are_all_hints(&mut self.probe(), self.len, self.hints))
    }

    /// The parent of a node. Whatever the block holds, it is less than the node, and the answer is `Absent` exactly at
    /// the root and where there is no such node. Where it holds a tree, the answer is never `Wrong`.
    ///
    /// # Cost
    /// One search of a bit.
    ///
    /// ```
    /// tree.parent(3);   // Found(2)
    /// ```
    #[inline]
    pub fn parent(&self, node: usize) -> Answer<usize>
        ensures inside { IsParentWithin self.now.len node result }
        ensures answer { HoldsIn self.now
            → IsParentOf (degrees_in self.now.len self.now.lists) node result }
    {
        parent_by(&self.finder(), &mut self.probe(), self.len, node)
    }

    /// Child `k` of a node. Whatever the block holds, it is more than the node and less than the number of nodes. Where
    /// it holds a tree, the answer is `Absent` exactly where there is none, and never `Wrong`.
    ///
    /// # Cost
    /// Two searches of bits; of the first 64 children one, and two words.
    ///
    /// ```
    /// tree.child(0, 1);   // Found(2)
    /// ```
    #[inline]
    pub fn child(&self, node: usize, k: usize) -> Answer<usize>
        ensures inside { IsChildWithin self.now.len node result }
        ensures answer { HoldsIn self.now
            → IsChildOf (degrees_in self.now.len self.now.lists) node k result }
    {
        child_by(&self.finder(), &mut self.probe(), self.len, node, k)
    }

    /// How many children a node has. Whatever the block holds, that is less than the number of nodes, and the answer is
    /// `Absent` exactly where there is no such node. Where it holds a tree, the answer is never `Wrong`.
    ///
    /// # Cost
    /// One search of a bit, and two words; another search where these have no 0 bit after the node's 1 bits.
    ///
    /// ```
    /// tree.degree(0);   // Found(2)
    /// ```
    #[inline]
    pub fn degree(&self, node: usize) -> Answer<usize>
        ensures inside { IsDegreeWithin self.now.len node result }
        ensures answer { HoldsIn self.now
            → IsDegreeOf (degrees_in self.now.len self.now.lists) node result }
    {
        degree_by(&self.finder(), &mut self.probe(), self.len, node)
    }

    /// Whether a node has no children. Whatever the block holds, the answer is `Absent` exactly where there is no such
    /// node. Where it holds a tree, the answer is never `Wrong`.
    ///
    /// # Cost
    /// One search of a bit, and one word.
    ///
    /// ```
    /// tree.is_leaf(3);   // Found(true)
    /// ```
    #[inline]
    pub fn is_leaf(&self, node: usize) -> Answer<bool>
        ensures inside { IsLeafWithin self.now.len node result }
        ensures answer { HoldsIn self.now
            → IsLeafOf (degrees_in self.now.len self.now.lists) node result }
    {
        is_leaf_by(&self.finder(), &mut self.probe(), self.len, node)
    }

    /// The next child of a node's parent. Whatever the block holds, it is the node after this one. Where it holds a
    /// tree, the answer is `Absent` exactly at the last child, at the root and where there is no such node, and never
    /// `Wrong`.
    ///
    /// # Cost
    /// One search of a bit, and one word.
    ///
    /// ```
    /// tree.next_sibling(1);   // Found(2)
    /// ```
    #[inline]
    pub fn next_sibling(&self, node: usize) -> Answer<usize>
        ensures inside { IsNextSiblingWithin self.now.len node result }
        ensures answer { HoldsIn self.now
            → IsNextSiblingOf (degrees_in self.now.len self.now.lists) node result }
    {
        next_sibling_by(&self.finder(), &mut self.probe(), self.len, node)
    }

    /// The child of a node's parent before it. Whatever the block holds, it is the node before this one. Where it holds
    /// a tree, the answer is `Absent` exactly at the first child, at the root and where there is no such node, and
    /// never `Wrong`.
    ///
    /// # Cost
    /// One search of a bit, and one word; nothing at the root.
    ///
    /// ```
    /// tree.previous_sibling(2);   // Found(1)
    /// ```
    #[inline]
    pub fn previous_sibling(&self, node: usize) -> Answer<usize>
        ensures inside { IsPreviousSiblingWithin self.now.len node result }
        ensures answer { HoldsIn self.now
            → IsPreviousSiblingOf (degrees_in self.now.len self.now.lists) node result }
    {
        previous_sibling_by(&self.finder(), &mut self.probe(), self.len, node)
    }

    /// Which child of its parent a node is, counted from 0. Whatever the block holds, that is less than the number of
    /// nodes, and the answer is `Absent` exactly at the root and where there is no such node. Where it holds a tree,
    /// the answer is never `Wrong`.
    ///
    /// # Cost
    /// Two searches of bits.
    ///
    /// ```
    /// tree.child_rank(2);   // Found(1)
    /// ```
    #[inline]
    pub fn child_rank(&self, node: usize) -> Answer<usize>
        ensures inside { IsChildRankWithin self.now.len node result }
        ensures answer { HoldsIn self.now
            → IsChildRankOf (degrees_in self.now.len self.now.lists) node result }
    {
        child_rank_by(&self.finder(), &mut self.probe(), self.len, node)
    }
}
