//! A trie in a block that may hold anything.
ghost use Rattle.std.specs.Prelude.{◌≡◌, ◌↔◌, IsTrue, SomeIff, length};
ghost use Rattle.louds.specs.Answers.{IsChildWithin};
ghost use Rattle.louds.specs.Leading.{IsChildByLabelOf, IsLongestOf, IsLongestWithin, IsNodeOf};
ghost use Rattle.louds.specs.Leading.{IsNodeWithin};
ghost use Rattle.tree_block.specs.Answers.{IsEndOf, IsLabelOf, IsWordOf, IsWordWithin};
ghost use Rattle.tree_block.specs.TrieBlock.{degrees_of_parts, labels_of_parts, trie_in, trie_of};
ghost use Rattle.tree_block.specs.TrieBlock.{HasTrieLengths, HasTrieSections, HoldsTrie, IsSoundBlock, IsTrieBlock};

use crate::LoudsView;
use crate::trie::building::has_ends;
use crate::trie::labels::LabelProbe;
use crate::trie::sections::{TRIE, is_shape, label_words};
use crate::trie::words::word_by;
use bit_words::words;
use bitm_block::Block;
use bitm_tables::answer::Answer;
use louds::leading::{child_by_label_by, find_by, longest_by};
use louds::rising::labels_rise;
use std::marker::Model;
use suffix_order::Letters;

/// Whether header and directory describe a trie.
#[inline(always)]
fn is_trie_block(block: &Block<'_>) -> bool
    ensures { IsTrue result ↔ HasTrieSections block.now }
{
    block.is_of(TRIE, [1u64, 2, 3, 17, 18].as_slice())
}

/// A view of a trie in a block whose header and directory are right.
///
/// Contracts see its tree, the words of its labels, how many bits a label has, and the words of its ends. These may
/// hold anything: a call says its answer where they form a trie, and where they do not.
///
/// ```
/// let Some(trie) = TrieView::open(&block) else { .. };
/// trie.check();           // true of a block that `build` wrote
/// trie.find(b"be".as_slice());       // Found(3), Absent or Wrong
/// ```
#[derive(Drop)]
pub struct TrieView<'a> {
    tree: LoudsView<'a>,
    labels: &'a [u64],
    width: u8,
    ends: &'a [u64],
}

impl<'a> Model for TrieView<'a> {
    ghost use Rattle.tree_block.specs.TrieBlock.{trie_of, HasTrieLengths, TrieParts};

    ghost Value = { TrieParts };

    ghost view = { λ t. trie_of t.tree t.labels.now t.width t.ends.now };

    ghost invariant = { λ t. HasTrieLengths (trie_of t.tree t.labels.now t.width t.ends.now) };
}

impl<'a> TrieView<'a> {
    /// The trie in a block; `None` exactly where the words are no block (`Block::open` says why), the block is of
    /// another kind, or a section has a length that does not fit the number of nodes. The hints of the tree are in the
    /// sixth section (`LoudsView::of_block`). What the sections hold is not looked at.
    ///
    /// # Cost
    /// Header and directory are read, at most 80 words (evident from the code).
    ///
    /// ```
    /// TrieView::open(block.as_slice());   // Some(..)
    /// ```
    pub fn open(words: &'a [u64]) -> Option<TrieView<'a>>
        ensures { SomeIff result (IsTrieBlock words.now) (trie_in words.now) }
    {
        let Ok(block) = Block::open(words) else {
            return None;
        };
        if !is_trie_block(&block) || words[4] > 63 {
            return None;
        }
        let tree = LoudsView::of_block(&block, 5)?;
        match (block.section(3), block.section(4)) {
            (Some(labels), Some(ends)) => TrieView::over(tree, labels, words[4] as u8, ends),
            _ => None,
        }
    }

    /// The trie in a block that is as it was written; `None` exactly where `open` says so, a section or the zeros after
    /// it are not as they were written (`Block::verify`), or the sections hold no trie (`check`). So a block in which
    /// one word was changed is refused, and every answer agrees with the trie.
    ///
    /// # Cost
    /// Four passes over the words, and one selection for each hint (evident from the code).
    ///
    /// ```
    /// TrieView::open_checked(block.as_slice());   // Some(..) of a block that `build` wrote
    /// ```
    pub fn open_checked(words: &'a [u64]) -> Option<TrieView<'a>>
        ensures { SomeIff result (IsSoundBlock words.now) (trie_in words.now) }
    {
        let view = TrieView::open(words)?;
        let Ok(block) = Block::open(words) else {
            return None;
        };
        if !block.verify() {
            return None;
        }
        if view.check() { Some(view) } else { None }
    }

    /// A tree with the words of labels, of the given number of bits each, and with the words of ends; `None` exactly
    /// where a length does not fit the number of nodes.
    ///
    /// ```
    /// TrieView::over(tree, labels, 8, ends);   // Some(..) of one word each, for four nodes
    /// ```
    #[inline]
    pub fn over(
        tree: LoudsView<'a>,
        labels: &'a [u64],
        width: u8,
        ends: &'a [u64],
    ) -> Option<TrieView<'a>>
        ensures { SomeIff result (HasTrieLengths (trie_of tree.entry labels.now width ends.now))
            (trie_of tree.entry labels.now width ends.now) }
    {
        let nodes = tree.len();
        if !is_shape(nodes, width as usize) {
            return None;
        }
        if labels.len() != label_words(nodes, width as usize) || !has_ends(ends, nodes) {
            return None;
        }
        Some(TrieView {
            tree,
            labels,
            width,
            ends,
        })
    }

    /// How many nodes the header announces.
    ///
    /// ```
    /// trie.len();   // 4
    /// ```
    #[inline(always)]
    pub fn len(&self) -> usize
        ensures { result ≡ self.now.tree.len }
    {
        self.tree.len()
    }

    /// How many bits a label has.
    ///
    /// ```
    /// trie.width();   // 8
    /// ```
    #[inline(always)]
    pub fn width(&self) -> u8
        ensures { result ≡ self.now.width }
    {
        self.width
    }

    /// The tree without its labels: parents, children and degrees.
    ///
    /// ```
    /// trie.tree().parent(3);   // Found(2)
    /// ```
    #[inline(always)]
    pub fn tree(&self) -> &LoudsView<'a>
        ensures tree { result.now ≡ self.now.tree }
        ensures lengths { HasTrieLengths self.now }
    {
        &self.tree
    }

    /// The words of the labels of the nodes from 1 on.
    ///
    /// ```
    /// trie.labels().len();   // 1
    /// ```
    #[inline(always)]
    pub fn labels(&self) -> &'a [u64]
        ensures { result.now ≡ self.now.labels }
    {
        self.labels
    }

    /// The words of the ends: a bit for each node, lowest bit first, or no words.
    ///
    /// ```
    /// trie.ends().len();   // 1
    /// ```
    #[inline(always)]
    pub fn ends(&self) -> &'a [u64]
        ensures { result.now ≡ self.now.ends }
    {
        self.ends
    }

    /// Whether the block holds a trie: then the answers agree with the trie.
    ///
    /// # Cost
    /// Three passes over the words, one over the labels, and one selection for each hint (evident from the code).
    ///
    /// ```
    /// trie.check();   // true
    /// ```
    pub fn check(&self) -> bool
        ensures { IsTrue result ↔ HoldsTrie self.now }
    {
        let mut labels = LabelProbe::new(self.labels, self.width);
        self.tree.check() && labels_rise(self.tree.words(), &mut labels, self.tree.len())
    }

    /// The label of a node, whatever the block holds: `Absent` exactly at the root and where there is no such node, and
    /// never `Wrong`.
    ///
    /// # Cost
    /// At most two words (evident from the code).
    ///
    /// ```
    /// trie.label(3);   // Found(101)
    /// ```
    #[inline]
    pub fn label(&self, node: usize) -> Answer<u64>
        ensures { IsLabelOf self.now node result }
    {
        if node == 0 || node >= self.tree.len() {
            return Answer::Absent;
        }
        Answer::Found(LabelProbe::new(self.labels, self.width).label(self.tree.len(), node))
    }

    /// Whether a word ends at a node, whatever the block holds: `Absent` exactly where there is no such node or the
    /// block has no ends, and never `Wrong`.
    ///
    /// # Cost
    /// At most one word (evident from the code).
    ///
    /// ```
    /// trie.is_end(3);   // Found(true)
    /// ```
    #[inline]
    pub fn is_end(&self, node: usize) -> Answer<bool>
        ensures { IsEndOf self.now node result }
    {
        if node >= self.tree.len() || self.ends.len() == 0 {
            return Answer::Absent;
        }
        Answer::Found(words::get_bit(self.ends, node))
    }

    /// The child of a node with this label. Whatever the block holds, it is more than the node and less than the number
    /// of nodes. Where the block holds a trie, the answer is `Absent` exactly where no child has the label, and never
    /// `Wrong`.
    ///
    /// # Cost
    /// Two searches of bits and two words, or one search where the words have a 0 bit after the node's 1 bits; and as
    /// many labels as the number of nodes has binary digits, and one. A search reads what one of `LoudsView` does.
    ///
    /// ```
    /// trie.child_by_label(0, 98);   // Found(2)
    /// ```
    #[inline]
    pub fn child_by_label(&self, node: usize, label: u64) -> Answer<usize>
        ensures inside { IsChildWithin self.now.tree.len node result }
        ensures answer { HoldsTrie self.now → IsChildByLabelOf (degrees_of_parts self.now)
            (labels_of_parts self.now) node label result }
    {
        let mut labels = LabelProbe::new(self.labels, self.width);
        let mut source = self.tree.probe();
        let finder = self.tree.finder();
        child_by_label_by(
            &finder,
            &mut source,
            &mut labels,
            self.tree.len(),
            node,
            label,
        )
    }

    /// The node to which a word leads from the root, label by label: a list of labels, such as `&[u64]`, or `&[u8]`
    /// where labels are bytes. Whatever the block holds, it is less than the number of nodes. Where the block holds a
    /// trie, the answer is `Absent` exactly where the word leads to none, and never `Wrong`.
    ///
    /// # Cost
    /// For each label of the word at most what `child_by_label` reads.
    ///
    /// ```
    /// trie.find(b"be".as_slice());                        // Found(3)
    /// trie.find([98u64, 101].as_slice());      // Found(3)
    /// ```
    #[inline]
    pub fn find<W: Letters>(&self, word: W) -> Answer<usize>
        ensures inside { IsNodeWithin self.now.tree.len result }
        ensures answer { HoldsTrie self.now → IsNodeOf (degrees_of_parts self.now)
            (labels_of_parts self.now) (W.letters word) result }
    {
        let mut labels = LabelProbe::new(self.labels, self.width);
        let mut source = self.tree.probe();
        let finder = self.tree.finder();
        find_by(&finder, &mut source, &mut labels, self.tree.len(), word)
    }

    /// The deepest node to which a beginning of a word leads from the root, and how many labels lead there: all of them
    /// where the word leads to a node. Whatever the block holds, the node is less than the number of nodes, no more
    /// labels lead there than the word has, and the answer is `Absent` exactly where there are no nodes. Where the
    /// block holds a trie, no longer beginning of the word leads to a node, and the answer is never `Wrong`.
    ///
    /// # Cost
    /// For each label of the word at most what `child_by_label` reads.
    ///
    /// ```
    /// trie.longest(b"bee".as_slice());   // Found((3, 2)): be leads to node 3
    /// ```
    #[inline]
    pub fn longest<W: Letters>(&self, word: W) -> Answer<(usize, usize)>
        ensures inside { IsLongestWithin self.now.tree.len (length (W.letters word)) result }
        ensures answer { HoldsTrie self.now → IsLongestOf (degrees_of_parts self.now)
            (labels_of_parts self.now) (W.letters word) result }
    {
        let mut labels = LabelProbe::new(self.labels, self.width);
        let mut source = self.tree.probe();
        let finder = self.tree.finder();
        longest_by(&finder, &mut source, &mut labels, self.tree.len(), word)
    }

    /// How many labels the word has that leads from the root to a node. Where `out` has room for them, they are its
    /// last items then, and the items before them stay as they are. Whatever the block holds, they are no more than the
    /// number of the node, and the answer is `Absent` exactly where there is no such node. Where the block holds a
    /// trie, the answer is never `Wrong`.
    ///
    /// # Cost
    /// For each label of the word one search of a bit, and that label.
    ///
    /// ```
    /// let mut out = [0u64; 4];
    /// trie.word(3, out.as_mut_slice());   // Found(2), and out is [0, 0, 98, 101]
    /// ```
    #[inline]
    pub fn word(&self, node: usize, out: &mut [u64]) -> Answer<usize>
        ensures inside { IsWordWithin self.now.tree.len node out.old out.new result }
        ensures answer { HoldsTrie self.now → IsWordOf (degrees_of_parts self.now)
            (labels_of_parts self.now) node out.new result }
    {
        let mut labels = LabelProbe::new(self.labels, self.width);
        let mut source = self.tree.probe();
        let finder = self.tree.finder();
        word_by(
            &finder,
            &mut source,
            &mut labels,
            self.tree.len(),
            node,
            out,
        )
    }
}
