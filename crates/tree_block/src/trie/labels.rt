//! The labels of nodes, whose reads are counted.
ghost use Rattle.std.specs.Prelude.{◌≡◌, ◌+◌, ◌^◌, ◌<◌, slice_index};
ghost use Rattle.louds.specs.Leading.{none_read_of};
ghost use Rattle.tree_block.specs.Labels.{labels_of, HasLabels};

use bit_words::words;
use bitm_tables::source::counts::ReadCounts;
use louds::probing::Labels;
use std::marker::Model;

/// The labels of the nodes from 1 on, a fragment of `width` bits for each; each label that is read is counted.
///
/// The words may hold anything. The count has no greatest number and takes no bytes at run time; only clauses see it.
///
/// ```
/// LabelProbe::new(words, 8).label(4, 1);   // of four nodes that of node 1: the first eight bits
/// ```
#[derive(Drop)]
pub struct LabelProbe<'a> {
    words: &'a [u64],
    width: u8,
    // A label counts as a word.
    reads: ReadCounts,
}

impl<'a> Model for LabelProbe<'a> {
    ghost use Rattle.louds.specs.Leading.{LabelReads};

    ghost Value = { LabelReads };

    ghost view = { λ l. record { words = l.words.now; width = l.width; read = l.reads.words } };
}

impl<'a> LabelProbe<'a> {
    /// The labels of `width` bits in these words, with no reads counted yet.
    ///
    /// ```
    /// LabelProbe::new(words, 8);
    /// ```
    #[inline(always)]
    pub fn new(words: &'a [u64], width: u8) -> LabelProbe<'a>
        ensures { result ≡ none_read_of words.now width }
    {
        LabelProbe {
            words,
            width,
            reads: ReadCounts::new(),
        }
    }

    /// The label of a node, of `len` nodes; one more label is read.
    ///
    /// # Conditions
    /// There is such a node, it is not the root, and there are exactly the words that the labels of `len` nodes take.
    ///
    /// ```
    /// labels.label(4, 1);   // that of node 1
    /// ```
    #[inline(always)]
    #[tactic(auto, using(crate::proofs::LabelLemmas::label_inside, crate::proofs::LabelLemmas::label_packed))]
    pub fn label(&mut self, len: usize, node: usize) -> u64
        requires labels { HasLabels self.old.words self.old.width len }
        requires some { 0 < node }
        requires inside { node < len }
        ensures label { result ≡ slice_index (labels_of self.old.words self.old.width len) node }
        ensures bound { result < 2 ^ self.old.width }
        ensures counted { self.new ≡ record self.old { read = self.old.read + 1 } }
    {
        self.reads.read_word();
        words::get_fragment(self.words, node - 1, self.width)
    }
}

impl<'a> Labels for LabelProbe<'a> {
    ghost seen = { λ l. l };

    ghost fitting = { HasLabels };

    ghost listed = { labels_of };

    #[inline(always)]
    fn label_of(&mut self, len: usize, node: usize) -> u64 {
        self.label(len, node)
    }
}
