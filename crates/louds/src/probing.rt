//! Labels of nodes, whose reads are counted.
ghost use Rattle.std.specs.Prelude.{◌≡◌, ◌+◌, ◌<◌, ℕ, List, length, slice_index};
ghost use Rattle.louds.specs.Labels.{numbers_of, HasLabelRoom};
ghost use Rattle.louds.specs.Leading.{none_read_of, LabelReads};

use crate::labels::number_of;
use bitm_tables::source::counts::ReadCounts;
use std::marker::Model;

/// Labels of nodes, which may be any; each label that is read is counted.
pub trait Labels {
    /// The words with the labels, the bits of a label, and how many labels were read.
    ghost seen: { Self → LabelReads };

    /// Whether words have labels of that many bits for a number of nodes, whatever these are.
    ghost fitting: { List ℕ → ℕ → ℕ → Type 0 };

    /// The labels that the words have.
    ghost listed: { List ℕ → ℕ → ℕ → List ℕ };

    /// The label of a node, of `len` nodes; one more label is read.
    ///
    /// # Conditions
    /// There is such a node, it is not the root, and there are labels for `len` nodes.
    fn label_of(&mut self, len: usize, node: usize) -> u64
        requires labels { fitting (seen self.old).words (seen self.old).width len }
        requires some { 0 < node }
        requires inside { node < len }
        ensures label { result
            ≡ slice_index (listed (seen self.old).words (seen self.old).width len) node }
        ensures counted { seen self.new ≡ record (seen self.old) { read = (seen self.old).read + 1 } };
}

/// The labels of all nodes, the root's too, in a list.
#[derive(Drop)]
pub(crate) struct ListProbe<'a> {
    labels: &'a [u64],
    // A label counts as a word.
    reads: ReadCounts,
}

impl<'a> Model for ListProbe<'a> {
    ghost use Rattle.louds.specs.Leading.{LabelReads};

    ghost Value = { LabelReads };

    ghost view = { λ l. record { words = l.labels.now; width = 64; read = l.reads.words } };
}

impl<'a> ListProbe<'a> {
    /// These labels, with no reads counted yet.
    #[inline(always)]
    pub(crate) fn new(labels: &'a [u64]) -> ListProbe<'a>
        ensures { result ≡ none_read_of labels.now 64 }
    {
        ListProbe {
            labels,
            reads: ReadCounts::new(),
        }
    }
}

impl<'a> Labels for ListProbe<'a> {
    ghost seen = { λ l. l };

    ghost fitting = { λ labels _ n. length labels ≡ n };

    ghost listed = { λ labels _ _. labels };

    #[inline(always)]
    fn label_of(&mut self, _len: usize, node: usize) -> u64 {
        self.reads.read_word();
        self.labels[node]
    }
}

/// The labels of all nodes, the root's too: a fragment of `width` bits for each.
#[derive(Drop)]
pub(crate) struct RootedProbe<'a> {
    words: &'a [u64],
    width: u8,
    // A label counts as a word.
    reads: ReadCounts,
}

impl<'a> Model for RootedProbe<'a> {
    ghost use Rattle.louds.specs.Leading.{LabelReads};

    ghost Value = { LabelReads };

    ghost view = { λ l. record { words = l.words.now; width = l.width; read = l.reads.words } };
}

impl<'a> RootedProbe<'a> {
    /// The labels of `width` bits in these words, with no reads counted yet.
    #[inline(always)]
    pub(crate) fn new(words: &'a [u64], width: u8) -> RootedProbe<'a>
        ensures { result ≡ none_read_of words.now width }
    {
        RootedProbe {
            words,
            width,
            reads: ReadCounts::new(),
        }
    }
}

impl<'a> Labels for RootedProbe<'a> {
    ghost seen = { λ l. l };

    ghost fitting = { HasLabelRoom };

    ghost listed = { numbers_of };

    #[inline(always)]
    fn label_of(&mut self, len: usize, node: usize) -> u64 {
        self.reads.read_word();
        number_of(self.words, self.width, len, node)
    }
}
