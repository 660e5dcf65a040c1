//! A tree whose nodes have labels: words of labels lead down it.
ghost use Rattle.std.specs.Prelude.{◌≡◌, ◌+◌, ◌*◌, ◌^◌, ◌<◌, ◌≤◌, ◌↔◌, IfErr, IfOk, IfSome, IsErrOf, IsTrue};
ghost use Rattle.std.specs.Prelude.{length, slice_index};
ghost use Rattle.std.specs.Int.{div_ceil};
ghost use Rattle.bitm_bits.specs.Size.{saturated_size};
ghost use Rattle.louds.specs.Held.{tree_words};
ghost use Rattle.louds.specs.Labels.{AreLabels, Leads, MatchesChildWith, MatchesWord, Rise};
ghost use Rattle.louds.specs.Tree.{IsTree};

use crate::error::{LabelsError, LoudsError};
use crate::labels::{Packed, all_fit};
use crate::leading::{child_by_label_by, find_by};
use crate::probing::ListProbe;
use crate::rising::labels_rise;
use crate::tree::{Louds, SampledOnes, SampledZeros};
use bitm_bits::GetSize;
use bitm_strategies::{Select0ForRank101111, SelectForRank101111};
use bitm_tables::answer::Answer;
use std::alloc::{AllocError, Global};
use std::marker::Model;

/// A tree with a label for each node, a number of up to 63 bits, where the labels of siblings rise. So each word of
/// labels leads from the root to at most one node: the tree is a trie.
///
/// The labels stand side by side, in `width` bits each, by the numbers of their nodes. No call reads the root's.
#[derive(Drop)]
pub struct LabelledLouds<S: SelectForRank101111, S0: Select0ForRank101111> {
    tree: Louds<S, S0>,
    labels: Packed,
}

impl<S: SelectForRank101111, S0: Select0ForRank101111> Model for LabelledLouds<S, S0> {
    ghost use Rattle.louds.specs.Labels.{AreLabels, LabelledValue};

    ghost Value = { LabelledValue S S0 };

    ghost view = { λ t. record {
      degrees = t.tree.degrees;
      labels = t.labels.items;
      width = t.labels.width;
      select = t.tree.select;
      select0 = t.tree.select0;
    } };

    ghost invariant = { λ t. AreLabels t.tree.degrees t.labels.items t.labels.width };
}

/// Whether the labels of siblings rise.
///
/// # Conditions
/// There is a label for each node.
/// # Cost
/// One pass over the bits of the tree, and two labels for each node.
fn rise<S: SelectForRank101111, S0: Select0ForRank101111>(
    tree: &Louds<S, S0>,
    labels: &[u64],
) -> bool
    requires { length labels.now ≡ length tree.now.degrees }
    ensures { IsTrue result ↔ Rise tree.now.degrees labels.now }
{
    labels_rise(tree.words(), &mut ListProbe::new(labels), labels.len())
}

/// Whether these are labels for the nodes of a tree: one of at most `width` bits for each, and the labels of siblings
/// rise.
///
/// # Conditions
/// `width` is at most 63.
pub fn are_labels<S: SelectForRank101111, S0: Select0ForRank101111>(
    tree: &Louds<S, S0>,
    labels: &[u64],
    width: u8,
) -> bool
    requires { width ≤ 63 }
    ensures { IsTrue result ↔ AreLabels tree.now.degrees labels.now width }
{
    labels.len() == tree.len() && all_fit(labels, width) && rise(tree, labels)
}

impl<S: SelectForRank101111, S0: Select0ForRank101111> LabelledLouds<S, S0> {
    /// The tree of the degrees with these labels, in `width` bits each. Both lists stay as they are.
    ///
    /// # Conditions
    /// `width` is 1 to 63.
    /// # Errors
    /// `TooLong` exactly where there are 2^60 degrees or more; else `NotATree` exactly where they form no tree; else
    /// `OutOfMemory` where memory was refused, or `NotLabels` only where these are no labels for that tree
    /// (`are_labels` tests it). Nothing stays allocated then.
    /// # Cost
    /// The cost of `Louds::build`, a pass over the bits of the tree, and three passes over the labels.
    pub fn build(
        alloc: Global,
        degrees: &[usize],
        labels: &[u64],
        width: u8,
    ) -> Result<Self, LabelsError>
        requires some { 1 ≤ width }
        requires few { width ≤ 63 }
        ensures degrees { IfOk result (λ made. made.degrees ≡ degrees.now) }
        ensures labels { IfOk result (λ made. made.labels ≡ labels.now) }
        ensures width { IfOk result (λ made. made.width ≡ width) }
        ensures are_labels { IfOk result (λ made. AreLabels degrees.now labels.now width) }
        ensures too_long { IsErrOf result LabelsError.TooLong ↔ (2 ^ 60 ≤ length degrees.now) }
        ensures not_a_tree { IsErrOf result LabelsError.NotATree
            ↔ ((length degrees.now < 2 ^ 60) × (¬ (IsTree degrees.now))) }
        ensures not_labels { IsErrOf result LabelsError.NotLabels
            → (¬ (AreLabels degrees.now labels.now width)) }
    {
        let tree = match Louds::build(alloc, degrees) {
            Ok(tree) => tree,
            Err(LoudsError::TooLong) => return Err(LabelsError::TooLong),
            Err(LoudsError::NotATree) => return Err(LabelsError::NotATree),
            Err(LoudsError::OutOfMemory) => return Err(LabelsError::OutOfMemory),
        };
        LabelledLouds::with_labels(alloc, tree, labels, width)
    }

    /// The tree with these labels, in `width` bits each.
    ///
    /// # Conditions
    /// `width` is 1 to 63.
    /// # Errors
    /// `NotLabels` exactly where these are no labels for the tree; else `OutOfMemory` if memory was refused.
    fn with_labels(
        alloc: Global,
        tree: Louds<S, S0>,
        labels: &[u64],
        width: u8,
    ) -> Result<Self, LabelsError>
        requires some { 1 ≤ width }
        requires few { width ≤ 63 }
        ensures degrees { IfOk result (λ made. made.degrees ≡ tree.degrees) }
        ensures labels { IfOk result (λ made. made.labels ≡ labels.now) }
        ensures width { IfOk result (λ made. made.width ≡ width) }
        ensures not_labels { IsErrOf result LabelsError.NotLabels
            ↔ (¬ (AreLabels tree.degrees labels.now width)) }
        ensures else_memory { IfErr result (λ error.
            AreLabels tree.degrees labels.now width → error ≡ LabelsError.OutOfMemory) }
        ensures are_labels { IfOk result (λ made. AreLabels tree.degrees labels.now width) }
    {
        if !are_labels(&tree, labels, width) {
            return Err(LabelsError::NotLabels);
        }
        let labels = Packed::build(alloc, labels, width)?;
        Ok(LabelledLouds { tree, labels })
    }

    /// The tree without its labels.
    #[inline(always)]
    pub fn tree(&self) -> &Louds<S, S0>
        ensures degrees { result.now.degrees ≡ self.now.degrees }
        ensures tree { IsTree self.now.degrees }
        ensures labels { AreLabels self.now.degrees self.now.labels self.now.width }
    {
        let _nodes = self.tree.len();
        &self.tree
    }

    /// The label of a node.
    ///
    /// # Conditions
    /// There is such a node.
    #[inline(always)]
    pub fn label(&self, node: usize) -> u64
        requires { node < length self.now.degrees }
        ensures { result ≡ slice_index self.now.labels node }
    {
        self.labels.get(node)
    }

    /// The child of a node with this label; `None` exactly where none has it.
    ///
    /// # Conditions
    /// There is such a node.
    /// # Cost
    /// The cost of `Louds::children`, and halving among the labels of the children: as many labels as the number of
    /// children has binary digits, and one.
    pub fn child_by_label(&self, node: usize, label: u64) -> Option<usize>
        requires { node < length self.now.degrees }
        ensures child { MatchesChildWith self.now.degrees self.now.labels node label result }
        ensures inside { IfSome result (λ child. child < length self.now.degrees) }
    {
        let (index, mut probe) = self.tree.parts();
        let mut labels = self.labels.probe();
        match child_by_label_by(index, &mut probe, &mut labels, self.tree.len(), node, label) {
            Answer::Found(child) => Some(child),
            Answer::Absent => None,
            Answer::Wrong => unreachable!(),
        }
    }

    /// The node to which a word leads from the root, label by label; `None` exactly where it leads to none.
    ///
    /// # Cost
    /// A call of `child_by_label` for each label, up to where the word leaves the tree.
    pub fn find(&self, word: &[u64]) -> Option<usize>
        ensures { MatchesWord self.now.degrees self.now.labels word.now result }
    {
        let (index, mut probe) = self.tree.parts();
        let mut labels = self.labels.probe();
        find_by(index, &mut probe, &mut labels, self.tree.len(), word).right()
    }

    /// The word that leads from the root to a node: the labels on the way down, without the root's.
    ///
    /// # Conditions
    /// There is such a node.
    /// # Errors
    /// `AllocError` if memory was refused.
    /// # Cost
    /// A selection and a label for each level.
    pub fn word(&self, alloc: Global, node: usize) -> Result<Vec<u64>, AllocError>
        requires { node < length self.now.degrees }
        ensures { IfOk result (λ word. Leads self.now.degrees self.now.labels word.items 0 node) }
    {
        let mut word = Vec::new(alloc);
        let mut at = node;
        while let Some(parent) = self.tree.parent(at) {
            word.push(self.label(at))?;
            at = parent;
        }
        word.reverse();
        Ok(word)
    }

    /// A copy of the tree, with memory of its own.
    ///
    /// # Errors
    /// `AllocError` if memory was refused; this value is as it was.
    pub fn try_clone(&self, alloc: Global) -> Result<Self, AllocError>
        ensures degrees { IfOk result (λ copy. copy.degrees ≡ self.now.degrees) }
        ensures labels { IfOk result (λ copy. copy.labels ≡ self.now.labels) }
        ensures width { IfOk result (λ copy. copy.width ≡ self.now.width) }
    {
        let tree = self.tree.try_clone(alloc)?;
        let labels = self.labels.try_clone(alloc)?;
        Ok(LabelledLouds { tree, labels })
    }
}

impl<S: SelectForRank101111 + GetSize, S0: Select0ForRank101111 + GetSize> GetSize
    for LabelledLouds<S, S0> {
    // what the tree keeps, and the words of the labels
    ghost dyn_bytes = { λ t. let n = length t.degrees in let words = tree_words n in saturated_size
        (8 * words + 8 * div_ceil words (2 ^ 26) + 8 * div_ceil words 32
        + S.dyn_bytes t.select + S0.dyn_bytes t.select0 + 8 * div_ceil (n * t.width) 64) };

    const USES_DYN_MEM: bool = true;

    fn size_bytes_dyn(&self) -> usize {
        self.tree
            .size_bytes_dyn()
            .saturating_add(self.labels.size_bytes_dyn())
    }
}

/// A tree with labels that selects by samples.
pub type SampledTrie = LabelledLouds<SampledOnes, SampledZeros>;
