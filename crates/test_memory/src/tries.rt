//! The calls of trees by their parents and of trees with labels that take memory.
use crate::outcome::{Ended, Outcome, answered, refused};
use louds::{BinaryLouds, LabelsError, LoudsError, SampledTrie};
use std::alloc::Global;

const PARENTS: [usize; 4] = [0, 0, 1, 1];

const DEGREES: [usize; 5] = [2, 2, 0, 0, 0];

const LABELS: [u64; 5] = [0, 1, 9, 4, 7];

/// Each call of these trees.
pub fn ended(alloc: Global) -> [Ended; 4] {
    [
        ("tree-from-parents", from_parents(alloc)),
        ("trie-build", built(alloc)),
        ("trie-word", word(alloc)),
        ("trie-try-clone", cloned(alloc)),
    ]
}

/// Whether a tree with labels answers as it has to.
fn is_right(trie: &SampledTrie) -> bool {
    trie.find([1u64, 7].as_slice()) == Some(4) && trie.find([9u64, 4].as_slice()) == None
}

/// A tree by its parents.
fn from_parents(alloc: Global) -> Outcome {
    let parents = PARENTS;
    match BinaryLouds::from_parents(alloc, parents.as_slice()) {
        Ok(tree) => answered(tree.len() == 5 && tree.nodes().end == 5),
        Err(LoudsError::OutOfMemory) => refused(parents.as_slice() == PARENTS.as_slice()),
        Err(_) => Outcome::Wrong,
    }
}

/// A tree with labels.
fn built(alloc: Global) -> Outcome {
    let (degrees, labels) = (DEGREES, LABELS);
    match SampledTrie::build(alloc, degrees.as_slice(), labels.as_slice(), 4) {
        Ok(trie) => answered(is_right(&trie)),
        Err(LabelsError::OutOfMemory) => refused(
            degrees.as_slice() == DEGREES.as_slice() && labels.as_slice() == LABELS.as_slice(),
        ),
        Err(_) => Outcome::Wrong,
    }
}

/// The word of a node.
fn word(alloc: Global) -> Outcome {
    let Ok(trie) = SampledTrie::build(alloc, DEGREES.as_slice(), LABELS.as_slice(), 4) else {
        return Outcome::Unready;
    };
    let Some(node) = trie.find([1u64, 7].as_slice()) else {
        return Outcome::Wrong;
    };
    if node >= trie.tree().len() {
        return Outcome::Wrong;
    }
    match trie.word(alloc, node) {
        Ok(word) => answered(word.as_slice() == [1u64, 7].as_slice()),
        Err(_) => refused(is_right(&trie)),
    }
}

/// A clone of one.
fn cloned(alloc: Global) -> Outcome {
    let Ok(trie) = SampledTrie::build(alloc, DEGREES.as_slice(), LABELS.as_slice(), 4) else {
        return Outcome::Unready;
    };
    match trie.try_clone(alloc) {
        Ok(copy) => answered(is_right(&copy) && is_right(&trie)),
        Err(_) => refused(is_right(&trie)),
    }
}
