//! Trees with labels, by answers worked by hand.
use bitm::{Select0ForRank101111, SelectForRank101111};
use louds::{LabelledLouds, LabelsError, SampledTrie};
use std::alloc::Global;
use std::process::Abort;

/// The trie of the words 1 4, 1 7 and 9: the root has the children 1 and 9, and 1 has 4 and 7.
const DEGREES: [usize; 5] = [2, 2, 0, 0, 0];

/// A tree of these degrees with these labels, of at most four binary digits.
fn labelled(alloc: Global, labels: &[u64]) -> Result<SampledTrie, LabelsError> {
    SampledTrie::build(alloc, DEGREES.as_slice(), labels, 4)
}

/// Words, and where they lead.
const WORDS: [(&[u64], Option<usize>); 6] = [
    (&[], Some(0)),
    (&[1], Some(1)),
    (&[1, 4], Some(3)),
    (&[1, 7], Some(4)),
    (&[1, 9], None),
    (&[9, 4], None),
];

/// Whether two answers are the same.
fn same(found: Option<usize>, wanted: Option<usize>) -> bool {
    found == wanted
}

/// Whether labels are taken, and the tree answers as by hand: of children, of a label, and of where words lead.
fn is_by_hand<S: SelectForRank101111, S0: Select0ForRank101111>(
    built: &Result<LabelledLouds<S, S0>, LabelsError>,
) -> bool {
    let Ok(trie) = built else {
        return false;
    };
    if trie.tree().len() != 5 {
        return false;
    }
    let mut agrees = same(trie.child_by_label(0, 9), Some(2));
    agrees &= same(trie.child_by_label(0, 4), None);
    agrees &= same(trie.child_by_label(1, u64::MAX), None);
    agrees &= trie.label(4) == 7;
    for (word, node) in WORDS {
        agrees &= same(trie.find(word), node);
    }
    agrees
}

#[test]
fn words_lead_where_they_do_by_hand(rt: HostRuntime) {
    let agrees = is_by_hand(&labelled(rt.alloc(), [0u64, 1, 9, 4, 7].as_slice()));
    assert!(rt; agrees);
}

/// Whether labels are refused as none.
fn are_refused(alloc: Global, labels: &[u64]) -> bool {
    matches!(labelled(alloc, labels), Err(LabelsError::NotLabels))
}

#[test]
fn labels_that_are_none_are_refused(rt: HostRuntime) {
    for labels in [[0u64, 9, 9, 4, 7], [0, 1, 9, 7, 4], [0, 1, 16, 4, 7]] {
        assert!(rt; are_refused(rt.alloc(), labels.as_slice()));
    }
}
