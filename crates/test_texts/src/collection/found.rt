//! In which documents patterns stand, each document once.
use crate::collection::collections::{FRUITS, collected, walk};
use std::alloc::Global;
use std::process::Abort;
use std::test::Fail;
use text_index::collection::TextCollection;

/// Whether bit `d` of words is 1.
fn is_marked(words: &[u64], d: usize) -> bool {
    match words.get(d / 64) {
        Some(word) => *word >> (d % 64) & 1 == 1,
        None => false,
    }
}

/// Whether a document is there, and a walk finds the pattern in it.
fn is_in(documents: &[&[u64]], d: usize, pattern: &[u64]) -> bool {
    d < documents.len() && walk(&documents[d..d + 1], pattern) > 0
}

/// Whether the 1 bits mark the documents in which a walk finds the pattern, and the count is right.
fn are_marked(documents: &[&[u64]], pattern: &[u64], words: &[u64], count: usize) -> bool {
    let mut expected = 0usize;
    let mut right = true;
    for d in 0..words.len().saturating_mul(64) {
        let is_in = is_in(documents, d, pattern);
        right &= is_marked(words, d) == is_in;
        expected = expected.wrapping_add(is_in as usize);
    }
    right && count == expected
}

/// Whether a collection of at most 192 documents finds the documents of a pattern, over words that held something else.
fn finds_documents(collection: &TextCollection, documents: &[&[u64]], pattern: &[u64]) -> bool {
    let mut words = [u64::MAX; 3];
    let len = collection.len().div_ceil(64);
    if len > 3 {
        return false;
    }
    let count = collection.documents(pattern, &mut words[..len]);
    are_marked(documents, pattern, &words[..len], count)
}

/// Whether it does for all patterns of two letters that begin with this one.
fn finds_pairs(collection: &TextCollection, documents: &[&[u64]], first: u64) -> bool {
    let mut right = true;
    for second in 0..6u64 {
        right &= finds_documents(collection, documents, [first, second].as_slice());
    }
    right
}

/// Whether it does for the empty pattern, for all patterns of one letter and of two, and for one that no document has.
fn finds_each(collection: &TextCollection, documents: &[&[u64]]) -> bool {
    let mut right = finds_documents(collection, documents, [].as_slice());
    for first in 0..6u64 {
        right &= finds_documents(collection, documents, [first].as_slice());
        right &= finds_pairs(collection, documents, first);
    }
    right
}

/// Whether a collection of these documents with this step does.
fn finds_all(alloc: Global, documents: &[&[u64]], step: u32) -> Result<bool, Fail> {
    let collection = collected(alloc, documents, 4, step)?;
    Ok(finds_each(&collection, documents))
}

/// No documents, the fruits, and documents of a letter.
const KINDS: [&[&[u64]]; 3] = [&[], &FRUITS, &[&[0], &[1], &[0]]];

#[test]
fn documents_are_found_once(rt: HostRuntime) -> Result<(), Fail> {
    for documents in KINDS {
        assert!(rt; finds_all(rt.alloc(), documents, 3)?);
    }
    Ok(())
}

#[test]
fn more_documents_than_a_word_has_bits(rt: HostRuntime) -> Result<(), Fail> {
    let (even, odd): ([u64; 2], [u64; 3]) = ([0, 1], [1, 1, 2]);
    let mut documents = [even.as_slice(); 130];
    for d in 0..130usize {
        if d % 2 == 1 {
            documents[d] = odd.as_slice();
        }
    }
    assert!(rt; finds_all(rt.alloc(), documents.as_slice(), 8)?);
    Ok(())
}

/// Patterns (nan, as, and one that each document has), and in how many of the fruits each stands, by a word of bits.
const FOUND: [(&[u64], usize, u64); 3] = [(&[2, 0, 2], 3, 11), (&[0, 3], 1, 2), (&[], 4, 15)];

/// Whether a collection of the fruits finds the documents of a pattern, over a word that held something else.
fn finds_row(collection: &TextCollection, pattern: &[u64], count: usize, word: u64) -> bool {
    let mut found = [7u64; 1];
    if collection.len() != 4 {
        return false;
    }
    let is_counted = collection.documents(pattern, found.as_mut_slice()) == count;
    is_counted && found == [word]
}

/// Whether it finds the documents of each pattern as its row says.
fn finds_rows(collection: &TextCollection) -> bool {
    let mut right = true;
    for (pattern, count, word) in FOUND {
        right &= finds_row(collection, pattern, count, word);
    }
    right
}

#[test]
fn documents_are_as_by_hand(rt: HostRuntime) -> Result<(), Fail> {
    let collection = collected(rt.alloc(), FRUITS.as_slice(), 4, 2)?;
    assert!(rt; finds_rows(&collection));
    Ok(())
}
