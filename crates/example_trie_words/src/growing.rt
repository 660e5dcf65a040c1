//! The degrees and labels of the trie of sorted words, which `tree_block::words` writes.
use std::alloc::{AllocError, Global};

/// What a trie is built of, and for each node whether a word ends there.
#[derive(Drop)]
pub struct Grown {
    pub degrees: Vec<usize>,
    pub labels: Vec<u64>,
    pub ends: Vec<bool>,
}

/// The bytes of the words one after another, and where each begins and the last one ends.
fn joined(alloc: Global, words: &[&str]) -> Result<(Vec<u8>, Vec<usize>), AllocError> {
    let mut bytes = Vec::new(alloc);
    let mut starts = Vec::new(alloc);
    starts.push(0)?;
    for word in words {
        for byte in word.bytes() {
            bytes.push(byte)?;
        }
        starts.push(bytes.len())?;
    }
    Ok((bytes, starts))
}

/// The first `len` bits of the words, lowest first.
fn bits_of(alloc: Global, words: &[u64], len: usize) -> Result<Vec<bool>, AllocError> {
    let mut bits = Vec::new(alloc);
    for at in 0..len {
        let word = words.get(at / 64).copied().unwrap_or(0);
        bits.push(word >> (at % 64) & 1 == 1)?;
    }
    Ok(bits)
}

/// The labels of all nodes; the root's label is 0.
fn with_root(alloc: Global, letters: &[u64]) -> Result<Vec<u64>, AllocError> {
    let mut labels = Vec::new(alloc);
    labels.push(0)?;
    for letter in letters {
        labels.push(*letter)?;
    }
    Ok(labels)
}

/// The trie of words in the order of a dictionary, each there once; `None` for other words.
pub fn grow(alloc: Global, words: &[&str]) -> Result<Option<Grown>, AllocError> {
    let (bytes, starts) = joined(alloc, words)?;
    let Ok(nodes) = tree_block::words::nodes(bytes.as_slice(), starts.as_slice()) else {
        return Ok(None);
    };
    let children = nodes.saturating_sub(1);
    let mut degrees = vec![in alloc; 0usize; nodes]?;
    let mut letters = vec![in alloc; 0u64; children]?;
    let mut parents = vec![in alloc; 0usize; children]?;
    let mut ends = vec![in alloc; 0u64; nodes.div_ceil(64)]?;
    let grown = tree_block::words::grow(
        bytes.as_slice(),
        starts.as_slice(),
        degrees.as_mut_slice(),
        letters.as_mut_slice(),
        ends.as_mut_slice(),
        parents.as_mut_slice(),
    );
    if grown.is_err() {
        return Ok(None);
    }
    Ok(Some(Grown {
        degrees,
        labels: with_root(alloc, letters.as_slice())?,
        ends: bits_of(alloc, ends.as_slice(), nodes)?,
    }))
}
