//! The calls of a text index that take memory.
use crate::outcome::{Ended, Outcome, answered, refused};
use std::alloc::Global;
use text_index::{BuildError, TextIndex};

/// mississippi, with 0 for i: pieces of its low suffixes are equal, so that their names are sorted too.
const TEXT: [u64; 11] = [1, 0, 3, 3, 0, 3, 3, 0, 2, 2, 0];

/// The positions of its suffixes in the order of these.
const ORDER: [u32; 12] = [11, 10, 7, 4, 1, 0, 9, 8, 6, 3, 5, 2];

/// Whether an index of `TEXT` answers as it has to.
fn is_right(index: &TextIndex) -> bool {
    let mut positions = [0usize; 2];
    let count = index.locate([0u64, 3].as_slice(), 0, positions.as_mut_slice());
    index.count([3u64, 3].as_slice()) == 2 && count == 2 && positions == [4, 1]
}

/// Each call of a text index.
pub fn ended(alloc: Global) -> [Ended; 2] {
    [
        ("text-build", built(alloc)),
        ("text-build-from", built_from(alloc)),
    ]
}

/// An index by the crate's own sort.
fn built(alloc: Global) -> Outcome {
    let text = TEXT;
    match TextIndex::build(alloc, text.as_slice(), 4, 2) {
        Ok(index) => answered(is_right(&index)),
        Err(BuildError::OutOfMemory) => refused(text.as_slice() == TEXT.as_slice()),
        Err(_) => Outcome::Wrong,
    }
}

/// An index by an order that is brought.
fn built_from(alloc: Global) -> Outcome {
    let (text, order) = (TEXT, ORDER);
    match TextIndex::build_from(alloc, text.as_slice(), 4, 2, order.as_slice()) {
        Ok(index) => answered(is_right(&index)),
        Err(BuildError::OutOfMemory) => {
            refused(text.as_slice() == TEXT.as_slice() && order.as_slice() == ORDER.as_slice())
        }
        Err(_) => Outcome::Wrong,
    }
}
