//! The calls of a tree that take memory.
use crate::outcome::{Ended, Outcome, answered, refused};
use louds::{BinaryLouds, LoudsError};
use std::alloc::Global;

const DEGREES: [usize; 7] = [3, 2, 0, 1, 0, 0, 0];

/// Whether a tree of `DEGREES` answers as it has to.
fn is_right(tree: &BinaryLouds) -> bool {
    if tree.len() != 7 {
        return false;
    }
    tree.parent(6) == Some(3) && tree.child(1, 1) == Some(5) && tree.child(2, 0) == None
}

/// Each call of a tree.
pub fn ended(alloc: Global) -> [Ended; 2] {
    [
        ("tree-build", built(alloc)),
        ("tree-try-clone", cloned(alloc)),
    ]
}

/// A tree.
fn built(alloc: Global) -> Outcome {
    let degrees = DEGREES;
    match BinaryLouds::build(alloc, degrees.as_slice()) {
        Ok(tree) => answered(is_right(&tree)),
        Err(LoudsError::OutOfMemory) => refused(degrees.as_slice() == DEGREES.as_slice()),
        Err(_) => Outcome::Wrong,
    }
}

/// A clone of one.
fn cloned(alloc: Global) -> Outcome {
    let Ok(tree) = BinaryLouds::build(alloc, DEGREES.as_slice()) else {
        return Outcome::Unready;
    };
    match tree.try_clone(alloc) {
        Ok(copy) => answered(is_right(&copy) && is_right(&tree)),
        Err(_) => refused(is_right(&tree)),
    }
}
