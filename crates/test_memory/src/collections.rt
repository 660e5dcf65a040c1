//! The calls of a collection of texts that take memory.
use crate::outcome::{Ended, Outcome, answered, refused};
use std::alloc::Global;
use text_index::collection::{BuildError, Documents, TextCollection};

/// banana and nana, with 0 for a.
const BANANA: [u64; 6] = [1, 0, 2, 0, 2, 0];

const NANA: [u64; 4] = [2, 0, 2, 0];

/// Whether a collection of the two answers as it has to: ana stands in the first at 1 and 3, in the second at 1.
fn is_right(made: &TextCollection) -> bool {
    let mut found = [0u64];
    made.len() == 2
        && made.count([0u64, 2, 0].as_slice()) == 3
        && made.documents([1u64].as_slice(), found.as_mut_slice()) == 1
        && found == [1]
}

/// Each call of a collection.
pub fn ended(alloc: Global) -> [Ended; 2] {
    [
        ("documents-push", pushed(alloc)),
        ("collection-build", built(alloc)),
    ]
}

/// A document after another: each request of both is refused in turn.
fn pushed(alloc: Global) -> Outcome {
    let mut documents = Documents::new(alloc, 3);
    if push_is_refused(&mut documents, BANANA.as_slice()) {
        return refused(documents.positions() == 0);
    }
    if push_is_refused(&mut documents, NANA.as_slice()) {
        return refused(documents.positions() == 7);
    }
    answered(documents.positions() == 12)
}

/// Adds a document, and answers whether memory was refused.
fn push_is_refused(documents: &mut Documents, document: &[u64]) -> bool {
    documents.push(document) == Err(BuildError::OutOfMemory)
}

/// A collection.
fn built(alloc: Global) -> Outcome {
    let mut documents = Documents::new(alloc, 3);
    let is_ready = !push_is_refused(&mut documents, BANANA.as_slice())
        && !push_is_refused(&mut documents, NANA.as_slice());
    if is_ready {
        built_of(alloc, &documents)
    } else {
        Outcome::Unready
    }
}

/// A collection of these.
fn built_of(alloc: Global, documents: &Documents) -> Outcome {
    match TextCollection::build(alloc, documents, 2) {
        Ok(made) => answered(is_right(&made) && documents.positions() == 12),
        Err(BuildError::OutOfMemory) => refused(documents.positions() == 12),
        Err(_) => Outcome::Wrong,
    }
}
