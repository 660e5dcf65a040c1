//! Documents of each kind, all their short patterns, and what is refused.
use std::alloc::Global;
use std::process::Abort;
use std::test::Fail;
use text_index::collection::{BuildError, Documents, TextCollection};

/// banana, ananas, an empty one, and nana, with 0 for a.
pub(crate) const FRUITS: [&[u64]; 4] = [
    &[1, 0, 2, 0, 2, 0],
    &[0, 2, 0, 2, 0, 3],
    &[],
    &[2, 0, 2, 0],
];

/// Whether the text goes on with the pattern from here.
fn goes_on(text: &[u64], from: usize, pattern: &[u64]) -> bool {
    for i in 0..pattern.len() {
        let at = from.saturating_add(i);
        if at >= text.len() || text[at] != pattern[i] {
            return false;
        }
    }
    true
}

/// At how many positions of a document the pattern stands, its end too.
fn walk_one(document: &[u64], pattern: &[u64]) -> usize {
    let mut count = 0usize;
    for from in 0..=document.len() {
        count = count.wrapping_add(goes_on(document, from, pattern) as usize);
    }
    count
}

/// At how many positions of the documents the pattern stands, by a walk over all, the ends too.
pub(crate) fn walk(documents: &[&[u64]], pattern: &[u64]) -> usize {
    let mut count = 0usize;
    for document in documents {
        count = count.wrapping_add(walk_one(document, pattern));
    }
    count
}

/// These documents.
fn gathered(alloc: Global, documents: &[&[u64]], letters: u16) -> Result<Documents, Fail> {
    let mut all = Documents::new(alloc, letters as u32);
    for document in documents {
        all.push(document)?;
    }
    Ok(all)
}

/// A collection of these documents.
pub(crate) fn collected(
    alloc: Global,
    documents: &[&[u64]],
    letters: u16,
    step: u32,
) -> Result<TextCollection, Fail> {
    let all = gathered(alloc, documents, letters)?;
    Ok(TextCollection::build(alloc, &all, step.max(1))?)
}

/// Adds the first `count` of these documents and offsets.
fn push_positions(
    found: &mut Vec<(usize, usize)>,
    documents: &[usize],
    offsets: &[usize],
    count: usize,
) -> Result<(), Fail> {
    for (document, offset) in documents.iter().zip(offsets.iter()).take(count) {
        found.push((*document, *offset))?;
    }
    Ok(())
}

/// Adds what one call with room for five locations, or fewer, finds, and answers how many that is.
fn push_page(
    collection: &TextCollection,
    pattern: &[u64],
    found: &mut Vec<(usize, usize)>,
    room: usize,
) -> Result<usize, Fail> {
    let (mut documents, mut offsets) = ([0usize; 5], [0usize; 5]);
    let (first, second) = (&mut documents[..room.min(5)], &mut offsets[..room.min(5)]);
    let came = collection.locate(pattern, found.len(), first, second);
    push_positions(found, documents.as_slice(), offsets.as_slice(), came)?;
    Ok(came)
}

/// Where a pattern stands, by calls with room for `room` of them, and by one more call than it takes.
fn located(
    alloc: Global,
    collection: &TextCollection,
    pattern: &[u64],
    count: usize,
    room: usize,
) -> Result<Vec<(usize, usize)>, Fail> {
    let mut found = Vec::new(alloc);
    for _ in 0..=count {
        if push_page(collection, pattern, &mut found, room)? < room {
            break;
        }
    }
    Ok(found)
}

/// Whether the pattern stands at this document and offset.
fn is_position(documents: &[&[u64]], pattern: &[u64], location: (usize, usize)) -> bool {
    match documents.get(location.0) {
        Some(text) => location.1 <= text.len() && goes_on(text, location.1, pattern),
        None => false,
    }
}

/// Whether a document and offset are none of these.
fn is_new(found: &[(usize, usize)], location: (usize, usize)) -> bool {
    let mut is_new = true;
    for before in found {
        is_new &= before.0 != location.0 || before.1 != location.1;
    }
    is_new
}

/// Whether the pattern stands at each of these documents and offsets, and none comes twice.
fn are_positions(documents: &[&[u64]], pattern: &[u64], found: &[(usize, usize)]) -> bool {
    let mut right = true;
    for i in 0..found.len() {
        right &= is_position(documents, pattern, found[i]) && is_new(&found[..i], found[i]);
    }
    right
}

/// Whether a collection finds all locations of a pattern, each once, by calls with room for `room` of them.
fn finds(
    alloc: Global,
    collection: &TextCollection,
    documents: &[&[u64]],
    pattern: &[u64],
    room: usize,
) -> Result<bool, Fail> {
    let count = walk(documents, pattern);
    let found = located(alloc, collection, pattern, count, room)?;
    let all = are_positions(documents, pattern, found.as_slice()) && found.len() == count;
    Ok(all && collection.count(pattern) == count)
}

/// Whether the collection agrees with a walk for each piece of up to three letters of a document.
fn pieces_agree(
    alloc: Global,
    collection: &TextCollection,
    documents: &[&[u64]],
    document: &[u64],
) -> Result<bool, Fail> {
    let mut right = true;
    for from in 0..=document.len() {
        for len in 0..4usize {
            let to = from.saturating_add(len).min(document.len());
            right &= finds(
                alloc,
                collection,
                documents,
                &document[from..to],
                1 + from % 5,
            )?;
        }
    }
    Ok(right)
}

/// Whether it does for patterns across ends.
fn ends_agree(
    alloc: Global,
    collection: &TextCollection,
    documents: &[&[u64]],
) -> Result<bool, Fail> {
    let mut right = true;
    for pattern in [[0u64, 0], [1, 0], [0, 1], [2, 1], [3, 0], [0, 3], [9, 9]] {
        right &= finds(alloc, collection, documents, pattern.as_slice(), 2)?;
    }
    Ok(right)
}

/// Whether the collection agrees with a walk for each piece of up to three letters, and for patterns across ends.
fn agrees(alloc: Global, collection: &TextCollection, documents: &[&[u64]]) -> Result<bool, Fail> {
    let mut right = collection.len() == documents.len();
    right &= collection.is_empty() == documents.is_empty();
    for document in documents {
        right &= pieces_agree(alloc, collection, documents, document)?;
    }
    Ok(right & ends_agree(alloc, collection, documents)?)
}

/// Patterns, and how often each stands in the fruits.
const COUNTS: [(&[u64], usize); 7] = [
    (&[2, 0], 6),
    (&[0, 2, 0], 5),
    (&[], 20),
    (&[0, 0], 0),
    (&[4], 0),
    (&[0, 4], 0),
    (&[3], 1),
];

/// Whether a collection of the fruits counts each pattern as its row says.
fn counts_rows(collection: &TextCollection) -> bool {
    let mut right = collection.len() == 4;
    for (pattern, count) in COUNTS {
        right &= collection.count(pattern) == count;
    }
    right
}

#[test]
fn documents_are_counted_as_by_hand(rt: HostRuntime) -> Result<(), Fail> {
    let collection = collected(rt.alloc(), FRUITS.as_slice(), 4, 3)?;
    assert!(rt; counts_rows(&collection) & agrees(rt.alloc(), &collection, FRUITS.as_slice())?);
    Ok(())
}

/// No documents, empty ones, documents that are alike, and documents of a letter.
const KINDS: [&[&[u64]]; 5] = [
    &[],
    &[&[]],
    &[&[], &[], &[]],
    &[&[0, 1], &[0, 1], &[0, 1]],
    &[&[0], &[1], &[2], &[0]],
];

/// Whether a collection of these documents with this step agrees with a walk.
fn is_walked(alloc: Global, documents: &[&[u64]], step: u32) -> Result<bool, Fail> {
    let collection = collected(alloc, documents, 3, step)?;
    agrees(alloc, &collection, documents)
}

#[test]
fn collections_of_each_kind_agree_with_a_walk(rt: HostRuntime) -> Result<(), Fail> {
    for documents in KINDS {
        for step in [1u32, 2, 64] {
            assert!(rt; is_walked(rt.alloc(), documents, step)?);
        }
    }
    Ok(())
}

/// Whether a letter outside is refused between two documents that are taken.
fn is_refused_between(documents: &mut Documents) -> Result<bool, Fail> {
    documents.push([0, 2].as_slice())?;
    let refused = documents.push([0, 3].as_slice()).err();
    documents.push([2].as_slice())?;
    Ok(refused == Some(BuildError::LetterOutside))
}

/// Whether what comes of a letter outside is a collection of the documents before it and after it.
fn leaves_the_documents(alloc: Global) -> Result<bool, Fail> {
    let mut documents = Documents::new(alloc, 3);
    let is_refused = is_refused_between(&mut documents)?;
    let collection = TextCollection::build(alloc, &documents, 1)?;
    Ok(is_refused & (collection.len() == 2 && collection.count([2].as_slice()) == 2))
}

#[test]
fn a_letter_outside_is_refused_and_leaves_the_documents(rt: HostRuntime) -> Result<(), Fail> {
    assert!(rt; leaves_the_documents(rt.alloc())?);
    Ok(())
}
