//! Which types keep bytes on the heap, which no clause can say of a constant, and how many, added up by hand.
use crate::calls::walk::{Sampled, borrowed, owned};
use bitm::{
    ArrayWithRank101111, ArrayWithRankSimple, BinaryRankSearch, GetSize, Select0ForRank101111,
    SelectForRank101111,
};
use std::alloc::Global;

#[test]
fn all_but_binary_search_may_use_the_heap(rt: HostRuntime) {
    let may = [
        ArrayWithRank101111::USES_DYN_MEM,
        ArrayWithRankSimple::USES_DYN_MEM,
        Sampled::USES_DYN_MEM,
        BinaryRankSearch::USES_DYN_MEM,
    ];
    assert!(rt; may == [true, true, true, false]);
}

/// How many bytes an index over 35 full words takes.
fn borrowed_bytes<S: SelectForRank101111 + GetSize, S0: Select0ForRank101111 + GetSize>(
    alloc: Global,
) -> Option<usize> {
    match borrowed::<S, S0>(alloc, [u64::MAX; 35].as_slice()) {
        Ok((index, _)) => Some(index.size_bytes_dyn()),
        Err(_) => None,
    }
}

#[test]
fn an_index_takes_the_bytes_of_its_parts(rt: HostRuntime) {
    // one upper and two lower entries, one sample and one start of ones, one start of zeros
    assert!(rt; borrowed_bytes::<Sampled, Sampled>(rt.alloc()) == Some(8 + 16 + 4 + 8 + 8));
}

/// How many bytes an index that owns 35 full words takes.
fn owned_bytes<S: SelectForRank101111 + GetSize, S0: Select0ForRank101111 + GetSize>(
    alloc: Global,
) -> Option<usize> {
    match owned::<S, S0>(alloc, [u64::MAX; 35].as_slice()) {
        Ok((index, _)) => Some(index.size_bytes_dyn()),
        Err(_) => None,
    }
}

#[test]
fn an_index_that_owns_its_words_takes_their_bytes_too(rt: HostRuntime) {
    // the words, two lower entries, one upper entry, one sample and one start of 1 bits, one start of 0 bits
    assert!(rt; owned_bytes::<Sampled, Sampled>(rt.alloc()) == Some(280 + 16 + 8 + 12 + 8));
}
