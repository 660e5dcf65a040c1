//! Every position and every rank, to past the end, of bit vectors that end in a lower block, at its end or after it:
//! compared with a walk over the bits. A slip at a border would show here, be it in a definition, the compiler or the
//! toolchain.
use crate::calls::walk::{Sampled, all_agree, borders_agree};
use bitm::{BinaryRankSearch, Select0ForRank101111, SelectForRank101111};
use std::alloc::Global;

#[test]
fn binary_search_agrees_with_a_walk_at_every_position_and_rank(rt: HostRuntime) {
    assert!(rt; borders_agree::<BinaryRankSearch, BinaryRankSearch>(rt.alloc()));
}

#[test]
fn samples_agree_with_a_walk_at_every_position_and_rank(rt: HostRuntime) {
    assert!(rt; borders_agree::<Sampled, Sampled>(rt.alloc()));
}

/// Whether all answers over contents of the original crate's tests agree.
fn contents_agree<S: SelectForRank101111, S0: Select0ForRank101111>(alloc: Global) -> bool {
    let mut agrees = all_agree::<S, S0>(alloc, [0b1101, 0b110].as_slice());
    agrees &= all_agree::<S, S0>(alloc, [0b1101; 60].as_slice());
    agrees && all_agree::<S, S0>(alloc, [u64::MAX; 35].as_slice())
}

#[test]
fn each_position_and_rank_of_the_original_contents_agrees(rt: HostRuntime) {
    assert!(rt; contents_agree::<BinaryRankSearch, BinaryRankSearch>(rt.alloc()));
    assert!(rt; contents_agree::<Sampled, Sampled>(rt.alloc()));
}
