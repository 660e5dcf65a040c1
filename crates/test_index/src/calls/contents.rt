//! Rank and selection over small bit vectors, borrowed and owned, by each strategy. The rows are worked out by hand, so
//! that they test the definitions of rank and selection.
use crate::calls::walk::{Sampled, borrowed, one_agrees, owned, rank_agrees, zero_agrees};
use bitm::{BinaryRankSearch, Rank, Select, Select0, Select0ForRank101111, SelectForRank101111};
use std::alloc::Global;

/// A query, with its answer.
type Row = (usize, Option<usize>);

/// Words, with rows of `try_rank`, of `try_select` and of `try_select0`.
#[derive(Clone, Copy)]
struct Case<'a> {
    words: &'a [u64],
    ranks: &'a [Row],
    ones: &'a [Row],
    zeros: &'a [Row],
}

/// No words.
const NO_WORDS: Case<'static> = Case {
    words: &[],
    ranks: &[(0, Some(0)), (1, None)],
    ones: &[(0, None)],
    zeros: &[(0, None)],
};

/// One word without a one.
const ONE_EMPTY_WORD: Case<'static> = Case {
    words: &[0],
    ranks: &[(0, Some(0)), (63, Some(0)), (64, Some(0)), (65, None)],
    ones: &[(0, None)],
    zeros: &[(0, Some(0)), (63, Some(63)), (64, None)],
};

/// One word.
const ONE_WORD: Case<'static> = Case {
    words: &[0b1101],
    ranks: &[(2, Some(1))],
    ones: &[(2, Some(3)), (3, None)],
    zeros: &[],
};

/// Two words.
const TWO_WORDS: Case<'static> = Case {
    words: &[0b1101, 0b110],
    ranks: &[
        (0, Some(0)),
        (1, Some(1)),
        (2, Some(1)),
        (3, Some(2)),
        (4, Some(3)),
        (8, Some(3)),
        (64, Some(3)),
        (65, Some(3)),
        (66, Some(4)),
        (67, Some(5)),
        (70, Some(5)),
        (127, Some(5)),
        (128, Some(5)),
        (129, None),
        (0x1_0000_0001, None),
        (usize::MAX, None),
    ],
    ones: &[
        (0, Some(0)),
        (1, Some(2)),
        (2, Some(3)),
        (3, Some(65)),
        (4, Some(66)),
        (5, None),
        (0x1_0000_0001, None),
        (0x2_0000_0001, None),
        (usize::MAX, None),
    ],
    zeros: &[],
};

/// Sixty words, of two entries.
const SIXTY_WORDS: Case<'static> = Case {
    words: &[0b1101; 60],
    ranks: &[
        (0, Some(0)),
        (1, Some(1)),
        (2, Some(1)),
        (3, Some(2)),
        (4, Some(3)),
        (8, Some(3)),
        (64, Some(3)),
        (65, Some(4)),
        (66, Some(4)),
        (67, Some(5)),
        (68, Some(6)),
        (69, Some(6)),
        (128, Some(6)),
        (129, Some(7)),
        (512, Some(24)),
        (513, Some(25)),
        (514, Some(25)),
        (515, Some(26)),
        (1024, Some(48)),
        (2048, Some(96)),
        (2049, Some(97)),
        (2050, Some(97)),
        (2051, Some(98)),
        (3840, Some(180)),
        (3841, None),
    ],
    ones: &[
        (0, Some(0)),
        (1, Some(2)),
        (2, Some(3)),
        (3, Some(64)),
        (4, Some(66)),
        (5, Some(67)),
        (6, Some(128)),
        (7, Some(130)),
        (24, Some(512)),
        (25, Some(514)),
        (96, Some(2048)),
        (97, Some(2050)),
        (98, Some(2051)),
        (180, None),
    ],
    zeros: &[(488, Some(513))],
};

/// Whether an index answers as the rows say.
fn rows_agree<I: Rank + Select + Select0>(index: &I, case: &Case<'_>) -> bool {
    let mut agrees = true;
    for (position, count) in case.ranks {
        agrees &= rank_agrees(index, *position, *count);
    }
    for (rank, position) in case.ones {
        agrees &= one_agrees(index, *rank, *position);
    }
    for (rank, position) in case.zeros {
        agrees &= zero_agrees(index, *rank, *position);
    }
    agrees
}

/// All cases.
const CASES: [Case<'static>; 5] = [NO_WORDS, ONE_EMPTY_WORD, ONE_WORD, TWO_WORDS, SIXTY_WORDS];

/// Whether an index over borrowed words of each case does.
fn borrowed_agree<S: SelectForRank101111, S0: Select0ForRank101111>(alloc: Global) -> bool {
    let mut agrees = true;
    for case in CASES.as_slice() {
        agrees &= match borrowed::<S, S0>(alloc, case.words) {
            Ok((index, _)) => rows_agree(&index, case),
            Err(_) => false,
        };
    }
    agrees
}

/// Whether one over words of its own does.
fn owned_agree<S: SelectForRank101111, S0: Select0ForRank101111>(alloc: Global) -> bool {
    let mut agrees = true;
    for case in CASES.as_slice() {
        agrees &= match owned::<S, S0>(alloc, case.words) {
            Ok((index, _)) => rows_agree(&index, case),
            Err(_) => false,
        };
    }
    agrees
}

#[test]
fn small_contents_are_ranked_and_selected(rt: HostRuntime) {
    assert!(rt; borrowed_agree::<BinaryRankSearch, BinaryRankSearch>(rt.alloc()));
    assert!(rt; borrowed_agree::<Sampled, Sampled>(rt.alloc()));
    assert!(rt; owned_agree::<BinaryRankSearch, BinaryRankSearch>(rt.alloc()));
}
