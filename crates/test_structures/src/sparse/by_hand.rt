//! Answers, sizes and errors that are worked out by hand.
//!
//! A function that makes bits hands them on by a reference, so that those who compare own nothing: this is proved far
//! faster.
use crate::sparse::walks::Sampled;
use bitm::{
    Access, BinaryRankSearch, BitVec, GetSize, HasBits, Rank, Select, Select0,
    Select0ForRank101111, SelectForRank101111, ranges,
};
use sparse_bits::{BinarySparseBits, SampledSparseBits, SparseBits, SparseError};
use std::alloc::Global;
use std::boxed::BoxedSlice;
use std::convert::AsSlice;

/// A query, with its answer.
type Row = (usize, Option<usize>);

/// Positions of 1 bits among `len` bits, with rows of `try_rank`, of `try_get_bit`, of `try_select` and of
/// `try_select0`.
#[derive(Clone, Copy)]
struct Case<'a> {
    positions: &'a [u64],
    len: usize,
    ranks: &'a [Row],
    read: &'a [(usize, Option<bool>)],
    ones: &'a [Row],
    zeros: &'a [Row],
}

/// Four 1 bits of 5000.
const FEW: Case<'static> = Case {
    positions: &[3, 100, 101, 4000],
    len: 5000,
    ranks: &[
        (0, Some(0)),
        (3, Some(0)),
        (4, Some(1)),
        (101, Some(2)),
        (102, Some(3)),
        (4001, Some(4)),
        (5000, Some(4)),
        (5001, None),
        (usize::MAX, None),
    ],
    read: &[
        (3, Some(true)),
        (4, Some(false)),
        (100, Some(true)),
        (4999, Some(false)),
        (5000, None),
        (usize::MAX, None),
    ],
    ones: &[
        (0, Some(3)),
        (1, Some(100)),
        (2, Some(101)),
        (3, Some(4000)),
        (4, None),
        (usize::MAX, None),
    ],
    zeros: &[
        (0, Some(0)),
        (2, Some(2)),
        (3, Some(4)),
        (98, Some(99)),
        (99, Some(102)),
        (3996, Some(3999)),
        (3997, Some(4001)),
        (4995, Some(4999)),
        (4996, None),
        (usize::MAX, None),
    ],
};

/// The first and the last one of as many bits as there can be.
const LONGEST: Case<'static> = Case {
    positions: &[0, u64::MAX - 1],
    len: usize::MAX,
    ranks: &[(usize::MAX, Some(2)), (usize::MAX - 1, Some(1))],
    read: &[(usize::MAX - 1, Some(true)), (usize::MAX, None)],
    ones: &[(1, Some(usize::MAX - 1)), (2, None)],
    zeros: &[
        (0, Some(1)),
        (usize::MAX - 3, Some(usize::MAX - 2)),
        (usize::MAX - 2, None),
    ],
};

/// No bits.
const NONE: Case<'static> = Case {
    positions: &[],
    len: 0,
    ranks: &[(0, Some(0)), (1, None)],
    read: &[],
    ones: &[(0, None)],
    zeros: &[(0, None)],
};

/// Whether both ranks of an index, and the bits that are read, match the rows.
fn ranks_agree<I: Access>(bits: &I, case: &Case<'_>) -> bool {
    let mut agrees = bits.len() == case.len;
    for (index, ones) in case.ranks {
        let zeros = match ones {
            Some(count) => Some(index.wrapping_sub(*count)),
            None => None,
        };
        agrees &= bits.try_rank(*index) == *ones && bits.try_rank0(*index) == zeros;
    }
    for (position, bit) in case.read {
        agrees &= bits.try_get_bit(*position) == *bit;
    }
    agrees
}

/// Whether selections of both kinds match the rows.
fn selections_agree<I: Select + Select0>(bits: &I, case: &Case<'_>) -> bool {
    let mut agrees = true;
    for (rank, position) in case.ones {
        agrees &= bits.try_select(*rank) == *position;
    }
    for (rank, position) in case.zeros {
        agrees &= bits.try_select0(*rank) == *position;
    }
    agrees
}

/// Whether a copy of the bits has the same ranks, and reads the same bits.
fn copy_agrees<S: SelectForRank101111, S0: Select0ForRank101111>(
    alloc: Global,
    bits: &SparseBits<S, S0>,
    case: &Case<'_>,
) -> bool {
    match bits.try_clone(alloc) {
        Ok(copy) => ranks_agree(&copy, case),
        Err(_) => false,
    }
}

/// Whether the bits of a case, and a copy of them, answer what its rows say.
fn case_agrees<S: SelectForRank101111, S0: Select0ForRank101111>(
    alloc: Global,
    case: &Case<'_>,
) -> bool {
    match SparseBits::<S, S0>::build(alloc, case.positions, case.len) {
        Ok(bits) => {
            ranks_agree(&bits, case)
                && selections_agree(&bits, case)
                && copy_agrees(alloc, &bits, case)
        }
        Err(_) => false,
    }
}

/// Whether the nearest 1 bits and 0 bits of a position are those by hand, among the four 1 bits of 5000.
fn nearest_agree<I: Rank + Select + Select0>(bits: &I) -> bool {
    if bits.len() < 5000 {
        return false;
    }
    let mut agrees = ranges::next_one(bits, 4) == Some(100);
    agrees &= ranges::next_one(bits, 4001) == None;
    agrees &= ranges::next_zero(bits, 100) == Some(102);
    agrees &= ranges::next_zero(bits, 5000) == None;
    agrees &= ranges::previous_one(bits, 99) == Some(3);
    agrees &= ranges::previous_one(bits, 2) == None;
    agrees && ranges::previous_zero(bits, 101) == Some(99)
}

/// Whether what is counted in a range, or selected from a position on, is so by hand.
fn ranges_agree<I: Rank + Select + Select0>(bits: &I) -> bool {
    if bits.len() < 5000 {
        return false;
    }
    let mut agrees = ranges::ones_between(bits, 4, 4000) == 2;
    agrees &= ranges::zeros_between(bits, 99, 103) == 2;
    agrees &= ranges::select_from(bits, 4, 2) == Some(4000);
    agrees && ranges::select0_from(bits, 3, 0) == Some(4)
}

/// Whether the bits have as many of each kind as by hand.
fn counts_agree<S: SelectForRank101111, S0: Select0ForRank101111>(
    bits: &SparseBits<S, S0>,
) -> bool {
    let agrees = bits.count_bit_ones() == 4 && bits.count_bit_zeros() == 4996;
    agrees && bits.positions().len() == 4
}

/// Whether the four 1 bits of 5000 are counted and found so.
fn few_agree<S: SelectForRank101111, S0: Select0ForRank101111>(alloc: Global) -> bool {
    match SparseBits::<S, S0>::build(alloc, FEW.positions, FEW.len) {
        Ok(bits) => nearest_agree(&bits) && ranges_agree(&bits) && counts_agree(&bits),
        Err(_) => false,
    }
}

#[test]
fn few_ones_are_ranked_and_selected_as_by_hand(rt: HostRuntime) {
    let alloc = rt.alloc();
    let sampled = case_agrees::<Sampled, Sampled>(alloc, &FEW);
    let binary = case_agrees::<BinaryRankSearch, BinaryRankSearch>(alloc, &FEW);
    assert!(rt; sampled && binary);
    let sampled = few_agree::<Sampled, Sampled>(alloc);
    let binary = few_agree::<BinaryRankSearch, BinaryRankSearch>(alloc);
    assert!(rt; sampled && binary);
}

#[test]
fn the_ends_of_the_longest_bits_are_ranked_and_selected(rt: HostRuntime) {
    assert!(rt; case_agrees::<Sampled, Sampled>(rt.alloc(), &LONGEST));
    assert!(rt; case_agrees::<Sampled, Sampled>(rt.alloc(), &NONE));
}

/// Writes multiples of a number, from 0 on.
fn write_multiples(positions: &mut [u64], apart: u64) {
    for i in 0..positions.len() {
        positions[i] = (i as u64).wrapping_mul(apart);
    }
}

/// How many bytes sparse bits take; `None` where they are refused.
fn bytes_of<S: SelectForRank101111 + GetSize, S0: Select0ForRank101111 + GetSize>(
    alloc: Global,
    positions: &[u64],
    len: usize,
) -> Option<usize> {
    match SparseBits::<S, S0>::build(alloc, positions, len) {
        Ok(bits) => Some(bits.size_bytes_dyn()),
        Err(_) => None,
    }
}

/// How many bytes they take with the given number of 1 bits, the given number of bits apart.
fn bytes_apart<S: SelectForRank101111 + GetSize, S0: Select0ForRank101111 + GetSize>(
    alloc: Global,
    count: usize,
    apart: u64,
) -> Option<usize> {
    match BoxedSlice::<u64, Global>::with_64bit_segments(alloc, 0, count) {
        Ok(mut positions) => {
            write_multiples(positions.as_mut_slice(), apart);
            let len = (count as u64).wrapping_mul(apart) as usize;
            bytes_of::<S, S0>(alloc, positions.as_slice(), len)
        }
        Err(_) => None,
    }
}

/// How many bytes the bits of a full word take.
fn bytes_of_full(alloc: Global) -> Option<usize> {
    match BinarySparseBits::build_from_words(alloc, [u64::MAX].as_slice()) {
        Ok(bits) => Some(bits.size_bytes_dyn()),
        Err(_) => None,
    }
}

#[test]
fn sizes_are_those_of_the_published_formula(rt: HostRuntime) {
    // 1000 1 bits, 1000 apart: 999000 / 1000 has 10 binary digits, so 9 low bits each, 141 words; 1000 + 1951 + 1 upper
    // bits, 47 words, of which the index has 1 upper and 2 lower blocks.
    let bytes = bytes_apart::<BinaryRankSearch, BinaryRankSearch>(rt.alloc(), 1000, 1000);
    // 64 1 bits of 64: no low bits, 64 + 63 + 1 upper bits, 2 words, 1 upper and 1 lower block
    let full = bytes_of_full(rt.alloc());
    assert!(rt; bytes == Some(8 * (141 + 47 + 1 + 2)) && full == Some(8 * (2 + 1 + 1)));
}

/// How many 1 bits there are, how far apart, and the bytes of an `sd_vector<>` (`size_in_bytes` of sdsl 2.1.1).
const OF_SDSL: [(usize, u64, usize); 5] = [
    (1000, 1000, 1798),
    (100_000, 10, 82_357),
    (100_000, 1000, 169_845),
    (1_000_000, 100, 1_201_273),
    (1_000_000, 4294, 1_826_713),
];

/// Whether sparse bits of each row take at most the bytes of sdsl.
fn are_at_most_of_sdsl<S: SelectForRank101111 + GetSize, S0: Select0ForRank101111 + GetSize>(
    alloc: Global,
) -> bool {
    let mut agrees = true;
    for (count, apart, most) in OF_SDSL.as_slice() {
        agrees &= match bytes_apart::<S, S0>(alloc, *count, *apart) {
            Some(bytes) => bytes <= *most,
            None => false,
        };
    }
    agrees
}

#[test]
fn sizes_are_at_most_those_of_sdsl(rt: HostRuntime) {
    assert!(rt; are_at_most_of_sdsl::<Sampled, Sampled>(rt.alloc()));
}

/// Positions and lengths that are refused, and why.
const REFUSED: [([u64; 3], usize, SparseError); 6] = [
    ([3, 3, 4], 10, SparseError::NotRising),
    ([3, 5, 4], 10, SparseError::NotRising),
    ([3, 5, 4], 2, SparseError::NotRising),
    ([3, 4, 10], 10, SparseError::PastEnd),
    ([3, 4, u64::MAX], usize::MAX, SparseError::PastEnd),
    ([0, 1, 2], 0, SparseError::PastEnd),
];

/// Why positions are refused; `None` where they are not.
fn refused(alloc: Global, positions: &[u64], len: usize) -> Option<SparseError> {
    match SampledSparseBits::build(alloc, positions, len) {
        Ok(_) => None,
        Err(error) => Some(error),
    }
}

/// Whether each row is refused as it says.
fn are_refused(alloc: Global) -> bool {
    let mut agrees = true;
    for (positions, len, error) in REFUSED.as_slice() {
        agrees &= refused(alloc, positions.as_slice(), *len) == Some(*error);
    }
    agrees
}

/// The errors, and what they print.
const TEXTS: [(SparseError, &str); 4] = [
    (SparseError::TooLong, "there are 2^56 1 bits or more"),
    (
        SparseError::NotRising,
        "a position is not greater than the one before it",
    ),
    (
        SparseError::PastEnd,
        "a position is not less than the number of bits",
    ),
    (SparseError::OutOfMemory, "no memory"),
];

/// Whether an error prints this text.
fn says(alloc: Global, error: SparseError, text: &str) -> bool {
    match format!(in alloc; "{error}") {
        Ok(made) => made.as_str() == text,
        Err(_) => false,
    }
}

#[test]
fn errors_differ_and_print_why(rt: HostRuntime) {
    assert!(rt; are_refused(rt.alloc()));
    for (error, text) in TEXTS {
        assert!(rt; says(rt.alloc(), error, text));
    }
}
