//! All queries beside a walk over the bits of words.
use bitm::{
    Access, AdaptiveCombinedSamplingDensity, BinaryRankSearch, BitVec, CombinedSampling, HasBits,
    Rank, Select, Select0, Select0ForRank101111, SelectForRank101111, words,
};
use sparse_bits::SparseBits;
use std::alloc::Global;
use std::boxed::BoxedSlice;
use std::convert::AsSlice;

/// The strategy of `SampledSparseBits`.
pub type Sampled = CombinedSampling<AdaptiveCombinedSamplingDensity<13>>;

/// The next number of a sequence that looks random (xorshift).
fn draw(state: &mut u64) -> u64 {
    let mut x = *state;
    x ^= x << 13;
    x ^= x >> 7;
    x ^= x << 17;
    *state = x;
    x
}

/// Writes words where each bit is a 1 bit by chance, one bit of `apart`.
fn draw_words(words: &mut [u64], apart: u64) {
    let mut state = 88_172_645_463_325_252;
    for k in 0..words.len() {
        let mut word = 0u64;
        for _ in 0..64u32 {
            word = word << 1 | (draw(&mut state) % apart.max(1) == 0) as u64;
        }
        words[k] = word;
    }
}

/// Whether each rank, bit and selection is as a walk over the bits of the words counts.
fn agrees<I: Access + Select + Select0>(bits: &I, words: &[u64]) -> bool {
    let len = words.len().wrapping_mul(64);
    let (mut ones, mut zeros) = (0usize, 0usize);
    let mut agrees = bits.len() == len;
    for position in 0..len {
        let bit = words::try_get_bit(words, position);
        agrees &= bits.try_rank(position) == Some(ones) && bits.try_rank0(position) == Some(zeros);
        agrees &= bits.try_get_bit(position) == bit;
        if position < bits.len() {
            let (read, rank) = bits.bit_and_rank(position);
            agrees &= Some(read) == bit && rank == ones;
        }
        if bit == Some(true) {
            agrees &= bits.try_select(ones) == Some(position);
            ones = ones.wrapping_add(1);
        } else {
            agrees &= bits.try_select0(zeros) == Some(position);
            zeros = zeros.wrapping_add(1);
        }
    }
    agrees &= bits.try_rank(len) == Some(ones) && bits.try_rank(len.wrapping_add(1)) == None;
    agrees &= bits.try_get_bit(len) == None;
    agrees && bits.try_select(ones) == None && bits.try_select0(zeros) == None
}

/// Whether the positions of the 1 bits come in order, from each end and from each rank.
fn come_in_order<S: SelectForRank101111, S0: Select0ForRank101111>(
    bits: &SparseBits<S, S0>,
    words: &[u64],
) -> bool {
    let mut rising = bits.bit_ones();
    let mut agrees = rising.len() == bits.count_bit_ones();
    let mut rank = 0usize;
    for position in 0..words.len().wrapping_mul(64) {
        if words::try_get_bit(words, position) == Some(true) {
            agrees &= rising.next() == Some(position as u64);
            if rank <= bits.count_bit_ones() {
                agrees &= bits.bit_ones_from(rank).next() == Some(position as u64);
            }
            rank = rank.wrapping_add(1);
        }
    }
    agrees && rising.next() == None && rank == bits.count_bit_ones()
}

/// Whether the bits of words are answered, and come in order, as by a walk.
fn words_agree<S: SelectForRank101111, S0: Select0ForRank101111>(
    alloc: Global,
    words: &[u64],
) -> bool {
    if words.len() >= 1 << 58 {
        return false;
    }
    match SparseBits::<S, S0>::build_from_words(alloc, words) {
        Ok(bits) => agrees(&bits, words) && come_in_order(&bits, words),
        Err(_) => false,
    }
}

/// Whether the bits of the given number of drawn words are, one of `apart` of them a 1 bit.
fn drawn_agree<S: SelectForRank101111, S0: Select0ForRank101111>(
    alloc: Global,
    count: usize,
    apart: u64,
) -> bool {
    match BoxedSlice::<u64, Global>::with_64bit_segments(alloc, 0, count) {
        Ok(mut words) => {
            draw_words(words.as_mut_slice(), apart);
            words_agree::<S, S0>(alloc, words.as_slice())
        }
        Err(_) => false,
    }
}

/// Numbers of words, and how few of their bits are 1 bits.
const DRAWN: [(usize, u64); 6] = [
    (1, 1),
    (3, 2),
    (40, 3),
    (100, 40),
    (300, 1000),
    (200, 100_000),
];

/// Whether the bits of all drawn words are.
fn all_drawn_agree<S: SelectForRank101111, S0: Select0ForRank101111>(alloc: Global) -> bool {
    let mut agrees = true;
    for (count, apart) in DRAWN.as_slice() {
        agrees &= drawn_agree::<S, S0>(alloc, *count, *apart);
    }
    agrees
}

#[test]
fn drawn_bits_are_answered_as_by_a_walk(rt: HostRuntime) {
    assert!(rt; all_drawn_agree::<Sampled, Sampled>(rt.alloc()));
    assert!(rt; all_drawn_agree::<BinaryRankSearch, BinaryRankSearch>(rt.alloc()));
}

/// Words of one kind, or none.
const OF_ONE_KIND: [&[u64]; 6] = [
    &[],
    &[0],
    &[u64::MAX],
    &[0, 0, 0],
    &[u64::MAX, u64::MAX],
    &[1 << 63, 0, 1],
];

#[test]
fn words_of_one_kind_are_answered_as_by_a_walk(rt: HostRuntime) {
    for words in OF_ONE_KIND {
        assert!(rt; words_agree::<Sampled, Sampled>(rt.alloc(), words));
    }
}
