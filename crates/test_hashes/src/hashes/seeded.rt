//! The block of a hash of twelve keys with seeds: its words, its answers, and the answers of other words in its place.
use bitm_block::checksum_of;
use hash_block::Answer;
use hash_block::seeded::{BuildError, PackedSeeds, SeededView, build, check, open, size};
use perfect_hash::build_seeded_in_place;
use std::process::Abort;
use std::test::Fail;

/// Their block, as a program in Python made it from the tables of docs/FORMAT.md: its levels are of the squares of 1 to
/// 12, at 100 per cent, each seed is the best of four, and the seed of the keys is 7.
const BLOCK: [u64; 80] = [
    0x046261746d746962,
    0x0000000000000005,
    0x0000000000000280,
    0x000000000000000c,
    0x0000000000000000,
    0x0000000000000000,
    0x0000000000000000,
    0x0000000000000000,
    0x0000000000000007,
    0x0000000000000000,
    0x0000000000000000,
    0x0000000000000005,
    0x0000000000000000,
    0x0000000000000000,
    0x3c7b5eb4a6d92c40,
    0x250a2e3b71cae491,
    0x0000000000000001,
    0x0000000000000140,
    0x0000000000000002,
    0x5fb37959c1d66c10,
    0x0000000000000002,
    0x0000000000000180,
    0x0000000000000001,
    0xa37da37158bd2c5f,
    0x0000000000000003,
    0x00000000000001c0,
    0x0000000000000001,
    0xf8b73c191e0d867b,
    0x000000000000000f,
    0x0000000000000200,
    0x0000000000000002,
    0x973638d3ce0f3ad5,
    0x0000000000000004,
    0x0000000000000240,
    0x0000000000000002,
    0xda4566576e3ebfd6,
    0x0000000000000000,
    0x0000000000000000,
    0x0000000000000000,
    0x0000000000000000,
    0x0500000218081160,
    0x0000000400080000,
    0x0000000000000000,
    0x0000000000000000,
    0x0000000000000000,
    0x0000000000000000,
    0x0000000000000000,
    0x0000000000000000,
    0x0000000000000000,
    0x0000000000000000,
    0x0000000000000000,
    0x0000000000000000,
    0x0000000000000000,
    0x0000000000000000,
    0x0000000000000000,
    0x0000000000000000,
    0x0300600c00000000,
    0x0000000000000000,
    0x0000000000000000,
    0x0000000000000000,
    0x0000000000000000,
    0x0000000000000000,
    0x0000000000000000,
    0x0000000000000000,
    0x0000000000000001,
    0x0000000000000000,
    0x0000000000000000,
    0x0000000000000000,
    0x0000000000000000,
    0x0000000000000000,
    0x0000000000000000,
    0x0000000000000000,
    0x0000000000000001,
    0x0000000000000001,
    0x0000000000000000,
    0x0000000000000000,
    0x0000000000000000,
    0x0000000000000000,
    0x0000000000000000,
    0x0000000000000000,
];

/// How many words each of its levels has.
const SIZES: [usize; 2] = [1, 1];

/// The seeds of these words.
const SEEDS: [u8; 2] = [1, 0];

/// What that program answers for the squares of 1 to 12.
const NUMBERS: [usize; 12] = [1, 2, 0, 7, 4, 3, 10, 11, 8, 6, 5, 9];

/// The squares of 1 to 12.
fn squares() -> [u64; 12] {
    let mut all = [0u64; 12];
    for i in 0..12usize {
        let root = i as u64 + 1;
        all[i] = root.wrapping_mul(root);
    }
    all
}

/// The number that was found, or 1000 for `Absent`, 1001 for `Wrong`.
fn number_of(answer: Answer<usize>) -> usize {
    match answer {
        Answer::Found(number) => number,
        Answer::Absent => 1000,
        Answer::Wrong => 1001,
    }
}

/// The numbers of the squares of 1 to 12.
fn numbers(hash: &SeededView<'_>) -> [usize; 12] {
    let mut all = [0usize; 12];
    let squares = squares();
    for i in 0..12usize {
        all[i] = number_of(hash.get(squares[i]));
    }
    all
}

/// The words with the checksums of the header and the directory made right.
fn sealed(mut words: [u64; 80]) -> [u64; 80] {
    words[14] = checksum_of(&words.as_slice()[16..40]);
    words[15] = checksum_of(&words.as_slice()[..15]);
    words
}

/// How many bits of the words can be flipped, one at a time, so that they are accepted all the same.
fn unseen_flips(words: &mut [u64]) -> usize {
    let mut unseen = 0usize;
    for i in 0..words.len() {
        for bit in 0..64u32 {
            words[i] ^= 1u64 << bit;
            unseen = unseen.wrapping_add(check(&*words) as usize);
            words[i] ^= 1u64 << bit;
        }
    }
    unseen
}

#[test]
fn levels_with_seeds_are_written_and_answer(rt: HostRuntime) -> Result<(), Fail> {
    let (mut hashes, mut sorted) = (squares(), [0u64; 12]);
    let (mut words, mut again, mut sizes) = ([0u64; 8], [0u64; 8], [0usize; 8]);
    let mut seeds = [9u8; 8];
    let made = build_seeded_in_place(
        hashes.as_mut_slice(),
        100,
        4,
        words.as_mut_slice(),
        seeds.as_mut_slice(),
        again.as_mut_slice(),
        sorted.as_mut_slice(),
        sizes.as_mut_slice(),
    );
    assert!(rt; made.levels == 2 && made.words == 2 && made.left == 0);
    assert!(rt; size(2, 2) == Some(80));
    let mut block = [0x5555_5555_5555_5555u64; 80];
    let (words, sizes) = (&words.as_slice()[..2], &sizes.as_slice()[..2]);
    let seeds = &seeds.as_slice()[..2];
    assert!(rt; build(words, seeds, sizes, 7, block.as_mut_slice()).is_ok());
    assert!(rt; block == BLOCK);
    assert!(rt; check(block.as_slice()));
    Ok(())
}

#[test]
fn the_block_answers_as_the_other_program(rt: HostRuntime) -> Result<(), Fail> {
    let Some(hash) = open(BLOCK.as_slice()) else {
        assert!(rt; false, "not opened");
        return Ok(());
    };
    let parts = hash.parts();
    assert!(rt; parts.keys() == 12 && parts.seed() == 7 && parts.sizes() == SIZES.as_slice());
    assert!(rt; hash.seeds().len() == 2 && hash.seeds().get(0) == 1 && hash.seeds().get(1) == 0);
    assert!(rt; numbers(&hash) == NUMBERS);
    assert!(rt; hash.check());
    Ok(())
}

#[test]
fn a_hash_with_seeds_is_none_without_them(rt: HostRuntime) -> Result<(), Fail> {
    assert!(rt; hash_block::open(BLOCK.as_slice()).is_none());
    assert!(rt; hash_block::open_dictionary(BLOCK.as_slice()).is_none());
    assert!(rt; !hash_block::check(BLOCK.as_slice()));
    // a hash without seeds is none with them: the sizes stand where the seeds would; a fifth section of another role
    let mut words = BLOCK;
    words[28] = 4;
    assert!(rt; open(sealed(words).as_slice()).is_none());
    let mut words = BLOCK;
    words[32] = 5;
    assert!(rt; open(sealed(words).as_slice()).is_none());
    // a seed more than there are words
    let mut words = BLOCK;
    words[30] = 3;
    assert!(rt; open(sealed(words).as_slice()).is_none());
    Ok(())
}

#[test]
fn each_flipped_bit_is_seen(rt: HostRuntime) -> Result<(), Fail> {
    let mut words = BLOCK;
    assert!(rt; unseen_flips(words.as_mut_slice()) == 0);
    Ok(())
}

#[test]
fn nothing_is_written_where_there_is_no_hash(rt: HostRuntime) -> Result<(), Fail> {
    let mut block = [7u64; 80];
    let words = &BLOCK.as_slice()[40..42];
    let (seeds, sizes) = (SEEDS.as_slice(), SIZES.as_slice());
    let short = &mut block.as_mut_slice()[..72];
    assert!(rt; build(words, seeds, sizes, 7, short) == Err(BuildError::WrongLength));
    let fewer = build(words, &seeds[..1], sizes, 7, block.as_mut_slice());
    assert!(rt; fewer == Err(BuildError::NotSeeds));
    let other = build(words, seeds, &sizes[..1], 7, block.as_mut_slice());
    assert!(rt; other == Err(BuildError::NotLevels));
    assert!(rt; block == [7u64; 80]);
    assert!(rt; size(1, 257).is_none() && size(1 << 58, 1).is_none());
    Ok(())
}

#[test]
fn seeds_stand_eight_in_a_word(rt: HostRuntime) -> Result<(), Fail> {
    let words = [0x0807_0605_0403_0201u64, 0x0909];
    assert!(rt; PackedSeeds::over(words.as_slice(), 8).is_none());
    let Some(seeds) = PackedSeeds::over(words.as_slice(), 9) else {
        assert!(rt; false, "not as many words");
        return Ok(());
    };
    for k in 0..9usize {
        assert!(rt; seeds.get(k) as usize == k + 1);
    }
    assert!(rt; seeds.get(9) == 0);
    Ok(())
}
