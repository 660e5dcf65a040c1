//! The block of a hash of twelve keys: its words, its answers, and the answers of other words in its place.
use bitm_block::{Block, checksum_of};
use hash_block::{Answer, BuildError, HashView, build, build_of, check, open, size};
use perfect_hash::{KeyHash, build_in_place};
use std::process::Abort;
use std::test::Fail;

/// Their block, as a program in Python made it from the tables of docs/FORMAT.md: its levels are of the squares of 1 to
/// 12, at 100 per cent, and the seed is 7.
const BLOCK: [u64; 64] = [
    0x046261746d746962,
    0x0000000000000005,
    0x0000000000000200,
    0x000000000000000c,
    0x0000000000000000,
    0x0000000000000000,
    0x0000000000000000,
    0x0000000000000000,
    0x0000000000000007,
    0x0000000000000000,
    0x0000000000000000,
    0x0000000000000004,
    0x0000000000000000,
    0x0000000000000000,
    0x29b769f14e93390e,
    0x47d364d4872b3de5,
    0x0000000000000001,
    0x0000000000000100,
    0x0000000000000002,
    0xc66d8d2b817a4cb9,
    0x0000000000000002,
    0x0000000000000140,
    0x0000000000000001,
    0xa37da37158bd2c5f,
    0x0000000000000003,
    0x0000000000000180,
    0x0000000000000001,
    0xf8b73c191e0d867b,
    0x0000000000000004,
    0x00000000000001c0,
    0x0000000000000002,
    0xda4566576e3ebfd6,
    0x042009000c800580,
    0x0000800000000040,
    0x0000000000000000,
    0x0000000000000000,
    0x0000000000000000,
    0x0000000000000000,
    0x0000000000000000,
    0x0000000000000000,
    0x0000000000000000,
    0x0000000000000000,
    0x0000000000000000,
    0x0000000000000000,
    0x0000000000000000,
    0x0000000000000000,
    0x0000000000000000,
    0x0000000000000000,
    0x0300600c00000000,
    0x0000000000000000,
    0x0000000000000000,
    0x0000000000000000,
    0x0000000000000000,
    0x0000000000000000,
    0x0000000000000000,
    0x0000000000000000,
    0x0000000000000001,
    0x0000000000000001,
    0x0000000000000000,
    0x0000000000000000,
    0x0000000000000000,
    0x0000000000000000,
    0x0000000000000000,
    0x0000000000000000,
];

/// The words and the sizes of its levels, from the same program.
const WORDS: [u64; 2] = [0x042009000c800580, 0x800000000040];

const SIZES: [usize; 2] = [1, 1];

/// What that program answers for the squares of 1 to 12.
const NUMBERS: [usize; 12] = [11, 5, 7, 3, 6, 9, 0, 8, 10, 1, 2, 4];

/// A key that is its own hash.
#[derive(Clone, Copy, Debug)]
struct Itself;

impl KeyHash<u64> for Itself {
    ghost hash = { λ _ key. key };

    fn hash(&self, key: &u64) -> u64 {
        *key
    }
}

/// The squares of 1 to 12.
fn squares() -> [u64; 12] {
    let mut all = [0u64; 12];
    for i in 0..12usize {
        let root = i as u64 + 1;
        all[i] = root.wrapping_mul(root);
    }
    all
}

/// The number that was found, or 1000 for `Absent`, 1001 for `Wrong`.
fn number_of(answer: Answer<usize>) -> usize {
    match answer {
        Answer::Found(number) => number,
        Answer::Absent => 1000,
        Answer::Wrong => 1001,
    }
}

/// The numbers of the squares of 1 to 12.
fn numbers(hash: &HashView<'_>) -> [usize; 12] {
    let mut all = [0usize; 12];
    let squares = squares();
    for i in 0..12usize {
        all[i] = number_of(hash.get(squares[i]));
    }
    all
}

/// The greatest number that is found of the hashes below 1000.
fn greatest(hash: &HashView<'_>) -> usize {
    let mut most = 0usize;
    for i in 0..1000u64 {
        if let Answer::Found(number) = hash.get(i) {
            most = most.max(number);
        }
    }
    most
}

/// The header's checksum made right.
fn sealed(mut words: [u64; 64]) -> [u64; 64] {
    words[15] = checksum_of(&words.as_slice()[..15]);
    words
}

/// How many bits of the words can be flipped, one at a time, so that they are accepted all the same.
fn unseen_flips(words: &mut [u64]) -> usize {
    let mut unseen = 0usize;
    for i in 0..words.len() {
        for bit in 0..64u32 {
            words[i] ^= 1u64 << bit;
            unseen = unseen.wrapping_add(check(&*words) as usize);
            words[i] ^= 1u64 << bit;
        }
    }
    unseen
}

/// How many prefixes of the words are opened.
fn opened_prefixes(words: &[u64]) -> usize {
    let mut opened = 0usize;
    for len in 0..words.len() {
        opened = opened.wrapping_add(open(&words[..len]).is_some() as usize);
    }
    opened
}

#[test]
fn levels_built_in_place_are_written_and_answer(rt: HostRuntime) -> Result<(), Fail> {
    let mut hashes = squares();
    let (mut words, mut again, mut sizes) = ([0u64; 8], [0u64; 8], [0usize; 8]);
    let made = build_in_place(
        hashes.as_mut_slice(),
        100,
        words.as_mut_slice(),
        again.as_mut_slice(),
        sizes.as_mut_slice(),
    );
    assert!(rt; made.levels == 2 && made.words == 2 && made.left == 0);
    assert!(rt; size(2, 2) == Some(64));
    let mut block = [0x5555_5555_5555_5555u64; 64];
    let (words, sizes) = (&words.as_slice()[..2], &sizes.as_slice()[..2]);
    assert!(rt; build(words, sizes, 7, block.as_mut_slice()).is_ok());
    assert!(rt; block == BLOCK);
    assert!(rt; check(block.as_slice()));
    let Some(hash) = open(block.as_slice()) else {
        assert!(rt; false, "not opened");
        return Ok(());
    };
    assert!(rt; hash.keys() == 12 && hash.seed() == 7 && hash.sizes() == SIZES.as_slice());
    assert!(rt; numbers(&hash) == NUMBERS);
    assert!(rt; greatest(&hash) == 11);
    Ok(())
}

#[test]
fn a_perfect_hash_is_written(rt: HostRuntime) -> Result<(), Fail> {
    let keys = squares();
    let Ok(made) = perfect_hash::build(rt.alloc(), Itself, keys.as_slice(), 100) else {
        assert!(rt; false, "refused");
        return Ok(());
    };
    let mut block = [0u64; 64];
    assert!(rt; build_of(&made, 7, block.as_mut_slice()).is_ok());
    assert!(rt; block == BLOCK);
    Ok(())
}

#[test]
fn each_flipped_bit_is_seen(rt: HostRuntime) -> Result<(), Fail> {
    let mut words = BLOCK;
    assert!(rt; unseen_flips(words.as_mut_slice()) == 0);
    assert!(rt; opened_prefixes(words.as_slice()) == 0);
    Ok(())
}

#[test]
fn other_words_are_no_hash(rt: HostRuntime) -> Result<(), Fail> {
    // another kind, another role of the sizes, fewer sections; each with the right checksums
    let mut words = BLOCK;
    words[1] = 7;
    let words = sealed(words);
    assert!(rt; Block::open(words.as_slice()).is_ok());
    assert!(rt; open(words.as_slice()).is_none());
    let mut words = BLOCK;
    words[28] = 9;
    words[14] = checksum_of(&words.as_slice()[16..32]);
    let words = sealed(words);
    assert!(rt; Block::open(words.as_slice()).is_ok());
    assert!(rt; open(words.as_slice()).is_none());
    Ok(())
}

#[test]
fn hostile_sections_are_opened_and_refused_by_check(rt: HostRuntime) -> Result<(), Fail> {
    // a key fewer than there are 1 bits; a level of no word, and levels of more words than there are
    let mut words = BLOCK;
    words[3] = 11;
    let words = sealed(words);
    let Some(hash) = open(words.as_slice()) else {
        assert!(rt; false, "not opened");
        return Ok(());
    };
    assert!(rt; !hash.check());
    assert!(rt; greatest(&hash) == 10);
    for size in [0u64, 3, u64::MAX] {
        let mut words = BLOCK;
        words[56] = size;
        let Some(hash) = open(words.as_slice()) else {
            assert!(rt; false, "not opened");
            return Ok(());
        };
        assert!(rt; !hash.check());
        assert!(rt; number_of(hash.get(1)) == 1001);
    }
    Ok(())
}

#[test]
fn nothing_is_written_where_there_is_no_hash(rt: HostRuntime) -> Result<(), Fail> {
    let mut block = [7u64; 64];
    let words = WORDS.as_slice();
    let short = &mut block.as_mut_slice()[..56];
    assert!(rt; build(words, SIZES.as_slice(), 7, short) == Err(BuildError::WrongLength));
    for sizes in [[1usize, 2], [2, 0], [usize::MAX, 3]] {
        let refused = build(words, sizes.as_slice(), 7, block.as_mut_slice());
        assert!(rt; refused == Err(BuildError::NotLevels));
    }
    assert!(rt; block == [7u64; 64]);
    assert!(rt; size(1, 257).is_none());
    assert!(rt; size(1 << 58, 1).is_none());
    Ok(())
}
