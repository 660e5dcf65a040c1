//! The block of a hundred bits: its words, its answers, and the answers of other words in its place.
use bitm_block::{Block, checksum_of};
use bitm_view::bits::{Answer, BuildError, IndexView, build, check, open, size};
use std::process::Abort;
use std::test::Fail;

/// The words whose first hundred bits the block has.
const WORDS: [u64; 2] = [0x0123_4567_89ab_cdef, 0xfedc_ba98_7654_3210];

/// Their block, as a program in Python made it from the tables of docs/FORMAT.md.
const BLOCK: [u64; 56] = [
    0x046261746d746962,
    0x0000000000000002,
    0x00000000000001c0,
    0x0000000000000064,
    0x0000000000000000,
    0x0000000000000000,
    0x0000000000000000,
    0x0000000000000000,
    0x0000000000000000,
    0x0000000000000000,
    0x0000000000000000,
    0x0000000000000003,
    0x0000000000000000,
    0x0000000000000000,
    0x59f1ebaa9e3ad5fd,
    0x8875caee4929264b,
    0x0000000000000001,
    0x0000000000000100,
    0x0000000000000002,
    0xef55035369dfb1e4,
    0x0000000000000002,
    0x0000000000000140,
    0x0000000000000001,
    0xa37da37158bd2c5f,
    0x0000000000000003,
    0x0000000000000180,
    0x0000000000000001,
    0xf3f87f03fa0f3b3c,
    0x0000000000000000,
    0x0000000000000000,
    0x0000000000000000,
    0x0000000000000000,
    0x0123456789abcdef,
    0x0000000876543210,
    0x0000000000000000,
    0x0000000000000000,
    0x0000000000000000,
    0x0000000000000000,
    0x0000000000000000,
    0x0000000000000000,
    0x0000000000000000,
    0x0000000000000000,
    0x0000000000000000,
    0x0000000000000000,
    0x0000000000000000,
    0x0000000000000000,
    0x0000000000000000,
    0x0000000000000000,
    0x0b41682d00000000,
    0x0000000000000000,
    0x0000000000000000,
    0x0000000000000000,
    0x0000000000000000,
    0x0000000000000000,
    0x0000000000000000,
    0x0000000000000000,
];

/// The number that was found, or 1000 for `Absent`, 1001 for `Wrong`.
fn number_of(answer: Answer<usize>) -> usize {
    match answer {
        Answer::Found(number) => number,
        Answer::Absent => 1000,
        Answer::Wrong => 1001,
    }
}

/// Ranks of both ends and one past them, and the first and the last selection of either kind and one past them.
fn answers(bits: &IndexView<'_>) -> [usize; 10] {
    [
        number_of(bits.rank::<1>(0)),
        number_of(bits.rank::<1>(64)),
        number_of(bits.rank::<1>(100)),
        number_of(bits.rank::<1>(101)),
        number_of(bits.select::<1>(0)),
        number_of(bits.select::<1>(44)),
        number_of(bits.select::<1>(45)),
        number_of(bits.select::<0>(0)),
        number_of(bits.select::<0>(54)),
        number_of(bits.select::<0>(55)),
    ]
}

/// How many bits of the words can be flipped, one at a time, so that they are accepted all the same.
fn unseen_flips(words: &mut [u64]) -> usize {
    let mut unseen = 0usize;
    for i in 0..words.len() {
        for bit in 0..64u32 {
            words[i] ^= 1u64 << bit;
            unseen = unseen.wrapping_add(check(&*words) as usize);
            words[i] ^= 1u64 << bit;
        }
    }
    unseen
}

/// How many prefixes of the words are opened.
fn opened_prefixes(words: &[u64]) -> usize {
    let mut opened = 0usize;
    for len in 0..words.len() {
        opened = opened.wrapping_add(open(&words[..len]).is_some() as usize);
    }
    opened
}

#[test]
fn bits_are_written_and_answer(rt: HostRuntime) -> Result<(), Fail> {
    assert!(rt; size(100) == Some(56));
    assert!(rt; size(usize::MAX).is_none());
    let mut block = [0x5555_5555_5555_5555u64; 56];
    assert!(rt; build(WORDS.as_slice(), 100, block.as_mut_slice()).is_ok());
    assert!(rt; block == BLOCK);
    assert!(rt; check(block.as_slice()));
    let Some(bits) = open(block.as_slice()) else {
        assert!(rt; false, "not opened");
        return Ok(());
    };
    assert!(rt; answers(&bits) == [0, 32, 45, 1000, 0, 99, 1000, 4, 98, 1000]);
    Ok(())
}

#[test]
fn each_flipped_bit_is_seen(rt: HostRuntime) -> Result<(), Fail> {
    let mut words = BLOCK;
    assert!(rt; unseen_flips(words.as_mut_slice()) == 0);
    assert!(rt; opened_prefixes(words.as_slice()) == 0);
    Ok(())
}

#[test]
fn other_words_are_no_bits(rt: HostRuntime) -> Result<(), Fail> {
    // another kind, and another number of bits, with the right checksum
    let mut words = BLOCK;
    words[1] = 7;
    words[15] = checksum_of(&words.as_slice()[..15]);
    assert!(rt; Block::open(words.as_slice()).is_ok());
    assert!(rt; open(words.as_slice()).is_none());
    let mut words = BLOCK;
    words[3] = 129;
    words[15] = checksum_of(&words.as_slice()[..15]);
    assert!(rt; Block::open(words.as_slice()).is_ok());
    assert!(rt; open(words.as_slice()).is_none());
    Ok(())
}

#[test]
fn wrong_tables_are_opened_and_seen(rt: HostRuntime) -> Result<(), Fail> {
    // the counts of the lower table are too large, and its checksum is right again
    let mut words = BLOCK;
    words[48] = u64::MAX;
    words[27] = checksum_of(&words.as_slice()[48..49]);
    words[14] = checksum_of(&words.as_slice()[16..32]);
    words[15] = checksum_of(&words.as_slice()[..15]);
    assert!(rt; !check(words.as_slice()));
    let Some(bits) = open(words.as_slice()) else {
        assert!(rt; false, "not opened");
        return Ok(());
    };
    // the words are what they were, and so is their number
    assert!(rt; number_of(bits.rank::<1>(101)) == 1000);
    assert!(rt; bits.count::<1>() == 45);
    Ok(())
}

#[test]
fn nothing_is_written_where_there_is_no_block(rt: HostRuntime) -> Result<(), Fail> {
    let mut block = [7u64; 56];
    assert!(rt;
        build(WORDS.as_slice(), usize::MAX, block.as_mut_slice()) == Err(BuildError::TooLong)
    );
    assert!(rt; build(WORDS.as_slice(), 129, block.as_mut_slice()) == Err(BuildError::TooFewBits));
    assert!(rt;
        build(WORDS.as_slice(), 100, &mut block.as_mut_slice()[..48])
            == Err(BuildError::WrongLength)
    );
    assert!(rt; block == [7u64; 56]);
    Ok(())
}
