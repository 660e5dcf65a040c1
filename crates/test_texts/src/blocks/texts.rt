//! The block of the index of a small text: its answers, and the answers of other words in its place.
use std::process::Abort;
use std::test::Fail;
use text_block::{Answer, TextView};

static WORDS: [u64; 168] = [
    0x046261746d746962,
    0x0000000000000008,
    0x0000000000000540,
    0x0000000000000006,
    0x0000000000000002,
    0x0000000000000000,
    0x0000000000000000,
    0x0000000000000000,
    0x0000000000000004,
    0x0000000000000004,
    0x0000000000000000,
    0x000000000000000d,
    0x0000000000000000,
    0x0000000000000000,
    0xff2232b275ca9a58,
    0xc1b72844dc53f428,
    0x0000000000000001,
    0x0000000000000240,
    0x0000000000000001,
    0x815d51fe57a91abf,
    0x0000000000000002,
    0x0000000000000280,
    0x0000000000000001,
    0xa37da37158bd2c5f,
    0x0000000000000003,
    0x00000000000002c0,
    0x0000000000000001,
    0xbea2502327670eb7,
    0x000000000000000b,
    0x0000000000000300,
    0x0000000000000002,
    0x2a42041bdb07a119,
    0x000000000000000c,
    0x0000000000000340,
    0x0000000000000002,
    0x0c83a53bd69b5ff9,
    0x000000000000000d,
    0x0000000000000380,
    0x0000000000000003,
    0xe51bfb01513dec89,
    0x0000000000000001,
    0x00000000000003c0,
    0x0000000000000001,
    0x5a478fd5175dbcf9,
    0x0000000000000002,
    0x0000000000000400,
    0x0000000000000001,
    0xa37da37158bd2c5f,
    0x0000000000000003,
    0x0000000000000440,
    0x0000000000000001,
    0x88de8c32a8287d71,
    0x000000000000000b,
    0x0000000000000480,
    0x0000000000000001,
    0xa37da37158bd2c5f,
    0x000000000000000c,
    0x00000000000004c0,
    0x0000000000000001,
    0x96e2a8db2672a911,
    0x000000000000000e,
    0x0000000000000500,
    0x0000000000000002,
    0xe6406e202a4b2cad,
    0x0000000000000010,
    0x0000000000000540,
    0x0000000000000000,
    0x973638d3ce0f3ad5,
    0x0000000000000000,
    0x0000000000000000,
    0x0000000000000000,
    0x0000000000000000,
    0x0000000000000086,
    0x0000000000000000,
    0x0000000000000000,
    0x0000000000000000,
    0x0000000000000000,
    0x0000000000000000,
    0x0000000000000000,
    0x0000000000000000,
    0x0000000000000000,
    0x0000000000000000,
    0x0000000000000000,
    0x0000000000000000,
    0x0000000000000000,
    0x0000000000000000,
    0x0000000000000000,
    0x0000000000000000,
    0x00c0180300000000,
    0x0000000000000000,
    0x0000000000000000,
    0x0000000000000000,
    0x0000000000000000,
    0x0000000000000000,
    0x0000000000000000,
    0x0000000000000000,
    0x0000000000000000,
    0x0000000000000002,
    0x0000000000000000,
    0x0000000000000000,
    0x0000000000000000,
    0x0000000000000000,
    0x0000000000000000,
    0x0000000000000000,
    0x0000000000000004,
    0x0000000000000005,
    0x0000000000000000,
    0x0000000000000000,
    0x0000000000000000,
    0x0000000000000000,
    0x0000000000000000,
    0x0000000000000000,
    0x0000000000000001,
    0x0000000000000004,
    0x0000000000000005,
    0x0000000000000000,
    0x0000000000000000,
    0x0000000000000000,
    0x0000000000000000,
    0x0000000000000000,
    0x0000000000000030,
    0x0000000000000000,
    0x0000000000000000,
    0x0000000000000000,
    0x0000000000000000,
    0x0000000000000000,
    0x0000000000000000,
    0x0000000000000000,
    0x0000000000000000,
    0x0000000000000000,
    0x0000000000000000,
    0x0000000000000000,
    0x0000000000000000,
    0x0000000000000000,
    0x0000000000000000,
    0x0000000000000000,
    0x0080100200000000,
    0x0000000000000000,
    0x0000000000000000,
    0x0000000000000000,
    0x0000000000000000,
    0x0000000000000000,
    0x0000000000000000,
    0x0000000000000000,
    0x0000000000000000,
    0x0000000000000000,
    0x0000000000000000,
    0x0000000000000000,
    0x0000000000000000,
    0x0000000000000000,
    0x0000000000000000,
    0x0000000000000000,
    0x0000000000000005,
    0x0000000000000000,
    0x0000000000000000,
    0x0000000000000000,
    0x0000000000000000,
    0x0000000000000000,
    0x0000000000000000,
    0x0000000000000000,
    0x0000000400000000,
    0x0000000500000004,
    0x0000000000000000,
    0x0000000000000000,
    0x0000000000000000,
    0x0000000000000000,
    0x0000000000000000,
    0x0000000000000000,
];

/// The block of the index of the text 1, 0, 2, 0, 2, 0 with a sample each four letters, as a program in Python made it
/// from the tables of docs/FORMAT.md.
pub(crate) fn small_text() -> &'static [u64; 168] {
    &WORDS
}

/// The number that was found, or 100 for `Absent`, 101 for `Wrong`.
fn coded(answer: Answer<usize>) -> usize {
    match answer {
        Answer::Found(number) => number,
        Answer::Absent => 100,
        Answer::Wrong => 101,
    }
}

/// The counts of ten patterns: none, 0, 1, 2, 3, then 0 2, 2 0, 2 0 2, 0 0, and one letter of many bits.
fn counts(text: &TextView<'_>) -> [usize; 10] {
    [
        coded(text.count([].as_slice())),
        coded(text.count([0u64].as_slice())),
        coded(text.count([1u64].as_slice())),
        coded(text.count([2u64].as_slice())),
        coded(text.count([3u64].as_slice())),
        coded(text.count([0u64, 2].as_slice())),
        coded(text.count([2u64, 0].as_slice())),
        coded(text.count([2u64, 0, 2].as_slice())),
        coded(text.count([0u64, 0].as_slice())),
        coded(text.count([1u64 << 40].as_slice())),
    ]
}

/// Whether a pattern stands at no more positions than there are, with the end.
fn are_within(counts: &[usize]) -> bool {
    let mut within = counts.len() == 10;
    for count in counts {
        within &= *count == 101 || *count <= 7;
    }
    within
}

/// How many flipped bits of the sections give a count that no text of six letters could have.
fn impossible_counts(words: &mut [u64]) -> usize {
    let mut impossible = 0usize;
    for i in 72..words.len() {
        for bit in 0..64u32 {
            words[i] ^= 1u64 << bit;
            if let Some(text) = TextView::open(&*words) {
                let within = are_within(counts(&text).as_slice());
                impossible = impossible.wrapping_add(!within as usize);
            }
            words[i] ^= 1u64 << bit;
        }
    }
    impossible
}

/// How many prefixes of the words, or flipped bits of header and directory, are opened.
fn opened(words: &mut [u64]) -> usize {
    let mut opened = 0usize;
    for len in 0..words.len() {
        opened = opened.wrapping_add(TextView::open(&words[..len]).is_some() as usize);
    }
    for i in 0..words.len().min(72) {
        for bit in 0..64u32 {
            words[i] ^= 1u64 << bit;
            opened = opened.wrapping_add(TextView::open(&*words).is_some() as usize);
            words[i] ^= 1u64 << bit;
        }
    }
    opened
}

#[test]
fn a_text_is_opened_and_counts(rt: HostRuntime) -> Result<(), Fail> {
    let Some(text) = TextView::open(small_text().as_slice()) else {
        assert!(rt; false, "not opened");
        return Ok(());
    };
    assert!(rt; text.len() == 6);
    assert!(rt; counts(&text) == [7, 3, 1, 2, 0, 2, 2, 1, 0, 0]);
    assert!(rt; coded(text.count([1u64, 0, 2, 0, 2, 0].as_slice())) == 1);
    assert!(rt; coded(text.count([1u64, 0, 2, 0, 2, 0, 1].as_slice())) == 0);
    Ok(())
}

#[test]
fn no_other_words_of_header_and_directory_are_opened(rt: HostRuntime) -> Result<(), Fail> {
    let mut words = *small_text();
    assert!(rt; opened(words.as_mut_slice()) == 0);
    Ok(())
}

#[test]
fn each_flipped_bit_of_the_sections_leaves_a_possible_count(rt: HostRuntime) -> Result<(), Fail> {
    let mut words = *small_text();
    assert!(rt; impossible_counts(words.as_mut_slice()) == 0);
    Ok(())
}

/// The positions of a pattern without the first `from` of them, at most four, or 9 where none was written.
fn located(text: &TextView<'_>, pattern: &[u64], from: usize) -> [usize; 5] {
    let mut out = [9usize; 4];
    let count = coded(text.locate(pattern, from, out.as_mut_slice()));
    [count, out[0], out[1], out[2], out[3]]
}

#[test]
fn patterns_are_located(rt: HostRuntime) -> Result<(), Fail> {
    let Some(text) = TextView::open(small_text().as_slice()) else {
        assert!(rt; false, "not opened");
        return Ok(());
    };
    assert!(rt; located(&text, [].as_slice(), 0) == [4, 6, 5, 3, 1]);
    assert!(rt; located(&text, [].as_slice(), 4) == [3, 0, 4, 2, 9]);
    assert!(rt; located(&text, [0u64].as_slice(), 0) == [3, 5, 3, 1, 9]);
    assert!(rt; located(&text, [0u64, 2].as_slice(), 0) == [2, 3, 1, 9, 9]);
    assert!(rt; located(&text, [0u64, 2].as_slice(), 1) == [1, 1, 9, 9, 9]);
    assert!(rt; located(&text, [0u64, 2].as_slice(), 2) == [0, 9, 9, 9, 9]);
    assert!(rt; located(&text, [3u64].as_slice(), 0) == [0, 9, 9, 9, 9]);
    Ok(())
}

#[test]
fn parts_are_extracted(rt: HostRuntime) -> Result<(), Fail> {
    let Some(text) = TextView::open(small_text().as_slice()) else {
        assert!(rt; false, "not opened");
        return Ok(());
    };
    let mut all = [9u64; 6];
    assert!(rt; coded(text.extract(0, all.as_mut_slice())) == 6);
    assert!(rt; all == [1, 0, 2, 0, 2, 0]);
    let mut three = [9u64; 3];
    assert!(rt; coded(text.extract(2, three.as_mut_slice())) == 3);
    assert!(rt; three == [2, 0, 2]);
    assert!(rt; coded(text.extract(4, three.as_mut_slice())) == 100);
    let mut none = [0u64; 0];
    assert!(rt; coded(text.extract(6, none.as_mut_slice())) == 0);
    assert!(rt; coded(text.extract(7, none.as_mut_slice())) == 100);
    Ok(())
}
