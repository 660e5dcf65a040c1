//! The block of seven numbers with a note: its words, its answers, and what is refused.
use bitm_block::{Block, Section};
use block_sections::{ExtendError, extend, extended_size};
use sequence_block::{Answer, check, open};
use std::process::Abort;
use std::test::Fail;

/// The block of the numbers 2, 3, 5, 7, 11, 13 and 24, as a program in Python made it from the tables of
/// docs/FORMAT.md.
const PLAIN: [u64; 64] = [
    0x046261746d746962,
    0x0000000000000003,
    0x0000000000000200,
    0x0000000000000007,
    0x0000000000000001,
    0x0000000000000000,
    0x0000000000000000,
    0x0000000000000000,
    0x0000000000000000,
    0x0000000000000000,
    0x0000000000000000,
    0x0000000000000004,
    0x0000000000000000,
    0x0000000000000000,
    0xafcf3260ef18e354,
    0x991d9e4736e48afc,
    0x0000000000000001,
    0x0000000000000100,
    0x0000000000000001,
    0x6167cdd58045d726,
    0x0000000000000002,
    0x0000000000000140,
    0x0000000000000001,
    0xa37da37158bd2c5f,
    0x0000000000000003,
    0x0000000000000180,
    0x0000000000000001,
    0x88858817877cf213,
    0x0000000000000009,
    0x00000000000001c0,
    0x0000000000000001,
    0x059cb294c469d5af,
    0x0000000000040a56,
    0x0000000000000000,
    0x0000000000000000,
    0x0000000000000000,
    0x0000000000000000,
    0x0000000000000000,
    0x0000000000000000,
    0x0000000000000000,
    0x0000000000000000,
    0x0000000000000000,
    0x0000000000000000,
    0x0000000000000000,
    0x0000000000000000,
    0x0000000000000000,
    0x0000000000000000,
    0x0000000000000000,
    0x01c0380700000000,
    0x0000000000000000,
    0x0000000000000000,
    0x0000000000000000,
    0x0000000000000000,
    0x0000000000000000,
    0x0000000000000000,
    0x0000000000000000,
    0x000000000000003e,
    0x0000000000000000,
    0x0000000000000000,
    0x0000000000000000,
    0x0000000000000000,
    0x0000000000000000,
    0x0000000000000000,
    0x0000000000000000,
];

/// The same with the note, as that program made it.
const NOTED: [u64; 80] = [
    0x046261746d746962,
    0x0000000000000003,
    0x0000000000000280,
    0x0000000000000007,
    0x0000000000000001,
    0x0000000000000000,
    0x0000000000000000,
    0x0000000000000000,
    0x0000000000000000,
    0x0000000000000000,
    0x0000000000000000,
    0x0000000000000005,
    0x0000000000000000,
    0x0000000000000000,
    0x5fd4714f8817c1e8,
    0xd9f3deceab56e5e1,
    0x0000000000000001,
    0x0000000000000140,
    0x0000000000000001,
    0x6167cdd58045d726,
    0x0000000000000002,
    0x0000000000000180,
    0x0000000000000001,
    0xa37da37158bd2c5f,
    0x0000000000000003,
    0x00000000000001c0,
    0x0000000000000001,
    0x88858817877cf213,
    0x0000000000000009,
    0x0000000000000200,
    0x0000000000000001,
    0x059cb294c469d5af,
    0x0000000000010000,
    0x0000000000000240,
    0x000000000000000b,
    0x1fa1f3119c5d1c48,
    0x0000000000000000,
    0x0000000000000000,
    0x0000000000000000,
    0x0000000000000000,
    0x0000000000040a56,
    0x0000000000000000,
    0x0000000000000000,
    0x0000000000000000,
    0x0000000000000000,
    0x0000000000000000,
    0x0000000000000000,
    0x0000000000000000,
    0x0000000000000000,
    0x0000000000000000,
    0x0000000000000000,
    0x0000000000000000,
    0x0000000000000000,
    0x0000000000000000,
    0x0000000000000000,
    0x0000000000000000,
    0x01c0380700000000,
    0x0000000000000000,
    0x0000000000000000,
    0x0000000000000000,
    0x0000000000000000,
    0x0000000000000000,
    0x0000000000000000,
    0x0000000000000000,
    0x000000000000003e,
    0x0000000000000000,
    0x0000000000000000,
    0x0000000000000000,
    0x0000000000000000,
    0x0000000000000000,
    0x0000000000000000,
    0x0000000000000000,
    0x6f77206f6c6c6568,
    0x0000000000646c72,
    0x0000000000000000,
    0x0000000000000000,
    0x0000000000000000,
    0x0000000000000000,
    0x0000000000000000,
    0x0000000000000000,
];

/// The block without the note of version 3, as that program made it: another mark, and other checksums.
fn plain_of_version_3() -> [u64; 64] {
    let mut words = PLAIN;
    words[0] = 0x036261746d746962;
    words[14] = 0x20ad70a9d843a330;
    words[15] = 0xe15c736f3a69dbcc;
    words[19] = 0xd6819a2dcdfd670e;
    words[23] = 0x9e3779b9e17d05ac;
    words[27] = 0x8925764cf66f0a59;
    words[31] = 0xefa6f4a6bcf27d8d;
    words
}

/// The note is `hello world`.
const NOTE: Section = Section {
    role: 65536,
    count: 11,
};

const WORDS: [u64; 2] = [0x6f77_206f_6c6c_6568, 0x646c72];

/// The error of a block that is extended by the note, or none; whether 80 words to write to are kept then.
fn error_of(block: &[u64]) -> (Option<ExtendError>, bool) {
    let mut to = [7u64; 80];
    match extend(block, &NOTE, WORDS.as_slice(), to.as_mut_slice()) {
        Ok(()) => (None, false),
        Err(error) => (Some(error), to == [7u64; 80]),
    }
}

/// How many bits of the words can be flipped, one at a time, so that the block is extended all the same.
fn extended_flips(words: &mut [u64]) -> usize {
    let mut extended = 0usize;
    for i in 0..words.len() {
        for bit in 0..64u32 {
            words[i] ^= 1u64 << bit;
            extended = extended.wrapping_add(error_of(&*words).0.is_none() as usize);
            words[i] ^= 1u64 << bit;
        }
    }
    extended
}

/// Whether the words are a block as it was written.
fn is_right(words: &[u64]) -> bool {
    match Block::open(words) {
        Ok(block) => block.verify(),
        Err(_) => false,
    }
}

/// How many sections a block has.
fn sections_in(words: &[u64]) -> usize {
    match Block::open(words) {
        Ok(block) => block.sections(),
        Err(_) => 99,
    }
}

/// Number `i` of the sequence in a block, or 1000.
fn number_in(block: &[u64], i: usize) -> u64 {
    match open(block).map(|sequence| sequence.get(i)) {
        Some(Answer::Found(number)) => number,
        _ => 1000,
    }
}

#[test]
fn a_note_is_added(rt: HostRuntime) -> Result<(), Fail> {
    let plain = PLAIN;
    assert!(rt; extended_size(plain.as_slice(), &NOTE) == Some(80));
    let mut to = [0x5555_5555_5555_5555u64; 80];
    assert!(rt; extend(plain.as_slice(), &NOTE, WORDS.as_slice(), to.as_mut_slice()).is_ok());
    assert!(rt; to == NOTED);
    assert!(rt; is_right(to.as_slice()));
    Ok(())
}

#[test]
fn a_block_of_version_3_becomes_one_of_version_4(rt: HostRuntime) -> Result<(), Fail> {
    let mut old = plain_of_version_3();
    assert!(rt; check(old.as_slice()) && number_in(old.as_slice(), 6) == 24);
    assert!(rt; extended_size(old.as_slice(), &NOTE) == Some(80));
    let mut to = [0x5555_5555_5555_5555u64; 80];
    assert!(rt; extend(old.as_slice(), &NOTE, WORDS.as_slice(), to.as_mut_slice()).is_ok());
    assert!(rt; to == NOTED);
    // and what was spoiled of it gets no right checksum either
    old[32] ^= 1;
    assert!(rt; error_of(old.as_slice()) == (Some(ExtendError::NotVerified), true));
    Ok(())
}

#[test]
fn the_sequence_is_that_of_before(rt: HostRuntime) -> Result<(), Fail> {
    let noted = NOTED;
    assert!(rt; check(noted.as_slice()));
    assert!(rt; number_in(noted.as_slice(), 0) == 2);
    assert!(rt; number_in(noted.as_slice(), 6) == 24);
    assert!(rt; number_in(noted.as_slice(), 7) == 1000);
    Ok(())
}

#[test]
fn what_was_spoiled_gets_no_right_checksum(rt: HostRuntime) -> Result<(), Fail> {
    let mut plain = PLAIN;
    assert!(rt; extended_flips(plain.as_mut_slice()) == 0);
    // in the header and the directory, in a section, and in the zeros after one
    plain[1] ^= 1;
    assert!(rt; error_of(plain.as_slice()) == (Some(ExtendError::NotABlock), true));
    plain[1] ^= 1;
    plain[32] ^= 1;
    assert!(rt; error_of(plain.as_slice()) == (Some(ExtendError::NotVerified), true));
    plain[32] ^= 1;
    plain[63] = 1;
    assert!(rt; error_of(plain.as_slice()) == (Some(ExtendError::NotVerified), true));
    let whole = PLAIN;
    assert!(rt; error_of(&whole.as_slice()[..63]) == (Some(ExtendError::NotABlock), true));
    Ok(())
}

#[test]
fn each_error_has_its_reason(rt: HostRuntime) -> Result<(), Fail> {
    let plain = PLAIN;
    let block = plain.as_slice();
    let mut to = [7u64; 80];
    let long = Section {
        role: 65536,
        count: 1 << 58,
    };
    assert!(rt; extended_size(block, &long).is_none());
    assert!(rt;
        extend(block, &long, [].as_slice(), to.as_mut_slice()) == Err(ExtendError::TooLarge)
    );
    assert!(rt;
        extend(block, &NOTE, &WORDS.as_slice()[..1], to.as_mut_slice())
            == Err(ExtendError::WrongWords)
    );
    assert!(rt;
        extend(block, &NOTE, WORDS.as_slice(), &mut to.as_mut_slice()[..79])
            == Err(ExtendError::WrongLength)
    );
    assert!(rt; to == [7u64; 80]);
    Ok(())
}

/// Extends a block by a section of no words, to the front of `to`: the length of what was written, or 0.
fn extended_by_none(block: &[u64], to: &mut [u64]) -> usize {
    let none = Section { role: 9, count: 0 };
    let Some(len) = extended_size(block, &none) else {
        return 0;
    };
    if len > to.len() {
        return 0;
    }
    match extend(block, &none, [].as_slice(), &mut to[..len]) {
        Ok(()) => len,
        Err(_) => 0,
    }
}

/// Extends the block of the first 64 words twelve times, where it is: the length at the end.
fn extended_in_place(words: &mut [u64]) -> usize {
    let mut len = 64usize;
    for _ in 0..12usize {
        if len > words.len() {
            return 0;
        }
        let mut to = [0u64; 128];
        len = extended_by_none(&words[..len], to.as_mut_slice());
        for i in 0..128usize {
            if i < words.len() {
                words[i] = to[i];
            }
        }
    }
    len
}

/// How many sections the block of the first `len` words has, whether it is right, and whether it can be extended.
fn read_of(words: &[u64], len: usize) -> (usize, bool, bool) {
    if len > words.len() {
        return (99, false, false);
    }
    let block = &words[..len];
    (
        sections_in(block),
        is_right(block),
        extended_size(block, &NOTE).is_some(),
    )
}

#[test]
fn sixteen_sections_and_no_more(rt: HostRuntime) -> Result<(), Fail> {
    let mut words = [0u64; 128];
    for i in 0..64usize {
        words[i] = PLAIN[i];
    }
    let len = extended_in_place(words.as_mut_slice());
    assert!(rt; len == 112);
    assert!(rt; read_of(words.as_slice(), len) == (16, true, false));
    Ok(())
}
