//! The block of a dictionary of twelve numbers: its words, its answers, and the answers of other words in its place.
use bitm_block::checksum_of;
use hash_block::{
    Added, Answer, BuildError, DictionaryView, build_dictionary, check, check_dictionary,
    dictionary_size, open, open_dictionary,
};
use perfect_hash::build;
use std::process::Abort;
use std::test::Fail;

/// Their block, as a program in Python made it from the tables of docs/FORMAT.md: the squares of 1 to 12, hashed with
/// the seed 2, at 100 per cent.
const BLOCK: [u64; 88] = [
    0x046261746d746962,
    0x0000000000000005,
    0x00000000000002c0,
    0x000000000000000c,
    0x0000000000000000,
    0x0000000000000000,
    0x0000000000000000,
    0x0000000000000000,
    0x0000000000000002,
    0x0000000000000000,
    0x0000000000000000,
    0x0000000000000005,
    0x0000000000000000,
    0x0000000000000000,
    0x3b203dc93f32fffa,
    0xef61208acb24bb6d,
    0x0000000000000001,
    0x0000000000000140,
    0x0000000000000002,
    0x5654ce93be566489,
    0x0000000000000002,
    0x0000000000000180,
    0x0000000000000001,
    0xa37da37158bd2c5f,
    0x0000000000000003,
    0x00000000000001c0,
    0x0000000000000001,
    0xf8b73c191e0d867b,
    0x0000000000000004,
    0x0000000000000200,
    0x0000000000000002,
    0xda4566576e3ebfd6,
    0x0000000000000005,
    0x0000000000000240,
    0x000000000000000c,
    0x6ab92cc306507aea,
    0x0000000000000000,
    0x0000000000000000,
    0x0000000000000000,
    0x0000000000000000,
    0x0400a02000902884,
    0x0000204000000000,
    0x0000000000000000,
    0x0000000000000000,
    0x0000000000000000,
    0x0000000000000000,
    0x0000000000000000,
    0x0000000000000000,
    0x0000000000000000,
    0x0000000000000000,
    0x0000000000000000,
    0x0000000000000000,
    0x0000000000000000,
    0x0000000000000000,
    0x0000000000000000,
    0x0000000000000000,
    0x0300600c00000000,
    0x0000000000000000,
    0x0000000000000000,
    0x0000000000000000,
    0x0000000000000000,
    0x0000000000000000,
    0x0000000000000000,
    0x0000000000000000,
    0x0000000000000001,
    0x0000000000000001,
    0x0000000000000000,
    0x0000000000000000,
    0x0000000000000000,
    0x0000000000000000,
    0x0000000000000000,
    0x0000000000000000,
    0x0000000000000051,
    0x0000000000000001,
    0x0000000000000040,
    0x0000000000000090,
    0x0000000000000009,
    0x0000000000000031,
    0x0000000000000019,
    0x0000000000000079,
    0x0000000000000004,
    0x0000000000000024,
    0x0000000000000064,
    0x0000000000000010,
    0x0000000000000000,
    0x0000000000000000,
    0x0000000000000000,
    0x0000000000000000,
];

/// The squares of 1 to 12.
fn squares() -> [u64; 12] {
    let mut all = [0u64; 12];
    for i in 0..12usize {
        let root = i as u64 + 1;
        all[i] = root.wrapping_mul(root);
    }
    all
}

/// How many of the numbers below 1000 are found, where each that is found stands at its number.
fn found_below_1000(dictionary: &DictionaryView<'_>) -> usize {
    let mut found = 0usize;
    for key in 0..1000u64 {
        if let Answer::Found(number) = dictionary.find(key) {
            if number < dictionary.keys().len() && dictionary.keys()[number] == key {
                found = found.wrapping_add(1);
            }
        }
    }
    found
}

/// How many of the keys are found.
fn found_of(dictionary: &DictionaryView<'_>, keys: &[u64]) -> usize {
    let mut found = 0usize;
    for key in keys {
        if let Answer::Found(_) = dictionary.find(*key) {
            found = found.wrapping_add(1);
        }
    }
    found
}

/// How many bits of the words can be flipped, one at a time, so that they are accepted all the same.
fn unseen_flips(words: &mut [u64]) -> usize {
    let mut unseen = 0usize;
    for i in 0..words.len() {
        for bit in 0..64u32 {
            words[i] ^= 1u64 << bit;
            unseen = unseen.wrapping_add(check_dictionary(&*words) as usize);
            words[i] ^= 1u64 << bit;
        }
    }
    unseen
}

#[test]
fn keys_are_written_and_found(rt: HostRuntime) -> Result<(), Fail> {
    let keys = squares();
    let Ok(made) = build(rt.alloc(), Added { seed: 2 }, keys.as_slice(), 100) else {
        assert!(rt; false, "refused");
        return Ok(());
    };
    assert!(rt; dictionary_size(2, 2, 12) == Some(88));
    let mut block = [0x5555_5555_5555_5555u64; 88];
    assert!(rt; build_dictionary(&made, keys.as_slice(), block.as_mut_slice()).is_ok());
    assert!(rt; block == BLOCK);
    assert!(rt; check_dictionary(block.as_slice()) && check(block.as_slice()));
    let Some(dictionary) = open_dictionary(block.as_slice()) else {
        assert!(rt; false, "not opened");
        return Ok(());
    };
    assert!(rt; found_of(&dictionary, keys.as_slice()) == 12);
    assert!(rt; found_below_1000(&dictionary) == 12);
    let short = &mut block.as_mut_slice()[..80];
    assert!(rt; build_dictionary(&made, keys.as_slice(), short) == Err(BuildError::WrongLength));
    Ok(())
}

#[test]
fn each_flipped_bit_is_seen(rt: HostRuntime) -> Result<(), Fail> {
    let mut words = BLOCK;
    assert!(rt; unseen_flips(words.as_mut_slice()) == 0);
    Ok(())
}

#[test]
fn keys_at_wrong_numbers_are_refused_by_check(rt: HostRuntime) -> Result<(), Fail> {
    // two keys exchanged, with the right checksums: neither is found, and no other key is lost
    let mut words = BLOCK;
    let first = words[72];
    words[72] = words[73];
    words[73] = first;
    words[35] = checksum_of(&words.as_slice()[72..84]);
    words[14] = checksum_of(&words.as_slice()[16..40]);
    words[15] = checksum_of(&words.as_slice()[..15]);
    assert!(rt; check(words.as_slice()));
    assert!(rt; !check_dictionary(words.as_slice()));
    let Some(dictionary) = open_dictionary(words.as_slice()) else {
        assert!(rt; false, "not opened");
        return Ok(());
    };
    assert!(rt; found_below_1000(&dictionary) == 10);
    Ok(())
}

#[test]
fn a_hash_without_keys_is_no_dictionary(rt: HostRuntime) -> Result<(), Fail> {
    // one key fewer than the header says
    let mut words = BLOCK;
    words[3] = 11;
    words[15] = checksum_of(&words.as_slice()[..15]);
    assert!(rt; open(words.as_slice()).is_some());
    assert!(rt; open_dictionary(words.as_slice()).is_none());
    // another role of the fifth section
    let mut words = BLOCK;
    words[32] = 9;
    words[14] = checksum_of(&words.as_slice()[16..40]);
    words[15] = checksum_of(&words.as_slice()[..15]);
    assert!(rt; open(words.as_slice()).is_some());
    assert!(rt; open_dictionary(words.as_slice()).is_none());
    Ok(())
}
