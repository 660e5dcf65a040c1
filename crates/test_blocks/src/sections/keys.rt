//! The block of a hash of three keys with one section more, which is taken for keys or is not.
use bitm_block::Section;
use block_sections::{extend, extended_size};
use hash_block::{Answer, build, check, check_dictionary, open, open_dictionary};
use std::process::Abort;
use std::test::Fail;

/// The seed of the hash.
const SEED: u64 = 7;

/// The role of a caller's own bytes.
const NOTE: u64 = 65536;

/// The role of keys.
const KEYS: u64 = 5;

/// The block of a hash of three keys: one level of one word.
fn plain() -> [u64; 64] {
    let mut block = [0u64; 64];
    match build(
        [0b1101].as_slice(),
        [1].as_slice(),
        SEED,
        block.as_mut_slice(),
    ) {
        Ok(()) => block,
        Err(_) => [0; 64],
    }
}

/// A block of 64 words with one section more of at most eight words; zeros where there is none.
fn extended_by(block: &[u64], role: u64, count: u64, words: &[u64]) -> [u64; 80] {
    let (section, mut to) = (Section { role, count }, [0u64; 80]);
    if extended_size(block, &section) != Some(80) {
        return [0; 80];
    }
    match extend(block, &section, words, to.as_mut_slice()) {
        Ok(()) => to,
        Err(_) => [0; 80],
    }
}

/// The number of a key, 1000 where there is none, and 1001 where the block is not opened.
fn number_in(block: &[u64], key: u64) -> usize {
    match open(block).map(|hash| hash.get(key.wrapping_add(SEED))) {
        Some(Answer::Found(number)) => number,
        Some(_) => 1000,
        None => 1001,
    }
}

/// Whether a block holds a hash, and numbers each key below 1000 as the plain one.
fn is_the_same(block: &[u64]) -> bool {
    let plain = plain();
    let mut same = check(block);
    for key in 0..1000u64 {
        same = same && number_in(block, key) == number_in(plain.as_slice(), key);
    }
    same
}

/// The least keys with the numbers 0, 1 and 2.
fn least_keys() -> [u64; 3] {
    let (plain, mut keys) = (plain(), [1000u64; 3]);
    for key in 0..1000u64 {
        let number = number_in(plain.as_slice(), key);
        if number < 3 && keys[number] == 1000 {
            keys[number] = key;
        }
    }
    keys
}

/// Whether the words are opened as a dictionary, and whether they hold one.
fn checks_of_keys(block: &[u64]) -> (bool, bool) {
    (open_dictionary(block).is_some(), check_dictionary(block))
}

/// The number of a key in a dictionary, or 1000.
fn found_in(block: &[u64], key: u64) -> usize {
    match open_dictionary(block).map(|dictionary| dictionary.find(key)) {
        Some(Answer::Found(number)) => number,
        _ => 1000,
    }
}

#[test]
fn other_sections_are_not_taken_for_keys(rt: HostRuntime) -> Result<(), Fail> {
    let plain = plain();
    let words = least_keys();
    assert!(rt; check(plain.as_slice()) && checks_of_keys(plain.as_slice()) == (false, false));
    // as many words as there are keys, but of a note, of samples, and of sizes of levels
    for (role, count) in [(NOTE, 24u64), (7, 6), (4, 3)] {
        let more = extended_by(plain.as_slice(), role, count, words.as_slice());
        assert!(rt; is_the_same(more.as_slice()));
        assert!(rt; checks_of_keys(more.as_slice()) == (false, false));
    }
    Ok(())
}

#[test]
fn role_5_with_more_or_fewer_words_is_no_keys(rt: HostRuntime) -> Result<(), Fail> {
    let plain = plain();
    for count in [1usize, 2, 4, 8] {
        let words = [9u64; 8];
        let words = &words.as_slice()[..count];
        let more = extended_by(plain.as_slice(), KEYS, count as u64, words);
        assert!(rt; is_the_same(more.as_slice()));
        assert!(rt; checks_of_keys(more.as_slice()) == (false, false));
    }
    Ok(())
}

#[test]
fn role_5_with_a_word_for_each_key_is_taken_for_keys(rt: HostRuntime) -> Result<(), Fail> {
    let plain = plain();
    let any = extended_by(plain.as_slice(), KEYS, 3, [9, 9, 9].as_slice());
    assert!(rt; is_the_same(any.as_slice()));
    assert!(rt; checks_of_keys(any.as_slice()) == (true, false));
    let keys = least_keys();
    let own = extended_by(plain.as_slice(), KEYS, 3, keys.as_slice());
    assert!(rt; is_the_same(own.as_slice()));
    assert!(rt; checks_of_keys(own.as_slice()) == (true, true));
    for i in 0..3usize {
        assert!(rt; found_in(own.as_slice(), keys[i]) == i);
    }
    Ok(())
}

#[test]
fn a_dictionary_takes_its_fifth_section_alone_for_keys(rt: HostRuntime) -> Result<(), Fail> {
    let (plain, keys) = (plain(), least_keys());
    let own = extended_by(plain.as_slice(), KEYS, 3, keys.as_slice());
    let (other, mut twice) = (
        Section {
            role: KEYS,
            count: 3,
        },
        [0u64; 88],
    );
    assert!(rt; extended_size(own.as_slice(), &other) == Some(88));
    assert!(rt;
        extend(
            own.as_slice(),
            &other,
            [9, 9, 9].as_slice(),
            twice.as_mut_slice()
        )
        .is_ok()
    );
    assert!(rt; is_the_same(twice.as_slice()));
    assert!(rt; checks_of_keys(twice.as_slice()) == (true, true));
    for i in 0..3usize {
        assert!(rt; found_in(twice.as_slice(), keys[i]) == i);
    }
    Ok(())
}

#[test]
fn a_note_before_them_keeps_words_from_being_keys(rt: HostRuntime) -> Result<(), Fail> {
    let (plain, keys) = (plain(), least_keys());
    let noted = extended_by(plain.as_slice(), NOTE, 3, [0x676f64].as_slice());
    let (other, mut twice) = (
        Section {
            role: KEYS,
            count: 3,
        },
        [0u64; 88],
    );
    assert!(rt; extended_size(noted.as_slice(), &other) == Some(88));
    assert!(rt;
        extend(
            noted.as_slice(),
            &other,
            keys.as_slice(),
            twice.as_mut_slice()
        )
        .is_ok()
    );
    assert!(rt; is_the_same(twice.as_slice()));
    assert!(rt; checks_of_keys(twice.as_slice()) == (false, false));
    Ok(())
}
