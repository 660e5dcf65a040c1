//! The block of five strings: its words, its answers, and the answers of other words in its place.
use crate::strings::blocks::{BLOCK, FNV_BLOCK};
use bitm_block::checksum_in;
use hash_block::strings::{
    Answer, BuildError, FNV_STRINGS, STRINGS, StringsView, build, check, hash, hashes, open, size,
};
use hash_block::{Added, HashView, build_of};
use perfect_hash::build as build_hash;
use std::process::Abort;
use std::test::Fail;

/// The strings one after another.
const NAMES: [u8; 22] = *b"adaboba longer nameeve";

/// Where each of them ends.
const ENDS: [usize; 5] = [3, 3, 6, 19, 22];

/// The seed of their hashes.
const SEED: u64 = 1;

/// How many of the strings of a list are found at a number whose string they are.
fn found_of(strings: &StringsView<'_>, bytes: &[u8], ends: &[usize]) -> usize {
    let mut found = 0usize;
    let mut begin = 0usize;
    for end in ends {
        if begin <= *end && *end <= bytes.len() {
            if let Answer::Found(number) = strings.find(&bytes[begin..*end]) {
                if let Answer::Found((_, len)) = strings.get(number) {
                    found = found.wrapping_add((len == *end - begin) as usize);
                }
            }
        }
        begin = *end;
    }
    found
}

/// How many of the strings of one byte are found.
fn found_of_one_byte(strings: &StringsView<'_>) -> usize {
    let mut found = 0usize;
    for byte in 0..=255u8 {
        if let Answer::Found(_) = strings.find([byte].as_slice()) {
            found = found.wrapping_add(1);
        }
    }
    found
}

/// How many bits of the words can be flipped, one at a time, so that they are accepted all the same.
fn unseen_flips(words: &mut [u64]) -> usize {
    let mut unseen = 0usize;
    for i in 0..words.len() {
        for bit in 0..64u32 {
            words[i] ^= 1u64 << bit;
            unseen = unseen.wrapping_add(check(&*words) as usize);
            words[i] ^= 1u64 << bit;
        }
    }
    unseen
}

/// Writes the right checksums of the sections after the first, of the directory and of the header.
fn sum_up(words: &mut [u64; 112]) {
    let version = words[0] >> 56;
    words[23] = checksum_in(version, &words.as_slice()[96..102]);
    words[27] = checksum_in(version, &words.as_slice()[104..107]);
    words[14] = checksum_in(version, &words.as_slice()[16..32]);
    words[15] = checksum_in(version, &words.as_slice()[..15]);
}

/// Whether strings that end at the given positions are written, and why not.
fn built(
    hash: &HashView<'_>,
    bytes: &[u8],
    ends: &[usize],
    block: &mut [u64],
) -> Option<BuildError> {
    match build(hash, bytes, ends, block) {
        Ok(()) => None,
        Err(error) => Some(error),
    }
}

#[test]
fn strings_are_written_and_found(rt: HostRuntime) -> Result<(), Fail> {
    let mut sums = [0u64; 5];
    assert!(rt; hashes(SEED, NAMES.as_slice(), ENDS.as_slice(), sums.as_mut_slice()));
    assert!(rt; sums[1] == hash(SEED, b"".as_slice()));
    let Ok(made) = build_hash(rt.alloc(), Added { seed: 0 }, sums.as_slice(), 100) else {
        assert!(rt; false, "refused");
        return Ok(());
    };
    let mut of_hash = [0u64; 64];
    assert!(rt; build_of(&made, SEED, of_hash.as_mut_slice()).is_ok());
    let Some(hash) = hash_block::open(of_hash.as_slice()) else {
        assert!(rt; false, "not opened");
        return Ok(());
    };
    assert!(rt; size(1, 1, 5, 22) == Some(112));
    let mut block = [0x5555_5555_5555_5555u64; 112];
    assert!(rt;
        built(
            &hash,
            NAMES.as_slice(),
            ENDS.as_slice(),
            block.as_mut_slice()
        ) == None
    );
    assert!(rt; block == BLOCK);
    assert!(rt; check(block.as_slice()));
    let Some(strings) = open(block.as_slice()) else {
        assert!(rt; false, "not opened");
        return Ok(());
    };
    assert!(rt; strings.kind() == STRINGS);
    assert!(rt; strings.len() == 5 && found_of(&strings, NAMES.as_slice(), ENDS.as_slice()) == 5);
    assert!(rt; found_of_one_byte(&strings) == 0);
    assert!(rt; strings.get(5) == Answer::Absent);
    Ok(())
}

#[test]
fn what_is_not_numbered_is_refused(rt: HostRuntime) -> Result<(), Fail> {
    let of_hash = &BLOCK.as_slice()[32..96];
    let Some(hash) = hash_block::open(of_hash) else {
        assert!(rt; false, "not opened");
        return Ok(());
    };
    let mut block = [7u64; 112];
    let (names, ends) = (NAMES.as_slice(), ENDS.as_slice());
    // the block is too short, ends fall, or do not take all of the bytes
    let short = &mut block.as_mut_slice()[..111];
    assert!(rt; built(&hash, names, ends, short) == Some(BuildError::WrongLength));
    let falling = [3, 6, 3, 19, 22];
    let all = block.as_mut_slice();
    assert!(rt; built(&hash, names, falling.as_slice(), &mut *all) == Some(BuildError::NotGiven));
    assert!(rt; built(&hash, &names[..21], ends, &mut *all) == Some(BuildError::NotGiven));
    assert!(rt; block == [7u64; 112]);
    // two equal strings, a string less, and another string
    let all = block.as_mut_slice();
    let twice = *b"adaboba longer nameada";
    assert!(rt; built(&hash, twice.as_slice(), ends, &mut *all) == Some(BuildError::NotNumbered));
    assert!(rt; built(&hash, &names[..19], &ends[..4], &mut *all) == Some(BuildError::NotNumbered));
    let other = *b"adaboba longer nameEve";
    assert!(rt; built(&hash, other.as_slice(), ends, &mut *all) == Some(BuildError::NotNumbered));
    Ok(())
}

#[test]
fn each_flipped_bit_is_seen(rt: HostRuntime) -> Result<(), Fail> {
    let mut words = BLOCK;
    assert!(rt; unseen_flips(words.as_mut_slice()) == 0);
    let mut words = FNV_BLOCK;
    assert!(rt; unseen_flips(words.as_mut_slice()) == 0);
    Ok(())
}

#[test]
fn strings_of_kind_10_are_checked_and_found(rt: HostRuntime) -> Result<(), Fail> {
    assert!(rt; check(FNV_BLOCK.as_slice()));
    let Some(strings) = open(FNV_BLOCK.as_slice()) else {
        assert!(rt; false, "not opened");
        return Ok(());
    };
    assert!(rt; strings.kind() == FNV_STRINGS && strings.len() == 5);
    assert!(rt; found_of(&strings, NAMES.as_slice(), ENDS.as_slice()) == 5);
    assert!(rt; found_of_one_byte(&strings) == 0);
    Ok(())
}

#[test]
fn strings_of_another_kind_have_other_numbers(rt: HostRuntime) -> Result<(), Fail> {
    let mut words = FNV_BLOCK;
    words[1] = STRINGS;
    sum_up(&mut words);
    assert!(rt; open(words.as_slice()).is_some() && !check(words.as_slice()));
    let mut words = BLOCK;
    words[1] = FNV_STRINGS;
    sum_up(&mut words);
    assert!(rt; open(words.as_slice()).is_some() && !check(words.as_slice()));
    words[1] = 11;
    sum_up(&mut words);
    assert!(rt; open(words.as_slice()).is_none());
    Ok(())
}

#[test]
fn words_that_hold_no_strings_are_refused_by_check(rt: HostRuntime) -> Result<(), Fail> {
    // a letter changed, with the right checksums: ada is Ada, which does not stand at its number
    let mut words = BLOCK;
    words[106] ^= 0x20;
    sum_up(&mut words);
    assert!(rt; !check(words.as_slice()));
    let Some(strings) = open(words.as_slice()) else {
        assert!(rt; false, "not opened");
        return Ok(());
    };
    assert!(rt; found_of(&strings, NAMES.as_slice(), ENDS.as_slice()) == 4);
    // a byte after the last string
    let mut words = BLOCK;
    words[106] |= 1 << 63;
    sum_up(&mut words);
    assert!(rt; !check(words.as_slice()));
    // starts that fall
    let mut words = BLOCK;
    words[98] = u64::MAX;
    sum_up(&mut words);
    assert!(rt; !check(words.as_slice()));
    let Some(strings) = open(words.as_slice()) else {
        assert!(rt; false, "not opened");
        return Ok(());
    };
    assert!(rt; strings.get(1) == Answer::Wrong && strings.get(2) == Answer::Wrong);
    assert!(rt; strings.get(3) == Answer::Found((16, 3)));
    Ok(())
}

#[test]
fn other_sections_are_no_strings(rt: HostRuntime) -> Result<(), Fail> {
    // another number of strings, and another role of each section
    let mut words = BLOCK;
    words[3] = 4;
    sum_up(&mut words);
    assert!(rt; open(words.as_slice()).is_none());
    for at in 0..3usize {
        let mut words = BLOCK;
        words[16 + 4 * at] = 9;
        sum_up(&mut words);
        assert!(rt; open(words.as_slice()).is_none());
    }
    Ok(())
}
