//! Tests of what no clause says: that keys are numbered where there is memory, and which keys cause which error.
use bitm::{ArrayWithRank101111, GetSize};
use perfect_hash::{
    BuildError, Dictionary, Grouped, KeyHash, PerfectHash, Placing, Plain, Seeded, SeededBytes,
    build, build_by,
};
use std::alloc::Global;
use std::process::Abort;

/// More keys than any test takes.
const MOST: usize = 9000;

type Numbers<H, P> = PerfectHash<H, ArrayWithRank101111, P>;

/// Keys, no two of them the same.
fn some_keys() -> [u64; MOST] {
    let mut keys = [0u64; MOST];
    for i in 0..MOST {
        let key = i as u64;
        keys[i] = key.wrapping_mul(key).wrapping_add(key.wrapping_mul(17));
    }
    keys
}

/// Whether two answers are the same.
fn are_equal(found: Option<usize>, wanted: Option<usize>) -> bool {
    found == wanted
}

/// Whether the keys have numbers of their own below their count, by single calls and by one call for all.
fn differ<H: KeyHash<u64>, P: Placing>(numbers: &Numbers<H, P>, keys: &[u64]) -> bool {
    if keys.len() > MOST {
        return false;
    }
    let mut many = [0usize; MOST];
    let mut seen = [false; MOST];
    numbers.get_many(keys, &mut many[..keys.len()]);
    for i in 0..keys.len() {
        let number = many[i];
        if number >= keys.len() || seen[number] || !are_equal(numbers.get(&keys[i]), Some(number)) {
            return false;
        }
        seen[number] = true;
    }
    true
}

/// How many bytes the perfect hash of these keys takes, where each key has its own number below their count; `None`
/// where they are refused, or two of them have one number.
fn numbered<H: KeyHash<u64> + Drop, P: Placing + GetSize>(
    alloc: Global,
    placing: P,
    hasher: H,
    keys: &[u64],
    percent: u16,
) -> Option<usize> {
    match build_by(alloc, placing, hasher, keys, percent) {
        Ok(numbers) => differ(&numbers, keys).then_some(numbers.size_bytes_dyn()),
        Err(_) => None,
    }
}

/// The same without seeds for each group of keys.
fn are_numbered(alloc: Global, keys: &[u64], percent: u16) -> bool {
    numbered(alloc, Plain, Seeded { seed: 1 }, keys, percent).is_some()
}

/// The same with this number of seeds for each group of keys.
fn grouped(alloc: Global, keys: &[u64], tries: u16) -> Option<usize> {
    let placing = Grouped::new(alloc, tries);
    numbered(alloc, placing, Seeded { seed: 1 }, keys, 100)
}

#[test]
fn keys_get_numbers_of_their_own(rt: HostRuntime) {
    let keys = some_keys();
    for count in [0usize, 1, 2, 3, 64, 65, 1000, 5000] {
        for percent in [0u16, 50, 100, 200] {
            assert!(rt; are_numbered(rt.alloc(), &keys[..count.min(MOST)], percent));
        }
    }
}

#[test]
fn by_seeds_keys_get_numbers_of_their_own(rt: HostRuntime) {
    let keys = some_keys();
    for count in [0usize, 1, 2, 64, 65, 5000] {
        for tries in [0u16, 1, 16, 300] {
            assert!(rt; grouped(rt.alloc(), &keys[..count.min(MOST)], tries).is_some());
        }
    }
    // Under 2.4 bits a key.
    let bytes = grouped(rt.alloc(), keys.as_slice(), 64);
    assert!(rt; bytes.unwrap_or(usize::MAX) < 9000 * 24 / 80);
}

/// Whether keys are refused for this reason.
fn is_refused_by<H: KeyHash<u64> + Drop, P: Placing>(
    alloc: Global,
    placing: P,
    hasher: H,
    keys: &[u64],
    error: BuildError,
) -> bool {
    match build_by(alloc, placing, hasher, keys, 100) {
        Ok(_) => false,
        Err(refused) => refused.error == error,
    }
}

#[test]
fn by_seeds_equal_keys_collide(rt: HostRuntime) {
    let placing = Grouped::new(rt.alloc(), 16);
    let (hasher, keys) = (Seeded { seed: 1 }, [1u64, 2, 1]);
    let error = BuildError::KeysCollide(2);
    assert!(rt; is_refused_by(rt.alloc(), placing, hasher, keys.as_slice(), error));
}

/// Gives all keys one hash.
#[derive(Drop)]
struct Same;

impl KeyHash<u64> for Same {
    ghost hash = { λ _ key. 7 };

    fn hash(&self, _key: &u64) -> u64 {
        7
    }
}

/// Whether keys are refused for this reason without seeds.
fn is_refused<H: KeyHash<u64> + Drop>(
    alloc: Global,
    hasher: H,
    keys: &[u64],
    error: BuildError,
) -> bool {
    match build(alloc, hasher, keys, 100) {
        Ok(_) => false,
        Err(refused) => refused.error == error,
    }
}

#[test]
fn equal_keys_and_bad_hashes_collide(rt: HostRuntime) {
    let (twice, two) = ([1u64, 2, 1], BuildError::KeysCollide(2));
    assert!(rt; is_refused(rt.alloc(), Seeded { seed: 1 }, twice.as_slice(), two));
    let (keys, three) = ([1u64, 2, 3], BuildError::KeysCollide(3));
    assert!(rt; is_refused(rt.alloc(), Same, keys.as_slice(), three));
}

/// Words of bytes.
const WORDS: [&[u8]; 5] = [b"one", b"two", b"three", b"", b"four"];

/// Whether the words have numbers of their own below their count, by calls that count.
fn words_differ<H: KeyHash<&'static [u8]>>(numbers: &Numbers<H, Plain>) -> bool {
    let mut seen = [false; 5];
    for key in WORDS {
        match numbers.get_counted(&key).0 {
            Some(number) if number < 5 && !seen[number] => seen[number] = true,
            _ => return false,
        }
    }
    true
}

/// Whether the words are taken, and have such numbers.
fn words_are_numbered<H: KeyHash<&'static [u8]> + Drop>(alloc: Global, hasher: H) -> bool {
    match build(alloc, hasher, WORDS.as_slice(), 100) {
        Ok(numbers) => words_differ(&numbers),
        Err(_) => false,
    }
}

#[test]
fn words_of_bytes_get_numbers_of_their_own(rt: HostRuntime) {
    assert!(rt; words_are_numbered(rt.alloc(), SeededBytes { seed: 1 }));
}

/// Whether a dictionary of these keys numbers them as their perfect hash, and finds no stranger, and the bytes of the
/// perfect hash are its levels' words, its two tables of an entry each, and its sizes.
fn agree<H: KeyHash<u64>>(
    found: &Dictionary<H, ArrayWithRank101111, Plain>,
    numbers: &Numbers<H, Plain>,
    keys: &[u64],
) -> bool {
    let words = numbers.index().content().len();
    let mut agrees = numbers.size_bytes_dyn() == 8 * (words + 2 + numbers.levels());
    for key in keys {
        let number = numbers.get(key);
        agrees &= are_equal(found.get(key), number) & !are_equal(number, None);
    }
    for stranger in 100..1100u64 {
        agrees &= are_equal(found.get(&stranger), None);
    }
    agrees
}

/// Whether a dictionary of these keys and a clone of its perfect hash do so.
fn copy_agrees<H: KeyHash<u64> + Copy>(
    alloc: Global,
    found: &Dictionary<H, ArrayWithRank101111, Plain>,
    keys: &[u64],
) -> bool {
    match found.numbers().try_clone(alloc) {
        Ok(copy) => agree(found, &copy, keys),
        Err(_) => false,
    }
}

/// Whether a dictionary is made of these keys, and that holds of it.
fn dictionary_agrees<H: KeyHash<u64> + Copy>(alloc: Global, hasher: H, keys: &[u64]) -> bool {
    let Ok(numbers) = build(alloc, hasher, keys, 100) else {
        return false;
    };
    match Dictionary::build(alloc, numbers, keys, 32) {
        Ok(found) => copy_agrees(alloc, &found, keys),
        Err(_) => false,
    }
}

#[test]
fn a_dictionary_finds_its_keys_and_no_strangers(rt: HostRuntime) {
    let keys = [3u64, 1, 4, 15, 9, 26, 5, 35];
    assert!(rt; dictionary_agrees(rt.alloc(), Seeded { seed: 1 }, keys.as_slice()));
}
