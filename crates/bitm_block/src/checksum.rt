//! The checksums of words: the one of version 4 of the format, and the one of version 3.
ghost use Rattle.std.specs.Prelude.{◌≡◌};
ghost use Rattle.bitm_block.specs.Checksum.{mixed, chain_of, checksum_from, checksum_in, checksum_of};
ghost use Rattle.bitm_block.specs.Checksum.{SeesOneWord};

/// A checksum with one more word.
#[inline(always)]
#[tactic(auto, unfolding(crate::specs::Checksum::mixed))]
fn mix(sum: u64, word: u64) -> u64
    ensures { result ≡ mixed sum word }
{
    let mixed = (sum ^ word).wrapping_mul(0x9E37_79B9_7F4A_7C15);
    mixed ^ (mixed >> 32)
}

/// A checksum with words, one after another.
fn chain(start: u64, words: &[u64]) -> u64
    ensures { result ≡ checksum_from start words.now }
{
    let mut sum = start;
    for word in words {
        sum = mix(sum, *word);
    }
    sum
}

/// The checksum of words by four chains, which a processor computes side by side. Two lists of words that differ in
/// exactly one word have different checksums (`sees_one_word`). It is no defence against an adversary.
///
/// # Cost
/// Each word is read once (evident from the code).
///
/// ```
/// checksum_of([1u64, 2, 3].as_slice());   // 0x3079_8c48_7204_7f92
/// ```
pub fn checksum_of(words: &[u64]) -> u64
    ensures { result ≡ checksum_of words.now }
{
    let fours = words.len() / 4;
    let (mut a, mut b, mut c, mut d) = (words.len() as u64, 1u64, 2u64, 3u64);
    for i in 0..fours {
        a = mix(a, words[4 * i]);
        b = mix(b, words[4 * i + 1]);
        c = mix(c, words[4 * i + 2]);
        d = mix(d, words[4 * i + 3]);
    }
    mix(mix(mix(chain(a, &words[4 * fours..]), b), c), d)
}

/// The checksum of words in blocks of a version. In version 4 it is `checksum_of`, and in version 3 one chain, in which
/// each multiplication waits for the one before it. Of version 3 too two lists of words that differ in exactly one word
/// have different checksums (`sees_one_word`).
///
/// # Cost
/// Each word is read once (evident from the code).
///
/// ```
/// checksum_in(3, [1u64, 2, 3].as_slice());   // 0x17fe_95fe_dfb7_79a5
/// ```
pub fn checksum_in(version: u64, words: &[u64]) -> u64
    ensures { result ≡ checksum_in version words.now }
{
    if version == 3 {
        chain(words.len() as u64, words)
    } else {
        checksum_of(words)
    }
}

/// Two lists of words that differ in exactly one word have different checksums, of each version.
#[tactic(auto, using(crate::proofs::ChecksumLemmas::sees_one_word, crate::proofs::ChecksumLemmas::chain_sees_one_word))]
pub fn sees_one_word()
    ensures four_chains { SeesOneWord checksum_of }
    ensures one_chain { SeesOneWord chain_of }
{}
