//! One level: which bits exactly one hash falls on, and which hashes go on.
ghost use Rattle.std.specs.Prelude.{◌≡◌, ℕ, ◌+◌, ◌*◌, ◌<◌, ◌≤◌, ◌^◌, false, length, nat_lt, replicate, take, OnOk};
ghost use Rattle.bit_lists.specs.Bits.{bits_of, item, IsShort};
ghost use Rattle.perfect_hash.specs.Levels.{hits, IsLevel, left_of};
ghost use Rattle.perfect_hash.specs.Positions.{position_in};

use crate::levels::placing::{Placing, Plain};
use bit_words::words;
use bitm_tables::source::counts::ReadCounts;
use std::alloc::AllocError;

/// Words in which a level is made, used again from level to level.
#[derive(Drop)]
pub(crate) struct Buffers {
    pub(crate) hit: Vec<u64>,
    pub(crate) again: Vec<u64>,
}

/// Makes the buffer the given number of words that are 0, in the memory that it has where that is enough.
fn zero(buffer: &mut Vec<u64>, words: usize) -> Result<(), AllocError>
    ensures { OnOk result (buffer.new.items ≡ replicate words 0) }
{
    buffer.clear();
    buffer.resize(words, 0)?;
    Ok(())
}

/// Marks the bits that some hash falls on, and the bits that two hashes fall on.
///
/// # Conditions
/// All bits are 0; there are as many of both, and some, but fewer than 2^58 words.
fn mark<P: Placing>(
    placing: &P,
    begin: usize,
    hashes: &[u64],
    level: u32,
    hit: &mut [u64],
    again: &mut [u64],
)
    requires same { length again.old ≡ length hit.old }
    requires some { 0 < length hit.old }
    requires short { begin + length hit.old < 2 ^ 58 }
    requires clear { (i : ℕ) → item (bits_of hit.old) i ≡ false }
    requires clear_again { (i : ℕ) → item (bits_of again.old) i ≡ false }
    ensures once { (p : ℕ) → p < 64 * length hit.old → item (bits_of hit.new) p
        ≡ nat_lt 0 (hits (P.fall placing.now begin) hashes.now level (length hit.old) p) }
    ensures twice { (p : ℕ) → p < 64 * length hit.old → item (bits_of again.new) p
        ≡ nat_lt 1 (hits (P.fall placing.now begin) hashes.now level (length hit.old) p) }
{
    let words = hit.len();
    for hash in hashes {
        let position = placing.position(begin, *hash, level, words, &mut ReadCounts::new());
        if words::get_bit(hit, position) {
            words::set_bit(again, position);
        } else {
            words::set_bit(hit, position);
        }
    }
}

/// Makes each bit that exactly one hash falls on a 1 bit. Also writes `again`, whose bits mean nothing afterwards.
///
/// # Conditions
/// All bits are 0; there are as many of both, and some, but fewer than 2^58 words.
fn fill<P: Placing>(
    placing: &P,
    begin: usize,
    hashes: &[u64],
    level: u32,
    ones: &mut [u64],
    again: &mut [u64],
)
    requires same { length again.old ≡ length ones.old }
    requires some { 0 < length ones.old }
    requires short { begin + length ones.old < 2 ^ 58 }
    requires clear { (i : ℕ) → item (bits_of ones.old) i ≡ false }
    requires clear_again { (i : ℕ) → item (bits_of again.old) i ≡ false }
    ensures level { IsLevel (P.fall placing.now begin) hashes.now (bits_of ones.new) level 0
        (length ones.old) }
    ensures len { length ones.new ≡ length ones.old }
{
    mark(placing, begin, hashes, level, ones, again);
    words::and_not(ones, again);
}

/// Makes `buffers.hit` the level of the hashes: of the given number of words, whose 1 bits are the bits that exactly
/// one of them falls on.
///
/// # Conditions
/// The level has a word, and ends before word 2^58.
/// # Errors
/// `AllocError` if memory was refused.
#[tactic(auto, using(bit_lists::proofs::BitLaws::zeros_have_no_ones))]
pub(crate) fn make_level<P: Placing>(
    placing: &P,
    begin: usize,
    buffers: &mut Buffers,
    hashes: &[u64],
    level: u32,
    size: usize,
) -> Result<(), AllocError>
    requires some { 0 < size }
    requires short { begin + size < 2 ^ 58 }
    ensures len { OnOk result (length buffers.new.hit.items ≡ size) }
    ensures level { OnOk result
        (IsLevel (P.fall placing.now begin) hashes.now (bits_of buffers.new.hit.items) level 0
        size) }
{
    zero(&mut buffers.hit, size)?;
    zero(&mut buffers.again, size)?;
    fill(
        placing,
        begin,
        hashes,
        level,
        buffers.hit.as_mut_slice(),
        buffers.again.as_mut_slice(),
    );
    Ok(())
}

/// Moves the hashes that do not fall on a 1 bit to the start of the list, in their order, and answers how many they
/// are.
///
/// # Conditions
/// The level has a word, and ends before word 2^58.
pub(crate) fn keep_left<P: Placing>(
    placing: &P,
    begin: usize,
    hashes: &mut [u64],
    level: u32,
    ones: &[u64],
) -> usize
    requires some { 0 < length ones.now }
    requires short { begin + length ones.now < 2 ^ 58 }
    ensures left { take result hashes.new
        ≡ left_of (P.fall placing.now begin) hashes.old (bits_of ones.now) level 0
        (length ones.now) }
    ensures few { result ≤ length hashes.old }
{
    let mut kept = 0;
    for i in 0..hashes.len() {
        let hash = hashes[i];
        let position = placing.position(begin, hash, level, ones.len(), &mut ReadCounts::new());
        if !words::get_bit(ones, position) {
            hashes[kept] = hash;
            kept += 1;
        }
    }
    kept
}

/// Makes `ones` a level of the hashes, whose 1 bits are the bits that exactly one of them falls on. The hashes that
/// fall on no 1 bit go to the start of `hashes`, in their order, and the answer is how many they are.
///
/// For those who build without an allocator: level after level for the hashes that are left, until none is, numbers
/// them as `Levels::build` does. What `again` holds afterwards means nothing.
///
/// # Conditions
/// All bits are 0; there are as many words of both, and some, but fewer than 2^58.
/// # Cost
/// Two passes over the hashes; each hash goes to two random words.
pub fn split_level(hashes: &mut [u64], level: u32, ones: &mut [u64], again: &mut [u64]) -> usize
    requires same { length again.old ≡ length ones.old }
    requires some { 0 < length ones.old }
    requires short { IsShort ones.old }
    requires clear { (i : ℕ) → item (bits_of ones.old) i ≡ false }
    requires clear_again { (i : ℕ) → item (bits_of again.old) i ≡ false }
    ensures level { IsLevel position_in hashes.old (bits_of ones.new) level 0 (length ones.old) }
    ensures left { take result hashes.new
        ≡ left_of position_in hashes.old (bits_of ones.new) level 0 (length ones.old) }
    ensures few { result ≤ length hashes.old }
{
    split_level_by(&Plain, 0, hashes, level, ones, again)
}

/// As `split_level`, where `placing` says on which bits hashes fall, of a level that has `begin` words before it.
///
/// # Conditions
/// The conditions of `split_level`; the level ends before word 2^58.
/// # Cost
/// As `split_level`.
pub fn split_level_by<P: Placing>(
    placing: &P,
    begin: usize,
    hashes: &mut [u64],
    level: u32,
    ones: &mut [u64],
    again: &mut [u64],
) -> usize
    requires same { length again.old ≡ length ones.old }
    requires some { 0 < length ones.old }
    requires short { begin + length ones.old < 2 ^ 58 }
    requires clear { (i : ℕ) → item (bits_of ones.old) i ≡ false }
    requires clear_again { (i : ℕ) → item (bits_of again.old) i ≡ false }
    ensures level { IsLevel (P.fall placing.now begin) hashes.old (bits_of ones.new) level 0
        (length ones.old) }
    ensures left { take result hashes.new ≡ left_of (P.fall placing.now begin) hashes.old
        (bits_of ones.new) level 0 (length ones.old) }
    ensures few { result ≤ length hashes.old }
{
    fill(placing, begin, &*hashes, level, &mut *ones, again);
    keep_left(placing, begin, hashes, level, &*ones)
}
