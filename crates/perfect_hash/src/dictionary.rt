//! Numbers of keys, and `None` for almost all values that are no keys: a static dictionary.
ghost use Rattle.std.specs.Prelude.{◌≡◌, ◌*◌, ◌^◌, ◌<◌, ◌≤◌, length, IfOk, IfErr};
ghost use Rattle.std.specs.Box.{boxed_slice_items};
ghost use Rattle.std.specs.Int.{div_ceil};
ghost use Rattle.bit_lists.specs.Count.{ones_of};
ghost use Rattle.perfect_hash.specs.Dictionary.{found_of, print_of, ArePrints, HasPrintRoom, IsDictionary};
ghost use Rattle.perfect_hash.specs.Parts.{number_at};
ghost use Rattle.perfect_hash.specs.Perfect.{IsMinimalPerfect};

use crate::levels::{KeyHash, Placing, Plain, spread_at};
use crate::table::PerfectHash;
use bit_words::{n_lowest_bits, words};
use bitm::{Access, ArrayWithRank101111};
use bitm_bits::BitVec;
use std::alloc::{AllocError, Global};
use std::boxed::BoxedSlice;
use std::marker::Model;

/// The spread number that a fingerprint is taken from: the levels have the spread numbers before it.
const PRINT: u32 = 256;

/// A perfect hash with a fingerprint of each key, by which it finds almost all values that are no keys.
///
/// The fingerprint of a key stands at its number, as a fragment of `width` bits. A value that is no key is found only
/// if its fingerprint equals the fingerprint of the key with its number: if hashes are as good as random, with
/// probability 2^-`width`.
#[derive(Drop)]
pub struct Dictionary<H, I: Access = ArrayWithRank101111, P: Placing = Plain> {
    numbers: PerfectHash<H, I, P>,
    prints: BoxedSlice<u64, Global>,
    width: u8,
}

impl<H, I: Access, P: Placing> Model for Dictionary<H, I, P> {
    ghost use Rattle.std.specs.Box.{boxed_slice_items};
    ghost use Rattle.perfect_hash.specs.Dictionary.{Entries, HasPrintRoom};

    ghost Value = { Entries H I P };

    ghost view = { λ d. record {
      numbers = d.numbers;
      prints = boxed_slice_items d.prints;
      width = d.width;
    } };

    ghost invariant = { λ d. HasPrintRoom d.numbers.bits (boxed_slice_items d.prints) d.width };
}

/// The fingerprint of a hash.
#[inline(always)]
fn print(hash: u64, width: u8) -> u64
    requires { width ≤ 32 }
    ensures value { result ≡ print_of width hash }
    ensures fits { result < 2 ^ width }
{
    spread_at(hash, PRINT) & n_lowest_bits(width)
}

/// Writes the fingerprint of each key at its number.
///
/// # Conditions
/// The perfect hash is of these keys, and there is room for a fingerprint at each number.
fn write_prints<K, H: KeyHash<K>, I: Access, P: Placing>(
    numbers: &PerfectHash<H, I, P>,
    keys: &[K],
    width: u8,
    prints: &mut [u64],
)
    requires perfect { IsMinimalPerfect (number_at P.fall H.hash numbers.now) keys.now }
    requires room { HasPrintRoom numbers.now.bits prints.old width }
    ensures prints { ArePrints (number_at P.fall H.hash numbers.now)
        (λ k. print_of width (H.hash numbers.now.hasher k)) keys.now prints.new width }
    ensures len { length prints.new ≡ length prints.old }
{
    for key in keys {
        let hash = numbers.hash(key);
        match numbers.number(hash) {
            Some(number) => words::set_fragment(prints, number, print(hash, width), width),
            None => {}
        }
    }
}

/// The fingerprints of the keys, each at the number of its key.
///
/// # Conditions
/// The perfect hash is of these keys; `width` is 1 to 32.
/// # Errors
/// `AllocError` if memory was refused, as it is where the fingerprints would have 2^64 bits or more.
fn make_prints<K, H: KeyHash<K>, I: Access, P: Placing>(
    alloc: Global,
    numbers: &PerfectHash<H, I, P>,
    keys: &[K],
    width: u8,
) -> Result<BoxedSlice<u64, Global>, AllocError>
    requires perfect { IsMinimalPerfect (number_at P.fall H.hash numbers.now) keys.now }
    requires some { 0 < width }
    requires few { width ≤ 32 }
    ensures room { IfOk result (λ prints. HasPrintRoom numbers.now.bits (boxed_slice_items prints) width) }
    ensures prints { IfOk result (λ prints. ArePrints (number_at P.fall H.hash numbers.now)
        (λ k. print_of width (H.hash numbers.now.hasher k)) keys.now (boxed_slice_items prints) width) }
    ensures size { IfOk result (λ prints.
        length (boxed_slice_items prints) ≡ div_ceil (ones_of numbers.now.bits * width) 64) }
{
    let index = numbers.index();
    let Some(bits) = index.rank(index.len()).checked_mul(width as usize) else {
        return Err(AllocError);
    };
    let mut prints = BoxedSlice::with_zeroed_bits(alloc, bits)?;
    write_prints(numbers, keys, width, prints.as_mut_slice());
    Ok(prints)
}

impl<H, I: Access, P: Placing> Dictionary<H, I, P> {
    /// A dictionary of the keys of a perfect hash, with fingerprints of `width` bits, in as few words as these take.
    ///
    /// # Conditions
    /// The perfect hash is of these keys; `width` is 1 to 32.
    /// # Errors
    /// The perfect hash, if memory was refused.
    pub fn build<K>(
        alloc: Global,
        numbers: PerfectHash<H, I, P>,
        keys: &[K],
        width: u8,
    ) -> Result<Self, PerfectHash<H, I, P>>
    where
        H: KeyHash<K>,
        requires perfect { IsMinimalPerfect (number_at P.fall H.hash numbers) keys.now }
        requires some { 0 < width }
        requires few { width ≤ 32 }
        ensures dictionary { IfOk result (λ made. IsDictionary (found_of P.fall H.hash made)
            (λ k. print_of width (H.hash numbers.hasher k)) keys.now) }
        ensures kept { IfOk result (λ made. made.numbers ≡ numbers) }
        ensures width { IfOk result (λ made. made.width ≡ width) }
        ensures size { IfOk result (λ made.
            length made.prints ≡ div_ceil (ones_of numbers.bits * width) 64) }
        ensures numbers_back { IfErr result (λ back. back ≡ numbers) }
    {
        match make_prints(alloc, &numbers, keys, width) {
            Ok(prints) => Ok(Dictionary {
                numbers,
                prints,
                width,
            }),
            Err(AllocError) => Err(numbers),
        }
    }

    /// The perfect hash.
    #[inline(always)]
    pub fn numbers(&self) -> &PerfectHash<H, I, P>
        ensures { result.now ≡ self.now.numbers }
    {
        &self.numbers
    }

    /// The number of a key; of a value that is no key, `None`, unless its fingerprint equals the fingerprint of the key
    /// with its number.
    ///
    /// # Cost
    /// What `PerfectHash::get` takes, and one fragment.
    #[inline]
    pub fn get<K>(&self, key: &K) -> Option<usize>
    where
        H: KeyHash<K>,
        ensures { result ≡ found_of P.fall H.hash self.now key.now }
    {
        let hash = self.numbers.hash(key);
        let Some(number) = self.numbers.number(hash) else {
            return None;
        };
        let print_there = words::get_fragment(self.prints.as_slice(), number, self.width);
        if print_there == print(hash, self.width) {
            Some(number)
        } else {
            None
        }
    }
}
