//! Writes for which a closure decides, that is called exactly once.
ghost use Rattle.std.specs.Prelude.{◌≡◌, ℕ, ◌*◌, ◌^◌, ◌<◌, ◌≤◌, Some, MatchOption};
ghost use Rattle.bit_lists.specs.Bits.{bits_of};
ghost use Rattle.bit_lists.specs.Number.{number_at, with_number, with_number_if, IsInRange, IsFragmentInRange};

use crate::reading::get_bits;
use crate::writing::set_bits;

/// The `s` bits from `begin` on as a number, lowest first, as they were: `new_value`, called once on that number,
/// answers what replaces them, or `None` where they stay.
///
/// # Conditions
/// The bits are in range; `s` is 0 to 63; the closure may be called on their number, and whatever answer it gives is
/// below 2^`s`.
#[inline(always)]
pub fn conditionally_change_bits<F: FnOnce(u64) -> Option<u64>>(
    words: &mut [u64],
    new_value: F,
    begin: usize,
    s: u8,
) -> u64
    requires in_range { IsInRange words.old begin s }
    requires width { s ≤ 63 }
    requires callable { F.pre new_value (number_at (bits_of words.old) begin s) }
    requires fits { let old = number_at (bits_of words.old) begin s in
        (v : ℕ) → F.post new_value old (Some v) → v < 2 ^ s }
    ensures old { result ≡ number_at (bits_of words.old) begin s }
    ensures after { (answer : _) × F.post new_value result answer
        × MatchOption answer (words.new ≡ words.old)
        (λ v. bits_of words.new ≡ with_number (bits_of words.old) begin s v) }
{
    let old = get_bits(words, begin, s);
    if let Some(v) = new_value(old) {
        set_bits(words, begin, v, s);
    }
    old
}

/// Fragment `index` of width `s` as a number, lowest bit first, as it was: `new_value`, called once on that number,
/// answers what replaces it, or `None` where it stays.
///
/// # Conditions
/// The fragment is in range; `s` is 0 to 63; the closure may be called on its number, and whatever answer it gives is
/// below 2^`s`.
#[inline(always)]
pub fn conditionally_change_fragment<F: FnOnce(u64) -> Option<u64>>(
    words: &mut [u64],
    new_value: F,
    index: usize,
    s: u8,
) -> u64
    requires in_range { IsFragmentInRange words.old index s }
    requires width { s ≤ 63 }
    requires callable { F.pre new_value (number_at (bits_of words.old) (index * s) s) }
    requires fits { let old = number_at (bits_of words.old) (index * s) s in
        (v : ℕ) → F.post new_value old (Some v) → v < 2 ^ s }
    ensures old { result ≡ number_at (bits_of words.old) (index * s) s }
    ensures after { (answer : _) × F.post new_value result answer
        × MatchOption answer (words.new ≡ words.old)
        (λ v. bits_of words.new ≡ with_number (bits_of words.old) (index * s) s v) }
{
    conditionally_change_bits(words, new_value, index * s as usize, s)
}

/// Replaces the `s` bits from `begin` on by the bits of `src` at the same position, where `predicate`, called once on
/// the two numbers, the old one first, answers true.
///
/// # Conditions
/// The bits are in range in both; `s` is 0 to 63; the closure may be called on the two numbers.
#[inline(always)]
pub fn conditionally_copy_bits<F: FnOnce(u64, u64) -> bool>(
    words: &mut [u64],
    src: &[u64],
    predicate: F,
    begin: usize,
    s: u8,
)
    requires in_range { IsInRange words.old begin s }
    requires in_source { IsInRange src.now begin s }
    requires width { s ≤ 63 }
    requires callable { F.pre predicate (number_at (bits_of words.old) begin s)
        (number_at (bits_of src.now) begin s) }
    ensures { let old = number_at (bits_of words.old) begin s in
        let new = number_at (bits_of src.now) begin s in
        (taken : _) × F.post predicate old new taken
        × (bits_of words.new ≡ with_number_if taken (bits_of words.old) begin s new) }
{
    let old = get_bits(words, begin, s);
    let new = get_bits(src, begin, s);
    if predicate(old, new) {
        set_bits(words, begin, new, s);
    }
}

/// Replaces fragment `index` of width `s` by the same fragment of `src`, where `predicate`, called once on the two
/// numbers, the old one first, answers true.
///
/// # Conditions
/// The fragment is in range in both; `s` is 0 to 63; the closure may be called on the two numbers.
#[inline(always)]
pub fn conditionally_copy_fragment<F: FnOnce(u64, u64) -> bool>(
    words: &mut [u64],
    src: &[u64],
    predicate: F,
    index: usize,
    s: u8,
)
    requires in_range { IsFragmentInRange words.old index s }
    requires in_source { IsFragmentInRange src.now index s }
    requires width { s ≤ 63 }
    requires callable { F.pre predicate (number_at (bits_of words.old) (index * s) s)
        (number_at (bits_of src.now) (index * s) s) }
    ensures { let old = number_at (bits_of words.old) (index * s) s in
        let new = number_at (bits_of src.now) (index * s) s in
        (taken : _) × F.post predicate old new taken
        × (bits_of words.new
        ≡ with_number_if taken (bits_of words.old) (index * s) s new) }
{
    conditionally_copy_bits(words, src, predicate, index * s as usize, s);
}
