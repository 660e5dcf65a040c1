//! One line: its digits, and the count of a digit among them by masks and no branch.
ghost use Rattle.std.specs.Prelude.{◌≡◌, ℕ, ◌+◌, ◌-◌, ◌*◌, ◌/◌, ◌%◌, ◌^◌, ◌<◌, ◌≤◌, ◌==◌, length, min};
ghost use Rattle.std.specs.Prelude.{count_ones, Some};
ghost use Rattle.std.specs.Int.{bit_at};
ghost use Rattle.bit_lists.proofs.lemmas.WordLemmas.{truth};
ghost use Rattle.bit_lists.specs.Bits.{IsShort};
ghost use Rattle.digits.specs.Digits.{digits_of, digit_in, digits_before};
ghost use Rattle.digits.specs.Tables.{count_field};

use crate::source::DigitSource;

/// A word whose bit j is 1 exactly where digit j of 64 is `digit`, from the digits' low bits and their high bits.
#[inline(always)]
pub(crate) fn matches(low: u64, high: u64, digit: u8) -> u64
    requires { digit < 4 }
    ensures { (j : ℕ) → j < 64 → bit_at result j ≡ truth (bit_at low j + 2 * bit_at high j == digit) }
{
    let low_turned = (digit as u64 & 1).wrapping_sub(1);
    let high_turned = (digit as u64 >> 1).wrapping_sub(1);
    (low ^ low_turned) & (high ^ high_turned)
}

/// The masks of the first `x` of 128 positions: of the first word's 64, and of the second word's.
#[inline(always)]
fn masks(x: usize) -> (u64, u64)
    requires { x < 128 }
    ensures first { result.0 ≡ 2 ^ (min x 64) - 1 }
    ensures second { result.1 ≡ 2 ^ (x - 64) - 1 }
{
    let full = (x as u64 >> 6).wrapping_neg();
    let part = (1u64 << (x % 64)) - 1;
    (full | part, full & part)
}

/// The number of 1 bits of `word` under a mask of its lowest bits, where `turned` is 0; the number of those above the
/// mask where `turned` has every bit.
#[inline(always)]
fn ones_under(word: u64, mask: u64, turned: u64) -> u64
    ensures few { result ≤ 64 }
    ensures below { (y : ℕ) → y ≤ 64 → mask ≡ 2 ^ y - 1 → turned ≡ 0 → result ≡ count_ones (word % 2 ^ y) }
    ensures above { (y : ℕ) → y ≤ 64 → mask ≡ 2 ^ y - 1 → turned ≡ 2 ^ 64 - 1
        → result + count_ones (word % 2 ^ y) ≡ count_ones (word % 2 ^ 64) }
{
    (word & (mask ^ turned)).count_ones() as u64
}

/// The count of `digit` in a word of four counts.
#[inline(always)]
pub(crate) fn field_of(word: u64, digit: u8) -> u64
    requires { digit < 4 }
    ensures { result ≡ count_field word digit }
{
    word >> (16 * digit) & 0xFFFF
}

/// How many more digits are `digit` before position `position` of the open line than before its position 128, as a
/// number of 64 bits that wraps below 0.
///
/// # Cost
/// Four words of the line are read (evident from the code).
#[inline(always)]
pub(crate) fn from_middle<S: DigitSource>(
    source: &S,
    line: usize,
    digit: u8,
    position: usize,
) -> u64
    requires short { IsShort (S.lists source.now).lines }
    requires open { (S.reads source.now).opened ≡ Some line }
    requires inside { 8 * line + 8 ≤ length (S.lists source.now).lines }
    requires digit { digit < 4 }
    requires position { position < 224 }
    ensures { let digits = digits_of (S.lists source.now).lines in
        (digits_before digit digits (224 * line + 128) + result) % 2 ^ 64
        ≡ digits_before digit digits (224 * line + position) }
{
    let half = position >> 7;
    let turned = (half as u64).wrapping_sub(1);
    let (one, two) = masks(position % 128);
    let low_one = source.word(line, 4 * half + 1);
    let high_one = source.word(line, 4 * half + 2);
    let low_two = source.word(line, 4 * half + 3);
    let high_two = source.word(line, 4 + 3 * half) >> (32 * half);
    let in_first = matches(low_one, high_one, digit);
    let in_second = matches(low_two, high_two, digit);
    let count = ones_under(in_first, one, turned) + ones_under(in_second, two, turned);
    (count ^ turned).wrapping_sub(turned)
}

/// The digit at position `position` of the open line.
///
/// # Cost
/// Two words of the line are read, which are one for its last 32 digits (evident from the code).
#[inline(always)]
pub(crate) fn digit_at<S: DigitSource>(source: &S, line: usize, position: usize) -> u8
    requires short { IsShort (S.lists source.now).lines }
    requires open { (S.reads source.now).opened ≡ Some line }
    requires inside { 8 * line + 8 ≤ length (S.lists source.now).lines }
    requires position { position < 224 }
    ensures value { result ≡ digit_in (S.lists source.now).lines line position }
    ensures few { result < 4 }
{
    let part = position >> 6;
    let last = part / 3;
    let low = source.word(line, 1 + 2 * part);
    let high = source.word(line, 2 + 2 * part - last) >> (32 * last);
    let bit = position % 64;
    ((low >> bit & 1) | (high >> bit & 1) << 1) as u8
}
