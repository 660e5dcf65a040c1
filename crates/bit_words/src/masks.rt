//! Numbers whose lowest bits are set, how many binary digits a number has, and division that rounds up.
ghost use Rattle.std.specs.Prelude.{◌≡◌, ℕ, ◌-◌, ◌*◌, ◌^◌, ◌<◌, ◌≤◌, min};
ghost use Rattle.bit_lists.specs.Bits.{digit_count};

/// The least number whose product with `d` is at least `n`: exact up to `usize::MAX`.
///
/// # Conditions
/// `d` is above 0.
#[inline(always)]
pub fn ceiling_div(n: usize, d: usize) -> usize
    requires { 0 < d }
    ensures covers { n ≤ result * d }
    ensures least { (q : ℕ) → n ≤ q * d → result ≤ q }
{
    n.div_ceil(d)
}

/// The number with the `count` lowest bits set.
///
/// # Conditions
/// `count` is 0 to 63.
#[inline(always)]
pub fn n_lowest_bits(count: u8) -> u64
    requires { count ≤ 63 }
    ensures { result ≡ 2 ^ count - 1 }
{
    (1u64 << count) - 1
}

/// The number with the `count` lowest bits set.
///
/// # Conditions
/// `count` is 1 to 64.
#[inline(always)]
pub fn n_lowest_bits_1_64(count: u8) -> u64
    requires least { 1 ≤ count }
    requires most { count ≤ 64 }
    ensures { result ≡ 2 ^ count - 1 }
{
    u64::MAX >> (64 - count)
}

/// The number with the `count` lowest bits set; all 64 are where `count` is above 64.
#[inline(always)]
pub fn n_lowest_bits_0_64(count: u8) -> u64
    ensures { result ≡ 2 ^ min count 64 - 1 }
{
    if count >= 64 {
        return u64::MAX;
    }
    n_lowest_bits(count)
}

/// How many binary digits `v` has, none for 0: the width, in bits, that stores it.
#[inline(always)]
#[tactic(auto, using(bit_lists::proofs::lemmas::DigitLemmas::digit_count_from_leading_zeros))]
pub fn bits_to_store(v: u64) -> u8
    ensures { result ≡ digit_count v }
{
    (64 - v.leading_zeros()) as u8
}
