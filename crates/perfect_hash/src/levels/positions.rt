//! Where a hash falls in a level, and how many words a level has.
ghost use Rattle.std.specs.Prelude.{◌≡◌, ◌*◌, ◌/◌, ◌^◌, ◌<◌};
ghost use Rattle.perfect_hash.specs.Positions.{folded_by, position_in, spread, words_for};

/// The step of the generator: 2^64 divided by the golden ratio, made odd.
pub(crate) const STEP: u64 = 0x9E37_79B9_7F4A_7C15;

/// A number, its higher half folded down by `by` bits, times another: a step that mixes the bits of a hash.
///
/// # Conditions
/// `by` is below 64.
///
/// ```
/// fold(3 << 32, 32, 5);   // 0xf_0000_000f
/// ```
#[inline(always)]
pub fn fold(x: u64, by: u32, times: u64) -> u64
    requires { by < 64 }
    ensures { result ≡ folded_by by times x }
{
    (x ^ (x >> by)).wrapping_mul(times)
}

/// Number `level` of the generator splitmix64 that begins at `hash`: another number for each level.
///
/// # Source
/// Steele, Lea and Flood, 'Fast splittable pseudorandom number generators' (OOPSLA 2014), with the constants of
/// Vigna's splitmix64.
#[inline(always)]
#[tactic(auto, unfolding(crate::specs::Positions::spread))]
pub fn spread_at(hash: u64, level: u32) -> u64
    ensures { result ≡ spread hash level }
{
    let start = hash.wrapping_add((level as u64 + 1).wrapping_mul(STEP));
    let half = fold(start, 30, 0xBF58_476D_1CE4_E5B9);
    let z = fold(half, 27, 0x94D0_49BB_1331_11EB);
    z ^ (z >> 31)
}

/// The fraction `x / 2^64` of the number of bits, rounded down: a product and a shift, which take less time than a
/// remainder.
///
/// # Source
/// Lemire, 'Fast random integer generation in an interval' (ACM Transactions on Modeling
/// and Computer Simulation, 2019).
#[inline(always)]
pub(crate) fn scaled(x: u64, bits: usize) -> usize
    requires { 0 < bits }
    ensures at { result ≡ x * bits / 2 ^ 64 }
    ensures inside { result < bits }
{
    ((x as u128 * bits as u128) >> 64) as usize
}

/// The bit of a level of the given number of words that a hash falls on.
///
/// # Conditions
/// There is a word, and fewer than 2^58.
#[inline(always)]
#[tactic(auto, unfolding(crate::specs::Positions::position_in))]
pub(crate) fn position_of(hash: u64, level: u32, words: usize) -> usize
    requires some { 0 < words }
    requires short { words < 2 ^ 58 }
    ensures at { result ≡ position_in hash level words }
    ensures inside { result < 64 * words }
{
    scaled(spread_at(hash, level), 64 * words)
}

/// How many words a level for the given number of keys has: `percent` bits for each 100 keys, no fewer than 50, and at
/// least one word.
pub(crate) fn level_words(percent: u16, keys: usize) -> u128
    ensures { result ≡ words_for percent keys }
{
    keys as u128 * percent.max(50) as u128 / 6400 + 1
}
