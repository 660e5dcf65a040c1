//! Sets of numbers as bits of a slice: a member that is added, and what several sets make together, word by word.
ghost use Rattle.std.specs.Prelude.{◌≡◌, ◌≢◌, ◌↔◌, ℕ, ◌+◌, ◌*◌, ◌<◌, length, true, not, ◌&&◌, ◌||◌};
ghost use Rattle.std.specs.Prelude.{slice_index, IsTrue};
ghost use Rattle.bitm.specs.Bits.{bits_of, digit, item, IsShort};

use bitm::words;

/// Adds a number to the set, and no other. Answers false exactly where the number is past the end; the set is as it was
/// then.
#[tactic(auto, using(bitm::proofs::BitLaws::item_after_write, bitm::proofs::BitLaws::bits_are_counted))]
pub fn add(set: &mut [u64], number: usize) -> bool
    ensures done { IsTrue result ↔ (number < 64 * length set.old) }
    ensures added { IsTrue result → item (bits_of set.new) number ≡ true }
    ensures others { (q : ℕ) → q ≢ number
        → item (bits_of set.new) q ≡ item (bits_of set.old) q }
{
    if !words::try_set_bit(set, number) {
        return false;
    }
    true
}

/// Keeps of the set what is wanted and not unwanted, and adds what is given.
///
/// # Conditions
/// All have the same number of words.
pub fn update(set: &mut [u64], wanted: &[u64], unwanted: &[u64], given: &[u64])
    requires wanted { length set.old ≡ length wanted.now }
    requires unwanted { length set.old ≡ length unwanted.now }
    requires given { length set.old ≡ length given.now }
    ensures { (i : ℕ) → i < 64 * length set.old → item (bits_of set.new) i
        ≡ ((item (bits_of set.old) i && item (bits_of wanted.now) i
        && not (item (bits_of unwanted.now) i)) || item (bits_of given.now) i) }
{
    words::and(set, wanted);
    words::and_not(set, unwanted);
    words::or(set, given);
}

/// Leaves in the set the numbers in which it and another set differ.
///
/// # Conditions
/// Both have the same number of words.
pub fn differ(set: &mut [u64], other: &[u64])
    requires { length set.old ≡ length other.now }
    ensures { (i : ℕ) → i < 64 * length set.old → item (bits_of set.new) i ≡ true
        ↔ (item (bits_of set.old) i ≢ item (bits_of other.now) i) }
{
    words::xor(set, other);
}

/// Whether number `i` of the numbers that word `k` holds is in the set: digit `i` of the word.
///
/// # Conditions
/// There is a word `k`, of fewer than 2^58 words, and `i` is below 64.
#[tactic(auto, using(bitm::proofs::BitLaws::bit_is_digit))]
pub fn digit_in(set: &[u64], k: usize, i: usize) -> bool
    requires short { IsShort set.now }
    requires word { k < length set.now }
    requires digit { i < 64 }
    ensures { result ≡ digit (slice_index set.now k) i }
{
    words::get_bit(set, 64 * k + i)
}
