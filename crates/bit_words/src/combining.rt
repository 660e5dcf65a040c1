//! Bitwise operations of two bit vectors of one length, word by word: and, or, exclusive or, and one without the other.
ghost use Rattle.std.specs.Prelude.{◌≡◌, ◌*◌, ◌<◌, ◌&&◌, ◌||◌, ℕ, not, if◌then◌else◌, length};
ghost use Rattle.bit_lists.specs.Bits.{bits_of, digit, item};
ghost use Rattle.bit_words.specs.Combined.{combined};

const AND: u8 = 0;

pub(crate) const OR: u8 = 1;

pub(crate) const XOR: u8 = 2;

pub(crate) const AND_NOT: u8 = 3;

/// Two words, combined bit by bit.
#[inline(always)]
pub(crate) fn combined<const OP: u8>(a: u64, b: u64) -> u64
    ensures { (j : ℕ) → j < 64 → digit result j ≡ combined OP (digit a j) (digit b j) }
{
    if OP == AND {
        a & b
    } else if OP == OR {
        a | b
    } else if OP == XOR {
        a ^ b
    } else {
        a & !b
    }
}

/// Combines each word with the other at its index.
#[inline(always)]
fn combine<const OP: u8>(words: &mut [u64], other: &[u64])
    requires { length words.old ≡ length other.now }
    ensures bits { (i : ℕ) → i < 64 * length words.old → item (bits_of words.new) i
        ≡ combined OP (item (bits_of words.old) i) (item (bits_of other.now) i) }
    ensures len { length words.new ≡ length words.old }
{
    for k in 0..words.len() {
        words[k] = combined::<OP>(words[k], other[k]);
    }
}

/// Leaves a bit 1 exactly where the other bit vector has a 1 bit too.
///
/// # Conditions
/// Both have the same number of words.
#[inline]
pub fn and(words: &mut [u64], other: &[u64])
    requires { length words.old ≡ length other.now }
    ensures bits { (i : ℕ) → i < 64 * length words.old → item (bits_of words.new) i
        ≡ (item (bits_of words.old) i && item (bits_of other.now) i) }
    ensures len { length words.new ≡ length words.old }
{
    combine::<AND>(words, other);
}

/// Makes a bit 1 where the other bit vector has a 1 bit.
///
/// # Conditions
/// Both have the same number of words.
#[inline]
pub fn or(words: &mut [u64], other: &[u64])
    requires { length words.old ≡ length other.now }
    ensures bits { (i : ℕ) → i < 64 * length words.old → item (bits_of words.new) i
        ≡ (item (bits_of words.old) i || item (bits_of other.now) i) }
    ensures len { length words.new ≡ length words.old }
{
    combine::<OR>(words, other);
}

/// Negates a bit where the other bit vector has a 1 bit.
///
/// # Conditions
/// Both have the same number of words.
#[inline]
pub fn xor(words: &mut [u64], other: &[u64])
    requires { length words.old ≡ length other.now }
    ensures bits { (i : ℕ) → i < 64 * length words.old → item (bits_of words.new) i
        ≡ (if item (bits_of other.now) i then not (item (bits_of words.old) i)
        else item (bits_of words.old) i) }
    ensures len { length words.new ≡ length words.old }
{
    combine::<XOR>(words, other);
}

/// Makes a bit 0 where the other bit vector has a 1 bit.
///
/// # Conditions
/// Both have the same number of words.
#[inline]
pub fn and_not(words: &mut [u64], other: &[u64])
    requires { length words.old ≡ length other.now }
    ensures bits { (i : ℕ) → i < 64 * length words.old → item (bits_of words.new) i
        ≡ (item (bits_of words.old) i && not (item (bits_of other.now) i)) }
    ensures len { length words.new ≡ length words.old }
{
    combine::<AND_NOT>(words, other);
}
