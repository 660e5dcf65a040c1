//! Bits at a list of positions that are all made the same.
ghost use Rattle.std.specs.Prelude.{◌≡◌, ◌*◌, ◌≤◌, length};
ghost use Rattle.bit_lists.specs.Bits.{bits_of};
ghost use Rattle.bit_lists.specs.Count.{as_bit};
ghost use Rattle.bit_words.specs.Listed.{outside_of, IsSetAt};

use crate::words;

/// Makes the bits at the positions below `len` equal to `one`, and answers how many positions are not below `len`.
///
/// # Conditions
/// There are `len` bits.
/// # Cost
/// Each position is read once, and the word of each that is inside is read and written.
pub fn set_listed_in(words: &mut [u64], len: usize, one: bool, positions: &[usize]) -> usize
    requires { len ≤ 64 * length words.old }
    ensures outside { result ≡ outside_of len positions.now }
    ensures bits { IsSetAt (bits_of words.old) len one positions.now (bits_of words.new) }
{
    if one {
        set_listed::<1>(words, len, positions)
    } else {
        set_listed::<0>(words, len, positions)
    }
}

/// As `set_listed_in`, where it is known which bit is written.
#[inline(always)]
fn set_listed<const BIT: u8>(words: &mut [u64], len: usize, positions: &[usize]) -> usize
    requires { len ≤ 64 * length words.old }
    ensures outside { result ≡ outside_of len positions.now }
    ensures bits { IsSetAt (bits_of words.old) len (as_bit BIT) positions.now (bits_of words.new) }
{
    let mut outside = 0;
    for position in positions {
        if *position < len {
            words::set_bit_to(&mut *words, *position, BIT != 0);
        } else {
            outside += 1;
        }
    }
    outside
}
