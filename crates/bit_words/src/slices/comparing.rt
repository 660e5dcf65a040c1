//! Whether a bit vector has bits of one kind wherever another has 1 bits.
ghost use Rattle.std.specs.Prelude.{◌≡◌, ℕ, ◌*◌, ◌<◌, ◌≤◌, ◌↔◌, IsTrue, length, true};
ghost use Rattle.bit_lists.specs.Bits.{bits_of, digit};
ghost use Rattle.bit_lists.specs.Count.{as_bit};
ghost use Rattle.bit_words.specs.Where.{HasWhere};

use crate::words;

/// Whether `b` has a bit `BIT` wherever `a` has a 1 bit.
#[inline(always)]
fn has_in_word<const BIT: u8>(a: u64, b: u64) -> bool
    ensures { IsTrue result
        ↔ ((j : ℕ) → j < 64 → digit a j ≡ true → digit b j ≡ as_bit BIT) }
{
    if BIT == 0 { a & b == 0 } else { a & !b == 0 }
}

/// Whether the first `len` bits of `b` are bits `BIT` wherever the bits of `a` are 1 bits: with `BIT` 1 the 1 bits of
/// `a` are a subset, and with 0 no 1 bit is in both.
///
/// # Conditions
/// Both have `len` bits.
/// # Cost
/// Each word of both is read once, up to the first that has another bit; the last one twice.
pub fn has_where<const BIT: u8>(a: &[u64], b: &[u64], len: usize) -> bool
    requires a_len { len ≤ 64 * length a.now }
    requires b_len { len ≤ 64 * length b.now }
    ensures { IsTrue result ↔ HasWhere (bits_of a.now) (bits_of b.now) (as_bit BIT) 0 len }
{
    let whole = len / 64;
    for k in 0..whole {
        if !has_in_word::<BIT>(a[k], b[k]) {
            return false;
        }
    }
    let rest = (len % 64) as u8;
    rest == 0
        || has_in_word::<BIT>(
            words::get_bits(a, 64 * whole, rest),
            words::get_bits(b, 64 * whole, rest),
        )
}
