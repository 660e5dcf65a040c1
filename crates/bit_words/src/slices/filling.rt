//! Numbers that are all made the same.
ghost use Rattle.std.specs.Prelude.{◌≡◌, ℕ, ◌*◌, ◌%◌, ◌^◌, ◌<◌, ◌≤◌, ◌↔◌, IsTrue, false, length};
ghost use Rattle.bit_lists.specs.Bits.{bits_of, item};
ghost use Rattle.bit_lists.specs.Number.{number_at};

use crate::words;

/// Makes the first `count` numbers of an array of numbers of `width` bits the lowest bits of `value`. Answers false
/// exactly where they are not all among the first `len` bits, or `width` is above 64, and nothing is written then.
///
/// # Conditions
/// There are `len` bits.
pub fn fill_fragments_in(
    words: &mut [u64],
    len: usize,
    width: u32,
    value: u64,
    count: usize,
) -> bool
    requires { len ≤ 64 * length words.old }
    ensures done { IsTrue result ↔ (width ≤ 64) × (count * width ≤ len) }
    ensures numbers { IsTrue result → (k : ℕ) → k < count
        → number_at (bits_of words.new) (k * width) width ≡ value % 2 ^ width }
    ensures beyond { IsTrue result → (i : ℕ) → count * width ≤ i
        → item (bits_of words.new) i ≡ item (bits_of words.old) i }
    ensures unchanged { result ≡ false → words.new ≡ words.old }
{
    match count.checked_mul(width as usize) {
        Some(end) if width <= 64 && end <= len => {}
        _ => return false,
    }
    fill(words, width as u8, value, count);
    true
}

/// Makes the first `count` numbers of `width` bits the lowest bits of `value`.
#[inline(always)]
fn fill(words: &mut [u64], width: u8, value: u64, count: usize)
    requires width { width ≤ 64 }
    requires inside { count * width ≤ 64 * length words.old }
    requires fits { count * width < 2 ^ 64 }
    ensures numbers { (k : ℕ) → k < count
        → number_at (bits_of words.new) (k * width) width ≡ value % 2 ^ width }
    ensures beyond { (i : ℕ) → count * width ≤ i
        → item (bits_of words.new) i ≡ item (bits_of words.old) i }
{
    if width == 0 {
        return;
    }
    for index in 0..count {
        words::try_set_fragment_0_64(words, index, value, width);
    }
}
