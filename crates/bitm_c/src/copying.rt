//! Copies and comparisons of ranges of bits in the caller's words.
ghost use Rattle.std.specs.Prelude.{◌≡◌, ◌≢◌, ◌≤◌, ◌↔◌};
ghost use Rattle.bit_lists.specs.Bits.{bits_of};
ghost use Rattle.bit_words.specs.Copied.{AreSame, IsCopied};
ghost use Rattle.bitm_abi.specs.Lengths.{HasRange};

use bit_words::slices::{copy_range, is_equal_range};
use bitm_abi::{NONE, OK, has_range};

/// Replaces the `count` bits of `to` from `to_begin` on by the bits of `from` from `from_begin` on.
#[unsafe(no_mangle)]
pub extern "C" fn bitm_bits_copy_range(
    to: &mut [u64],
    to_begin: usize,
    from: &[u64],
    from_begin: usize,
    count: usize,
) -> u32
    ensures ok { (result ≡ 0)
        ↔ (HasRange to.old to_begin count × HasRange from.now from_begin count) }
    ensures copied { result ≡ 0 → IsCopied (bits_of from.now) from_begin (bits_of to.old) to_begin
        count (bits_of to.new) }
    ensures unchanged { result ≢ 0 → (result ≡ 1) × (to.new ≡ to.old) }
{
    if !has_range(&*to, to_begin, count) || !has_range(from, from_begin, count) {
        return NONE;
    }
    copy_range(to, to_begin, from, from_begin, count);
    OK
}

/// Whether the `count` bits of `a` from `a_begin` on equal the bits of `b` from `b_begin` on, as 0 or 1.
#[unsafe(no_mangle)]
pub extern "C" fn bitm_bits_equal_range(
    a: &[u64],
    a_begin: usize,
    b: &[u64],
    b_begin: usize,
    count: usize,
    out: &mut u64,
) -> u32
    ensures ok { (result ≡ 0) ↔ (HasRange a.now a_begin count × HasRange b.now b_begin count) }
    ensures same { result ≡ 0
        → (out.new ≡ 1) ↔ AreSame (bits_of a.now) a_begin (bits_of b.now) b_begin count }
    ensures truth { result ≡ 0 → out.new ≤ 1 }
    ensures unchanged { result ≢ 0 → (result ≡ 1) × (out.new ≡ out.old) }
{
    if !has_range(a, a_begin, count) || !has_range(b, b_begin, count) {
        return NONE;
    }
    *out = is_equal_range(a, a_begin, b, b_begin, count) as u64;
    OK
}
