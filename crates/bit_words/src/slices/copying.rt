//! Ranges of bits that are copied.
ghost use Rattle.std.specs.Prelude.{◌≡◌, ◌+◌, ◌*◌, ◌%◌, ◌<◌, ◌≤◌, ◌^◌, length};
ghost use Rattle.bit_lists.specs.Bits.{bits_of};
ghost use Rattle.bit_lists.specs.Number.{number_at, with_number};
ghost use Rattle.bit_words.specs.Copied.{IsCopied};

use crate::words;

/// Copies fewer than 64 bits.
#[inline(always)]
fn copy_bits(to: &mut [u64], to_begin: usize, from: &[u64], from_begin: usize, width: u8)
    requires to_inside { to_begin + width ≤ 64 * length to.old }
    requires from_inside { from_begin + width ≤ 64 * length from.now }
    requires width { width ≤ 63 }
    ensures { bits_of to.new ≡ with_number (bits_of to.old) to_begin width
        (number_at (bits_of from.now) from_begin width) }
{
    if width == 0 {
        return;
    }
    let value = words::get_bits(from, from_begin, width);
    words::set_bits(to, to_begin, value, width);
}

/// Copies 64 bits into word `at`; where `SHIFTED` is 0, they are one word.
#[inline(always)]
fn copy_word<const SHIFTED: u8>(to: &mut [u64], at: usize, from: &[u64], from_begin: usize)
    requires to_inside { at < length to.old }
    requires from_inside { from_begin + 64 ≤ 64 * length from.now }
    requires whole { SHIFTED ≡ 0 → from_begin % 64 ≡ 0 }
    ensures { bits_of to.new ≡ with_number (bits_of to.old) (64 * at) 64
        (number_at (bits_of from.now) from_begin 64) }
{
    if SHIFTED == 0 {
        to[at] = from[from_begin / 64];
        return;
    }
    to[at] = words::get_bits_unmasked(from, from_begin, 64);
}

/// Copies bits into the `count` words from word `first` on; whole words where `SHIFTED` is 0.
#[inline(always)]
fn copy_each_word<const SHIFTED: u8>(
    to: &mut [u64],
    first: usize,
    from: &[u64],
    from_begin: usize,
    count: usize,
)
    requires to_inside { first + count ≤ length to.old }
    requires from_inside { from_begin + 64 * count ≤ 64 * length from.now }
    requires fits { from_begin + 64 * count < 2 ^ 64 }
    requires whole { SHIFTED ≡ 0 → from_begin % 64 ≡ 0 }
    ensures { IsCopied (bits_of from.now) from_begin (bits_of to.old) (64 * first) (64 * count)
        (bits_of to.new) }
{
    let mut done = 0;
    // A loop over single words would be compiled to a call of C's `memcpy`, and the archive for C calls nothing.
    while count - done >= 2 {
        copy_word::<SHIFTED>(&mut *to, first + done, from, from_begin + 64 * done);
        copy_word::<SHIFTED>(
            &mut *to,
            first + done + 1,
            from,
            from_begin + 64 * (done + 1),
        );
        done += 2;
    }
    if done < count {
        copy_word::<SHIFTED>(to, first + done, from, from_begin + 64 * done);
    }
}

/// Copies bits into the `count` words from word `first` on.
#[inline(always)]
fn copy_words(to: &mut [u64], first: usize, from: &[u64], from_begin: usize, count: usize)
    requires to_inside { first + count ≤ length to.old }
    requires from_inside { from_begin + 64 * count ≤ 64 * length from.now }
    requires fits { from_begin + 64 * count < 2 ^ 64 }
    ensures { IsCopied (bits_of from.now) from_begin (bits_of to.old) (64 * first) (64 * count)
        (bits_of to.new) }
{
    if from_begin % 64 == 0 {
        copy_each_word::<0>(to, first, from, from_begin, count);
    } else {
        copy_each_word::<1>(to, first, from, from_begin, count);
    }
}

/// Replaces the `count` bits of `to` from `to_begin` on by the bits of `from` from `from_begin` on.
///
/// # Conditions
/// Both ranges are inside their words, and end at positions that a `usize` holds.
/// # Cost
/// Each word of `to` is written once, those at both ends are read too, and of each word of `from` two reads are made.
pub fn copy_range(to: &mut [u64], to_begin: usize, from: &[u64], from_begin: usize, count: usize)
    requires to_inside { to_begin + count ≤ 64 * length to.old }
    requires from_inside { from_begin + count ≤ 64 * length from.now }
    requires to_fits { to_begin + count < 2 ^ 64 }
    requires from_fits { from_begin + count < 2 ^ 64 }
    ensures { IsCopied (bits_of from.now) from_begin (bits_of to.old) to_begin count
        (bits_of to.new) }
{
    let head = ((64 - to_begin % 64) % 64).min(count);
    copy_bits(&mut *to, to_begin, from, from_begin, head as u8);
    let whole = (count - head) / 64;
    copy_words(
        &mut *to,
        (to_begin + head) / 64,
        from,
        from_begin + head,
        whole,
    );
    let done = head + 64 * whole;
    copy_bits(
        to,
        to_begin + done,
        from,
        from_begin + done,
        (count - done) as u8,
    );
}
