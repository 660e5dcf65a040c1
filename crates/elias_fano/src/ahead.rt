//! Low bits of the next numbers, read for several numbers at once, for a walk in order.
ghost use Rattle.std.specs.Prelude.{◌≡◌, ◌*◌, ◌^◌, ◌<◌, ◌≤◌, MatchOption};
ghost use Rattle.elias_fano.specs.Ahead.{IsAhead};
ghost use Rattle.elias_fano.specs.Low.{unread, HasFragments};

use bit_words::words;

/// Low bits that are not used yet; the next number's are the lowest.
#[derive(Copy, Clone, Drop)]
pub(crate) struct Ahead {
    // The number before which the numbers stand whose digits these are.
    pub(crate) until: usize,
    pub(crate) digits: u64,
}

impl Ahead {
    /// No bits, before number `until`.
    #[inline(always)]
    pub(crate) fn nothing(until: usize) -> Ahead
        ensures until { result.until ≡ until }
        ensures digits { result.digits ≡ 0 }
    {
        Ahead { until, digits: 0 }
    }
}

// A word has three fragments of this width. To read two at once costs more than it saves.
const WIDEST: u8 = 21;

/// Of how many numbers the low bits are read at once, `width` of each; 0 where it does not pay.
#[inline(always)]
pub(crate) fn numbers_at_once(width: u8) -> usize
    ensures fit { result * width ≤ 64 }
    ensures some { 1 ≤ result → 1 ≤ width }
{
    if width == 0 || width > WIDEST {
        return 0;
    }
    64 / width as usize
}

/// The bits ahead of number `at`, read anew where none are left, of at most `most` numbers before number `end`; `None`
/// exactly where `end` is reached.
///
/// # Conditions
/// `low` has a fragment for each number, and `most` of them, one or more, take at most 64 bits.
#[inline(always)]
pub(crate) fn look_ahead(
    low: &[u64],
    width: u8,
    most: usize,
    at: usize,
    end: usize,
    ahead: Ahead,
) -> Option<Ahead>
    requires fragments { HasFragments (unread low.now width) end }
    requires some { 1 ≤ most }
    requires fit { most * width ≤ 64 }
    requires width { 1 ≤ width }
    requires ahead { IsAhead low.now width at end ahead.until ahead.digits }
    ensures { MatchOption result (end ≤ at)
        (λ a. (at < a.until) × IsAhead low.now width at end a.until a.digits) }
{
    if at < ahead.until {
        return Some(ahead);
    }
    if at >= end {
        return None;
    }
    let count = most.min(end - at);
    let wide = count * width as usize;
    Some(Ahead {
        until: at + count,
        digits: words::get_bits_unmasked(low, at * width as usize, wide as u8),
    })
}
