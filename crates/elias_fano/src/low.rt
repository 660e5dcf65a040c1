//! The low bits of a sequence's numbers. A search reads a fragment by a call that counts it, and by no other.
ghost use Rattle.std.specs.Prelude.{◌≡◌, ◌↔◌, ◌+◌, ◌<◌, ◌≤◌, ◌^◌, IsTrue};
ghost use Rattle.bit_lists.specs.Number.{IsFragmentInRange};
ghost use Rattle.elias_fano.specs.Low.{fragment, unread, HasFragments};

use bit_words::words;
use bitm_tables::source::counts::ReadCounts;
use std::marker::Model;

/// The words of the low bits, a fragment of `width` bits for each number; each fragment that is read is counted.
///
/// The words may hold anything. The count has no greatest number and takes no bytes at run time; only clauses see it.
#[derive(Drop)]
pub struct LowDigits<'a> {
    words: &'a [u64],
    width: u8,
    // A fragment counts as a word.
    reads: ReadCounts,
}

impl<'a> Model for LowDigits<'a> {
    ghost use Rattle.elias_fano.specs.Low.{Lows};

    ghost Value = { Lows };

    ghost view = { λ d. record { words = d.words.now; width = d.width; read = d.reads.words } };
}

impl<'a> LowDigits<'a> {
    /// The low bits in these words, `width` of each number, with no reads counted yet.
    #[inline(always)]
    pub fn new(words: &'a [u64], width: u8) -> LowDigits<'a>
        ensures { result ≡ unread words.now width }
    {
        LowDigits {
            words,
            width,
            reads: ReadCounts::new(),
        }
    }

    /// How many low bits each number has.
    #[inline(always)]
    pub fn width(&self) -> u8
        ensures { result ≡ self.now.width }
    {
        self.width
    }

    /// Whether there are `n` fragments, of at most 63 bits, and `n` is less than 2^56.
    #[inline(always)]
    pub fn has(&self, n: usize) -> bool
        ensures { IsTrue result ↔ HasFragments self.now n }
    {
        n < 1 << 56
            && self.width <= 63
            && (n * self.width as usize).div_ceil(64) <= self.words.len()
    }

    /// The low bits of number `at`; one more fragment is read.
    ///
    /// # Conditions
    /// There is such a fragment, of at most 63 bits.
    #[inline(always)]
    pub fn fragment(&mut self, at: usize) -> u64
        requires in_range { IsFragmentInRange self.old.words at self.old.width }
        requires width { self.old.width ≤ 63 }
        ensures item { result ≡ fragment self.old at }
        ensures bound { result < 2 ^ self.old.width }
        ensures counted { self.new ≡ record self.old { read = self.old.read + 1 } }
    {
        self.reads.read_word();
        words::get_fragment(self.words, at, self.width)
    }
}
