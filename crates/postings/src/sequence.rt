//! A cursor over a sequence.
ghost use Rattle.std.specs.Prelude.{◌≡◌, ◌+◌, ◌*◌, ◌≤◌, ℕ, List, length};
ghost use Rattle.bit_lists.specs.Bits.{digit_count};
ghost use Rattle.bitm_tables.specs.Reads.{none_read, ReadsAtMost};
ghost use Rattle.bitm_tables.specs.Tables.{HasSizes, HasTables};
ghost use Rattle.elias_fano.specs.SequenceParts.{parts_of, parts_with, AreParts, Holds};
ghost use Rattle.elias_fano.specs.Low.{sharing};
ghost use Rattle.elias_fano.specs.Parts.{width_of, IsUpper};
ghost use Rattle.postings.specs.Next.{IsNextAtLeast, IsReached};

use crate::cursor::Cursor;
use crate::spot::{Spot, total_next_on, total_start_on};
use bitm::index_laws;
use bitm_strategies::{Select0ForRank101111, SelectForRank101111};
use bitm_tables::answer::Answer;
use bitm_tables::source::Probe;
use bitm_tables::source::counts::ReadCounts;
use elias_fano::{LowDigits, Sequence, laws};
use std::marker::Model;
use tables_view::TablesView;

/// A cursor over the numbers of an Elias-Fano sequence, which it borrows.
///
/// It keeps where the 1 bit of its number stands among the upper words, so that a number that is near is found in the
/// words after that bit, with no entry of a table; one that is not is found by selections.
///
/// # Source
/// Vigna, 'Quasi-succinct indices' (WSDM 2013), and Ottaviano and Venturini, 'Partitioned Elias-Fano indexes' (SIGIR
/// 2014), which gave `next_geq` its name.
#[derive(Drop)]
pub struct Seeker<'a> {
    source: Probe<'a>,
    low: LowDigits<'a>,
    len: usize,
    spot: Spot,
    calls: ReadCounts,
}

impl<'a> Model for Seeker<'a> {
    ghost use Rattle.std.specs.Prelude.{drop};
    ghost use Rattle.elias_fano.specs.Parts.{items_of};
    ghost use Rattle.postings.specs.Held.{IsSpotHeld, SeekerValue};

    ghost Value = { SeekerValue };

    ghost view = { λ c. let xs = items_of c.len c.low.width c.low.words c.source.lists.words in record {
      left = drop c.spot.at xs;
      items = xs;
      calls = c.calls.words;
      reads = c.source.reads;
      fragments = c.low.read;
      width = c.low.width;
      lists = c.source.lists;
    } };

    ghost invariant = { λ c. IsSpotHeld c.len c.low.width c.low.words c.source.lists c.spot };
}

impl<'a> Seeker<'a> {
    /// A cursor at the first of `len` numbers that have these parts.
    fn start(source: Probe<'a>, low: LowDigits<'a>, len: usize) -> Seeker<'a>
        requires sizes { HasSizes source.lists }
        requires parts { AreParts (parts_with len low source.lists) }
        ensures left { (xs : List ℕ) → Holds xs (parts_with len low.entry source.entry.lists) → result.left ≡ xs }
        ensures items { (xs : List ℕ) → Holds xs (parts_with len low.entry source.entry.lists) → result.items ≡ xs }
        ensures calls { result.calls ≡ 0 }
        ensures reads { ReadsAtMost source.entry.reads result.reads
            (3 * (digit_count (length source.entry.lists.upper) + 1)) (3 * 23) (3 * 8) }
        ensures fragments { (xs : List ℕ) → Holds xs (parts_with len low.entry source.entry.lists)
            → result.fragments ≤ low.entry.read + (digit_count (sharing xs low.entry.width 0) + 1) }
        ensures lists { result.lists ≡ source.entry.lists }
        ensures width { result.width ≡ low.entry.width }
    {
        laws::parts_hold_items();
        let mut source = source;
        let mut low = low;
        let spot = match total_start_on(&mut source, &mut low, len) {
            Some(spot) => spot,
            None => unreachable!(),
        };
        Seeker {
            source,
            low,
            len,
            spot,
            calls: ReadCounts::new(),
        }
    }

    /// A cursor at the first number of a sequence.
    ///
    /// # Cost
    /// At most what three selections by binary search read, and the low bits of one number, and of one for each binary
    /// digit of how many numbers share the high bits 0.
    pub fn of<S: SelectForRank101111, S0: Select0ForRank101111>(
        list: &'a Sequence<S, S0>,
    ) -> Seeker<'a>
        ensures left { result.left ≡ list.now.items }
        ensures items { result.items ≡ list.now.items }
        ensures calls { result.calls ≡ 0 }
        ensures reads { ReadsAtMost none_read result.reads
            (3 * (digit_count (length result.lists.upper) + 1)) (3 * 23) (3 * 8) }
        ensures fragments { result.fragments ≤ digit_count (sharing result.items result.width 0) + 1 }
        ensures words { IsUpper list.now.items (width_of list.now.items) result.lists.words }
        ensures tables { HasTables result.lists }
        ensures width { result.width ≡ width_of list.now.items }
    {
        laws::numbers_rise(list);
        index_laws::tables_have_sizes();
        let source = list.probe();
        let low = LowDigits::new(list.low_words(), list.low_width());
        Seeker::start(source, low, list.len())
    }

    /// A cursor at the first of `len` numbers of `width` low bits each, over borrowed parts.
    ///
    /// # Conditions
    /// The parts form a sequence, with the tables of its upper words.
    /// # Cost
    /// The cost of `of`.
    pub fn over(len: usize, width: u8, low: &'a [u64], upper: &'a TablesView<'_>) -> Seeker<'a>
        requires { AreParts (parts_of len width low.now upper.now) }
        ensures left { (xs : List ℕ) → Holds xs (parts_of len width low.now upper.now) → result.left ≡ xs }
        ensures items { (xs : List ℕ) → Holds xs (parts_of len width low.now upper.now) → result.items ≡ xs }
        ensures calls { result.calls ≡ 0 }
        ensures reads { ReadsAtMost none_read result.reads
            (3 * (digit_count (length result.lists.upper) + 1)) (3 * 23) (3 * 8) }
        ensures fragments { (xs : List ℕ) → Holds xs (parts_of len width low.now upper.now)
            → result.fragments ≤ digit_count (sharing xs width 0) + 1 }
        ensures lists { result.lists ≡ upper.now }
        ensures width { result.width ≡ width }
    {
        let source = upper.probe();
        Seeker::start(source, LowDigits::new(low, width), len)
    }

    /// Moves to the first number from the cursor on that is at least `v`, and answers it, as `next_geq`.
    ///
    /// # Cost
    /// Nothing is read where the number at the cursor is at least `v`. Else at most what three selections by binary
    /// search read and 25 words; and the low bits of at most nine numbers, and of one for each binary digit of how many
    /// numbers share the high bits of `v`. Evident from the code: the selections are made only where the number is not
    /// near, that is where the 0 bits to skip do not end in the eight words from the word of the cursor's 1 bit on, or
    /// none of the eight numbers from there on is at least `v`.
    #[inline]
    pub fn seek(&mut self, v: u64) -> Option<u64>
        ensures next { IsNextAtLeast self.old.left v result self.new.left }
        ensures counted { self.new.calls ≡ self.old.calls + 1 }
        ensures nothing { IsReached self.old.left v
            → (self.new.reads ≡ self.old.reads) × (self.new.fragments ≡ self.old.fragments) }
        ensures reads { ReadsAtMost self.old.reads self.new.reads
            (3 * (digit_count (length self.old.lists.upper) + 1)) (3 * 23) (25 + 3 * 8) }
        ensures fragments { self.new.fragments ≤ self.old.fragments
            + (8 + (digit_count (sharing self.old.items self.old.width v) + 1)) }
        ensures items { self.new.items ≡ self.old.items }
        ensures width { self.new.width ≡ self.old.width }
        ensures lists { self.new.lists ≡ self.old.lists }
    {
        laws::parts_hold_items();
        self.calls.read_word();
        match total_next_on(&mut self.source, &mut self.low, self.len, &mut self.spot, v) {
            Answer::Found(number) => Some(number),
            Answer::Absent => None,
            Answer::Wrong => unreachable!(),
        }
    }
}

impl<'a> Cursor for Seeker<'a> {
    ghost left = { λ c. c.left };

    ghost calls = { λ c. c.calls };

    #[inline]
    fn next_geq(&mut self, v: u64) -> Option<u64> {
        self.seek(v)
    }
}
