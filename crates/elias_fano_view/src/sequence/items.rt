//! The numbers from an index on, by one walk over the words of the high bits.
ghost use Rattle.std.specs.Prelude.{◌≡◌, ◌+◌, ◌-◌, ◌*◌, ◌/◌, ◌^◌, ◌<◌, ◌≤◌, ℕ, List};
ghost use Rattle.std.specs.Prelude.{count_ones, length, min, true};
ghost use Rattle.bit_lists.specs.Bits.{bits_of, IsShort};
ghost use Rattle.bit_lists.specs.Count.{ones_before, ones_of, Picks};
ghost use Rattle.bit_lists.specs.Kept.{IsKeptFrom};
ghost use Rattle.bitm_tables.specs.Reads.{OnlyReads, ReadsAtMost};
ghost use Rattle.bitm_tables.specs.Tables.{bits_in};
ghost use Rattle.elias_fano.specs.SequenceParts.{Holds};
ghost use Rattle.elias_fano.specs.Low.{ReadsFragments};
ghost use Rattle.elias_fano.specs.Parts.{ArePartsOf, HasFragment};
ghost use Rattle.elias_fano_view.specs.Lists.{AreItemsFrom};
ghost use Rattle.elias_fano_view.specs.Rests.{IsRestFrom};

use crate::sequence::SequenceView;
use bit_words::n_lowest_bits;
use bitm_selection::{Hints, hinted_select_on};
use bitm_tables::answer::Answer;
use bitm_tables::source::{Probe, TableSource};
use elias_fano::LowDigits;
use elias_fano::building::item_at_one;

/// Writes numbers `begin` up to `end` of those from number `from` on, by the first 1 bits of `rest`: what word `at` has
/// from the 1 bit of number `begin` on. Where it is something else, these are some numbers.
///
/// # Conditions
/// `rest` has a 1 bit for each of these numbers, the low words a fragment, and `out` room.
/// # Cost
/// Reads the low bits of each number.
#[inline(always)]
fn write_ones_of(
    rest: u64,
    at: usize,
    low: &mut LowDigits<'_>,
    from: usize,
    begin: usize,
    end: usize,
    out: &mut [u64],
)
    requires at { at + 1 < 2 ^ 58 }
    requires order { begin ≤ end }
    requires ones { end ≤ begin + count_ones rest }
    requires some { (i : ℕ) → i < from + end → HasFragment low.old.words i low.old.width }
    requires room { end ≤ length out.old }
    ensures items { (xs : List ℕ) (n : ℕ) (upper : List ℕ) (position : ℕ)
        → ArePartsOf xs n low.old.width low.old.words upper → from + end ≤ n
        → IsRestFrom upper position at rest → ones_before (bits_of upper) position ≡ from + begin
        → AreItemsFrom xs from begin out.old → AreItemsFrom xs from end out.new }
    ensures kept { IsKeptFrom end out.old out.new }
    ensures fragments { ReadsFragments low.old low.new (end - begin) }
{
    let mut left = rest;
    for k in begin..end {
        let one = 64 * at + left.trailing_zeros() as usize;
        out[k] = item_at_one(one, &mut *low, from + k);
        left &= left - 1;
    }
}

/// Writes the `most` numbers from number `from` on, whose 1 bits start at bit `first` of the source's words, or fewer
/// where these have no more 1 bits, and returns how many.
///
/// # Cost
/// Reads each word once, from the word of the first number's 1 bit to the word of the last number's, and the low bits
/// of each number.
fn write_items_on<T: TableSource>(
    source: &mut T,
    low: &mut LowDigits<'_>,
    from: usize,
    first: usize,
    most: usize,
    out: &mut [u64],
) -> usize
    requires short { IsShort (T.lists source.old).words }
    requires first { first < length (bits_in (T.lists source.old)) }
    requires some { (i : ℕ) → i < from + most → HasFragment low.old.words i low.old.width }
    requires room { most ≤ length out.old }
    ensures most { result ≤ most }
    ensures ones { let b = bits_in (T.lists source.old) in
        result ≡ min most (ones_of b - ones_before b first) }
    ensures items { (xs : List ℕ) (n : ℕ)
        → ArePartsOf xs n low.old.width low.old.words (T.lists source.old).words
        → from + most ≤ n → ones_before (bits_in (T.lists source.old)) first ≡ from
        → (result ≡ most) × AreItemsFrom xs from result out.new }
    ensures kept { IsKeptFrom result out.old out.new }
    ensures fragments { ReadsFragments low.old low.new result }
    ensures reads { OnlyReads T.lists T.reads source.old source.new 0 0
        (length (T.lists source.old).words - first / 64) }
    ensures once { (p : ℕ) → 0 < most
        → Picks (bits_in (T.lists source.old)) true (ones_before (bits_in (T.lists source.old)) first + (most - 1)) p
        → ReadsAtMost (T.reads source.old) (T.reads source.new) 0 0 (p / 64 + 1 - first / 64) }
{
    let mut done = 0;
    for at in first / 64..source.words_len() {
        // Only the word of bit `first` has bits before it.
        let rest = source.word(at) & !n_lowest_bits(first.saturating_sub(64 * at) as u8);
        let end = done + (rest.count_ones() as usize).min(most - done);
        write_ones_of(rest, at, &mut *low, from, done, end, &mut *out);
        done = end;
        if done == most {
            return most;
        }
    }
    done
}

impl<'a> SequenceView<'a> {
    /// Writes the numbers from number `from` on until none is left or `out` is full, and returns how many. The rest of
    /// `out` keeps its values. In parts that form no sequence these are some numbers, and may be fewer.
    ///
    /// # Cost
    /// One selection; then each word of the high bits is read once, from the word of the first number to the word of
    /// the last, and the low bits of each number. Nothing is read where there is no number to write.
    pub fn items_from(&self, from: usize, out: &mut [u64]) -> usize
        ensures most { result ≤ min (length out.old) (self.now.len - from) }
        ensures all { (xs : List ℕ) → Holds xs self.now
            → result ≡ min (length out.old) (length xs - from) }
        ensures items { (xs : List ℕ) → Holds xs self.now → AreItemsFrom xs from result out.new }
        ensures kept { IsKeptFrom result out.old out.new }
    {
        let most = self.len.saturating_sub(from).min(out.len());
        if most == 0 {
            return 0;
        }
        let ones = Hints::over(self.hints, self.len).ones;
        let first = match hinted_select_on::<1, Probe<'_>>(&mut self.upper.probe(), ones, from) {
            Answer::Found(first) => first,
            Answer::Absent => return 0,
            Answer::Wrong => return 0,
        };
        let low = &mut self.low_digits();
        write_items_on(&mut self.upper.probe(), low, from, first, most, out)
    }
}
