//! A source over sections of a block.
ghost use Rattle.std.specs.Prelude.{◌≡◌};
ghost use Rattle.bitm_tables.specs.Reads.{none_read};

use crate::entries::as_entries;
use bitm_tables::source::Probe;

/// A source over three sections of a block, words and two tables, with no reads counted yet.
///
/// ```
/// let mut source = probe(words, upper, lower);
/// total_select_on::<1, _>(&mut source, 17);   // Found(position), Absent or Wrong
/// ```
#[inline(always)]
pub fn probe<'a>(words: &'a [u64], upper: &'a [u64], lower: &'a [u64]) -> Probe<'a>
    ensures lists { result.lists
        ≡ record { words = words.now; upper = upper.now; lower = lower.now } }
    ensures reads { result.reads ≡ none_read }
{
    Probe::new(words, as_entries(upper), lower)
}
