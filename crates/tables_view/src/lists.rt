//! Selections of lists of ranks in all the words.
ghost use Rattle.std.specs.Prelude.{◌≡◌, ◌+◌, ◌*◌, ◌<◌, ◌↔◌, IsTrue, length, false};
ghost use Rattle.bit_lists.specs.Bits.{digit_count};
ghost use Rattle.bit_lists.specs.Count.{as_bit};
ghost use Rattle.bitm_select.specs.Answers.{IsSelectCode, AreSelectCodes};
ghost use Rattle.bitm_tables.specs.Reads.{OnlyReads};
ghost use Rattle.bitm_tables.specs.Tables.{HasSizes};

use crate::view::TablesView;
use bitm_select::many::lists::{FindsEntries, code_many_on};
use bitm_select::search::selected::list_code;
use bitm_select::search::selecting::{ByTables, total_select_on};
use bitm_tables::source::{Probe, TableSource};

/// The position with a rank, by the codes of lists. Not inlined: the loop that calls it where there are no words would
/// become a call of the C library, which the archive does without.
#[inline(never)]
fn code_on<const BIT: u8, T: TableSource>(source: &mut T, rank: usize) -> usize
    requires { HasSizes (T.lists source.old) }
    ensures claimed { IsSelectCode (as_bit BIT) (T.lists source.old) rank result }
    ensures same { T.lists source.new ≡ T.lists source.old }
{
    list_code(total_select_on::<BIT, T>(source, rank))
}

/// Writes the position with each rank, or `NO_ANSWER` for `Absent` and `WRONG_TABLES` for `Wrong`. Where there is a
/// word the searches run side by side, and `finder` finds their entries. Returns false, and writes nothing, exactly
/// where `out` is not as long as `ranks`.
///
/// # Conditions
/// There are fewer than 2^58 words, and the tables have the right lengths. They may hold anything.
/// # Cost
/// With u upper entries, each rank reads at most one more of them than u has binary digits, one lower entry more than
/// `finder` reads, and eight words, whatever the tables hold.
pub fn select_list_on<const BIT: u8, T: TableSource, F: FindsEntries<BIT, T>>(
    source: &mut T,
    finder: &F,
    ranks: &[usize],
    out: &mut [usize],
) -> bool
    requires { HasSizes (T.lists source.old) }
    ensures room { IsTrue result ↔ length out.old ≡ length ranks.now }
    ensures claimed { IsTrue result → AreSelectCodes (as_bit BIT) (T.lists source.old) ranks.now out.new }
    ensures kept { result ≡ false → out.new ≡ out.old }
    ensures reads { 0 < length (T.lists source.old).upper
        → OnlyReads T.lists T.reads source.old source.new
        (length ranks.now * (digit_count (length (T.lists source.old).upper) + 1))
        ((F.lowers + 1) * length ranks.now) (8 * length ranks.now) }
{
    if out.len() != ranks.len() {
        return false;
    }
    if source.upper_len() > 0 {
        code_many_on::<BIT, T, F>(source, finder, ranks, out);
        return true;
    }
    for at in 0..ranks.len() {
        out[at] = code_on::<BIT, T>(source, ranks[at]);
    }
    true
}

impl<'a> TablesView<'a> {
    /// Writes the position with each rank, or `NO_ANSWER` for `Absent` and `WRONG_TABLES` for `Wrong`: what `select`
    /// answers where the tables match the words, and possibly another position with such a bit in other tables. Returns
    /// false, and writes nothing, exactly where `out` is not as long as `ranks`.
    pub fn select_list<const BIT: u8>(&self, ranks: &[usize], out: &mut [usize]) -> bool
        ensures room { IsTrue result ↔ length out.old ≡ length ranks.now }
        ensures claimed { IsTrue result → AreSelectCodes (as_bit BIT) self.now ranks.now out.new }
        ensures kept { result ≡ false → out.new ≡ out.old }
    {
        select_list_on::<BIT, Probe<'_>, ByTables>(&mut self.probe(), &ByTables, ranks, out)
    }
}
