//! Selections from samples, side by side, over a source with any tables and samples.
ghost use Rattle.std.specs.Prelude.{◌≡◌, ◌+◌, ◌<◌, length};
ghost use Rattle.bit_lists.specs.Bits.{digit_count};
ghost use Rattle.bit_lists.specs.Count.{as_bit};
ghost use Rattle.bitm_select.specs.Many.{IsSearch};
ghost use Rattle.bitm_tables.specs.Reads.{ReadsAtMost};
ghost use Rattle.bitm_tables.specs.Tables.{HasSizes};

use crate::guessed::entry_by_guess;
use crate::samples::SamplesView;
use bitm_select::many::lists::FindsEntries;
use bitm_select::many::query::Query;
use bitm_select::search::selecting::part_of_rank;
use bitm_tables::levels::L2_ENTRIES_PER_L1_ENTRY;
use bitm_tables::source::TableSource;

/// The query of a rank with its entry: the right one where the tables match the words, some entry otherwise.
#[inline(always)]
fn begin<const BIT: u8, T: TableSource>(
    source: &mut T,
    borrowed: &SamplesView<'_>,
    rank: usize,
) -> Query
    requires sized { HasSizes (T.lists source.old) }
    requires some { 0 < length (T.lists source.old).upper }
    ensures search { IsSearch BIT (T.lists source.old) rank result 0 }
    ensures reads { ReadsAtMost (T.reads source.old) (T.reads source.new)
        (digit_count (length (T.lists source.old).upper) + 1) 51 0 }
    ensures same { T.lists source.new ≡ T.lists source.old }
{
    let (part, rest) = part_of_rank::<BIT, T>(source, rank);
    let (in_part, _) = entry_by_guess::<BIT, 1, T>(source, borrowed, part, rest);
    let entry = part * L2_ENTRIES_PER_L1_ENTRY + in_part;
    Query { rest, entry }
}

impl<'a, const BIT: u8, T: TableSource> FindsEntries<BIT, T> for SamplesView<'a> {
    ghost lowers = { 51 };

    #[inline(always)]
    fn find(&self, source: &mut T, ranks: &[usize], queries: &mut [Query]) {
        for k in 0..ranks.len() {
            queries[k] = begin::<BIT, T>(source, self, ranks[k]);
        }
    }
}
