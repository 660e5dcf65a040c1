//! A rank over tables that may hold anything.
ghost use Rattle.std.specs.Prelude.{length};
ghost use Rattle.tables_view.specs.Counting.{Ranks};
ghost use Rattle.bitm_tables.specs.Reads.{OnlyReads};
ghost use Rattle.bitm_tables.specs.Tables.{HasSizes};

use bitm_tables::answer::Answer;
use bitm_tables::ranking::total_rank_on;
use bitm_tables::source::TableSource;

/// The number of 1 bits, or of 0 bits where `one` is false, among the first `index` bits of a source's words.
///
/// # Conditions
/// There are fewer than 2^58 words, and the tables have the right lengths. They may hold anything.
/// # Cost
/// At most one upper entry, one lower entry and eight words are read.
#[inline(always)]
pub fn ranked_on<T: TableSource>(source: &mut T, one: bool, index: usize) -> Answer<usize>
    requires { HasSizes (T.lists source.old) }
    ensures ranks { Ranks one (T.lists source.old) index result }
    ensures reads { OnlyReads T.lists T.reads source.old source.new 1 1 8 }
{
    let Some(ones) = total_rank_on(source, index) else {
        return Answer::Absent;
    };
    match index.checked_sub(ones) {
        Some(zeros) => Answer::Found(if one { ones } else { zeros }),
        None => Answer::Wrong,
    }
}
