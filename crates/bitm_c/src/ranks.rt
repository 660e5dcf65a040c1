//! The rank of an index. Each size of index has its own code, which saves no register and has no test for another size.
//! The fewer instructions a rank takes, the more ranks a processor overlaps while they wait for their words.
ghost use Rattle.bitm_c.specs.Queries.{RankAnswered};
ghost use Rattle.bitm_abi.specs.Index.{cut_of};

use bitm_abi::{BAD_SIZE, Index, report};

/// `bitm_index_rank` for more than one upper block, and for wrong lengths.
#[inline(never)]
fn rank_in_blocks(index: &Index<'_>, one: bool, position: usize, out: &mut usize) -> u32
    ensures { RankAnswered one (cut_of index.now) position result out.old out.new }
{
    match index.bare_view() {
        Some(view) => report(view.rank_of(one, position), out),
        None => BAD_SIZE,
    }
}

/// `bitm_index_rank` for few words.
#[inline(never)]
fn rank_in_few(index: &Index<'_>, one: bool, position: usize, out: &mut usize) -> u32
    ensures { RankAnswered one (cut_of index.now) position result out.old out.new }
{
    match index.few_view() {
        Some(view) => report(view.rank_of(one, position), out),
        None => rank_in_blocks(index, one, position, out),
    }
}

/// The number of 1 bits, or 0 bits, before a position.
#[unsafe(no_mangle)]
pub extern "C" fn bitm_index_rank(
    index: &Index<'_>,
    one: bool,
    position: usize,
    out: &mut usize,
) -> u32
    ensures { RankAnswered one (cut_of index.now) position result out.old out.new }
{
    match index.large_view() {
        Some(view) => report(view.rank_of(one, position), out),
        None => rank_in_few(index, one, position, out),
    }
}
