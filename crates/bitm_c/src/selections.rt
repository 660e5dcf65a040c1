//! The selection of an index, and the nearest bits of a position. Each kind of bit has its own code.
ghost use Rattle.bit_lists.specs.Count.{as_bit};
ghost use Rattle.bitm_view.specs.Queries.{SelectsIn};
ghost use Rattle.bitm_c.specs.Queries.{NextAnswered, PreviousAnswered, SelectAnswered};
ghost use Rattle.bitm_abi.specs.Index.{cut_of};

use bitm_abi::{BAD_SIZE, Index, report};
use bitm_tables::answer::Answer;
use bitm_view::IndexView;
use tuning::WORDS_AT_HAND;

/// `bitm_index_select` of 1 bits; of 0 bits where `BIT` is 0.
#[inline(always)]
fn select_in<const BIT: u8>(index: &Index<'_>, rank: usize, out: &mut usize) -> u32
    ensures { SelectAnswered (as_bit BIT) (cut_of index.now) rank result out.old out.new }
{
    if index.words.len() > WORDS_AT_HAND {
        return select_in_many::<BIT>(index, rank, out);
    }
    select_in_few::<BIT>(index, rank, out)
}

/// The position of the bit with a rank in the view of an index, by the samples of its kind where there are any.
#[inline(always)]
fn select_by<const BIT: u8>(index: &Index<'_>, view: IndexView<'_>, rank: usize) -> Answer<usize>
    ensures { SelectsIn (as_bit BIT) view.entry rank result }
{
    let sampled = view.with_samples::<BIT>(index.samples::<BIT>());
    sampled.select::<BIT>(rank)
}

/// `select_in` for few words.
#[inline(never)]
fn select_in_few<const BIT: u8>(index: &Index<'_>, rank: usize, out: &mut usize) -> u32
    ensures { SelectAnswered (as_bit BIT) (cut_of index.now) rank result out.old out.new }
{
    match index.few_view() {
        Some(view) => report(select_by::<BIT>(index, view, rank), out),
        None => select_in_many::<BIT>(index, rank, out),
    }
}

/// `select_in` for any number of words.
#[inline(never)]
fn select_in_many<const BIT: u8>(index: &Index<'_>, rank: usize, out: &mut usize) -> u32
    ensures { SelectAnswered (as_bit BIT) (cut_of index.now) rank result out.old out.new }
{
    match index.bare_view() {
        Some(view) => report(select_by::<BIT>(index, view, rank), out),
        None => BAD_SIZE,
    }
}

/// The position of the 1 bit, or 0 bit, with a rank.
#[unsafe(no_mangle)]
pub extern "C" fn bitm_index_select(
    index: &Index<'_>,
    one: bool,
    rank: usize,
    out: &mut usize,
) -> u32
    ensures { SelectAnswered one (cut_of index.now) rank result out.old out.new }
{
    if one {
        select_in::<1>(index, rank, out)
    } else {
        select_in::<0>(index, rank, out)
    }
}

/// `bitm_index_next` of 1 bits; of 0 bits where `BIT` is 0.
#[inline(never)]
fn next_in<const BIT: u8>(index: &Index<'_>, from: usize, out: &mut usize) -> u32
    ensures { NextAnswered (as_bit BIT) (cut_of index.now) from result out.old out.new }
{
    match index.view() {
        Some(view) => report(view.next::<BIT>(from), out),
        None => BAD_SIZE,
    }
}

/// The least position from `from` on that has a 1 bit, or 0 bit.
#[unsafe(no_mangle)]
pub extern "C" fn bitm_index_next(index: &Index<'_>, one: bool, from: usize, out: &mut usize) -> u32
    ensures { NextAnswered one (cut_of index.now) from result out.old out.new }
{
    if one {
        next_in::<1>(index, from, out)
    } else {
        next_in::<0>(index, from, out)
    }
}

/// `bitm_index_previous` of 1 bits; of 0 bits where `BIT` is 0.
#[inline(never)]
fn previous_in<const BIT: u8>(index: &Index<'_>, from: usize, out: &mut usize) -> u32
    ensures { PreviousAnswered (as_bit BIT) (cut_of index.now) from result out.old out.new }
{
    match index.view() {
        Some(view) => report(view.previous::<BIT>(from), out),
        None => BAD_SIZE,
    }
}

/// The greatest position up to `from` that has a 1 bit, or 0 bit; `from` may be past the end.
#[unsafe(no_mangle)]
pub extern "C" fn bitm_index_previous(
    index: &Index<'_>,
    one: bool,
    from: usize,
    out: &mut usize,
) -> u32
    ensures { PreviousAnswered one (cut_of index.now) from result out.old out.new }
{
    if one {
        previous_in::<1>(index, from, out)
    } else {
        previous_in::<0>(index, from, out)
    }
}
