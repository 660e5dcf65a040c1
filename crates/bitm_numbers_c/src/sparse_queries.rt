//! Queries of sparse bits in a block. `one` says which bits are meant: true the 1 bits, false the 0 bits.
ghost use Rattle.bitm_numbers_c.specs.Sparse.{BitAnswered, NextAnswered, PreviousAnswered, RankAnswered};
ghost use Rattle.bitm_numbers_c.specs.Sparse.{SparseSelectAnswered};

use crate::sparse::Sparse;
use bitm_abi::{BAD_SIZE, as_number, report};

/// The bit at a position, as 0 or 1.
#[unsafe(no_mangle)]
pub extern "C" fn bitm_sparse_get(sparse: &Sparse<'_>, position: usize, out: &mut usize) -> u32
    ensures { BitAnswered sparse.now position result out.old out.new }
{
    match sparse.view() {
        Some(view) => report(as_number(view.get_bit(position)), out),
        None => BAD_SIZE,
    }
}

/// How many bits of a kind there are before a position.
#[unsafe(no_mangle)]
pub extern "C" fn bitm_sparse_rank(
    sparse: &Sparse<'_>,
    one: bool,
    position: usize,
    out: &mut usize,
) -> u32
    ensures { RankAnswered sparse.now one position result out.old out.new }
{
    match sparse.view() {
        Some(view) => report(view.rank_of(one, position), out),
        None => BAD_SIZE,
    }
}

/// The position of the bit of a kind with exactly `rank` such bits before it.
#[unsafe(no_mangle)]
pub extern "C" fn bitm_sparse_select(
    sparse: &Sparse<'_>,
    one: bool,
    rank: usize,
    out: &mut usize,
) -> u32
    ensures { SparseSelectAnswered sparse.now one rank result out.old out.new }
{
    match sparse.view() {
        Some(view) => report(view.select_of(one, rank), out),
        None => BAD_SIZE,
    }
}

/// The position of the first bit of a kind at or after a position.
#[unsafe(no_mangle)]
pub extern "C" fn bitm_sparse_next(
    sparse: &Sparse<'_>,
    one: bool,
    from: usize,
    out: &mut usize,
) -> u32
    ensures { NextAnswered sparse.now one from result out.old out.new }
{
    match sparse.view() {
        Some(view) => report(view.next(one, from), out),
        None => BAD_SIZE,
    }
}

/// The position of the last bit of a kind at or before a position.
#[unsafe(no_mangle)]
pub extern "C" fn bitm_sparse_previous(
    sparse: &Sparse<'_>,
    one: bool,
    from: usize,
    out: &mut usize,
) -> u32
    ensures { PreviousAnswered sparse.now one from result out.old out.new }
{
    match sparse.view() {
        Some(view) => report(view.previous(one, from), out),
        None => BAD_SIZE,
    }
}
