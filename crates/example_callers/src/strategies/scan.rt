//! Selection by a walk over the bits.
ghost use Rattle.std.specs.Prelude.{true, false};
ghost use Rattle.bitm.specs.Bits.{bits_of, IsShort};
ghost use Rattle.bitm.specs.Count.{as_bit, IsSelect};

use bitm::{BitBIterator, Select0ForRank101111, SelectForRank101111};
use std::alloc::{AllocError, Global};
use std::iter::Iterator;

/// Selects by a walk over the bits, and stores nothing.
#[derive(Clone, Copy)]
pub struct Scan;

/// The position of the bit of the kind with exactly `rank` such bits before it; `None` exactly where there is none.
fn walk_to<const BIT: u8>(content: &[u64], rank: usize) -> Option<usize>
    requires { IsShort content.now }
    ensures { IsSelect (bits_of content.now) (as_bit BIT) rank result }
{
    BitBIterator::<BIT>::new(content).nth(rank)
}

impl SelectForRank101111 for Scan {
    ghost supports = { λ _ words. IsShort words };

    fn new(
        _alloc: Global,
        _content: &[u64],
        _l1ranks: &[usize],
        _l2ranks: &[u64],
        _total_rank: usize,
    ) -> Result<Self, AllocError> {
        Ok(Scan)
    }

    fn select(
        &self,
        content: &[u64],
        _l1ranks: &[usize],
        _l2ranks: &[u64],
        rank: usize,
    ) -> Option<usize> {
        walk_to::<1>(content, rank)
    }
}

impl Select0ForRank101111 for Scan {
    ghost supports0 = { λ _ words. IsShort words };

    fn new0(
        _alloc: Global,
        _content: &[u64],
        _l1ranks: &[usize],
        _l2ranks: &[u64],
        _total_rank: usize,
    ) -> Result<Self, AllocError> {
        Ok(Scan)
    }

    fn select0(
        &self,
        content: &[u64],
        _l1ranks: &[usize],
        _l2ranks: &[u64],
        rank: usize,
    ) -> Option<usize> {
        walk_to::<0>(content, rank)
    }
}
