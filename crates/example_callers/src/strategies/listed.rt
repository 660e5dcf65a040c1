//! Selection by a list of all positions.
ghost use Rattle.std.specs.Prelude.{◌≡◌, Bool, List, true, false, IfOk};
ghost use Rattle.bitm.specs.Bits.{bits_of, IsShort};
ghost use Rattle.bitm.specs.Count.{as_bit, bit_positions, IsSelect};

use bitm::{BitBIterator, Select0ForRank101111, SelectForRank101111};
use std::alloc::{AllocError, Global};
use std::iter::Iterator;
use std::marker::Model;

/// Selects by a look into the list of positions, which it owns.
#[derive(Drop)]
pub struct Listed {
    positions: Vec<usize>,
}

/// The positions of the bits of the kind, in one allocation of exactly their size.
fn positions_of<const BIT: u8>(alloc: Global, content: &[u64]) -> Result<Vec<usize>, AllocError>
    requires { IsShort content.now }
    ensures { IfOk result (λ list. list.items ≡ bit_positions (as_bit BIT) 0 (bits_of content.now)) }
{
    let bits = BitBIterator::<BIT>::new(content);
    let mut positions = Vec::with_capacity(alloc, bits.len())?;
    positions.extend(bits)?;
    Ok(positions)
}

impl Model for Listed {
    ghost use Rattle.std.specs.Prelude.{ℕ, List};

    ghost Value = { List ℕ };

    ghost view = { λ s. s.positions.items };
}

impl Listed {
    /// Item `rank` of the list: where it has the positions of a kind of bit, the position of the bit with that rank.
    fn look_up(&self, rank: usize) -> Option<usize>
        ensures { (b : List Bool) (v : Bool) → self.now ≡ bit_positions v 0 b
            → IsSelect b v rank result }
    {
        self.positions.get(rank).copied()
    }
}

impl SelectForRank101111 for Listed {
    ghost supports = { λ list words. list ≡ bit_positions true 0 (bits_of words) };

    fn new(
        alloc: Global,
        content: &[u64],
        _l1ranks: &[usize],
        _l2ranks: &[u64],
        _total_rank: usize,
    ) -> Result<Self, AllocError> {
        let positions = positions_of::<1>(alloc, content)?;
        Ok(Listed { positions })
    }

    fn select(
        &self,
        _content: &[u64],
        _l1ranks: &[usize],
        _l2ranks: &[u64],
        rank: usize,
    ) -> Option<usize> {
        self.look_up(rank)
    }
}

impl Select0ForRank101111 for Listed {
    ghost supports0 = { λ list words. list ≡ bit_positions false 0 (bits_of words) };

    fn new0(
        alloc: Global,
        content: &[u64],
        _l1ranks: &[usize],
        _l2ranks: &[u64],
        _total_rank: usize,
    ) -> Result<Self, AllocError> {
        let positions = positions_of::<0>(alloc, content)?;
        Ok(Listed { positions })
    }

    fn select0(
        &self,
        _content: &[u64],
        _l1ranks: &[usize],
        _l2ranks: &[u64],
        rank: usize,
    ) -> Option<usize> {
        self.look_up(rank)
    }
}
