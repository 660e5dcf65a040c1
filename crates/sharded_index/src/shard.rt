//! What a shard is: bits that are ranked and selected.
ghost use Rattle.std.specs.Prelude.{◌≡◌, ◌<◌, ℕ, Bool, List, length, slice_index};
ghost use Rattle.bitm_select.specs.Answers.{HasBit, IsSelected};
ghost use Rattle.bitm_view.specs.Queries.{ranked_by, selected_by};
ghost use Rattle.tables_view.specs.Ranks.{IsRanked};

use bitm_tables::answer::Answer;
use bitm_view::IndexView;

/// Bits that are ranked and selected, over tables that may hold anything.
pub trait Shard {
    /// The bits.
    ghost bits: { Self → List Bool };
    /// The tables match the bits.
    ghost right: { Self → Type 0 };

    /// How many of the first `index` bits are 1 bits, or 0 bits.
    fn rank(&self, one: bool, index: usize) -> Answer<usize>
        ensures { right self.now → IsRanked (bits self.now) one index result };

    /// The position of the 1 bit, or 0 bit, with rank `rank`.
    fn select(&self, one: bool, rank: usize) -> Answer<usize>
        ensures bit { HasBit (bits self.now) one result }
        ensures counts { right self.now → IsSelected (bits self.now) one rank result };

    /// Writes the rank of each position, by the codes of lists.
    fn rank_list(&self, one: bool, positions: &[usize], out: &mut [usize])
        requires { length out.old ≡ length positions.now }
        ensures len { length out.new ≡ length positions.now }
        ensures counts { right self.now → (j : ℕ) → j < length positions.now → IsRanked
            (bits self.now) one (slice_index positions.now j) (ranked_by (slice_index out.new j)) };

    /// Writes the position of the bit with each rank, by the codes of lists.
    fn select_list(&self, one: bool, ranks: &[usize], out: &mut [usize])
        requires { length out.old ≡ length ranks.now }
        ensures len { length out.new ≡ length ranks.now }
        ensures bits { (j : ℕ) → j < length ranks.now → HasBit (bits self.now) one
            (selected_by (slice_index out.new j)) }
        ensures counts { right self.now → (j : ℕ) → j < length ranks.now → IsSelected
            (bits self.now) one (slice_index ranks.now j) (selected_by (slice_index out.new j)) };
}

impl<'a> Shard for IndexView<'a> {
    ghost use Rattle.bitm_view.specs.Cut.{bits_of_cut};
    ghost use Rattle.bitm_tables.specs.Tables.{HasTables};

    ghost bits = { bits_of_cut };

    ghost right = { λ c. HasTables c.lists };

    fn rank(&self, one: bool, index: usize) -> Answer<usize> {
        self.rank_of(one, index)
    }

    fn select(&self, one: bool, rank: usize) -> Answer<usize> {
        if one {
            self.select::<1>(rank)
        } else {
            self.select::<0>(rank)
        }
    }

    fn rank_list(&self, one: bool, positions: &[usize], out: &mut [usize]) {
        let _done = if one {
            self.rank_each::<1>(positions, out)
        } else {
            self.rank_each::<0>(positions, out)
        };
    }

    fn select_list(&self, one: bool, ranks: &[usize], out: &mut [usize]) {
        let _done = if one {
            self.select_each::<1>(ranks, out)
        } else {
            self.select_each::<0>(ranks, out)
        };
    }
}
