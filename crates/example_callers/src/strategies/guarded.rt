//! Selection by another strategy, which is called only where there is an answer, with a count of the calls.
ghost use Rattle.std.specs.Prelude.{◌≡◌, length};
ghost use Rattle.bitm.specs.Bits.{bits_of};
ghost use Rattle.bitm.specs.Count.{ones_before, zeros_before};

use bitm::{Select0ForRank101111, SelectForRank101111};
use std::alloc::{AllocError, Global};
use std::cell::Cell;
use std::marker::Model;

/// Selects by the strategy inside, which it calls only for a rank below the number of bits of the kind, and counts its
/// own calls.
#[derive(Drop)]
pub struct Guarded<S> {
    inner: S,
    items: usize,
    calls: Cell<usize>,
}

// The calls are left out: a clause can't say what a `Cell` holds.
impl<S> Model for Guarded<S> {
    ghost use Rattle.example_callers.specs.Guard.{Guard};

    ghost Value = { Guard S };

    ghost view = { λ g. record { inner = g.inner; items = g.items } };
}

impl<S> Guarded<S> {
    /// The number of selections by this value, up to the greatest `usize` and then from 0 on.
    pub fn calls(&self) -> usize {
        self.calls.get()
    }

    /// Counts one call.
    fn count_call(&self) {
        self.calls.set(self.calls.get().wrapping_add(1));
    }
}

impl<S: SelectForRank101111> SelectForRank101111 for Guarded<S> {
    ghost supports = { λ it words. S.supports it.inner words
        × (it.items ≡ ones_before (bits_of words) (length (bits_of words))) };

    fn new(
        alloc: Global,
        content: &[u64],
        l1ranks: &[usize],
        l2ranks: &[u64],
        total_rank: usize,
    ) -> Result<Self, AllocError> {
        let inner = S::new(alloc, content, l1ranks, l2ranks, total_rank)?;
        Ok(Guarded {
            inner,
            items: total_rank,
            calls: Cell::new(0),
        })
    }

    fn select(
        &self,
        content: &[u64],
        l1ranks: &[usize],
        l2ranks: &[u64],
        rank: usize,
    ) -> Option<usize> {
        self.count_call();
        if rank < self.items {
            self.inner.select(content, l1ranks, l2ranks, rank)
        } else {
            None
        }
    }
}

impl<S: Select0ForRank101111> Select0ForRank101111 for Guarded<S> {
    ghost supports0 = { λ it words. S.supports0 it.inner words
        × (it.items ≡ zeros_before (bits_of words) (length (bits_of words))) };

    fn new0(
        alloc: Global,
        content: &[u64],
        l1ranks: &[usize],
        l2ranks: &[u64],
        total_rank: usize,
    ) -> Result<Self, AllocError> {
        let inner = S::new0(alloc, content, l1ranks, l2ranks, total_rank)?;
        Ok(Guarded {
            inner,
            items: content.len() * 64 - total_rank,
            calls: Cell::new(0),
        })
    }

    fn select0(
        &self,
        content: &[u64],
        l1ranks: &[usize],
        l2ranks: &[u64],
        rank: usize,
    ) -> Option<usize> {
        self.count_call();
        if rank < self.items {
            self.inner.select0(content, l1ranks, l2ranks, rank)
        } else {
            None
        }
    }
}
