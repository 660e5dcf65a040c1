//! How many bytes values keep on the heap.
ghost use Rattle.std.specs.Prelude.{◌≡◌, ◌*◌, ℕ};
ghost use Rattle.std.specs.Box.{boxed_slice_len};

use std::alloc::Allocator;
use std::boxed::BoxedSlice;
use std::mem::size_of;

/// How many bytes a value keeps on the heap.
///
/// A borrowed slice has none, since its owner has them. A value made of parts has the sum of what they have, or
/// `usize::MAX` where that is less.
// No body in the trait: one that answers 0 could not be proved against each type's own number of bytes.
pub trait GetSize {
    /// How many bytes a value keeps on the heap: none, unless the type says otherwise.
    ghost dyn_bytes: { Self → ℕ } = { λ _. 0 };

    /// Whether a value of this type may keep bytes on the heap; `false`, unless the type says otherwise.
    // No clause can speak of a constant that has a value in its trait, so tests show it for each type.
    const USES_DYN_MEM: bool = false;

    /// How many bytes the value keeps on the heap.
    fn size_bytes_dyn(&self) -> usize
        ensures { result ≡ dyn_bytes self.now };
}

impl<A: Allocator> GetSize for BoxedSlice<u64, A> {
    ghost dyn_bytes = { λ b. 8 * boxed_slice_len b };

    const USES_DYN_MEM: bool = true;

    #[inline(always)]
    fn size_bytes_dyn(&self) -> usize {
        self.as_slice().len() * size_of::<u64>()
    }
}

impl<A: Allocator> GetSize for BoxedSlice<usize, A> {
    ghost dyn_bytes = { λ b. 8 * boxed_slice_len b };

    const USES_DYN_MEM: bool = true;

    #[inline(always)]
    fn size_bytes_dyn(&self) -> usize {
        self.as_slice().len() * size_of::<usize>()
    }
}

impl<A: Allocator> GetSize for BoxedSlice<u32, A> {
    ghost dyn_bytes = { λ b. 4 * boxed_slice_len b };

    const USES_DYN_MEM: bool = true;

    #[inline(always)]
    fn size_bytes_dyn(&self) -> usize {
        self.as_slice().len() * size_of::<u32>()
    }
}

impl GetSize for &[u64] {
    #[inline(always)]
    fn size_bytes_dyn(&self) -> usize {
        // The words are their owner's.
        0
    }
}

impl GetSize for () {
    #[inline(always)]
    fn size_bytes_dyn(&self) -> usize {
        // There is nothing to keep.
        0
    }
}

impl GetSize for u8 {
    #[inline(always)]
    fn size_bytes_dyn(&self) -> usize {
        // The byte stands in the value itself.
        0
    }
}
