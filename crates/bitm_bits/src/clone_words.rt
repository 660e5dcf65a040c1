//! Bit vectors that can be copied.
ghost use Rattle.std.specs.Prelude.{◌≡◌, IfOk, IsOk};

use std::alloc::{AllocError, Global};
use std::boxed::BoxedSlice;
use std::convert::AsSlice;

/// A value that gives out words and can be copied, if there is memory.
pub trait CloneWords: AsSlice<u64> + Drop {
    /// A value with the same words.
    ///
    /// # Errors
    /// `AllocError` if memory was refused; the value is as it was.
    fn try_same(&self, alloc: Global) -> Result<Self, AllocError>
        ensures { IfOk result (λ copy. Self.items copy ≡ Self.items self.now) };
}

impl CloneWords for &[u64] {
    /// The slice once more: this takes no memory and always succeeds.
    #[inline(always)]
    fn try_same(&self, _alloc: Global) -> Result<Self, AllocError>
        ensures succeeds { IsOk result }
        ensures same { IfOk result (λ copy. copy.now ≡ self.now.now) }
    {
        Ok(*self)
    }
}

impl CloneWords for BoxedSlice<u64, Global> {
    fn try_same(&self, alloc: Global) -> Result<Self, AllocError> {
        BoxedSlice::from_slice(alloc, self.as_slice())
    }
}
