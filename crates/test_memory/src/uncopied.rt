//! A bit vector as a user writes it, which cannot be copied.
use bitm::CloneWords;
use std::alloc::{AllocError, Global};
use std::convert::AsSlice;

/// Words that can't be copied: memory for the copy is always refused.
#[derive(Clone, Copy)]
pub struct Uncopied<'a> {
    pub words: &'a [u64],
}

impl AsSlice<u64> for Uncopied<'_> {
    ghost items = { λ content. content.words.now };

    fn as_slice(&self) -> &[u64] {
        self.words
    }
}

impl CloneWords for Uncopied<'_> {
    fn try_same(&self, _alloc: Global) -> Result<Self, AllocError> {
        Err(AllocError)
    }
}
