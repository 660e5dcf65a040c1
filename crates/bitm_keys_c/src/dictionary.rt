//! A dictionary in a block as C passes it, and as the library queries it.
ghost use Rattle.std.specs.Prelude.{SomeIff};
ghost use Rattle.hash_block.specs.Dictionary.{HasKeys};
ghost use Rattle.bitm_keys_c.specs.Dictionary.{dictionary_parts};

use bitm_abi::{Hash, hash_view};
use hash_block::DictionaryView;

/// A dictionary of numbers in the caller's memory: a hash, the keys in the order of their numbers, the seed that hashes
/// each, and room.
#[repr(C)]
#[derive(Clone, Copy)]
pub struct Dictionary<'a> {
    /// The hash.
    pub hash: Hash<'a>,
    /// The keys, in the order of their numbers.
    pub keys: &'a [u64],
    /// What is added to each key to hash it.
    pub seed: u64,
    /// Room for later versions; this one does not read it.
    pub reserved: [u64; 2],
}

impl<'a> Dictionary<'a> {
    /// The dictionary as the library queries it; `None` exactly where a length is not right.
    #[inline(always)]
    pub(crate) fn view(&self) -> Option<DictionaryView<'a>>
        ensures { SomeIff result (HasKeys (dictionary_parts self.now)) (dictionary_parts self.now) }
    {
        let hash = hash_view(&self.hash, self.seed)?;
        DictionaryView::over(hash, self.keys)
    }
}
