//! Strings in a block as C passes them, and as the library queries them.
ghost use Rattle.std.specs.Prelude.{SomeIff};
ghost use Rattle.hash_block.specs.StringsParts.{HasStringStarts};
ghost use Rattle.bitm_keys_c.specs.Strings.{string_parts};

use bitm_abi::{Hash, hash_view};
use hash_block::strings::StringsView;

/// Strings of bytes in the caller's memory: a hash, where the string of each number begins and the last one ends, the
/// words of the bytes, the seed of their hashes, and the kind of their block, which says how they are hashed.
#[repr(C)]
#[derive(Clone, Copy)]
pub struct Strings<'a> {
    /// The hash.
    pub hash: Hash<'a>,
    /// Where the string of each number begins, and where the last one ends.
    pub starts: &'a [u64],
    /// The words of the bytes.
    pub bytes: &'a [u64],
    /// The seed of the hashes.
    pub seed: u64,
    /// The kind of the block.
    pub kind: u64,
    /// Room for later versions; this one does not read it.
    pub reserved: [u64; 1],
}

impl<'a> Strings<'a> {
    /// The strings as the library queries them; `None` exactly where a length or the kind is not right.
    #[inline(always)]
    pub(crate) fn view(&self) -> Option<StringsView<'a>>
        ensures { SomeIff result (HasStringStarts (string_parts self.now)) (string_parts self.now) }
    {
        let hash = hash_view(&self.hash, self.seed)?;
        StringsView::over(self.kind, hash, self.starts, self.bytes)
    }
}
