//! Whether a block is as it was written.
ghost use Rattle.std.specs.Prelude.{◌↔◌, IfOk, IsTrue};
ghost use Rattle.program_files.specs.Old.{IsOldFile};
ghost use Rattle.program_files.specs.Sound as numbers;
ghost use Rattle.program_files.specs.KindsSound.{IsSound, IsSoundFile, IsSoundOf};

use crate::blocks::{is_old, words_of_bytes};
use crate::kinds::kind::{Kind, kind_in};
use matrix_block::MatrixView;
use std::alloc::{AllocError, Global};
use text_block::TextView;
use tree_block::LoudsView;
use tree_block::trie::TrieView;

/// Whether the bytes are a block of the kind that it says, and it is as it was written. A hash that has keys or seeds
/// is checked as the dictionary or the hash with seeds that it is.
///
/// # Errors
/// `AllocError` where memory was refused.
/// # Cost
/// A copy of the bytes, and the `check` of the block's kind: a few passes over the block, and for the index of a text a
/// walk through all of it (evident from the code).
///
/// ```
/// check(alloc, bytes);   // Ok(true) of what `bitm strings build` wrote
/// ```
pub fn check(alloc: Global, block: &[u8]) -> Result<bool, AllocError>
    ensures { IfOk result (λ good. IsTrue good ↔ IsSoundFile block.now) }
{
    match words_of_bytes(alloc, block)? {
        Some(words) => Ok(is_sound(words.as_slice())),
        None => Ok(false),
    }
}

/// Whether the bytes are a file of version 2 with bits and the tables of their words, or with the parts of a sequence
/// (`blocks::is_old`): all that can be said of one, which has no checksum but its header's.
///
/// # Errors
/// `AllocError` where memory was refused.
/// # Cost
/// A copy of the bytes, and three passes over it (evident from the code).
///
/// ```
/// check_old(alloc, bytes);   // Ok(true) of an index that a release before 0.3.0 wrote
/// ```
pub fn check_old(alloc: Global, file: &[u8]) -> Result<bool, AllocError>
    ensures { IfOk result (λ good. IsTrue good ↔ IsOldFile file.now) }
{
    match words_of_bytes(alloc, file)? {
        Some(words) => Ok(is_old(words.as_slice())),
        None => Ok(false),
    }
}

/// Whether the words are a block of the kind that they say, as it was written.
#[tactic(auto, using(crate::proofs::lemmas::SoundLemmas::same_kind, crate::proofs::lemmas::SoundLemmas::no_kind))]
pub(crate) fn is_sound(block: &[u64]) -> bool
    ensures { IsTrue result ↔ IsSound block.now }
{
    match kind_in(block) {
        Some(kind) => is_sound_of(kind, block),
        None => false,
    }
}

/// Whether the words are a block of the kind, as it was written.
fn is_sound_of(kind: Kind, block: &[u64]) -> bool
    ensures { IsTrue result ↔ IsSoundOf kind block.now }
{
    match kind {
        Kind::Numbers(kind) => holds_numbers(kind, block),
        Kind::Hash => hash_block::check(block),
        Kind::SeededHash => hash_block::seeded::check(block),
        Kind::Dictionary => hash_block::check_dictionary(block),
        Kind::Text => TextView::open_checked(block).is_some(),
        Kind::Trie => TrieView::open_checked(block).is_some(),
        Kind::Strings => hash_block::strings::check(block),
    }
}

/// Whether the words are a block of a kind that holds the numbers of a text, as it was written.
fn holds_numbers(kind: crate::blocks::Kind, block: &[u64]) -> bool
    ensures { IsTrue result ↔ numbers.AreSoundNumbersOf kind block.now }
{
    match kind {
        crate::blocks::Kind::Bits => bitm_view::bits::check(block),
        crate::blocks::Kind::Sequence => sequence_block::check(block),
        crate::blocks::Kind::Sparse => sequence_block::sparse::check(block),
        crate::blocks::Kind::Matrix => MatrixView::open_checked(block).is_some(),
        crate::blocks::Kind::Tree => LoudsView::open_checked(block).is_some(),
    }
}
