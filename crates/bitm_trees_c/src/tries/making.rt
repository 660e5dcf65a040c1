//! The block of a trie: how many words it takes, writing it, opening it and checking it.
ghost use Rattle.std.specs.Prelude.{◌≡◌, ◌≢◌, ◌↔◌, ◌⊎◌, if◌then◌else◌};
ghost use Rattle.bitm_block.specs.Layout.{end_of};
ghost use Rattle.tree_block.specs.TrieBlock.{end_words, trie_in, trie_sections};
ghost use Rattle.tree_block.specs.TrieBlock.{CanHold, IsBlockOf, IsSoundBlock, IsTrieBlock};
ghost use Rattle.tree_block.specs.Labels.{IsShape};
ghost use Rattle.bitm_trees_c.specs.Trie.{trie_parts, IsNoTrie};

use crate::tries::trie::Trie;
use bitm_abi::{BAD_SIZE, OK, WRONG};
use tree_block::trie::{BuildError, TrieView, build, size};

/// Writes how many words the block of a trie of that many nodes takes, whose labels have `width` bits, with a bit for
/// each node or without.
#[unsafe(no_mangle)]
pub extern "C" fn bitm_trie_size(nodes: usize, width: u32, has_ends: bool, out: &mut usize) -> u32
    ensures ok { (result ≡ 0) ↔ IsShape nodes width }
    ensures size { result ≡ 0
        → out.new ≡ end_of (trie_sections nodes width (if has_ends then end_words nodes else 0)) }
    ensures kept { result ≢ 0 → (result ≡ 2) × (out.new ≡ out.old) }
{
    if width > 63 {
        return BAD_SIZE;
    }
    match size(nodes, width as u8, has_ends) {
        Some(words) => {
            *out = words;
            OK
        }
        None => BAD_SIZE,
    }
}

/// Writes the block of the trie of these degrees, labels of `width` bits and ends.
#[unsafe(no_mangle)]
pub extern "C" fn bitm_trie_build(
    degrees: &[usize],
    labels: &[u64],
    width: u32,
    ends: &[u64],
    block: &mut [u64],
) -> u32
    ensures ok { (result ≡ 0) ↔ CanHold degrees.now labels.now width ends.now block.old }
    ensures wrong { (result ≡ 3) ↔ IsNoTrie degrees.now labels.now width ends.now block.old }
    ensures status { (result ≡ 0) ⊎ (result ≡ 2) ⊎ (result ≡ 3) }
    ensures block { result ≡ 0 → IsBlockOf degrees.now labels.now width ends.now block.new }
    ensures kept { result ≢ 0 → block.new ≡ block.old }
{
    if width > 63 {
        return BAD_SIZE;
    }
    match build(degrees, labels, width as u8, ends, block) {
        Ok(()) => OK,
        Err(BuildError::TooLong) => BAD_SIZE,
        Err(BuildError::WrongWidth) => BAD_SIZE,
        Err(BuildError::WrongLabels) => BAD_SIZE,
        Err(BuildError::WrongEnds) => BAD_SIZE,
        Err(BuildError::WrongLength) => BAD_SIZE,
        Err(BuildError::NotATree) => WRONG,
        Err(BuildError::NotLabels) => WRONG,
    }
}

/// Opens a block: writes the trie that queries take. What the sections hold is not looked at.
#[unsafe(no_mangle)]
pub extern "C" fn bitm_trie_open<'a>(block: &'a [u64], trie: &mut Trie<'a>) -> u32
    ensures ok { (result ≡ 0) ↔ IsTrieBlock block.now }
    ensures trie { result ≡ 0 → trie_parts trie.new ≡ trie_in block.now }
    ensures kept { result ≢ 0 → (result ≡ 3) × (trie.new ≡ trie.old) }
{
    match TrieView::open(block) {
        Some(view) => {
            *trie = Trie::of(&view);
            OK
        }
        None => WRONG,
    }
}

/// Whether a block is as it was written, and holds a trie: four passes over its words.
#[unsafe(no_mangle)]
pub extern "C" fn bitm_trie_check(block: &[u64]) -> u32
    ensures ok { (result ≡ 0) ↔ IsSoundBlock block.now }
    ensures status { (result ≡ 0) ⊎ (result ≡ 3) }
{
    if TrieView::open_checked(block).is_some() {
        OK
    } else {
        WRONG
    }
}
