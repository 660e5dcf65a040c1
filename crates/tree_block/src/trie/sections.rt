//! The sections of the block of a trie.
ghost use Rattle.std.specs.Prelude.{◌≡◌, ◌^◌, ◌<◌, ◌↔◌, if◌then◌else◌, IfSome, IsSome, IsTrue};
ghost use Rattle.bitm_block.specs.Layout.{end_of};
ghost use Rattle.tree_block.specs.TrieBlock.{end_words, trie_head, trie_sections};
ghost use Rattle.tree_block.specs.Labels.{label_words, IsShape};

use crate::Lens;
use bitm_block::{Head, Section, aligned};
use block_tables::HINTS;

/// The kind of a trie.
pub const TRIE: u64 = 9;

/// Whether the given number of nodes can have labels of `width` bits.
#[inline(always)]
pub(crate) fn is_shape(nodes: usize, width: usize) -> bool
    ensures { IsTrue result ↔ IsShape nodes width }
{
    nodes < 1 << 57 && 1 <= width && width <= 63
}

/// How many words the labels of the given number of nodes have.
#[inline(always)]
#[tactic(auto, using(crate::proofs::LabelLemmas::bits_few))]
pub(crate) fn label_words(nodes: usize, width: usize) -> usize
    requires { IsShape nodes width }
    ensures words { result ≡ label_words nodes width }
    ensures short { result < 2 ^ 57 }
{
    if nodes == 0 {
        return 0;
    }
    ((nodes - 1) * width).div_ceil(64)
}

/// The numbers of the header of a trie.
pub(crate) fn trie_head(nodes: usize, width: usize) -> Head
    ensures { result ≡ trie_head nodes width }
{
    Head {
        kind: TRIE,
        len: nodes as u64,
        width: width as u64,
        ones_log2: 0,
        zeros_log2: 0,
        a: 0,
        b: 0,
        c: 0,
    }
}

/// The sections of a trie: words, upper and lower table of its tree, labels, ends in the given number of words, and the
/// hints of the tree.
pub(crate) fn trie_sections(nodes: usize, width: usize, ends: usize) -> [Section; 6]
    requires { IsShape nodes width }
    ensures { result ≡ trie_sections nodes width ends }
{
    let lens = Lens::of(nodes);
    [
        Section::of(1, lens.words),
        Section::of(2, lens.upper),
        Section::of(3, lens.lower),
        Section::of(17, label_words(nodes, width)),
        Section::of(18, ends),
        Section::of(HINTS, lens.hints),
    ]
}

/// How many words the block of a trie has.
pub(crate) fn block_len(nodes: usize, width: usize, ends: usize) -> usize
    requires shape { IsShape nodes width }
    requires ends { ends < 2 ^ 52 }
    ensures sections { result ≡ end_of (trie_sections nodes width ends) }
    ensures short { result < 2 ^ 59 }
{
    let lens = Lens::of(nodes);
    let tree = aligned(lens.words) + aligned(lens.upper) + aligned(lens.lower);
    40 + tree + aligned(label_words(nodes, width)) + aligned(ends) + aligned(lens.hints)
}

/// How many words the block of a trie has, of the given number of nodes, whose labels have `width` bits, with a bit for
/// each node or without; `None` exactly where there are 2^57 nodes or more, or the width is not 1 to 63.
///
/// ```
/// size(4, 8, true);   // Some(88)
/// ```
pub fn size(nodes: usize, width: u8, has_ends: bool) -> Option<usize>
    ensures some { IsSome result ↔ IsShape nodes width }
    ensures sections { IfSome result (λ n. n
        ≡ end_of (trie_sections nodes width (if has_ends then end_words nodes else 0))) }
    ensures short { IfSome result (λ n. n < 2 ^ 59) }
{
    let width = width as usize;
    if !is_shape(nodes, width) {
        return None;
    }
    let ends = if has_ends { nodes.div_ceil(64) } else { 0 };
    Some(block_len(nodes, width, ends))
}
