//! The sections of the block of a tree.
ghost use Rattle.std.specs.Prelude.{◌≡◌, ◌^◌, ◌<◌, ◌↔◌, IsTrue};
ghost use Rattle.louds.specs.Held.{tree_words};
ghost use Rattle.bitm_block.specs.Layout.{end_of};
ghost use Rattle.tree_block.specs.Block.{hints_of_nodes, lower_of_nodes, tree_end_at, tree_head};
ghost use Rattle.tree_block.specs.Block.{tree_sections, upper_of_nodes, HasTreeSections};

use bitm_block::{Block, Head, Section, aligned};
use bitm_selection::hints_len;
use block_tables::HINTS;
use tables_view::{lower_len, upper_len};

/// The kind of a tree.
pub const LOUDS: u64 = 7;

/// Whether header and directory describe words with two tables, of the kind of a tree.
#[inline(always)]
pub(crate) fn is_tree_block(block: &Block<'_>) -> bool
    ensures { IsTrue result ↔ HasTreeSections block.now }
{
    block.is_of(LOUDS, [1u64, 2, 3].as_slice())
}

/// How many words the sections of a tree have.
///
/// ```
/// Lens::of(4);   // one word, one upper and one lower entry, and two words of hints
/// ```
#[derive(Clone, Copy)]
pub struct Lens {
    /// Words of the bits of the tree.
    pub words: usize,
    /// Entries of the upper table.
    pub upper: usize,
    /// Entries of the lower table.
    pub lower: usize,
    /// Words of the hints, where there are any.
    pub hints: usize,
}

impl Lens {
    /// The lengths for the given number of nodes.
    ///
    /// # Conditions
    /// There are fewer than 2^60 nodes.
    ///
    /// ```
    /// Lens::of(1000).words;   // 32: 2001 bits
    /// ```
    #[inline(always)]
    pub fn of(nodes: usize) -> Lens
        requires { nodes < 2 ^ 60 }
        ensures words { result.words ≡ tree_words nodes }
        ensures upper { result.upper ≡ upper_of_nodes nodes }
        ensures lower { result.lower ≡ lower_of_nodes nodes }
        ensures hints { result.hints ≡ hints_of_nodes nodes }
        ensures short { result.words < 2 ^ 56 }
    {
        let words = (2 * nodes + 1).div_ceil(64);
        Lens {
            words,
            upper: upper_len(words),
            lower: lower_len(words),
            hints: hints_len(nodes, words),
        }
    }
}

/// The numbers of the header of a tree of the given number of nodes.
pub(crate) fn tree_head(nodes: usize) -> Head
    ensures { result ≡ tree_head nodes }
{
    Head {
        kind: LOUDS,
        len: nodes as u64,
        width: 0,
        ones_log2: 0,
        zeros_log2: 0,
        a: 0,
        b: 0,
        c: 0,
    }
}

/// The sections of a tree of the given number of nodes: words, upper and lower table, and hints.
pub(crate) fn tree_sections(nodes: usize) -> [Section; 4]
    requires { nodes < 2 ^ 60 }
    ensures { result ≡ tree_sections nodes }
{
    let lens = Lens::of(nodes);
    [
        Section::of(1, lens.words),
        Section::of(2, lens.upper),
        Section::of(3, lens.lower),
        Section::of(HINTS, lens.hints),
    ]
}

/// How many words the block of the given number of nodes has.
///
/// # Conditions
/// There are fewer than 2^60 nodes.
///
/// ```
/// size(4);   // 64
/// ```
pub fn size(nodes: usize) -> usize
    requires { nodes < 2 ^ 60 }
    ensures sections { result ≡ end_of (tree_sections nodes) }
    ensures parts { result ≡ tree_end_at nodes }
    ensures short { result < 2 ^ 59 }
{
    let lens = Lens::of(nodes);
    32 + aligned(lens.words) + aligned(lens.upper) + aligned(lens.lower) + aligned(lens.hints)
}
