//! A tree in a block as C passes it, and as the library queries it.
ghost use Rattle.std.specs.Prelude.{◌≡◌, SomeIff};
ghost use Rattle.tree_block.specs.Block.{HasLengths};
ghost use Rattle.bitm_abi.specs.Tree.{tree_parts};

use tree_block::LoudsView;

/// A tree in the caller's memory: the number of nodes, and the words, tables and hints of its block, for C four pairs
/// of a pointer and a length.
#[repr(C)]
#[derive(Clone, Copy)]
pub struct Tree<'a> {
    /// The number of nodes.
    pub len: usize,
    /// The words that hold the tree.
    pub words: &'a [u64],
    /// The upper table of these words.
    pub upper: &'a [u64],
    /// The lower table of these words.
    pub lower: &'a [u64],
    /// The hints of these words, or no words.
    pub hints: &'a [u64],
}

impl<'a> Tree<'a> {
    /// What C is passed for a view of a block.
    #[inline(always)]
    pub fn of(view: &LoudsView<'a>) -> Tree<'a>
        ensures { tree_parts result ≡ view.now }
    {
        Tree {
            len: view.len(),
            words: view.words(),
            upper: view.upper(),
            lower: view.lower(),
            hints: view.hints(),
        }
    }

    /// The tree as the library queries it; `None` exactly where a length is not right.
    #[inline(always)]
    pub fn view(&self) -> Option<LoudsView<'a>>
        ensures { SomeIff result (HasLengths (tree_parts self.now)) (tree_parts self.now) }
    {
        LoudsView::over(self.len, self.words, self.upper, self.lower, self.hints)
    }
}
