//! A trie in a block as C passes it, and as the library queries it.
ghost use Rattle.std.specs.Prelude.{◌≡◌, SomeIff};
ghost use Rattle.tree_block.specs.TrieBlock.{HasTrieLengths};
ghost use Rattle.bitm_trees_c.specs.Trie.{trie_parts};

use bitm_abi::Tree;
use tree_block::trie::TrieView;

/// A trie in the caller's memory: its tree, and the words of its labels and of its ends, for C pairs of a pointer and a
/// length.
#[repr(C)]
#[derive(Clone, Copy)]
pub struct Trie<'a> {
    /// The tree.
    pub tree: Tree<'a>,
    /// How many bits a label has.
    pub width: u64,
    /// The words of the labels of the nodes from 1 on.
    pub labels: &'a [u64],
    /// The words of the ends, a bit for each node; no words where the trie has no ends.
    pub ends: &'a [u64],
    /// Room for later versions; this one does not read it.
    pub reserved: [u64; 2],
}

impl<'a> Trie<'a> {
    /// What C is passed for a view of a block.
    #[inline(always)]
    pub(crate) fn of(view: &TrieView<'a>) -> Trie<'a>
        ensures { trie_parts result ≡ view.now }
    {
        Trie {
            tree: Tree::of(view.tree()),
            width: view.width() as u64,
            labels: view.labels(),
            ends: view.ends(),
            reserved: [0; 2],
        }
    }

    /// The trie as the library queries it; `None` exactly where a length is not right.
    #[inline(always)]
    pub(crate) fn view(&self) -> Option<TrieView<'a>>
        ensures { SomeIff result (HasTrieLengths (trie_parts self.now)) (trie_parts self.now) }
    {
        if self.width > 63 {
            return None;
        }
        let tree = self.tree.view()?;
        TrieView::over(tree, self.labels, self.width as u8, self.ends)
    }
}
