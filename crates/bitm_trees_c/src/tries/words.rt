//! Nodes of a trie in a block by their words.
ghost use Rattle.bitm_trees_c.specs.Trie.{FindAnswered, LongestAnswered};

use crate::tries::trie::Trie;
use bitm_abi::{BAD_SIZE, report, report_both};

/// The node to which a word leads from the root.
#[unsafe(no_mangle)]
pub extern "C" fn bitm_trie_find(trie: &Trie<'_>, word: &[u64], out: &mut usize) -> u32
    ensures { FindAnswered trie.now word.now result out.old out.new }
{
    match trie.view() {
        Some(view) => report(view.find(word), out),
        None => BAD_SIZE,
    }
}

/// The deepest node to which a beginning of a word leads from the root, and how many of its labels lead there.
#[unsafe(no_mangle)]
pub extern "C" fn bitm_trie_longest(
    trie: &Trie<'_>,
    word: &[u64],
    node: &mut usize,
    matched: &mut usize,
) -> u32
    ensures { LongestAnswered trie.now word.now result (node.old, matched.old) (node.new, matched.new) }
{
    match trie.view() {
        Some(view) => report_both(view.longest(word), node, matched),
        None => BAD_SIZE,
    }
}
