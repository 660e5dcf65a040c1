//! Nodes of a trie in a block by their words, whose labels are bytes.
ghost use Rattle.bitm_trees_c.specs.Trie.{FindAnswered, LongestAnswered};

use crate::tries::trie::Trie;
use bitm_abi::{BAD_SIZE, report, report_both};

/// `bitm_trie_find` of a word whose labels are bytes.
#[unsafe(no_mangle)]
pub extern "C" fn bitm_trie_find_bytes(trie: &Trie<'_>, word: &[u8], out: &mut usize) -> u32
    ensures { FindAnswered trie.now word.now result out.old out.new }
{
    match trie.view() {
        Some(view) => report(view.find(word), out),
        None => BAD_SIZE,
    }
}

/// `bitm_trie_longest` of a word whose labels are bytes.
#[unsafe(no_mangle)]
pub extern "C" fn bitm_trie_longest_bytes(
    trie: &Trie<'_>,
    word: &[u8],
    node: &mut usize,
    matched: &mut usize,
) -> u32
    ensures { LongestAnswered trie.now word.now result (node.old, matched.old) (node.new, matched.new) }
{
    match trie.view() {
        Some(view) => report_both(view.longest(word), node, matched),
        None => BAD_SIZE,
    }
}
