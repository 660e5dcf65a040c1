//! Queries of the nodes of a trie in a block.
ghost use Rattle.std.specs.Prelude.{◌≡◌};
ghost use Rattle.bitm_trees_c.specs.Trie.{ChildByLabelAnswered, EndAnswered, LabelAnswered, WordAnswered};

use crate::tries::trie::Trie;
use bitm_abi::{BAD_SIZE, as_number, report};

/// The label of a node.
#[unsafe(no_mangle)]
pub extern "C" fn bitm_trie_label(trie: &Trie<'_>, node: usize, out: &mut u64) -> u32
    ensures { LabelAnswered trie.now node result out.old out.new }
{
    match trie.view() {
        Some(view) => report(view.label(node), out),
        None => BAD_SIZE,
    }
}

/// Whether a word ends at a node, as 0 or 1.
#[unsafe(no_mangle)]
pub extern "C" fn bitm_trie_is_end(trie: &Trie<'_>, node: usize, out: &mut usize) -> u32
    ensures { EndAnswered trie.now node result out.old out.new }
{
    match trie.view() {
        Some(view) => report(as_number(view.is_end(node)), out),
        None => BAD_SIZE,
    }
}

/// The child of a node with this label.
#[unsafe(no_mangle)]
pub extern "C" fn bitm_trie_child(trie: &Trie<'_>, node: usize, label: u64, out: &mut usize) -> u32
    ensures { ChildByLabelAnswered trie.now node label result out.old out.new }
{
    match trie.view() {
        Some(view) => report(view.child_by_label(node, label), out),
        None => BAD_SIZE,
    }
}

/// How many labels the word has that leads to a node; they are the last items of `out` where there is room for them.
#[unsafe(no_mangle)]
pub extern "C" fn bitm_trie_word(
    trie: &Trie<'_>,
    node: usize,
    out: &mut [u64],
    word_len: &mut usize,
) -> u32
    ensures answer { WordAnswered trie.now node out.old out.new result word_len.old word_len.new }
    ensures kept { result ≡ 2 → out.new ≡ out.old }
{
    match trie.view() {
        Some(view) => report(view.word(node, out), word_len),
        None => BAD_SIZE,
    }
}
