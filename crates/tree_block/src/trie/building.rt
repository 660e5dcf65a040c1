//! The block of a trie, written into the caller's memory.
ghost use Rattle.std.specs.Prelude.{◌≡◌, ◌^◌, ◌<◌, ◌↔◌, IfErr, IfOk, IsOk, IsTrue, MatchOption, length};
ghost use Rattle.bitm_block.specs.Layout.{end_of};
ghost use Rattle.bitm_block.specs.Written.{IsSealed};
ghost use Rattle.tree_block.specs.TrieBlock.{trie_head, trie_sections};
ghost use Rattle.tree_block.specs.TrieBlock.{CanHold, HasWordEnds, IsBlockOf, IsReason, StandsIn};
ghost use Rattle.tree_block.specs.Labels.{IsShape};

use crate::trie::error::BuildError;
use crate::trie::given::are_labels;
use crate::trie::sections::{block_len, is_shape, label_words, trie_head, trie_sections};
use crate::{Lens, write_tree};
use bit_words::words;
use bitm_block::{aligned, copy_items, seal_sized};
use louds::{is_tree, write_numbers};
use tables_view::clear;

/// Writes the sections of a trie where its block has them.
fn write_parts(degrees: &[usize], labels: &[u64], width: u8, ends: &[u64], block: &mut [u64])
    requires { CanHold degrees.now labels.now width ends.now block.old }
    ensures { StandsIn degrees.now labels.now width ends.now block.new }
{
    let lens = Lens::of(degrees.len());
    let labels_len = label_words(degrees.len(), width as usize);
    clear(&mut *block);
    let (_head, rest) = block.split_at_mut(40);
    let (room, rest) = rest.split_at_mut(aligned(lens.words));
    let (words, _gap) = room.split_at_mut(lens.words);
    let (room, rest) = rest.split_at_mut(aligned(lens.upper));
    let (upper, _gap) = room.split_at_mut(lens.upper);
    let (room, rest) = rest.split_at_mut(aligned(lens.lower));
    let (lower, _gap) = room.split_at_mut(lens.lower);
    let (room, rest) = rest.split_at_mut(aligned(labels_len));
    let (label_part, _gap) = room.split_at_mut(labels_len);
    let (room, rest) = rest.split_at_mut(aligned(ends.len()));
    let (end_part, _gap) = room.split_at_mut(ends.len());
    let (hints, _gap) = rest.split_at_mut(lens.hints);
    write_tree(degrees, words, upper, lower, hints);
    write_numbers(label_part, labels, width);
    copy_items(end_part, ends);
}

/// Writes the header and the directory of a trie.
fn seal_trie(nodes: usize, width: usize, ends: usize, block: &mut [u64])
    requires shape { IsShape nodes width }
    requires ends { ends < 2 ^ 52 }
    requires room { length block.old ≡ end_of (trie_sections nodes width ends) }
    ensures { IsSealed (trie_head nodes width) (trie_sections nodes width ends)
        block.old block.new }
{
    let sections = trie_sections(nodes, width, ends);
    seal_sized(&trie_head(nodes, width), sections.as_slice(), block);
}

/// Writes the block of a trie.
fn write_block(degrees: &[usize], labels: &[u64], width: u8, ends: &[u64], block: &mut [u64])
    requires { CanHold degrees.now labels.now width ends.now block.old }
    ensures { IsBlockOf degrees.now labels.now width ends.now block.new }
{
    write_parts(degrees, labels, width, ends, &mut *block);
    seal_trie(degrees.len(), width as usize, ends.len(), block);
}

/// Whether these are no words, or the words for one bit for each node.
#[inline(always)]
pub(crate) fn has_ends(ends: &[u64], nodes: usize) -> bool
    ensures { IsTrue result ↔ HasWordEnds ends.now nodes }
{
    ends.len() == 0 || ends.len() == nodes.div_ceil(64)
}

/// Why no block is written; `None` where these are the parts of a trie, and the block is as long as theirs.
fn refusal(
    degrees: &[usize],
    labels: &[u64],
    width: u8,
    ends: &[u64],
    block: &[u64],
) -> Option<BuildError>
    ensures { MatchOption result (CanHold degrees.now labels.now width ends.now block.now)
        (IsReason degrees.now labels.now width ends.now block.now) }
{
    if degrees.len() >= 1 << 57 {
        return Some(BuildError::TooLong);
    }
    if !is_shape(degrees.len(), width as usize) {
        return Some(BuildError::WrongWidth);
    }
    if labels.len() != degrees.len().saturating_sub(1) {
        return Some(BuildError::WrongLabels);
    }
    if !has_ends(ends, degrees.len()) {
        return Some(BuildError::WrongEnds);
    }
    if block.len() != block_len(degrees.len(), width as usize, ends.len()) {
        return Some(BuildError::WrongLength);
    }
    if !is_tree(degrees) {
        return Some(BuildError::NotATree);
    }
    if !are_labels(degrees, labels, width) {
        return Some(BuildError::NotLabels);
    }
    None
}

/// Writes the block of the trie of these degrees, which `TrieView::open` opens and `check` accepts. The labels belong
/// to the nodes from 1 on, and the labels of the children of a node rise. The ends are no words, or a bit for each
/// node, lowest bit first, which says whether a word ends there; they are copied as they are, with the bits after the
/// last node.
///
/// # Errors
/// `TooLong` exactly where there are 2^57 degrees or more; else `WrongWidth` exactly where the width is not 1 to 63;
/// else `WrongLabels` exactly where there is not one label for each degree but the first; else `WrongEnds` exactly
/// where the ends are neither no words nor the words for one bit for each node; else `WrongLength` exactly where the
/// words of the block are more or fewer than it takes (`size`); else `NotATree` exactly where the degrees form no tree;
/// else `NotLabels` exactly where a label has more bits than the width, or the labels of the children of a node do not
/// rise. The words of the block stay as they are then.
/// # Cost
/// Three passes over the degrees and the labels, four over the block, and one selection for each hint (evident from the
/// code). Nothing is allocated.
///
/// ```
/// let mut block = [0u64; 88];              // size(4, 8, true) words
/// // the words a, b and be: nodes 1 to 3 have the letters a, b and e, and a word ends at each of them
/// build(&[2, 0, 1, 0], &[97, 98, 101], 8, &[0b1110], block.as_mut_slice());   // Ok(())
/// ```
pub fn build(
    degrees: &[usize],
    labels: &[u64],
    width: u8,
    ends: &[u64],
    block: &mut [u64],
) -> Result<(), BuildError>
    ensures error { IfErr result
        (IsReason degrees.now labels.now width ends.now block.old) }
    ensures ok { IsOk result ↔ CanHold degrees.now labels.now width ends.now block.old }
    ensures block { IfOk result (λ _. IsBlockOf degrees.now labels.now width ends.now block.new) }
    ensures kept { IfErr result (λ _. block.new ≡ block.old) }
{
    if let Some(error) = refusal(degrees, labels, width, ends, &*block) {
        return Err(error);
    }
    write_block(degrees, labels, width, ends, block);
    Ok(())
}
