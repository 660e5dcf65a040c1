//! The block of the trie of sorted words.
ghost use Rattle.std.specs.Prelude.{◌≡◌, ◌≤◌, ◌↔◌, IfErr, IfOk, IsOk, IsTrue};
ghost use Rattle.tree_block.specs.Building.{CanBuild, HasTrieBlockRoom, IsBuildReason};
ghost use Rattle.tree_block.specs.Trie.{IsBlockOfWords};
ghost use Rattle.tree_block.specs.Words.{nodes_of, words_in};

use crate::trie::size;
use crate::words::error::WordsError;
use crate::words::growing::write_parts;
use crate::words::words::{are_sorted, count_of};
use block_tables::as_entries_mut;

/// Whether there is room for the block of the trie of that many nodes, and to write it.
fn has_block_room(count: usize, scratch: usize, block: usize) -> bool
    requires { 1 ≤ count }
    ensures { IsTrue result ↔ HasTrieBlockRoom count scratch block }
{
    match size(count, 8, true) {
        Some(len) => block == len && scratch == 3 * count - 2 + count.div_ceil(64),
        None => false,
    }
}

/// Writes the block of the trie of words for which there is room.
fn write_block(bytes: &[u8], starts: &[usize], count: usize, scratch: &mut [u64], block: &mut [u64])
    requires can { CanBuild bytes.now starts.now scratch.old block.old }
    requires count { count ≡ nodes_of (words_in bytes.now starts.now) }
    ensures { IsBlockOfWords (words_in bytes.now starts.now) block.new }
{
    let (numbers, words) = scratch.split_at_mut(2 * count - 1);
    let (degrees, parents) = as_entries_mut(numbers).split_at_mut(count);
    let (labels, ends) = words.split_at_mut(count - 1);
    write_parts(
        bytes,
        starts,
        &mut *degrees,
        &mut *labels,
        &mut *ends,
        parents,
    );
    match crate::trie::build(&*degrees, &*labels, 8, &*ends, block) {
        Ok(()) => {}
        Err(_) => unreachable!(),
    }
}

/// Writes the block of the trie of sorted words, with labels of 8 bits, which `TrieView::open` opens and `check`
/// accepts. A word of bytes leads from its root to a node at which a word ends exactly where it is one of the words.
///
/// The words stand in `bytes` as for `nodes`, which says how many nodes there are, n: one, and one for each letter that
/// a word does not share with the word before it. The scratch has 3 n - 2 + ceil(n / 64) words: for the degrees of the
/// nodes, their parents, their labels and where words end. Nothing is said of what the scratch holds afterwards.
///
/// # Errors
/// `NotWords` exactly where `nodes` answers it; else `WrongLength` exactly where n is 2^57 or more, the scratch is not
/// that long, or the block has not `trie::size(n, 8, true)` words; else `NotSorted` exactly where a word does not
/// stand after the one before it. The block stays as it was then.
/// # Cost
/// The cost of `grow` and of `trie::build`. Nothing is allocated.
///
/// ```
/// let mut scratch = [0u64; 14];
/// let mut block = [0u64; 88];     // trie::size(5, 8, true) words
/// // the words a, abe and b
/// build(b"aabeb".as_slice(), &[0, 1, 4, 5], scratch.as_mut_slice(), block.as_mut_slice());   // Ok(())
/// ```
pub fn build(
    bytes: &[u8],
    starts: &[usize],
    scratch: &mut [u64],
    block: &mut [u64],
) -> Result<(), WordsError>
    ensures error { IfErr result
        (IsBuildReason bytes.now starts.now scratch.old block.old) }
    ensures ok { IsOk result ↔ CanBuild bytes.now starts.now scratch.old block.old }
    ensures block { IfOk result (λ _. IsBlockOfWords (words_in bytes.now starts.now) block.new) }
    ensures kept { IfErr result (λ _. block.new ≡ block.old) }
{
    let Some(count) = count_of(bytes, starts) else {
        return Err(WordsError::NotWords);
    };
    if !has_block_room(count, scratch.len(), block.len()) {
        return Err(WordsError::WrongLength);
    }
    if !are_sorted(bytes, starts) {
        return Err(WordsError::NotSorted);
    }
    write_block(bytes, starts, count, scratch, block);
    Ok(())
}
