//! The parts of the trie of sorted words.
ghost use Rattle.std.specs.Prelude.{◌≡◌, ◌∷◌, ◌+◌, ◌^◌, ◌<◌, ◌≤◌, ◌↔◌, IfErr, IfOk, IsOk, IsTrue, length};
ghost use Rattle.louds.specs.Labels.{AreLabels};
ghost use Rattle.louds.specs.Parents.{AreParents, HasParents};
ghost use Rattle.louds.specs.Tree.{IsTree};
ghost use Rattle.tree_block.specs.TrieBlock.{IsTrie};
ghost use Rattle.tree_block.specs.Room.{CanGrow, HasNodeRoom, IsReason};
ghost use Rattle.tree_block.specs.Trie.{HoldsWords};
ghost use Rattle.tree_block.specs.Words.{words_in};

use crate::words::error::WordsError;
use crate::words::levels::{begin_levels, clear_numbers};
use crate::words::placing::place_words;
use crate::words::words::{are_sorted, count_of};
use tables_view::clear;

/// Whether there is room for the parts of a trie of that many nodes.
fn has_room(
    count: usize,
    degrees: &[usize],
    labels: &[u64],
    ends: &[u64],
    parents: &[usize],
) -> bool
    requires { 1 ≤ count }
    ensures { IsTrue result ↔ HasNodeRoom count degrees.now labels.now ends.now parents.now }
{
    degrees.len() == count
        && labels.len() == count - 1
        && ends.len() == count.div_ceil(64)
        && parents.len() == count - 1
}

/// Writes how many children each node has.
fn count_children(parents: &[usize], degrees: &mut [usize])
    requires parents { AreParents parents.now }
    requires room { length degrees.old ≡ length parents.now + 1 }
    ensures parents { HasParents degrees.new parents.now }
    ensures tree { IsTree degrees.new }
{
    clear_numbers(&mut *degrees);
    for parent in parents {
        degrees[*parent] += 1;
    }
}

/// Writes the parts of the trie of words for which there is room.
pub(crate) fn write_parts(
    bytes: &[u8],
    starts: &[usize],
    degrees: &mut [usize],
    labels: &mut [u64],
    ends: &mut [u64],
    parents: &mut [usize],
)
    requires { CanGrow bytes.now starts.now degrees.old labels.old ends.old parents.old }
    ensures tree { IsTree degrees.new }
    ensures labels { AreLabels degrees.new (0 ∷ labels.new) 8 }
    ensures parents { HasParents degrees.new parents.new }
    ensures words { HoldsWords (words_in bytes.now starts.now) degrees.new (0 ∷ labels.new)
        ends.new }
{
    begin_levels(bytes, starts, &mut *degrees);
    clear(&mut *ends);
    place_words(
        bytes,
        starts,
        &mut *degrees,
        &mut *labels,
        &mut *ends,
        &mut *parents,
    );
    count_children(&*parents, degrees);
}

/// Writes the parts of the trie of sorted words, which `trie::build` makes into a block, with labels of 8 bits.
///
/// The words stand one after another in `bytes`: `starts` says where each begins, and at last where the last one ends.
/// They rise strictly in the order of a dictionary, as for `nodes`, which says how many nodes the trie has. The degree
/// of each node is written, the label of each but the root, which is a byte of a word, and a bit for each, lowest
/// first, that says whether a word ends there. A word leads from the root to a node whose bit is 1 exactly where it is
/// one of the words. `parents` is room for the number of each node's parent but the root's; it holds these afterwards.
///
/// # Errors
/// `NotWords` exactly where `nodes` answers it; else `WrongLength` exactly where there is not a degree for each node, a
/// label and a parent for each but the root, and a word of ends for each 64 nodes that are begun, of one node and one
/// for each letter that a word does not share with the word before it; else `NotSorted` exactly where a word does not
/// stand after the one before it. What was given stays as it was then.
/// # Cost
/// Five passes over the starts and four over the bytes, and six over the numbers that are written (evident from the
/// code). Nothing is allocated.
///
/// ```
/// let mut degrees = [0usize; 5];
/// let mut labels = [0u64; 4];
/// let mut ends = [0u64; 1];
/// let mut parents = [0usize; 4];
/// // the words a, abe and b
/// grow(b"aabeb".as_slice(), &[0, 1, 4, 5], degrees.as_mut_slice(), labels.as_mut_slice(),
///     ends.as_mut_slice(), parents.as_mut_slice());   // Ok(())
/// degrees;   // 2, 1, 0, 1, 0
/// labels;    // a, b, b and e
/// ends;      // 0b10110: of nodes 1, 2 and 4
/// ```
pub fn grow(
    bytes: &[u8],
    starts: &[usize],
    degrees: &mut [usize],
    labels: &mut [u64],
    ends: &mut [u64],
    parents: &mut [usize],
) -> Result<(), WordsError>
    ensures error { IfErr result (IsReason bytes.now starts.now degrees.old labels.old ends.old
        parents.old) }
    ensures ok { IsOk result
        ↔ CanGrow bytes.now starts.now degrees.old labels.old ends.old parents.old }
    ensures tree { IfOk result (λ _. IsTree degrees.new × AreLabels degrees.new (0 ∷ labels.new) 8) }
    ensures trie { IfOk result (λ _. length degrees.new < 2 ^ 57
        → IsTrie degrees.new labels.new 8 ends.new) }
    ensures parents { IfOk result (λ _. HasParents degrees.new parents.new) }
    ensures words { IfOk result (λ _. HoldsWords (words_in bytes.now starts.now) degrees.new
        (0 ∷ labels.new) ends.new) }
    ensures kept { IfErr result (λ _. (degrees.new ≡ degrees.old) × (labels.new ≡ labels.old)
        × (ends.new ≡ ends.old) × (parents.new ≡ parents.old)) }
{
    let Some(count) = count_of(bytes, starts) else {
        return Err(WordsError::NotWords);
    };
    if !has_room(count, &*degrees, &*labels, &*ends, &*parents) {
        return Err(WordsError::WrongLength);
    }
    if !are_sorted(bytes, starts) {
        return Err(WordsError::NotSorted);
    }
    write_parts(bytes, starts, degrees, labels, ends, parents);
    Ok(())
}
