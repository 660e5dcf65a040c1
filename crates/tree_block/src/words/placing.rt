//! Where each node stands, level by level.
ghost use Rattle.std.specs.Prelude.{◌≡◌, ◌+◌, ◌-◌, ◌*◌, ◌<◌, ◌≤◌, length, replicate, slice_index, slice_set};
ghost use Rattle.tree_block.specs.Levels.{next_at, AreEnds, AreOf, ArePlaced};
ghost use Rattle.tree_block.specs.Room.{IsWhole};
ghost use Rattle.tree_block.specs.Words.{nodes_of, words_in, AreWords};

use crate::words::words::{shared_len, word_at};
use bit_words::words::set_bit;

/// Writes the label and the parent of the next node of the level below `depth`: the last one of that level is its
/// parent.
#[inline(always)]
fn place_node(
    depth: usize,
    letter: u8,
    next: &mut [usize],
    labels: &mut [u64],
    parents: &mut [usize],
)
    requires inside { depth + 1 < length next.old }
    requires some { (1 ≤ slice_index next.old depth) × (1 ≤ slice_index next.old (depth + 1)) }
    requires labels_room { slice_index next.old (depth + 1) ≤ length labels.old }
    requires parents_room { slice_index next.old (depth + 1) ≤ length parents.old }
    ensures next { next.new
        ≡ slice_set next.old (depth + 1) (slice_index next.old (depth + 1) + 1) }
    ensures labels { labels.new
        ≡ slice_set labels.old (slice_index next.old (depth + 1) - 1) letter }
    ensures parents { parents.new ≡ slice_set parents.old (slice_index next.old (depth + 1) - 1)
        (slice_index next.old depth - 1) }
{
    let node = next[depth + 1];
    let parent = next[depth] - 1;
    labels[node - 1] = letter as u64;
    parents[node - 1] = parent;
    next[depth + 1] = node + 1;
}

/// The last node of a level, before the next one.
#[inline(always)]
fn last_node(next: &[usize], level: usize) -> usize
    requires inside { level < length next.now }
    requires some { 1 ≤ slice_index next.now level }
    ensures { result + 1 ≡ slice_index next.now level }
{
    next[level] - 1
}

/// Writes the label and the parent of each node that word `j` adds: the next one of its level.
fn place_word(
    bytes: &[u8],
    starts: &[usize],
    j: usize,
    next: &mut [usize],
    labels: &mut [u64],
    parents: &mut [usize],
)
    requires words { AreWords bytes.now starts.now }
    requires inside { j + 1 < length starts.now }
    requires whole { IsWhole (words_in bytes.now starts.now) next.old labels.old parents.old }
    requires next { AreOf (next_at (words_in bytes.now starts.now)) next.old j }
    requires placed { ArePlaced (words_in bytes.now starts.now) labels.old parents.old j 0 }
    ensures whole { IsWhole (words_in bytes.now starts.now) next.new labels.new parents.new }
    ensures next { AreOf (next_at (words_in bytes.now starts.now)) next.new (j + 1) }
    ensures placed { ArePlaced (words_in bytes.now starts.now) labels.new parents.new (j + 1) 0 }
{
    let shared = shared_len(bytes, starts, j);
    let word = word_at(bytes, starts, j);
    for depth in shared..word.len() {
        place_node(depth, word[depth], &mut *next, &mut *labels, &mut *parents);
    }
}

/// Writes the label and the parent of each node but the root, and the ends, which were clear.
pub(crate) fn place_words(
    bytes: &[u8],
    starts: &[usize],
    next: &mut [usize],
    labels: &mut [u64],
    ends: &mut [u64],
    parents: &mut [usize],
)
    requires words { AreWords bytes.now starts.now }
    requires whole { IsWhole (words_in bytes.now starts.now) next.old labels.old parents.old }
    requires next { AreOf (next_at (words_in bytes.now starts.now)) next.old 0 }
    requires clear { ends.old ≡ replicate (length ends.old) 0 }
    requires room { nodes_of (words_in bytes.now starts.now) ≤ 64 * length ends.old }
    ensures whole { IsWhole (words_in bytes.now starts.now) next.new labels.new parents.new }
    ensures placed { ArePlaced (words_in bytes.now starts.now) labels.new parents.new
        (words_in bytes.now starts.now).count 0 }
    ensures ends { AreEnds (words_in bytes.now starts.now) ends.new
        (words_in bytes.now starts.now).count }
{
    for j in 0..starts.len() - 1 {
        place_word(bytes, starts, j, &mut *next, &mut *labels, &mut *parents);
        let node = last_node(&*next, starts[j + 1] - starts[j]);
        set_bit(&mut *ends, node);
    }
}
