//! The word that leads to a node, over any source: its words and tables, and the labels, may hold anything.
ghost use Rattle.std.specs.Prelude.{◌≡◌, ◌+◌, ◌-◌, ◌<◌, ◌∷◌, drop, length, take};
ghost use Rattle.bitm_tables.specs.Tables.{HasSizes};
ghost use Rattle.bitm_selection.specs.Selection.{OnlySelectsBy};
ghost use Rattle.louds.specs.Counted.{degrees_in, IsLouds, OnlySelects};
ghost use Rattle.tree_block.specs.Answers.{IsWordOf, IsWordWithin};
ghost use Rattle.louds.specs.Leading.{ReadsLabels};
ghost use Rattle.tree_block.specs.Labels.{labels_of, HasLabels};

use crate::trie::labels::LabelProbe;
use bitm_select::search::selecting::ByTables;
use bitm_selection::Finds;
use bitm_tables::answer::Answer;
use bitm_tables::source::TableSource;
use louds::queries::parent_by;

/// Writes a label before the last `count` ones.
#[inline(always)]
fn write_inside(out: &mut [u64], count: usize, label: u64)
    requires { count < length out.old }
    ensures front { take (length out.old - (count + 1)) out.new
        ≡ take (length out.old - (count + 1)) out.old }
    ensures back { drop (length out.old - (count + 1)) out.new
        ≡ label ∷ drop (length out.old - count) out.old }
{
    let position = out.len() - 1 - count;
    out[position] = label;
}

/// Writes a label before the last `count` ones, where there is room.
#[inline(always)]
fn write_before(out: &mut [u64], count: usize, label: u64)
    ensures len { length out.new ≡ length out.old }
    ensures front { count < length out.old → take (length out.old - (count + 1)) out.new
        ≡ take (length out.old - (count + 1)) out.old }
    ensures back { count < length out.old → drop (length out.old - (count + 1)) out.new
        ≡ label ∷ drop (length out.old - count) out.old }
{
    if count < out.len() {
        write_inside(out, count, label);
    }
}

/// The word that leads from the root to a node: how many labels it has. Where `out` has room for them, they are its
/// last items then, and the items before them stay as they are.
///
/// Whatever the source and the labels hold, a word has no more labels than the number of its node, and the answer is
/// `Absent` exactly where there is no such node. Where they hold a tree with labels and `finder` finds the tree's bits,
/// the answer is never `Wrong`.
///
/// # Conditions
/// There are fewer than 2^58 words, and the tables and the labels have the right lengths. They may hold anything.
/// # Cost
/// For each label of the word what a search reads, and that label; whatever they hold, no more of these than the number
/// of the node.
///
/// ```
/// word_by(&ByTables, &mut source, &mut labels, 4, 3, &mut out);   // Found(2), Absent or Wrong
/// ```
#[inline(always)]
pub fn word_by<F: Finds, T: TableSource>(
    finder: &F,
    source: &mut T,
    labels: &mut LabelProbe<'_>,
    len: usize,
    node: usize,
    out: &mut [u64],
) -> Answer<usize>
    requires sized { HasSizes (T.lists source.old) }
    requires labels { HasLabels labels.old.words labels.old.width len }
    ensures inside { IsWordWithin len node out.old out.new result }
    ensures answer { IsLouds len (T.lists source.old) → F.finds finder.now (T.lists source.old)
        → IsWordOf (degrees_in len (T.lists source.old))
        (labels_of labels.old.words labels.old.width len) node out.new result }
    ensures reads { OnlySelectsBy T.lists T.reads source.old source.new
        (F.most (T.lists source.old)) node 0 }
    ensures labels { ReadsLabels labels.old labels.new node }
{
    if node >= len {
        return Answer::Absent;
    }
    let mut at = node;
    let mut count = 0;
    while at != 0 {
        match parent_by(finder, &mut *source, len, at) {
            Answer::Found(parent) => {
                write_before(&mut *out, count, labels.label(len, at));
                count += 1;
                at = parent;
            }
            Answer::Absent => return Answer::Wrong,
            Answer::Wrong => return Answer::Wrong,
        }
    }
    Answer::Found(count)
}

/// The word that leads from the root to a node, by binary search: `word_by` with `ByTables`.
///
/// # Conditions
/// There are fewer than 2^58 words, and the tables and the labels have the right lengths. They may hold anything.
/// # Cost
/// For each label of the word what a selection by binary search reads, and that label; whatever they hold, no more of
/// these than the number of the node.
///
/// ```
/// total_word_on(&mut source, &mut labels, 4, 3, &mut out);   // Found(2), Absent or Wrong
/// ```
pub fn total_word_on<T: TableSource>(
    source: &mut T,
    labels: &mut LabelProbe<'_>,
    len: usize,
    node: usize,
    out: &mut [u64],
) -> Answer<usize>
    requires sized { HasSizes (T.lists source.old) }
    requires labels { HasLabels labels.old.words labels.old.width len }
    ensures inside { IsWordWithin len node out.old out.new result }
    ensures answer { IsLouds len (T.lists source.old) → IsWordOf (degrees_in len (T.lists source.old))
        (labels_of labels.old.words labels.old.width len) node out.new result }
    ensures reads { OnlySelects T.lists T.reads source.old source.new node 0 }
    ensures labels { ReadsLabels labels.old labels.new node }
{
    word_by(&ByTables, source, labels, len, node, out)
}
