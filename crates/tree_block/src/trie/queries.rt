//! Children by their labels, and words, over any source: its words and tables, and the labels, may hold anything.
ghost use Rattle.std.specs.Prelude.{◌+◌, ◌*◌, length};
ghost use Rattle.bit_lists.specs.Bits.{digit_count};
ghost use Rattle.bitm_tables.specs.Tables.{HasSizes};
ghost use Rattle.louds.specs.Answers.{IsChildWithin};
ghost use Rattle.louds.specs.Counted.{degrees_in, IsLouds, OnlySelects};
ghost use Rattle.louds.specs.Labels.{Rise};
ghost use Rattle.louds.specs.Leading.{IsChildByLabelOf, IsLongestOf, IsLongestWithin, IsNodeOf};
ghost use Rattle.louds.specs.Leading.{IsNodeWithin, ReadsLabels};
ghost use Rattle.tree_block.specs.Labels.{labels_of, HasLabels};

use crate::trie::labels::LabelProbe;
use bitm_select::search::selecting::ByTables;
use bitm_tables::answer::Answer;
use bitm_tables::source::TableSource;
use louds::leading::{child_by_label_by, find_by, longest_by};
use suffix_order::Letters;

/// The child of a node with this label, by its number.
///
/// Whatever the source and the labels hold, a child is more than the node and less than the number of nodes. Where they
/// hold a trie, the answer is the child, `Absent` exactly where none has the label, and never `Wrong`.
///
/// # Conditions
/// There are fewer than 2^58 words, and the tables and the labels have the right lengths. They may hold anything.
/// # Cost
/// What two selections by binary search read, two words, and as many labels as the number of nodes has binary digits,
/// and one, whatever they hold; what one selection reads where the two words have a 0 bit after the node's 1 bits.
///
/// ```
/// total_child_by_label_on(&mut source, &mut labels, 4, 0, 7);   // Found(2), Absent or Wrong
/// ```
pub fn total_child_by_label_on<T: TableSource>(
    source: &mut T,
    labels: &mut LabelProbe<'_>,
    len: usize,
    node: usize,
    label: u64,
) -> Answer<usize>
    requires sized { HasSizes (T.lists source.old) }
    requires labels { HasLabels labels.old.words labels.old.width len }
    ensures inside { IsChildWithin len node result }
    ensures answer { IsLouds len (T.lists source.old)
        → Rise (degrees_in len (T.lists source.old)) (labels_of labels.old.words labels.old.width len)
        → IsChildByLabelOf (degrees_in len (T.lists source.old))
        (labels_of labels.old.words labels.old.width len) node label result }
    ensures reads { OnlySelects T.lists T.reads source.old source.new 2 2 }
    ensures labels { ReadsLabels labels.old labels.new (digit_count len + 1) }
{
    child_by_label_by(&ByTables, source, labels, len, node, label)
}

/// The deepest node to which a beginning of a word leads from the root, and how many labels lead there: all of them
/// where the word leads to a node. A word is a list of labels, such as `&[u64]`, or `&[u8]` where labels are bytes.
///
/// Whatever the source and the labels hold, the node is less than the number of nodes, no more labels lead there than
/// the word has, and the answer is `Absent` exactly where there are no nodes. Where they hold a trie, no longer
/// beginning of the word leads to a node, and the answer is never `Wrong`.
///
/// # Conditions
/// There are fewer than 2^58 words, and the tables and the labels have the right lengths. They may hold anything.
/// # Cost
/// For each label of the word at most what `total_child_by_label_on` reads, whatever they hold.
///
/// ```
/// total_longest_on(&mut source, &mut labels, 4, [98u64, 101, 97].as_slice());   // Found((3, 2)) or Wrong
/// ```
pub fn total_longest_on<T: TableSource, W: Letters>(
    source: &mut T,
    labels: &mut LabelProbe<'_>,
    len: usize,
    word: W,
) -> Answer<(usize, usize)>
    requires sized { HasSizes (T.lists source.old) }
    requires labels { HasLabels labels.old.words labels.old.width len }
    ensures inside { IsLongestWithin len (length (W.letters word)) result }
    ensures answer { IsLouds len (T.lists source.old)
        → Rise (degrees_in len (T.lists source.old)) (labels_of labels.old.words labels.old.width len)
        → IsLongestOf (degrees_in len (T.lists source.old))
        (labels_of labels.old.words labels.old.width len) (W.letters word) result }
    ensures reads { OnlySelects T.lists T.reads source.old source.new
        (2 * length (W.letters word)) (2 * length (W.letters word)) }
    ensures labels { ReadsLabels labels.old labels.new
        (length (W.letters word) * (digit_count len + 1)) }
{
    longest_by(&ByTables, source, labels, len, word)
}

/// The node to which a word leads from the root, label by label. A word is a list of labels, such as `&[u64]`, or
/// `&[u8]` where labels are bytes.
///
/// Whatever the source and the labels hold, it is less than the number of nodes. Where they hold a trie, the answer is
/// that node, `Absent` exactly where the word leads to none, and never `Wrong`.
///
/// # Conditions
/// There are fewer than 2^58 words, and the tables and the labels have the right lengths. They may hold anything.
/// # Cost
/// For each label of the word at most what `total_child_by_label_on` reads, whatever they hold.
///
/// ```
/// total_find_on(&mut source, &mut labels, 4, [98u64, 101].as_slice());   // Found(3), Absent or Wrong
/// ```
pub fn total_find_on<T: TableSource, W: Letters>(
    source: &mut T,
    labels: &mut LabelProbe<'_>,
    len: usize,
    word: W,
) -> Answer<usize>
    requires sized { HasSizes (T.lists source.old) }
    requires labels { HasLabels labels.old.words labels.old.width len }
    ensures inside { IsNodeWithin len result }
    ensures answer { IsLouds len (T.lists source.old)
        → Rise (degrees_in len (T.lists source.old)) (labels_of labels.old.words labels.old.width len)
        → IsNodeOf (degrees_in len (T.lists source.old))
        (labels_of labels.old.words labels.old.width len) (W.letters word) result }
    ensures reads { OnlySelects T.lists T.reads source.old source.new
        (2 * length (W.letters word)) (2 * length (W.letters word)) }
    ensures labels { ReadsLabels labels.old labels.new
        (length (W.letters word) * (digit_count len + 1)) }
{
    find_by(&ByTables, source, labels, len, word)
}
