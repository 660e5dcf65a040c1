//! Children by their labels, and nodes by their words, one body for each: over any source, whose words and tables may
//! hold anything, over any labels, and by any way to find a bit. The calls of the tree with labels and the calls over a
//! block run them.
//!
//! ```
//! find_by(&ByTables, &mut source, &mut labels, 4, [98u64, 101].as_slice());   // Found(3), Absent or Wrong
//! ```
ghost use Rattle.std.specs.Prelude.{◌≡◌, ◌+◌, ◌-◌, ◌*◌, ◌<◌, ◌≤◌, IfSome, length, ℕ, List};
ghost use Rattle.bit_lists.specs.Bits.{digit_count};
ghost use Rattle.bitm_tables.specs.Tables.{HasSizes};
ghost use Rattle.bitm_selection.specs.Selection.{OnlySelectsBy};
ghost use Rattle.louds.specs.Answers.{IsChildWithin};
ghost use Rattle.louds.specs.Counted.{degrees_in, IsLouds};
ghost use Rattle.louds.specs.Labels.{MatchesChildWith, Rise};
ghost use Rattle.louds.specs.Leading.{IsChildByLabelOf, IsLongestOf, IsLongestWithin, IsNodeOf};
ghost use Rattle.louds.specs.Leading.{Grow, IsLabelPosition, IsNodeWithin, ReadsLabels};
ghost use Rattle.louds.specs.Tree.{AreChildren};

use crate::children::children_by;
use crate::probing::Labels;
use bitm_selection::Finds;
use bitm_tables::answer::Answer;
use bitm_tables::source::TableSource;
use suffix_order::Letters;

/// Of the nodes from `first` on and before `past`, the first whose label is not less than the given one, by halving;
/// `past` where each is less.
#[inline(always)]
fn first_from<L: Labels>(labels: &mut L, len: usize, first: usize, past: usize, label: u64) -> usize
    requires labels { L.fitting (L.seen labels.old).words (L.seen labels.old).width len }
    requires some { 0 < first }
    requires order { first ≤ past }
    requires inside { past ≤ len }
    ensures from { first ≤ result }
    ensures to { result ≤ past }
    ensures answer { Grow (L.listed (L.seen labels.old).words (L.seen labels.old).width len) first past
        → IsLabelPosition (L.listed (L.seen labels.old).words (L.seen labels.old).width len) first past
        label result }
    ensures reads { ReadsLabels (L.seen labels.old) (L.seen labels.new) (digit_count (past - first)) }
{
    let mut low = first;
    let mut high = past;
    while low < high {
        let middle = low + (high - low) / 2;
        if labels.label_of(len, middle) < label {
            low = middle + 1;
        } else {
            high = middle;
        }
    }
    low
}

/// The child with the given label of a node whose children are the nodes from `first` on and before `past`.
#[inline(always)]
fn child_among<L: Labels>(
    labels: &mut L,
    len: usize,
    first: usize,
    past: usize,
    label: u64,
) -> Option<usize>
    requires labels { L.fitting (L.seen labels.old).words (L.seen labels.old).width len }
    requires some { 0 < first }
    requires order { first ≤ past }
    requires inside { past ≤ len }
    ensures inside { IfSome result (λ child. (first ≤ child) × (child < past)) }
    ensures answer { (d : List ℕ) (node : ℕ)
        → Rise d (L.listed (L.seen labels.old).words (L.seen labels.old).width len)
        → AreChildren d node first past
        → MatchesChildWith d (L.listed (L.seen labels.old).words (L.seen labels.old).width len) node
        label result }
    ensures reads { ReadsLabels (L.seen labels.old) (L.seen labels.new) (digit_count len + 1) }
{
    let low = first_from(&mut *labels, len, first, past, label);
    if low >= past {
        return None;
    }
    if labels.label_of(len, low) == label {
        Some(low)
    } else {
        None
    }
}

/// The child of a node with this label, by its number.
///
/// Whatever the source and the labels hold, a child is more than the node and less than the number of nodes. Where they
/// hold a trie whose bits `finder` finds, the answer is the child, `Absent` exactly where none has the label, and never
/// `Wrong`.
///
/// # Conditions
/// There are fewer than 2^58 words, the tables have the right lengths, and there are labels for `len` nodes. They may
/// hold anything.
/// # Cost
/// Of the source, what `children_by` reads, and as many labels as the number of nodes has binary digits, and one,
/// whatever they hold.
///
/// ```
/// child_by_label_by(&ByTables, &mut source, &mut labels, 4, 0, 7);   // Found(2), Absent or Wrong
/// ```
#[inline(always)]
pub fn child_by_label_by<F: Finds, T: TableSource, L: Labels>(
    finder: &F,
    source: &mut T,
    labels: &mut L,
    len: usize,
    node: usize,
    label: u64,
) -> Answer<usize>
    requires sized { HasSizes (T.lists source.old) }
    requires labels { L.fitting (L.seen labels.old).words (L.seen labels.old).width len }
    ensures inside { IsChildWithin len node result }
    ensures answer { IsLouds len (T.lists source.old) → F.finds finder.now (T.lists source.old)
        → Rise (degrees_in len (T.lists source.old))
        (L.listed (L.seen labels.old).words (L.seen labels.old).width len)
        → IsChildByLabelOf (degrees_in len (T.lists source.old))
        (L.listed (L.seen labels.old).words (L.seen labels.old).width len) node label result }
    ensures reads { OnlySelectsBy T.lists T.reads source.old source.new
        (F.most (T.lists source.old)) 2 2 }
    ensures labels { ReadsLabels (L.seen labels.old) (L.seen labels.new) (digit_count len + 1) }
{
    match children_by(finder, source, len, node) {
        Answer::Found((first, past)) => match child_among(labels, len, first, past, label) {
            Some(child) => Answer::Found(child),
            None => Answer::Absent,
        },
        Answer::Absent => Answer::Absent,
        Answer::Wrong => Answer::Wrong,
    }
}

/// The deepest node to which a beginning of a word leads from the root, and how many labels lead there: all of them
/// where the word leads to a node. A word is a list of labels, such as `&[u64]`, or `&[u8]` where labels are bytes.
///
/// Whatever the source and the labels hold, the node is less than the number of nodes, no more labels lead there than
/// the word has, and the answer is `Absent` exactly where there are no nodes. Where they hold a trie whose bits
/// `finder` finds, no longer beginning of the word leads to a node, and the answer is never `Wrong`.
///
/// # Conditions
/// There are fewer than 2^58 words, the tables have the right lengths, and there are labels for `len` nodes. They may
/// hold anything.
/// # Cost
/// For each label of the word at most what `child_by_label_by` reads, whatever they hold.
///
/// ```
/// longest_by(&ByTables, &mut source, &mut labels, 4, [98u64, 101, 97].as_slice());   // Found((3, 2)) or Wrong
/// ```
#[inline(always)]
pub fn longest_by<F: Finds, T: TableSource, L: Labels, W: Letters>(
    finder: &F,
    source: &mut T,
    labels: &mut L,
    len: usize,
    word: W,
) -> Answer<(usize, usize)>
    requires sized { HasSizes (T.lists source.old) }
    requires labels { L.fitting (L.seen labels.old).words (L.seen labels.old).width len }
    ensures inside { IsLongestWithin len (length (W.letters word)) result }
    ensures answer { IsLouds len (T.lists source.old) → F.finds finder.now (T.lists source.old)
        → Rise (degrees_in len (T.lists source.old))
        (L.listed (L.seen labels.old).words (L.seen labels.old).width len)
        → IsLongestOf (degrees_in len (T.lists source.old))
        (L.listed (L.seen labels.old).words (L.seen labels.old).width len) (W.letters word) result }
    ensures reads { OnlySelectsBy T.lists T.reads source.old source.new
        (F.most (T.lists source.old)) (2 * length (W.letters word)) (2 * length (W.letters word)) }
    ensures labels { ReadsLabels (L.seen labels.old) (L.seen labels.new)
        (length (W.letters word) * (digit_count len + 1)) }
{
    if len == 0 {
        return Answer::Absent;
    }
    let count = word.len();
    let mut at = 0;
    for i in 0..count {
        let label = word.letter_at(i);
        match child_by_label_by(finder, &mut *source, &mut *labels, len, at, label) {
            Answer::Found(child) => at = child,
            Answer::Absent => return Answer::Found((at, i)),
            Answer::Wrong => return Answer::Wrong,
        }
    }
    Answer::Found((at, count))
}

/// The node to which a word leads from the root, label by label. A word is a list of labels, such as `&[u64]`, or
/// `&[u8]` where labels are bytes.
///
/// Whatever the source and the labels hold, it is less than the number of nodes. Where they hold a trie whose bits
/// `finder` finds, the answer is that node, `Absent` exactly where the word leads to none, and never `Wrong`.
///
/// # Conditions
/// There are fewer than 2^58 words, the tables have the right lengths, and there are labels for `len` nodes. They may
/// hold anything.
/// # Cost
/// For each label of the word at most what `child_by_label_by` reads, whatever they hold.
///
/// ```
/// find_by(&ByTables, &mut source, &mut labels, 4, [98u64, 101].as_slice());   // Found(3), Absent or Wrong
/// ```
#[inline(always)]
pub fn find_by<F: Finds, T: TableSource, L: Labels, W: Letters>(
    finder: &F,
    source: &mut T,
    labels: &mut L,
    len: usize,
    word: W,
) -> Answer<usize>
    requires sized { HasSizes (T.lists source.old) }
    requires labels { L.fitting (L.seen labels.old).words (L.seen labels.old).width len }
    ensures inside { IsNodeWithin len result }
    ensures answer { IsLouds len (T.lists source.old) → F.finds finder.now (T.lists source.old)
        → Rise (degrees_in len (T.lists source.old))
        (L.listed (L.seen labels.old).words (L.seen labels.old).width len)
        → IsNodeOf (degrees_in len (T.lists source.old))
        (L.listed (L.seen labels.old).words (L.seen labels.old).width len) (W.letters word) result }
    ensures reads { OnlySelectsBy T.lists T.reads source.old source.new
        (F.most (T.lists source.old)) (2 * length (W.letters word)) (2 * length (W.letters word)) }
    ensures labels { ReadsLabels (L.seen labels.old) (L.seen labels.new)
        (length (W.letters word) * (digit_count len + 1)) }
{
    match longest_by(finder, source, labels, len, word) {
        Answer::Found((node, matched)) => {
            if matched == word.len() {
                Answer::Found(node)
            } else {
                Answer::Absent
            }
        }
        Answer::Absent => Answer::Absent,
        Answer::Wrong => Answer::Wrong,
    }
}
