//! Lists of queries of a tree, over any source, whose words and tables may hold anything: sixteen selections go side by
//! side, so that each waits for memory while the others do.
ghost use Rattle.std.specs.Prelude.{◌≡◌, ◌+◌, ◌*◌, ◌<◌, ℕ, length, slice_index};
ghost use Rattle.bit_lists.specs.Count.{as_bit};
ghost use Rattle.bitm_select.specs.Answers.{IsSelectCode, AreSelectCodes};
ghost use Rattle.bitm_tables.specs.declared.answer.Answer.{Answer};
ghost use Rattle.bitm_tables.specs.Tables.{HasSizes};
ghost use Rattle.louds.specs.Counted.{OnlySelects};
ghost use Rattle.tree_block.specs.Block.{TreeParts};
ghost use Rattle.tree_block.specs.Codes.{in_lists, without_hints, IsChildAnswer, IsCodeOf, IsDegree, IsParent};

use crate::tree::LoudsView;
use bitm_select::many::lists::total_select_many_on;
use bitm_select::search::selected::list_code;
use bitm_select::search::selecting::ByTables;
use bitm_tables::answer::Answer;
use bitm_tables::source::TableSource;
use louds::children::{child_after_by, degree_after_by};
use louds::queries::parent_at;

/// A query of a node, which is answered from the position of a bit: of the 1 bit with the node's rank, or of the 0 bit
/// where `BIT` is 0.
trait Asks<const BIT: u8, T: TableSource> {
    /// What holds of the answer for a node and a number.
    ghost holds: { ℕ → ℕ → TreeParts → Answer ℕ → Type 0 };

    /// How many selections the answer takes, after the bit's, and how many words.
    ghost selects: { ℕ };

    ghost words: { ℕ };

    /// The answer for a node and a number, from the code of a bit's position in a list of selections.
    fn answer_on(source: &mut T, len: usize, node: usize, k: usize, code: usize) -> Answer<usize>
        requires sized { HasSizes (T.lists source.old) }
        ensures holds { IsSelectCode (as_bit BIT) (T.lists source.old) node code
            → holds node k (in_lists len (T.lists source.old)) result }
        ensures reads { OnlySelects T.lists T.reads source.old source.new selects words };
}

/// The parent of a node; the number does not matter.
struct Parents;

impl<T: TableSource> Asks<1, T> for Parents {
    ghost holds = { λ node _. IsParent node };

    ghost selects = { 0 };

    ghost words = { 0 };

    #[inline(always)]
    fn answer_on(_: &mut T, len: usize, node: usize, _: usize, code: usize) -> Answer<usize> {
        if node == 0 || node >= len {
            return Answer::Absent;
        }
        parent_at(code, len, node)
    }
}

/// How many children a node has; the number does not matter.
struct Degrees;

impl<T: TableSource> Asks<0, T> for Degrees {
    ghost holds = { λ node _. IsDegree node };

    ghost selects = { 1 };

    ghost words = { 2 };

    #[inline(always)]
    fn answer_on(source: &mut T, len: usize, node: usize, _: usize, code: usize) -> Answer<usize> {
        if node >= len {
            return Answer::Absent;
        }
        degree_after_by(&ByTables, source, len, node, code)
    }
}

/// The child of a node with the number.
struct Children;

impl<T: TableSource> Asks<0, T> for Children {
    ghost holds = { IsChildAnswer };

    ghost selects = { 1 };

    ghost words = { 0 };

    #[inline(always)]
    fn answer_on(source: &mut T, len: usize, node: usize, k: usize, code: usize) -> Answer<usize> {
        if node >= len {
            return Answer::Absent;
        }
        child_after_by(&ByTables, source, len, node, code, k)
    }
}

/// Writes the code of the answer for each node and its number, from the codes of the positions of their bits.
#[inline(never)]
fn answer_each_on<const BIT: u8, T: TableSource, Q: Asks<BIT, T>>(
    source: &mut T,
    len: usize,
    nodes: &[usize],
    ks: &[usize],
    out: &mut [usize],
)
    requires sized { HasSizes (T.lists source.old) }
    requires room { length out.old ≡ length nodes.now }
    requires ks { length ks.now ≡ length nodes.now }
    requires claimed { AreSelectCodes (as_bit BIT) (T.lists source.old) nodes.now out.old }
    ensures each { (j : ℕ) → j < length nodes.now
        → IsCodeOf (Q.holds (slice_index nodes.now j) (slice_index ks.now j)
        (in_lists len (T.lists source.old))) (slice_index out.new j) }
    ensures reads { OnlySelects T.lists T.reads source.old source.new
        (Q.selects * length nodes.now) (Q.words * length nodes.now) }
{
    for at in 0..nodes.len() {
        out[at] = list_code(Q::answer_on(source, len, nodes[at], ks[at], out[at]));
    }
}

/// Writes the code of the answer for each node and its number.
#[inline(always)]
fn ask_each_on<const BIT: u8, T: TableSource, Q: Asks<BIT, T>>(
    source: &mut T,
    len: usize,
    nodes: &[usize],
    ks: &[usize],
    out: &mut [usize],
)
    requires sized { HasSizes (T.lists source.old) }
    requires part { 0 < length (T.lists source.old).upper }
    requires room { length out.old ≡ length nodes.now }
    requires ks { length ks.now ≡ length nodes.now }
    ensures each { (j : ℕ) → j < length nodes.now
        → IsCodeOf (Q.holds (slice_index nodes.now j) (slice_index ks.now j)
        (in_lists len (T.lists source.old))) (slice_index out.new j) }
    ensures reads { OnlySelects T.lists T.reads source.old source.new
        ((Q.selects + 1) * length nodes.now) (Q.words * length nodes.now) }
{
    total_select_many_on::<BIT, T>(source, nodes, &mut *out);
    answer_each_on::<BIT, T, Q>(source, len, nodes, ks, out);
}

/// Writes the parent of each node, or `NO_ANSWER` for `Absent` and `WRONG_TABLES` for `Wrong`: what `total_parent_on`
/// may answer.
///
/// # Conditions
/// There is at least one word and there are fewer than 2^58, and the tables have the right lengths; they may hold
/// anything. `out` is as long as `nodes`.
/// # Cost
/// For each node what a selection by binary search reads, whatever the source holds.
///
/// ```
/// let mut out = [0usize; 3];
/// total_parent_list_on(&mut source, 4, &[0, 3, 1], &mut out);   // NO_ANSWER, 2 and 0
/// ```
pub fn total_parent_list_on<T: TableSource>(
    source: &mut T,
    len: usize,
    nodes: &[usize],
    out: &mut [usize],
)
    requires sized { HasSizes (T.lists source.old) }
    requires part { 0 < length (T.lists source.old).upper }
    requires room { length out.old ≡ length nodes.now }
    ensures each { (j : ℕ) → j < length nodes.now → IsCodeOf (IsParent (slice_index nodes.now j)
        (in_lists len (T.lists source.old))) (slice_index out.new j) }
    ensures reads { OnlySelects T.lists T.reads source.old source.new (length nodes.now) 0 }
{
    ask_each_on::<1, T, Parents>(source, len, nodes, nodes, out);
}

/// Writes how many children each node has, or `NO_ANSWER` for `Absent` and `WRONG_TABLES` for `Wrong`: what
/// `total_degree_on` may answer.
///
/// # Conditions
/// The conditions of `total_parent_list_on`.
/// # Cost
/// For each node what two selections by binary search read, and two words, whatever the source holds.
///
/// ```
/// let mut out = [0usize; 3];
/// total_degree_list_on(&mut source, 4, &[0, 3, 4], &mut out);   // 2, 0 and NO_ANSWER
/// ```
pub fn total_degree_list_on<T: TableSource>(
    source: &mut T,
    len: usize,
    nodes: &[usize],
    out: &mut [usize],
)
    requires sized { HasSizes (T.lists source.old) }
    requires part { 0 < length (T.lists source.old).upper }
    requires room { length out.old ≡ length nodes.now }
    ensures each { (j : ℕ) → j < length nodes.now → IsCodeOf (IsDegree (slice_index nodes.now j)
        (in_lists len (T.lists source.old))) (slice_index out.new j) }
    ensures reads { OnlySelects T.lists T.reads source.old source.new
        (2 * length nodes.now) (2 * length nodes.now) }
{
    ask_each_on::<0, T, Degrees>(source, len, nodes, nodes, out);
}

/// Writes child `ks[j]` of each node `nodes[j]`, or `NO_ANSWER` for `Absent` and `WRONG_TABLES` for `Wrong`: what
/// `total_child_on` may answer.
///
/// # Conditions
/// The conditions of `total_parent_list_on`, and `ks` is as long as `nodes`.
/// # Cost
/// For each node what two selections by binary search read, whatever the source holds.
///
/// ```
/// let mut out = [0usize; 3];
/// total_child_list_on(&mut source, 4, &[0, 0, 2], &[0, 1, 1], &mut out);   // 1, 2 and NO_ANSWER
/// ```
pub fn total_child_list_on<T: TableSource>(
    source: &mut T,
    len: usize,
    nodes: &[usize],
    ks: &[usize],
    out: &mut [usize],
)
    requires sized { HasSizes (T.lists source.old) }
    requires part { 0 < length (T.lists source.old).upper }
    requires room { length out.old ≡ length nodes.now }
    requires ks { length ks.now ≡ length nodes.now }
    ensures each { (j : ℕ) → j < length nodes.now → IsCodeOf (IsChildAnswer (slice_index nodes.now j)
        (slice_index ks.now j) (in_lists len (T.lists source.old))) (slice_index out.new j) }
    ensures reads { OnlySelects T.lists T.reads source.old source.new
        (2 * length nodes.now) 0 }
{
    ask_each_on::<0, T, Children>(source, len, nodes, ks, out);
}

impl<'a> LoudsView<'a> {
    /// Writes the parent of each node, or `NO_ANSWER` for `Absent` and `WRONG_TABLES` for `Wrong`: what `parent` may
    /// answer. Where the block holds a tree, each answer is what `parent` answers.
    ///
    /// # Conditions
    /// `out` is as long as `nodes`.
    /// # Cost
    /// The cost of `total_parent_list_on`.
    ///
    /// ```
    /// tree.parent_list(&[0, 3, 1], &mut out);   // NO_ANSWER, 2 and 0
    /// ```
    pub fn parent_list(&self, nodes: &[usize], out: &mut [usize])
        requires room { length out.old ≡ length nodes.now }
        ensures each { (j : ℕ) → j < length nodes.now
            → IsCodeOf (IsParent (slice_index nodes.now j)
            (without_hints self.now)) (slice_index out.new j) }
    {
        total_parent_list_on(&mut self.probe(), self.len(), nodes, out);
    }

    /// Writes how many children each node has, or `NO_ANSWER` for `Absent` and `WRONG_TABLES` for `Wrong`: what
    /// `degree` may answer. Where the block holds a tree, each answer is what `degree` answers.
    ///
    /// # Conditions
    /// `out` is as long as `nodes`.
    /// # Cost
    /// The cost of `total_degree_list_on`.
    ///
    /// ```
    /// tree.degree_list(&[0, 3, 4], &mut out);   // 2, 0 and NO_ANSWER
    /// ```
    pub fn degree_list(&self, nodes: &[usize], out: &mut [usize])
        requires room { length out.old ≡ length nodes.now }
        ensures each { (j : ℕ) → j < length nodes.now
            → IsCodeOf (IsDegree (slice_index nodes.now j)
            (without_hints self.now)) (slice_index out.new j) }
    {
        total_degree_list_on(&mut self.probe(), self.len(), nodes, out);
    }

    /// Writes child `ks[j]` of each node `nodes[j]`, or `NO_ANSWER` for `Absent` and `WRONG_TABLES` for `Wrong`: what
    /// `child` may answer. Where the block holds a tree, each answer is what `child` answers.
    ///
    /// # Conditions
    /// `out` and `ks` are as long as `nodes`.
    /// # Cost
    /// The cost of `total_child_list_on`.
    ///
    /// ```
    /// tree.child_list(&[0, 0, 2], &[0, 1, 1], &mut out);   // 1, 2 and NO_ANSWER
    /// ```
    pub fn child_list(&self, nodes: &[usize], ks: &[usize], out: &mut [usize])
        requires room { length out.old ≡ length nodes.now }
        requires ks { length ks.now ≡ length nodes.now }
        ensures each { (j : ℕ) → j < length nodes.now → IsCodeOf (IsChildAnswer (slice_index nodes.now j)
            (slice_index ks.now j) (without_hints self.now)) (slice_index out.new j) }
    {
        total_child_list_on(&mut self.probe(), self.len(), nodes, ks, out);
    }
}
