//! How many nodes each level has, and where it begins.
ghost use Rattle.std.specs.Prelude.{◌≡◌, ◌+◌, ◌%◌, ◌^◌, ◌<◌, ◌≤◌, ℕ, length, replicate, slice_index, slice_set, take};
ghost use Rattle.std.specs.List.{sum};
ghost use Rattle.tree_block.specs.Levels.{above, count_at, next_at, AreOf};
ghost use Rattle.tree_block.specs.Words.{added, nodes_of, words_in, AreWords};

use crate::words::words::shared_len;

/// Clears every second number, from number `first` on.
#[inline(always)]
fn clear_half(numbers: &mut [usize], first: usize)
    ensures zeros { (j : ℕ) → first ≤ j → j % 2 ≡ first % 2 → slice_index numbers.new j ≡ 0 }
    ensures below { (j : ℕ) → j < first → slice_index numbers.new j ≡ slice_index numbers.old j }
    ensures kept { (j : ℕ) → slice_index numbers.old j ≡ 0 → slice_index numbers.new j ≡ 0 }
{
    let mut at = first;
    while at < numbers.len() {
        numbers[at] = 0;
        at += 2;
    }
}

/// Clears all numbers.
pub(crate) fn clear_numbers(numbers: &mut [usize])
    ensures { numbers.new ≡ replicate (length numbers.old) 0 }
{
    // A loop over all numbers would be compiled to a call of C's `memset`, and the archive for C calls nothing.
    clear_half(&mut *numbers, 0);
    clear_half(numbers, 1);
}

/// Counts one node more of a level.
#[inline(always)]
fn count_node(levels: &mut [usize], level: usize)
    requires inside { level < length levels.old }
    requires few { slice_index levels.old level + 1 < 2 ^ 64 }
    ensures { levels.new ≡ slice_set levels.old level (slice_index levels.old level + 1) }
{
    levels[level] += 1;
}

/// Counts the nodes that word `j` adds to each level.
fn count_word(bytes: &[u8], starts: &[usize], j: usize, levels: &mut [usize])
    requires words { AreWords bytes.now starts.now }
    requires inside { j + 1 < length starts.now }
    requires room { length levels.old ≡ nodes_of (words_in bytes.now starts.now) }
    requires counts { AreOf (count_at (words_in bytes.now starts.now)) levels.old j }
    requires total { sum levels.old ≡ 1 + added (words_in bytes.now starts.now) j }
    ensures counts { AreOf (count_at (words_in bytes.now starts.now)) levels.new (j + 1) }
    ensures total { sum levels.new ≡ 1 + added (words_in bytes.now starts.now) (j + 1) }
{
    let shared = shared_len(bytes, starts, j);
    let len = starts[j + 1] - starts[j];
    for depth in shared..len {
        count_node(&mut *levels, depth + 1);
    }
}

/// Counts the nodes that the words add to each level.
fn count_words(bytes: &[u8], starts: &[usize], levels: &mut [usize])
    requires words { AreWords bytes.now starts.now }
    requires room { length levels.old ≡ nodes_of (words_in bytes.now starts.now) }
    requires counts { AreOf (count_at (words_in bytes.now starts.now)) levels.old 0 }
    requires total { sum levels.old ≡ 1 }
    ensures counts { AreOf (count_at (words_in bytes.now starts.now)) levels.new
        (words_in bytes.now starts.now).count }
    ensures total { sum levels.new ≡ nodes_of (words_in bytes.now starts.now) }
{
    for j in 0..starts.len() - 1 {
        count_word(bytes, starts, j, &mut *levels);
    }
}

/// Writes the sum of the numbers before it in place of each number.
fn add_up(numbers: &mut [usize])
    requires { sum numbers.old < 2 ^ 64 }
    ensures { (k : ℕ) → k < length numbers.old
        → slice_index numbers.new k ≡ sum (take k numbers.old) }
{
    let mut total = 0;
    for k in 0..numbers.len() {
        let here = numbers[k];
        numbers[k] = total;
        total += here;
    }
}

/// Writes the first node of each level, but for the root's level the node after the root.
pub(crate) fn begin_levels(bytes: &[u8], starts: &[usize], levels: &mut [usize])
    requires words { AreWords bytes.now starts.now }
    requires room { length levels.old ≡ nodes_of (words_in bytes.now starts.now) }
    ensures next { AreOf (next_at (words_in bytes.now starts.now)) levels.new 0 }
    ensures all { above (words_in bytes.now starts.now) (nodes_of (words_in bytes.now starts.now))
        ≡ nodes_of (words_in bytes.now starts.now) }
{
    clear_numbers(&mut *levels);
    levels[0] = 1;
    count_words(bytes, starts, &mut *levels);
    add_up(&mut *levels);
    levels[0] = 1;
}
