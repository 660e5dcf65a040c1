//! Words that stand one after another in bytes.
ghost use Rattle.std.specs.Prelude.{◌≡◌, ◌+◌, ◌-◌, ◌<◌, ◌≤◌, ◌↔◌, IfErr, IfOk, IfSome, IsNone, IsOk, IsSome, IsTrue};
ghost use Rattle.std.specs.Prelude.{length, slice_index, slice_range};
ghost use Rattle.bit_lists.specs.First.{IsFirst};
ghost use Rattle.tree_block.specs.Room.{AreSortedWords, IsFault};
ghost use Rattle.tree_block.specs.Words.{common, dictionary_word, nodes_of, shared_of, words_in};
ghost use Rattle.tree_block.specs.Words.{AreSorted, AreWords, IsUnsortedAt, IsWordBefore};

use crate::words::error::WordsError;

/// The bytes from `begin` on and before `end`.
#[inline(always)]
fn between(bytes: &[u8], begin: usize, end: usize) -> &[u8]
    requires order { begin ≤ end }
    requires inside { end ≤ length bytes.now }
    ensures { result.now ≡ slice_range bytes.now begin end }
{
    &bytes[begin..end]
}

/// Word `j`.
#[inline(always)]
pub(crate) fn word_at<'a>(bytes: &'a [u8], starts: &[usize], j: usize) -> &'a [u8]
    requires words { AreWords bytes.now starts.now }
    requires inside { j + 1 < length starts.now }
    ensures word { result.now ≡ dictionary_word bytes.now starts.now j }
    ensures len { length result.now + slice_index starts.now j ≡ slice_index starts.now (j + 1) }
{
    between(bytes, starts[j], starts[j + 1])
}

/// How many letters two words share from their first on.
fn common_len(left: &[u8], right: &[u8]) -> usize
    ensures shared { result ≡ common left.now right.now }
    ensures left { result ≤ length left.now }
    ensures right { result ≤ length right.now }
{
    let most = right.len();
    for at in 0..left.len() {
        if at == most {
            return at;
        }
        if left[at] != right[at] {
            return at;
        }
    }
    left.len()
}

/// How many letters word `j` shares with the word before it.
pub(crate) fn shared_len(bytes: &[u8], starts: &[usize], j: usize) -> usize
    requires words { AreWords bytes.now starts.now }
    requires inside { j + 1 < length starts.now }
    ensures shared { result ≡ shared_of (words_in bytes.now starts.now) j }
    ensures fits { result + slice_index starts.now j ≤ slice_index starts.now (j + 1) }
{
    if j == 0 {
        return 0;
    }
    common_len(word_at(bytes, starts, j - 1), word_at(bytes, starts, j))
}

/// Whether a word stands before another in the order of a dictionary.
fn is_before(left: &[u8], right: &[u8]) -> bool
    ensures { IsTrue result ↔ IsWordBefore left.now right.now }
{
    let shared = common_len(left, right);
    shared < right.len() && (shared == left.len() || left[shared] < right[shared])
}

/// Whether words begin at these positions in the bytes.
fn are_words(bytes: &[u8], starts: &[usize]) -> bool
    ensures { IsTrue result ↔ AreWords bytes.now starts.now }
{
    if starts.len() == 0 {
        return false;
    }
    for j in 0..starts.len() - 1 {
        if starts[j + 1] < starts[j] {
            return false;
        }
    }
    starts[starts.len() - 1] <= bytes.len()
}

/// The first word that does not stand after the word before it.
fn unsorted_in(bytes: &[u8], starts: &[usize]) -> Option<usize>
    requires { AreWords bytes.now starts.now }
    ensures some { IfSome result (IsFirst (IsUnsortedAt (words_in bytes.now starts.now))) }
    ensures none { IsNone result ↔ AreSorted (words_in bytes.now starts.now) }
{
    for j in 1..starts.len() - 1 {
        if !is_before(word_at(bytes, starts, j - 1), word_at(bytes, starts, j)) {
            return Some(j);
        }
    }
    None
}

/// Whether each word stands before the next one.
pub(crate) fn are_sorted(bytes: &[u8], starts: &[usize]) -> bool
    requires { AreWords bytes.now starts.now }
    ensures { IsTrue result ↔ AreSorted (words_in bytes.now starts.now) }
{
    unsorted_in(bytes, starts).is_none()
}

/// The first word that does not stand after the word before it; `Ok(None)` exactly where the words are sorted.
///
/// # Errors
/// `NotWords` exactly where there are no starts, or one is less than the one before it, or the last one is more than
/// the number of bytes.
/// # Cost
/// Two passes over the starts and one over the bytes (evident from the code). Nothing is allocated.
///
/// ```
/// unsorted_word(b"ababe".as_slice(), &[0, 1, 2, 5]);   // Ok(Some(2)): a, b and abe
/// ```
pub fn unsorted_word(bytes: &[u8], starts: &[usize]) -> Result<Option<usize>, WordsError>
    ensures error { IfErr result (λ e. e ≡ WordsError.NotWords) }
    ensures ok { IsOk result ↔ AreWords bytes.now starts.now }
    ensures some { IfOk result (λ o. IfSome o (IsFirst (IsUnsortedAt (words_in bytes.now starts.now)))) }
    ensures none { IfOk result (λ o. IsNone o ↔ AreSorted (words_in bytes.now starts.now)) }
{
    if !are_words(bytes, starts) {
        return Err(WordsError::NotWords);
    }
    Ok(unsorted_in(bytes, starts))
}

/// How many nodes the trie of the words has.
fn count_nodes(bytes: &[u8], starts: &[usize]) -> usize
    requires { AreWords bytes.now starts.now }
    ensures { result ≡ nodes_of (words_in bytes.now starts.now) }
{
    let mut nodes = 1;
    for j in 0..starts.len() - 1 {
        nodes += starts[j + 1] - starts[j] - shared_len(bytes, starts, j);
    }
    nodes
}

/// How many nodes the trie of words has, whether they are sorted or not; `None` where these are no words.
pub(crate) fn count_of(bytes: &[u8], starts: &[usize]) -> Option<usize>
    ensures some { IsSome result ↔ AreWords bytes.now starts.now }
    ensures nodes { IfSome result (λ n. n ≡ nodes_of (words_in bytes.now starts.now)) }
{
    if are_words(bytes, starts) {
        Some(count_nodes(bytes, starts))
    } else {
        None
    }
}

/// How many nodes the trie of these words has: the root, and one for each letter that a word does not share with the
/// word before it.
///
/// The words stand one after another in `bytes`: `starts` says where each begins, and at last where the last one ends.
/// They rise strictly in the order of a dictionary, which has a word before a longer one that it begins. No word is
/// twice there, and the empty word may be one.
///
/// # Errors
/// `NotWords` exactly where there are no starts, or one is less than the one before it, or the last one is more than
/// the number of bytes; else `NotSorted` exactly where a word does not stand after the one before it.
/// # Cost
/// Three passes over the starts and two over the bytes (evident from the code). Nothing is allocated.
///
/// ```
/// nodes(b"ababe".as_slice(), &[0, 1, 2, 5]);   // Err(NotSorted): a, b and abe
/// nodes(b"aabeb".as_slice(), &[0, 1, 4, 5]);   // Ok(5): a, abe and b
/// ```
pub fn nodes(bytes: &[u8], starts: &[usize]) -> Result<usize, WordsError>
    ensures error { IfErr result (IsFault bytes.now starts.now) }
    ensures ok { IsOk result ↔ AreSortedWords bytes.now starts.now }
    ensures nodes { IfOk result (λ n. n ≡ nodes_of (words_in bytes.now starts.now)) }
{
    let Some(count) = count_of(bytes, starts) else {
        return Err(WordsError::NotWords);
    };
    if !are_sorted(bytes, starts) {
        return Err(WordsError::NotSorted);
    }
    Ok(count)
}
