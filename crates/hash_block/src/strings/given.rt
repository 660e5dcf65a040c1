//! Strings that are given one after another: where each begins, and whether they take all bytes.
ghost use Rattle.std.specs.Prelude.{◌≡◌, ◌<◌, ◌≤◌, ◌↔◌, IsTrue, length, slice_index};
ghost use Rattle.hash_block.specs.Given.{string_begin, AreGiven};

/// Where string `i` begins, of strings that end at the given positions; where the last one ends, where there are `i`.
#[inline(always)]
#[tactic(auto, using(crate::proofs::GivenLemmas::after_first))]
pub(crate) fn begin_at(ends: &[usize], i: usize) -> usize
    requires { i ≤ length ends.now }
    ensures { result ≡ string_begin ends.now i }
{
    if i == 0 { 0 } else { ends[i - 1] }
}

/// Whether strings stand one after another in `bytes`, each up to its end, and take all of them: no end is less than
/// the one before, and the last is the number of the bytes.
///
/// # Cost
/// Each end is read twice at most (evident from the code).
///
/// ```
/// are_given(b"adabob".as_slice(), &[3, 6]);   // true
/// are_given(b"adabob".as_slice(), &[6, 3]);   // false
/// ```
pub fn are_given(bytes: &[u8], ends: &[usize]) -> bool
    ensures { IsTrue result ↔ AreGiven bytes.now ends.now }
{
    for i in 0..ends.len() {
        if !is_given(bytes.len(), ends, i) {
            return false;
        }
    }
    begin_at(ends, ends.len()) == bytes.len()
}

/// Whether string `i` ends where it begins or later, and among the given number of bytes.
#[inline(always)]
fn is_given(bytes: usize, ends: &[usize], i: usize) -> bool
    requires { i < length ends.now }
    ensures { IsTrue result ↔ (string_begin ends.now i ≤ slice_index ends.now i)
        × (slice_index ends.now i ≤ bytes) }
{
    begin_at(ends, i) <= ends[i] && ends[i] <= bytes
}
