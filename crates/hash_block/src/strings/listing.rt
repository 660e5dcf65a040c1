//! The hashes of strings that are given one after another.
ghost use Rattle.std.specs.Prelude.{◌≡◌, ◌<◌, ◌↔◌, IsTrue, ℕ, false, length, slice_index};
ghost use Rattle.hash_block.specs.Given.{given, len_of, AreGiven};
ghost use Rattle.hash_block.specs.SipHash.{hash_of};

use crate::strings::given::{are_given, begin_at};
use crate::strings::hashing::hash_between;

/// Writes the hash of each of the strings that stand one after another in `bytes`, each up to its end, by a seed
/// (`hash`): a perfect hash is built of these. Answers false, and writes nothing, exactly where the ends fall, the last
/// is not the end of the bytes, or `out` is not as long as they are.
///
/// # Cost
/// Each byte and each end is read once more than to test the ends (evident from the code).
///
/// ```
/// hashes(7, b"adabob".as_slice(), &[3, 6], &mut out);   // true: out is hash(7, b"ada") and hash(7, b"bob")
/// ```
pub fn hashes(seed: u64, bytes: &[u8], ends: &[usize], out: &mut [u64]) -> bool
    ensures done { IsTrue result
        ↔ AreGiven bytes.now ends.now × (length out.old ≡ length ends.now) }
    ensures hashes { IsTrue result → (i : ℕ) → i < length ends.now
        → slice_index out.new i ≡ hash_of seed (given bytes.now ends.now i) (len_of ends.now i) }
    ensures kept { result ≡ false → out.new ≡ out.old }
{
    if out.len() != ends.len() || !are_given(bytes, ends) {
        return false;
    }
    hash_each(seed, bytes, ends, out);
    true
}

/// Writes the hash of each string.
fn hash_each(seed: u64, bytes: &[u8], ends: &[usize], out: &mut [u64])
    requires given { AreGiven bytes.now ends.now }
    requires room { length out.old ≡ length ends.now }
    ensures { (i : ℕ) → i < length ends.now
        → slice_index out.new i ≡ hash_of seed (given bytes.now ends.now i) (len_of ends.now i) }
{
    for i in 0..ends.len() {
        out[i] = hash_between(seed, bytes, begin_at(ends, i), ends[i]);
    }
}
