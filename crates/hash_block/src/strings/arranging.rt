//! Strings written one after another, in the order of their numbers.
ghost use Rattle.std.specs.Prelude.{◌≡◌, ◌≢◌, ◌+◌, ◌*◌, ◌^◌, ◌<◌, ◌≤◌, ◌↔◌, IsTrue, ℕ, length, slice_index};
ghost use Rattle.hash_block.specs.Bytes.{AreZeroBytesFrom};
ghost use Rattle.hash_block.specs.Given.{total_of, AreArranged, AreGiven};

use crate::strings::bytes::write_bytes;
use crate::strings::given::begin_at;

/// Writes the strings one after another in the order of their numbers, and replaces in `starts` which string it is by
/// where it begins; answers false, with the strings in part, exactly where some number has no string.
pub(crate) fn arrange(bytes: &[u8], ends: &[usize], starts: &mut [u64], to: &mut [u64]) -> bool
    requires given { AreGiven bytes.now ends.now }
    requires order { (v : ℕ) → v < length ends.now → slice_index starts.old v ≤ length ends.now }
    requires total { total_of ends.now starts.old (length ends.now) ≡ length bytes.now }
    requires count { length starts.old ≡ length ends.now + 1 }
    requires short { length to.old < 2 ^ 58 }
    requires room { length bytes.now ≤ 8 * length to.old }
    requires clear { AreZeroBytesFrom to.old 0 }
    ensures some { IsTrue result
        ↔ ((v : ℕ) → v < length ends.now → slice_index starts.old v ≢ 0) }
    ensures arranged { IsTrue result
        → AreArranged bytes.now ends.now starts.old starts.new to.new }
    ensures count { length starts.new ≡ length starts.old }
    ensures len { length to.new ≡ length to.old }
{
    let mut at = 0;
    for v in 0..ends.len() {
        let next = starts[v] as usize;
        if next == 0 {
            return false;
        }
        let begin = begin_at(ends, next - 1);
        let len = ends[next - 1] - begin;
        write_bytes(bytes, begin, len, &mut *to, at);
        starts[v] = at as u64;
        at += len;
    }
    starts[ends.len()] = at as u64;
    true
}
