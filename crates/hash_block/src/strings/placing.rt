//! Which string has which number.
ghost use Rattle.std.specs.Prelude.{◌≡◌, ◌+◌, ◌*◌, ◌^◌, ◌<◌, ◌≤◌, ◌↔◌, IfSome, IsTrue, ℕ, length, slice_index};
ghost use Rattle.hash_block.specs.Parts.{IsHash};
ghost use Rattle.hash_block.specs.Given.{total_of, AreGiven, AreNumbersApart, AreStringsPlaced, HaveNumbers};
ghost use Rattle.hash_block.specs.StringsParts.{given_number, AreStored};

use crate::HashView;
use crate::strings::arranging::arrange;
use crate::strings::given::begin_at;
use crate::strings::hashing::hash_between;
use bitm_tables::answer::Answer;
use tables_view::clear;

/// The number of string `i`.
#[inline(always)]
fn number_of(hash: &HashView<'_>, bytes: &[u8], ends: &[usize], i: usize) -> Option<usize>
    requires hash { IsHash hash.now }
    requires given { AreGiven bytes.now ends.now }
    requires inside { i < length ends.now }
    ensures number { result ≡ given_number hash.now bytes.now ends.now i }
    ensures below { IfSome result (λ v. v < hash.now.keys) }
{
    let sum = hash_between(hash.seed(), bytes, begin_at(ends, i), ends[i]);
    match hash.get(sum) {
        Answer::Found(number) => Some(number),
        _ => None,
    }
}

/// Writes 1 more than the index of each string at its number; answers false, with some of them written, exactly where a
/// string has no number or two have the same.
fn place(hash: &HashView<'_>, bytes: &[u8], ends: &[usize], order: &mut [u64]) -> bool
    requires hash { IsHash hash.now }
    requires keys { hash.now.keys ≡ length ends.now }
    requires given { AreGiven bytes.now ends.now }
    requires clear { (v : ℕ) → slice_index order.old v ≡ 0 }
    requires count { length order.old ≡ length ends.now + 1 }
    ensures apart { IsTrue result
        ↔ AreNumbersApart (given_number hash.now bytes.now ends.now) (length ends.now) }
    ensures placed { IsTrue result → AreStringsPlaced (given_number hash.now bytes.now ends.now)
        (length ends.now) (length ends.now) order.new }
    ensures total { IsTrue result
        → total_of ends.now order.new (length ends.now) ≡ length bytes.now }
    ensures count { length order.new ≡ length order.old }
{
    for i in 0..ends.len() {
        let v = match number_of(hash, bytes, ends, i) {
            Some(v) => v,
            None => return false,
        };
        if order[v] != 0 {
            return false;
        }
        order[v] = i as u64 + 1;
    }
    true
}

/// Writes each string at its number, and where each begins; answers false exactly where not each has a number of its
/// own, or some number has no string.
pub(crate) fn write_placed(
    hash: &HashView<'_>,
    bytes: &[u8],
    ends: &[usize],
    starts: &mut [u64],
    to: &mut [u64],
) -> bool
    requires hash { IsHash hash.now }
    requires keys { hash.now.keys ≡ length ends.now }
    requires given { AreGiven bytes.now ends.now }
    requires count { length starts.old ≡ length ends.now + 1 }
    requires short { length to.old < 2 ^ 58 }
    requires room { length bytes.now ≤ 8 * length to.old }
    ensures numbers { IsTrue result
        ↔ HaveNumbers (given_number hash.now bytes.now ends.now) (length ends.now) }
    ensures stored { IsTrue result → AreStored (given_number hash.now bytes.now ends.now)
        bytes.now ends.now starts.new to.new }
    ensures count { length starts.new ≡ length starts.old }
    ensures len { length to.new ≡ length to.old }
{
    clear(&mut *starts);
    clear(&mut *to);
    if !place(hash, bytes, ends, &mut *starts) {
        return false;
    }
    arrange(bytes, ends, starts, to)
}
