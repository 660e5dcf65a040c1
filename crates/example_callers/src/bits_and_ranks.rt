//! A bit and the number of 1 bits before it, the query that a perfect hash and a wavelet matrix make: over any index
//! that has access and rank, and over a source, with a bound on its reads.
ghost use Rattle.std.specs.Prelude.{◌≡◌, ◌+◌, ◌<◌, ◌≤◌, SomeIff, IsNone, length, true};
ghost use Rattle.bitm.specs.Bits.{item};
ghost use Rattle.bitm.specs.Count.{ones_before, zeros_of};
ghost use Rattle.bitm.specs.Reads.{OnlyReads};
ghost use Rattle.bitm.specs.Tables.{IsIndexed, bits_in};

use bitm::{Access, TableSource, bit_on, rank_on};

/// The number of a member of a set of positions, which is how many members are less; `None` exactly where `position` is
/// no member.
pub fn number_if_member<I: Access>(set: &I, position: usize) -> Option<usize>
    ensures { let bits = I.bits set.now in
        SomeIff result ((position < length bits) × (item bits position ≡ true)) (ones_before bits position) }
{
    if position >= set.len() {
        return None;
    }
    match set.bit_and_rank(position) {
        (true, number) => Some(number),
        (false, _) => None,
    }
}

/// Where the 1 bits from position `from` on and before position `to` are in the next level of a wavelet matrix: its 0
/// bits come first, and then its 1 bits.
///
/// # Conditions
/// There are at least `from` bits, and at least `to`.
pub fn ones_after_sorting<I: Access>(level: &I, from: usize, to: usize) -> (usize, usize)
    requires from { from ≤ length (I.bits level.now) }
    requires to { to ≤ length (I.bits level.now) }
    ensures from { let bits = I.bits level.now in
        result.0 ≡ zeros_of bits + ones_before bits from }
    ensures to { let bits = I.bits level.now in result.1 ≡ zeros_of bits + ones_before bits to }
{
    let zeros = level.rank0(level.len());
    let (before, up_to) = level.rank_pair(from, to);
    (zeros + before, zeros + up_to)
}

/// `number_if_member` over any source: a word for the bit, and the rank of a member.
///
/// # Conditions
/// The source's tables match its words, which are fewer than 2^58.
/// # Cost
/// At most one upper entry, one lower entry and nine words are read; one word alone where the position is no member.
pub fn number_on<T: TableSource>(source: &mut T, position: usize) -> Option<usize>
    requires { IsIndexed (T.lists source.old) }
    ensures number { let bits = bits_in (T.lists source.old) in
        SomeIff result ((position < length bits) × (item bits position ≡ true)) (ones_before bits position) }
    ensures reads { OnlyReads T.lists T.reads source.old source.new 1 1 9 }
    ensures none { IsNone result → OnlyReads T.lists T.reads source.old source.new 0 0 1 }
{
    match bit_on(source, position) {
        Some(true) => rank_on(source, position),
        Some(false) | None => None,
    }
}
