//! One entry of the lower table: its fields by shifts, and the entry of the negated bits.
ghost use Rattle.std.specs.Prelude.{◌≡◌, ◌-◌, ◌*◌, ◌/◌, ◌%◌, ◌^◌, ◌<◌, ◌≤◌, Bool, List};
ghost use Rattle.bitm_tables.specs.Entry.{FieldsFit, FieldsAddUp, IsEntryOf, field_0, greatest_entry, lower_entry};
ghost use Rattle.bitm_tables.specs.Entry.{zeros_before_in_part, entries_from, negation, padded_bits, less};

use crate::levels::L2_ENTRIES_PER_L1_ENTRY;

/// How many of the given number of lower entries belong to upper block `part`.
///
/// # Conditions
/// The upper blocks before it are full.
#[inline(always)]
pub fn entries_of_part(entries: usize, part: usize) -> usize
    requires { part * 2 ^ 21 ≤ entries }
    ensures { result ≡ entries_from entries part }
{
    (entries - part * L2_ENTRIES_PER_L1_ENTRY).min(L2_ENTRIES_PER_L1_ENTRY)
}

/// The number of 1 bits before an entry in its upper block.
#[inline(always)]
pub fn ones_to_entry(entry: u64) -> usize
    ensures { result ≡ field_0 entry }
{
    (entry & 0xFFFF_FFFF) as usize
}

/// Factors of the upper half of an entry that bring the field of a basic block to bit 32; 0 for the first block, which
/// has no field.
const SCALES: [u64; 4] = [0, 1 << 10, 1 << 21, 1 << 32];

/// The number of 1 bits in an entry before one of its four basic blocks. A product, which is cheaper than a shift by a
/// variable number and needs no branch for the first block.
///
/// # Conditions
/// `position` is below 4.
#[inline(always)]
pub fn ones_to_record(entry: u64, position: usize) -> usize
    requires { position < 4 }
    ensures { result ≡ entry / 2 ^ (11 * (3 - position)) / 2 ^ 32 % 2 ^ 11 }
{
    ((entry >> 32) * SCALES[position] >> 32 & 0x7FF) as usize
}

/// Lower entry `at` of the negated bits, from the entry of the bits: the greatest value of each field less the field.
/// One subtraction does all four.
///
/// The four fields count the 1 bits before the entry in its upper block of 2^32 bits, and in its first basic block,
/// first two and first three basic blocks of 512 bits. Bits that the last entry lacks count as 0 bits. No field of an
/// entry of a lower table exceeds its greatest value (`index_laws::entries_fit`), so none borrows from the next; for
/// any other number the difference wraps.
#[inline(always)]
pub fn complement_entry(entry: u64, at: usize) -> u64
    ensures value { FieldsFit entry at → result ≡ greatest_entry at - entry }
    ensures fields { FieldsFit entry at → FieldsAddUp entry result at }
    ensures claimed { result ≡ less (greatest_entry at) entry }
    ensures negation { (b : List Bool) → IsEntryOf b at entry
        → result ≡ lower_entry (negation (padded_bits b)) at }
    ensures zeros { (b : List Bool) → IsEntryOf b at entry
        → field_0 result ≡ zeros_before_in_part b at }
{
    ((at % L2_ENTRIES_PER_L1_ENTRY) as u64 * 2048 + 0x8020_0600_0000_0000).wrapping_sub(entry)
}
