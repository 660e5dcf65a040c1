//! Words of a block as entries of an upper table.
ghost use Rattle.std.specs.Prelude.{◌≡◌};

use std::slice::{from_raw_parts, from_raw_parts_mut};

/// The words of a section as entries of an upper table. Both have 64 bits, so these are the same bytes, and nothing is
/// copied.
///
/// ```
/// as_entries(&[0, 7]);   // entries 0 and 7
/// ```
#[inline(always)]
pub fn as_entries(words: &[u64]) -> &[usize]
    ensures { result.now ≡ words.now }
{
    unsafe { from_raw_parts(words.as_ptr() as *const usize, words.len()) }
}

/// The same for writing: what is written to the entries stands in the words.
///
/// ```
/// as_entries_mut(&mut words)[0] = 7;   // word 0 is 7
/// ```
#[inline(always)]
pub fn as_entries_mut(words: &mut [u64]) -> &mut [usize]
    ensures { (result.ghost_name ≡ words.entry.ghost_name) × (result.now ≡ words.old) }
{
    unsafe { from_raw_parts_mut(words.as_mut_ptr() as *mut usize, words.len()) }
}
