//! The block of bits, written into the caller's memory.
ghost use Rattle.std.specs.Prelude.{◌≡◌, ◌≢◌, ◌-◌, ◌*◌, ◌^◌, ◌<◌, ◌≤◌, ◌↔◌, IfErr, IfOk, IsErrOf, length};
ghost use Rattle.std.specs.Int.{div_ceil};
ghost use Rattle.bit_lists.specs.Bits.{bits_of};
ghost use Rattle.bitm_block.specs.Layout.{end_of};
ghost use Rattle.bitm_block.specs.Written.{IsSealed};
ghost use Rattle.tables_view.specs.Sizes.{lists_of};
ghost use Rattle.bitm_view.specs.BitsBlock.{bits_head, bits_sections, lists_at, AreBits, CanHold, IsBlockOf};

use crate::bits::error::BuildError;
use crate::bits::sections::{bits_head, size};
use crate::build_block;
use bitm_block::{aligned, seal_sized};
use block_tables::{as_entries_mut, table_sections};
use tables_view::{lower_len, upper_len};

/// Writes the first `len` bits, 0 bits after them, and their tables.
fn write_bits(words: &[u64], len: usize, to: &mut [u64], upper: &mut [u64], lower: &mut [u64])
    requires source { len ≤ 64 * length words.now }
    requires short { len ≤ 2 ^ 64 - 64 }
    requires to { length to.old ≡ div_ceil len 64 }
    requires upper { length upper.old ≡ div_ceil (length to.old) (2 ^ 26) }
    requires lower { length lower.old ≡ div_ceil (length to.old) 32 }
    ensures { AreBits (bits_of words.now) len (lists_of to.new upper.new lower.new) }
{
    build_block(
        words,
        len,
        (0, 0),
        to,
        as_entries_mut(upper),
        lower,
        [].as_mut_slice(),
        [].as_mut_slice(),
        [].as_mut_slice(),
    );
}

/// Writes the sections of bits where their block has them.
fn write_parts(words: &[u64], len: usize, block: &mut [u64])
    requires { CanHold words.now len block.old }
    ensures { AreBits (bits_of words.now) len (lists_at len block.new) }
{
    let needed = len.div_ceil(64);
    let uppers = upper_len(needed);
    let (_head, rest) = block.split_at_mut(32);
    let (room, rest) = rest.split_at_mut(aligned(needed));
    let (to, _gap) = room.split_at_mut(needed);
    let (room, rest) = rest.split_at_mut(aligned(uppers));
    let (upper, _gap) = room.split_at_mut(uppers);
    let (lower, _gap) = rest.split_at_mut(lower_len(needed));
    write_bits(words, len, to, upper, lower);
}

/// Writes the header and the directory of the given number of bits.
fn seal_bits(len: usize, block: &mut [u64])
    requires short { len ≤ 2 ^ 64 - 64 }
    requires room { length block.old ≡ end_of (bits_sections len) }
    ensures { IsSealed (bits_head len) (bits_sections len) block.old block.new }
{
    let sections = table_sections(len.div_ceil(64));
    seal_sized(&bits_head(len), sections.as_slice(), block);
}

/// Writes the block of bits.
fn write_block(words: &[u64], len: usize, block: &mut [u64])
    requires { CanHold words.now len block.old }
    ensures { IsBlockOf (bits_of words.now) len block.new }
{
    write_parts(words, len, &mut *block);
    seal_bits(len, block);
}

/// Writes the block of the first `len` bits of the words, which `open` opens and `check` accepts.
///
/// # Errors
/// `TooLong` exactly where there are more than 2^64 - 64 bits; else `TooFewBits` exactly where the words have fewer;
/// else `WrongLength` exactly where the words of the block are more or fewer than it takes (`size`). These stay as they
/// are then.
/// # Cost
/// Two passes over the words and one over the block (evident from the code). Nothing is allocated.
///
/// ```
/// let mut block = [0u64; 56];                         // size(100): Some(56)
/// build(&[3, 5], 100, block.as_mut_slice());          // Ok(())
/// build(&[3, 5], 200, block.as_mut_slice());          // Err(BuildError::TooFewBits)
/// ```
pub fn build(words: &[u64], len: usize, block: &mut [u64]) -> Result<(), BuildError>
    ensures too_long { IsErrOf result BuildError.TooLong ↔ (2 ^ 64 - 64 < len) }
    ensures too_few { IsErrOf result BuildError.TooFewBits
        ↔ ((len ≤ 2 ^ 64 - 64) × (64 * length words.now < len)) }
    ensures wrong_length { IsErrOf result BuildError.WrongLength ↔ ((len ≤ 2 ^ 64 - 64)
        × (len ≤ 64 * length words.now) × (length block.old ≢ end_of (bits_sections len))) }
    ensures block { IfOk result (λ _. IsBlockOf (bits_of words.now) len block.new) }
    ensures kept { IfErr result (λ _. block.new ≡ block.old) }
{
    let Some(words_len) = size(len) else {
        return Err(BuildError::TooLong);
    };
    if words.len() < len.div_ceil(64) {
        return Err(BuildError::TooFewBits);
    }
    if block.len() != words_len {
        return Err(BuildError::WrongLength);
    }
    write_block(words, len, block);
    Ok(())
}
