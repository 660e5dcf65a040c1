//! Bits with their index in a block: how many words it takes, writing it, opening it as an index and checking it.
ghost use Rattle.std.specs.Prelude.{◌≡◌, ◌≢◌, ◌-◌, ◌^◌, ◌≤◌, ◌↔◌, ◌⊎◌, IsTrue};
ghost use Rattle.bit_lists.specs.Bits.{bits_of};
ghost use Rattle.bitm_block.specs.Header.{count_in};
ghost use Rattle.bitm_block.specs.Layout.{end_of};
ghost use Rattle.bitm_view.specs.BitsBlock.{bits_in_block, bits_sections, CanHold, IsBitsBlock, IsBlockOf};
ghost use Rattle.bitm_view.specs.BitsBlock.{IsSoundBlock};
ghost use Rattle.bitm_tables.specs.Tables.{HasSizes, HasTables};
ghost use Rattle.block_tables.specs.Sections.{tables_in};
ghost use Rattle.bitm_abi.specs.Index.{cut_of};
ghost use Rattle.bitm_abi.specs.Samples.{HasNoSamples};

use bitm_abi::{BAD_SIZE, Index, OK, Samples, WRONG};
use bitm_block::Block;
use bitm_view::bits::{build, open, size};
use block_tables::{as_entries, tables_of};

/// Writes how many words the block of that many bits takes.
#[unsafe(no_mangle)]
pub extern "C" fn bitm_index_block_size(bits_len: u64, out: &mut usize) -> u32
    ensures ok { (result ≡ 0) ↔ bits_len ≤ 2 ^ 64 - 64 }
    ensures size { result ≡ 0 → out.new ≡ end_of (bits_sections bits_len) }
    ensures kept { result ≢ 0 → (result ≡ 2) × (out.new ≡ out.old) }
{
    match size(bits_len as usize) {
        Some(words) => {
            *out = words;
            OK
        }
        None => BAD_SIZE,
    }
}

/// Writes the block of the first `bits_len` bits of the words.
#[unsafe(no_mangle)]
pub extern "C" fn bitm_index_block_build(words: &[u64], bits_len: u64, block: &mut [u64]) -> u32
    ensures ok { (result ≡ 0) ↔ CanHold words.now bits_len block.old }
    ensures block { result ≡ 0 → IsBlockOf (bits_of words.now) bits_len block.new }
    ensures kept { result ≢ 0 → (result ≡ 2) × (block.new ≡ block.old) }
{
    match build(words, bits_len as usize, block) {
        Ok(()) => OK,
        Err(_) => BAD_SIZE,
    }
}

/// The index over the first three sections of a block, without samples.
#[inline(always)]
fn index_in<'a>(block: &Block<'a>) -> Index<'a>
    requires { 3 ≤ count_in block.now }
    ensures index { cut_of result ≡ bits_in_block block.now }
    ensures ones { HasNoSamples result.ones }
    ensures zeros { HasNoSamples result.zeros }
{
    match (block.section(0), block.section(1), block.section(2)) {
        (Some(words), Some(upper), Some(lower)) => Index {
            words,
            upper: as_entries(upper),
            lower,
            bits_len: block.head().len,
            ones: Samples::none(),
            zeros: Samples::none(),
            reserved: [0; 2],
        },
        _ => unreachable!(),
    }
}

/// Opens a block: writes the index that queries take, without samples. What the words and tables hold is not looked at.
#[unsafe(no_mangle)]
pub extern "C" fn bitm_index_block_open<'a>(block: &'a [u64], index: &mut Index<'a>) -> u32
    ensures ok { (result ≡ 0) ↔ IsBitsBlock block.now }
    ensures index { result ≡ 0 → cut_of index.new ≡ bits_in_block block.now }
    ensures ones { result ≡ 0 → HasNoSamples index.new.ones }
    ensures zeros { result ≡ 0 → HasNoSamples index.new.zeros }
    ensures kept { result ≢ 0 → (result ≡ 3) × (index.new ≡ index.old) }
{
    match (open(block), Block::open(block)) {
        (Some(_), Ok(opened)) => {
            *index = index_in(&opened);
            OK
        }
        _ => WRONG,
    }
}

/// Whether the tables of a block match its words.
fn has_right_tables(block: &Block<'_>) -> bool
    requires three { 3 ≤ count_in block.now }
    requires sized { HasSizes (tables_in block.now) }
    ensures { IsTrue result ↔ HasTables (tables_in block.now) }
{
    match tables_of(block) {
        Some(tables) => tables.check(),
        None => unreachable!(),
    }
}

/// Whether a block is as it was written, and has the tables of its words: two passes over it.
#[unsafe(no_mangle)]
pub extern "C" fn bitm_index_block_check(block: &[u64]) -> u32
    ensures ok { (result ≡ 0) ↔ IsSoundBlock block.now }
    ensures status { (result ≡ 0) ⊎ (result ≡ 3) }
{
    // The view is not used: it would be copied by C's `memcpy`, and the archive for C calls nothing.
    match (open(block), Block::open(block)) {
        (Some(_), Ok(opened)) => {
            if opened.verify() && has_right_tables(&opened) {
                OK
            } else {
                WRONG
            }
        }
        _ => WRONG,
    }
}
