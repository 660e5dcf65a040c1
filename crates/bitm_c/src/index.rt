//! Building and checking tables that lie in the caller's memory.
ghost use Rattle.std.specs.Prelude.{◌≡◌, ◌≢◌, ◌^◌, ◌↔◌, ◌⊎◌};
ghost use Rattle.std.specs.Int.{div_ceil};
ghost use Rattle.bit_lists.specs.Bits.{bits_of};
ghost use Rattle.bit_lists.specs.Count.{ones_of};
ghost use Rattle.bitm_tables.specs.Tables.{HasSizes, HasTables};
ghost use Rattle.tables_view.specs.Sizes.{lists_of};
ghost use Rattle.bitm_view.specs.Cut.{IsSizedCut};
ghost use Rattle.bitm_abi.specs.Index.{cut_of};

use bitm_abi::{BAD_SIZE, Index, OK, WRONG};

/// The length of the upper table of `words_len` words: ceil(words_len / 2^26) numbers.
#[unsafe(no_mangle)]
pub extern "C" fn bitm_index_upper_len(words_len: usize) -> usize
    ensures { result ≡ div_ceil words_len (2 ^ 26) }
{
    tables_view::upper_len(words_len)
}

/// The length of the lower table of `words_len` words: ceil(words_len / 32) numbers.
#[unsafe(no_mangle)]
pub extern "C" fn bitm_index_lower_len(words_len: usize) -> usize
    ensures { result ≡ div_ceil words_len 32 }
{
    tables_view::lower_len(words_len)
}

/// Writes both tables of the words, and the number of 1 bits.
#[unsafe(no_mangle)]
pub extern "C" fn bitm_index_build(
    words: &[u64],
    upper: &mut [usize],
    lower: &mut [u64],
    ones: &mut usize,
) -> u32
    ensures ok { (result ≡ 0) ↔ HasSizes (lists_of words.now upper.old lower.old) }
    ensures status { result ≢ 0 → result ≡ 2 }
    ensures sizes { result ≡ 0 → HasSizes (lists_of words.now upper.new lower.new) }
    ensures tables { result ≡ 0 → HasTables (lists_of words.now upper.new lower.new) }
    ensures ones { result ≡ 0 → ones.new ≡ ones_of (bits_of words.now) }
    ensures kept { result ≢ 0 → (upper.new ≡ upper.old) × (lower.new ≡ lower.old)
        × (ones.new ≡ ones.old) }
{
    match tables_view::build(words, upper, lower) {
        Some(count) => {
            *ones = count;
            OK
        }
        None => BAD_SIZE,
    }
}

/// Whether the tables match the words: one pass over the words.
#[unsafe(no_mangle)]
pub extern "C" fn bitm_index_check(index: &Index<'_>) -> u32
    ensures ok { (result ≡ 0) ↔ IsSizedCut (cut_of index.now) × HasTables (cut_of index.now).lists }
    ensures bad { (result ≡ 2) ↔ ¬ (IsSizedCut (cut_of index.now)) }
    ensures status { (result ≡ 0) ⊎ (result ≡ 2) ⊎ (result ≡ 3) }
{
    match index.view() {
        Some(view) => { if view.tables().check() { OK } else { WRONG } }
        None => BAD_SIZE,
    }
}
