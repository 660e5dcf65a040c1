//! Selection in a word, and the numbers that the layout of a structure depends on.
ghost use Rattle.std.specs.Prelude.{◌≡◌, ◌≢◌, ◌<◌, ◌↔◌, true};
ghost use Rattle.bit_lists.specs.Bits.{digit_count, low_digits};
ghost use Rattle.bit_lists.specs.Count.{ones_before, Picks};
ghost use Rattle.bitm_strategies.specs.Density.{clamped_log, optimal_log};

use bitm_abi::{NONE, OK};

/// The position of the 1 bit of `word` with rank `rank`.
#[tactic(auto, using(bitm::proofs::Callers::ones_of_word))]
#[unsafe(no_mangle)]
pub extern "C" fn bitm_bits_select_in_word(word: u64, rank: u32, out: &mut u64) -> u32
    ensures ok { (result ≡ 0) ↔ (rank < ones_before (low_digits 64 word) 64) }
    ensures position { result ≡ 0 → Picks (low_digits 64 word) true rank out.new }
    ensures unchanged { result ≢ 0 → (result ≡ 1) × (out.new ≡ out.old) }
{
    if rank >= word.count_ones() {
        return NONE;
    }
    *out = bitm::select64(word, rank as u8) as u64;
    OK
}

/// The number of binary digits of `value`, 0 for 0: the width that stores it.
#[unsafe(no_mangle)]
pub extern "C" fn bitm_bits_to_store(value: u64) -> u32
    ensures { result ≡ digit_count value }
{
    bitm::bits_to_store(value) as u32
}

/// The logarithm of the density of samples for `items` bits of one kind among `bits_len` bits: from 7 to `most`, which
/// is clamped to 7 to 31.
#[unsafe(no_mangle)]
pub extern "C" fn bitm_optimal_log2(items: usize, bits_len: usize, most: u32) -> u32
    ensures { result ≡ optimal_log items bits_len (clamped_log most) }
{
    let most = most.max(7).min(31) as u8;
    bitm::optimal_combined_sampling(items, bits_len, most) as u32
}
