//! Rank and selection in a word; selection by arithmetic on all its bytes at once: no loop and no branch.
ghost use Rattle.std.specs.Prelude.{◌≡◌, ◌<◌, ◌≤◌, ◌+◌, ◌-◌, ◌*◌, ◌/◌, ◌%◌, ◌^◌, map, count_by, All};
ghost use Rattle.std.specs.Prelude.{count_ones, nat_le, true};
ghost use Rattle.std.specs.Int.{to_le_bytes, w64};
ghost use Rattle.std.specs.List.{range_with_len};
ghost use Rattle.bit_lists.specs.Bits.{low_digits};
ghost use Rattle.bit_lists.specs.Count.{ones_before, Picks};

/// How many 1 bits a word has up to bit `last`, that one included: the bits above it are shifted out.
///
/// # Conditions
/// `last` is below 64.
#[tactic(auto, using(crate::proofs::lemmas::InWordLemmas::ones_shifted))]
#[inline(always)]
pub fn ones_through(word: u64, last: usize) -> u32
    requires { last < 64 }
    ensures { result ≡ count_ones (word % 2 ^ (last + 1)) }
{
    (word << (63 - last)).count_ones()
}

/// The lowest bit of each byte.
const LOWEST_OF_EACH_BYTE: u64 = 0x0101_0101_0101_0101;

/// The highest bit of each byte.
const HIGHEST_OF_EACH_BYTE: u64 = 0x8080_8080_8080_8080;

/// A word whose byte k, lowest first, is the number of 1 bits in bytes 0 to k of `n`.
#[inline(always)]
pub fn byte_sums(n: u64) -> u64
    ensures { to_le_bytes w64 result
        ≡ map (λ k. ones_before (low_digits 64 n) (8 * (k + 1))) (range_with_len 0 8) }
{
    let pairs = n - ((n >> 1) & 0x5555_5555_5555_5555);
    let nibbles = (pairs & 0x3333_3333_3333_3333) + ((pairs >> 2) & 0x3333_3333_3333_3333);
    let bytes = (nibbles + (nibbles >> 4)) & 0x0F0F_0F0F_0F0F_0F0F;
    bytes.wrapping_mul(LOWEST_OF_EACH_BYTE)
}

/// For each number below 64 the word whose bytes are all 128 more.
#[rattlefmt::skip]
const BOUNDS: [u64; 64] = [
    0x8080_8080_8080_8080, 0x8181_8181_8181_8181, 0x8282_8282_8282_8282, 0x8383_8383_8383_8383,
    0x8484_8484_8484_8484, 0x8585_8585_8585_8585, 0x8686_8686_8686_8686, 0x8787_8787_8787_8787,
    0x8888_8888_8888_8888, 0x8989_8989_8989_8989, 0x8A8A_8A8A_8A8A_8A8A, 0x8B8B_8B8B_8B8B_8B8B,
    0x8C8C_8C8C_8C8C_8C8C, 0x8D8D_8D8D_8D8D_8D8D, 0x8E8E_8E8E_8E8E_8E8E, 0x8F8F_8F8F_8F8F_8F8F,
    0x9090_9090_9090_9090, 0x9191_9191_9191_9191, 0x9292_9292_9292_9292, 0x9393_9393_9393_9393,
    0x9494_9494_9494_9494, 0x9595_9595_9595_9595, 0x9696_9696_9696_9696, 0x9797_9797_9797_9797,
    0x9898_9898_9898_9898, 0x9999_9999_9999_9999, 0x9A9A_9A9A_9A9A_9A9A, 0x9B9B_9B9B_9B9B_9B9B,
    0x9C9C_9C9C_9C9C_9C9C, 0x9D9D_9D9D_9D9D_9D9D, 0x9E9E_9E9E_9E9E_9E9E, 0x9F9F_9F9F_9F9F_9F9F,
    0xA0A0_A0A0_A0A0_A0A0, 0xA1A1_A1A1_A1A1_A1A1, 0xA2A2_A2A2_A2A2_A2A2, 0xA3A3_A3A3_A3A3_A3A3,
    0xA4A4_A4A4_A4A4_A4A4, 0xA5A5_A5A5_A5A5_A5A5, 0xA6A6_A6A6_A6A6_A6A6, 0xA7A7_A7A7_A7A7_A7A7,
    0xA8A8_A8A8_A8A8_A8A8, 0xA9A9_A9A9_A9A9_A9A9, 0xAAAA_AAAA_AAAA_AAAA, 0xABAB_ABAB_ABAB_ABAB,
    0xACAC_ACAC_ACAC_ACAC, 0xADAD_ADAD_ADAD_ADAD, 0xAEAE_AEAE_AEAE_AEAE, 0xAFAF_AFAF_AFAF_AFAF,
    0xB0B0_B0B0_B0B0_B0B0, 0xB1B1_B1B1_B1B1_B1B1, 0xB2B2_B2B2_B2B2_B2B2, 0xB3B3_B3B3_B3B3_B3B3,
    0xB4B4_B4B4_B4B4_B4B4, 0xB5B5_B5B5_B5B5_B5B5, 0xB6B6_B6B6_B6B6_B6B6, 0xB7B7_B7B7_B7B7_B7B7,
    0xB8B8_B8B8_B8B8_B8B8, 0xB9B9_B9B9_B9B9_B9B9, 0xBABA_BABA_BABA_BABA, 0xBBBB_BBBB_BBBB_BBBB,
    0xBCBC_BCBC_BCBC_BCBC, 0xBDBD_BDBD_BDBD_BDBD, 0xBEBE_BEBE_BEBE_BEBE, 0xBFBF_BFBF_BFBF_BFBF,
];

/// For each byte and each rank below 8, at 8 times the byte and the rank, the position of the byte's 1 bit with that
/// rank; 8 where it has none.
#[rattlefmt::skip]
const PLACES: [u8; 2048] = [
    8, 8, 8, 8, 8, 8, 8, 8, 0, 8, 8, 8, 8, 8, 8, 8, 1, 8, 8, 8, 8, 8, 8, 8, 0, 1, 8, 8, 8, 8, 8, 8,
    2, 8, 8, 8, 8, 8, 8, 8, 0, 2, 8, 8, 8, 8, 8, 8, 1, 2, 8, 8, 8, 8, 8, 8, 0, 1, 2, 8, 8, 8, 8, 8,
    3, 8, 8, 8, 8, 8, 8, 8, 0, 3, 8, 8, 8, 8, 8, 8, 1, 3, 8, 8, 8, 8, 8, 8, 0, 1, 3, 8, 8, 8, 8, 8,
    2, 3, 8, 8, 8, 8, 8, 8, 0, 2, 3, 8, 8, 8, 8, 8, 1, 2, 3, 8, 8, 8, 8, 8, 0, 1, 2, 3, 8, 8, 8, 8,
    4, 8, 8, 8, 8, 8, 8, 8, 0, 4, 8, 8, 8, 8, 8, 8, 1, 4, 8, 8, 8, 8, 8, 8, 0, 1, 4, 8, 8, 8, 8, 8,
    2, 4, 8, 8, 8, 8, 8, 8, 0, 2, 4, 8, 8, 8, 8, 8, 1, 2, 4, 8, 8, 8, 8, 8, 0, 1, 2, 4, 8, 8, 8, 8,
    3, 4, 8, 8, 8, 8, 8, 8, 0, 3, 4, 8, 8, 8, 8, 8, 1, 3, 4, 8, 8, 8, 8, 8, 0, 1, 3, 4, 8, 8, 8, 8,
    2, 3, 4, 8, 8, 8, 8, 8, 0, 2, 3, 4, 8, 8, 8, 8, 1, 2, 3, 4, 8, 8, 8, 8, 0, 1, 2, 3, 4, 8, 8, 8,
    5, 8, 8, 8, 8, 8, 8, 8, 0, 5, 8, 8, 8, 8, 8, 8, 1, 5, 8, 8, 8, 8, 8, 8, 0, 1, 5, 8, 8, 8, 8, 8,
    2, 5, 8, 8, 8, 8, 8, 8, 0, 2, 5, 8, 8, 8, 8, 8, 1, 2, 5, 8, 8, 8, 8, 8, 0, 1, 2, 5, 8, 8, 8, 8,
    3, 5, 8, 8, 8, 8, 8, 8, 0, 3, 5, 8, 8, 8, 8, 8, 1, 3, 5, 8, 8, 8, 8, 8, 0, 1, 3, 5, 8, 8, 8, 8,
    2, 3, 5, 8, 8, 8, 8, 8, 0, 2, 3, 5, 8, 8, 8, 8, 1, 2, 3, 5, 8, 8, 8, 8, 0, 1, 2, 3, 5, 8, 8, 8,
    4, 5, 8, 8, 8, 8, 8, 8, 0, 4, 5, 8, 8, 8, 8, 8, 1, 4, 5, 8, 8, 8, 8, 8, 0, 1, 4, 5, 8, 8, 8, 8,
    2, 4, 5, 8, 8, 8, 8, 8, 0, 2, 4, 5, 8, 8, 8, 8, 1, 2, 4, 5, 8, 8, 8, 8, 0, 1, 2, 4, 5, 8, 8, 8,
    3, 4, 5, 8, 8, 8, 8, 8, 0, 3, 4, 5, 8, 8, 8, 8, 1, 3, 4, 5, 8, 8, 8, 8, 0, 1, 3, 4, 5, 8, 8, 8,
    2, 3, 4, 5, 8, 8, 8, 8, 0, 2, 3, 4, 5, 8, 8, 8, 1, 2, 3, 4, 5, 8, 8, 8, 0, 1, 2, 3, 4, 5, 8, 8,
    6, 8, 8, 8, 8, 8, 8, 8, 0, 6, 8, 8, 8, 8, 8, 8, 1, 6, 8, 8, 8, 8, 8, 8, 0, 1, 6, 8, 8, 8, 8, 8,
    2, 6, 8, 8, 8, 8, 8, 8, 0, 2, 6, 8, 8, 8, 8, 8, 1, 2, 6, 8, 8, 8, 8, 8, 0, 1, 2, 6, 8, 8, 8, 8,
    3, 6, 8, 8, 8, 8, 8, 8, 0, 3, 6, 8, 8, 8, 8, 8, 1, 3, 6, 8, 8, 8, 8, 8, 0, 1, 3, 6, 8, 8, 8, 8,
    2, 3, 6, 8, 8, 8, 8, 8, 0, 2, 3, 6, 8, 8, 8, 8, 1, 2, 3, 6, 8, 8, 8, 8, 0, 1, 2, 3, 6, 8, 8, 8,
    4, 6, 8, 8, 8, 8, 8, 8, 0, 4, 6, 8, 8, 8, 8, 8, 1, 4, 6, 8, 8, 8, 8, 8, 0, 1, 4, 6, 8, 8, 8, 8,
    2, 4, 6, 8, 8, 8, 8, 8, 0, 2, 4, 6, 8, 8, 8, 8, 1, 2, 4, 6, 8, 8, 8, 8, 0, 1, 2, 4, 6, 8, 8, 8,
    3, 4, 6, 8, 8, 8, 8, 8, 0, 3, 4, 6, 8, 8, 8, 8, 1, 3, 4, 6, 8, 8, 8, 8, 0, 1, 3, 4, 6, 8, 8, 8,
    2, 3, 4, 6, 8, 8, 8, 8, 0, 2, 3, 4, 6, 8, 8, 8, 1, 2, 3, 4, 6, 8, 8, 8, 0, 1, 2, 3, 4, 6, 8, 8,
    5, 6, 8, 8, 8, 8, 8, 8, 0, 5, 6, 8, 8, 8, 8, 8, 1, 5, 6, 8, 8, 8, 8, 8, 0, 1, 5, 6, 8, 8, 8, 8,
    2, 5, 6, 8, 8, 8, 8, 8, 0, 2, 5, 6, 8, 8, 8, 8, 1, 2, 5, 6, 8, 8, 8, 8, 0, 1, 2, 5, 6, 8, 8, 8,
    3, 5, 6, 8, 8, 8, 8, 8, 0, 3, 5, 6, 8, 8, 8, 8, 1, 3, 5, 6, 8, 8, 8, 8, 0, 1, 3, 5, 6, 8, 8, 8,
    2, 3, 5, 6, 8, 8, 8, 8, 0, 2, 3, 5, 6, 8, 8, 8, 1, 2, 3, 5, 6, 8, 8, 8, 0, 1, 2, 3, 5, 6, 8, 8,
    4, 5, 6, 8, 8, 8, 8, 8, 0, 4, 5, 6, 8, 8, 8, 8, 1, 4, 5, 6, 8, 8, 8, 8, 0, 1, 4, 5, 6, 8, 8, 8,
    2, 4, 5, 6, 8, 8, 8, 8, 0, 2, 4, 5, 6, 8, 8, 8, 1, 2, 4, 5, 6, 8, 8, 8, 0, 1, 2, 4, 5, 6, 8, 8,
    3, 4, 5, 6, 8, 8, 8, 8, 0, 3, 4, 5, 6, 8, 8, 8, 1, 3, 4, 5, 6, 8, 8, 8, 0, 1, 3, 4, 5, 6, 8, 8,
    2, 3, 4, 5, 6, 8, 8, 8, 0, 2, 3, 4, 5, 6, 8, 8, 1, 2, 3, 4, 5, 6, 8, 8, 0, 1, 2, 3, 4, 5, 6, 8,
    7, 8, 8, 8, 8, 8, 8, 8, 0, 7, 8, 8, 8, 8, 8, 8, 1, 7, 8, 8, 8, 8, 8, 8, 0, 1, 7, 8, 8, 8, 8, 8,
    2, 7, 8, 8, 8, 8, 8, 8, 0, 2, 7, 8, 8, 8, 8, 8, 1, 2, 7, 8, 8, 8, 8, 8, 0, 1, 2, 7, 8, 8, 8, 8,
    3, 7, 8, 8, 8, 8, 8, 8, 0, 3, 7, 8, 8, 8, 8, 8, 1, 3, 7, 8, 8, 8, 8, 8, 0, 1, 3, 7, 8, 8, 8, 8,
    2, 3, 7, 8, 8, 8, 8, 8, 0, 2, 3, 7, 8, 8, 8, 8, 1, 2, 3, 7, 8, 8, 8, 8, 0, 1, 2, 3, 7, 8, 8, 8,
    4, 7, 8, 8, 8, 8, 8, 8, 0, 4, 7, 8, 8, 8, 8, 8, 1, 4, 7, 8, 8, 8, 8, 8, 0, 1, 4, 7, 8, 8, 8, 8,
    2, 4, 7, 8, 8, 8, 8, 8, 0, 2, 4, 7, 8, 8, 8, 8, 1, 2, 4, 7, 8, 8, 8, 8, 0, 1, 2, 4, 7, 8, 8, 8,
    3, 4, 7, 8, 8, 8, 8, 8, 0, 3, 4, 7, 8, 8, 8, 8, 1, 3, 4, 7, 8, 8, 8, 8, 0, 1, 3, 4, 7, 8, 8, 8,
    2, 3, 4, 7, 8, 8, 8, 8, 0, 2, 3, 4, 7, 8, 8, 8, 1, 2, 3, 4, 7, 8, 8, 8, 0, 1, 2, 3, 4, 7, 8, 8,
    5, 7, 8, 8, 8, 8, 8, 8, 0, 5, 7, 8, 8, 8, 8, 8, 1, 5, 7, 8, 8, 8, 8, 8, 0, 1, 5, 7, 8, 8, 8, 8,
    2, 5, 7, 8, 8, 8, 8, 8, 0, 2, 5, 7, 8, 8, 8, 8, 1, 2, 5, 7, 8, 8, 8, 8, 0, 1, 2, 5, 7, 8, 8, 8,
    3, 5, 7, 8, 8, 8, 8, 8, 0, 3, 5, 7, 8, 8, 8, 8, 1, 3, 5, 7, 8, 8, 8, 8, 0, 1, 3, 5, 7, 8, 8, 8,
    2, 3, 5, 7, 8, 8, 8, 8, 0, 2, 3, 5, 7, 8, 8, 8, 1, 2, 3, 5, 7, 8, 8, 8, 0, 1, 2, 3, 5, 7, 8, 8,
    4, 5, 7, 8, 8, 8, 8, 8, 0, 4, 5, 7, 8, 8, 8, 8, 1, 4, 5, 7, 8, 8, 8, 8, 0, 1, 4, 5, 7, 8, 8, 8,
    2, 4, 5, 7, 8, 8, 8, 8, 0, 2, 4, 5, 7, 8, 8, 8, 1, 2, 4, 5, 7, 8, 8, 8, 0, 1, 2, 4, 5, 7, 8, 8,
    3, 4, 5, 7, 8, 8, 8, 8, 0, 3, 4, 5, 7, 8, 8, 8, 1, 3, 4, 5, 7, 8, 8, 8, 0, 1, 3, 4, 5, 7, 8, 8,
    2, 3, 4, 5, 7, 8, 8, 8, 0, 2, 3, 4, 5, 7, 8, 8, 1, 2, 3, 4, 5, 7, 8, 8, 0, 1, 2, 3, 4, 5, 7, 8,
    6, 7, 8, 8, 8, 8, 8, 8, 0, 6, 7, 8, 8, 8, 8, 8, 1, 6, 7, 8, 8, 8, 8, 8, 0, 1, 6, 7, 8, 8, 8, 8,
    2, 6, 7, 8, 8, 8, 8, 8, 0, 2, 6, 7, 8, 8, 8, 8, 1, 2, 6, 7, 8, 8, 8, 8, 0, 1, 2, 6, 7, 8, 8, 8,
    3, 6, 7, 8, 8, 8, 8, 8, 0, 3, 6, 7, 8, 8, 8, 8, 1, 3, 6, 7, 8, 8, 8, 8, 0, 1, 3, 6, 7, 8, 8, 8,
    2, 3, 6, 7, 8, 8, 8, 8, 0, 2, 3, 6, 7, 8, 8, 8, 1, 2, 3, 6, 7, 8, 8, 8, 0, 1, 2, 3, 6, 7, 8, 8,
    4, 6, 7, 8, 8, 8, 8, 8, 0, 4, 6, 7, 8, 8, 8, 8, 1, 4, 6, 7, 8, 8, 8, 8, 0, 1, 4, 6, 7, 8, 8, 8,
    2, 4, 6, 7, 8, 8, 8, 8, 0, 2, 4, 6, 7, 8, 8, 8, 1, 2, 4, 6, 7, 8, 8, 8, 0, 1, 2, 4, 6, 7, 8, 8,
    3, 4, 6, 7, 8, 8, 8, 8, 0, 3, 4, 6, 7, 8, 8, 8, 1, 3, 4, 6, 7, 8, 8, 8, 0, 1, 3, 4, 6, 7, 8, 8,
    2, 3, 4, 6, 7, 8, 8, 8, 0, 2, 3, 4, 6, 7, 8, 8, 1, 2, 3, 4, 6, 7, 8, 8, 0, 1, 2, 3, 4, 6, 7, 8,
    5, 6, 7, 8, 8, 8, 8, 8, 0, 5, 6, 7, 8, 8, 8, 8, 1, 5, 6, 7, 8, 8, 8, 8, 0, 1, 5, 6, 7, 8, 8, 8,
    2, 5, 6, 7, 8, 8, 8, 8, 0, 2, 5, 6, 7, 8, 8, 8, 1, 2, 5, 6, 7, 8, 8, 8, 0, 1, 2, 5, 6, 7, 8, 8,
    3, 5, 6, 7, 8, 8, 8, 8, 0, 3, 5, 6, 7, 8, 8, 8, 1, 3, 5, 6, 7, 8, 8, 8, 0, 1, 3, 5, 6, 7, 8, 8,
    2, 3, 5, 6, 7, 8, 8, 8, 0, 2, 3, 5, 6, 7, 8, 8, 1, 2, 3, 5, 6, 7, 8, 8, 0, 1, 2, 3, 5, 6, 7, 8,
    4, 5, 6, 7, 8, 8, 8, 8, 0, 4, 5, 6, 7, 8, 8, 8, 1, 4, 5, 6, 7, 8, 8, 8, 0, 1, 4, 5, 6, 7, 8, 8,
    2, 4, 5, 6, 7, 8, 8, 8, 0, 2, 4, 5, 6, 7, 8, 8, 1, 2, 4, 5, 6, 7, 8, 8, 0, 1, 2, 4, 5, 6, 7, 8,
    3, 4, 5, 6, 7, 8, 8, 8, 0, 3, 4, 5, 6, 7, 8, 8, 1, 3, 4, 5, 6, 7, 8, 8, 0, 1, 3, 4, 5, 6, 7, 8,
    2, 3, 4, 5, 6, 7, 8, 8, 0, 2, 3, 4, 5, 6, 7, 8, 1, 2, 3, 4, 5, 6, 7, 8, 0, 1, 2, 3, 4, 5, 6, 7,
];

/// The word whose bytes are all 128 more than `r`. At most 64 may be taken from each byte: none borrows from the next,
/// and a byte keeps its highest bit exactly where at most `r` was taken. The table saves a product.
#[inline(always)]
fn bounds(r: u8) -> u64
    requires { r ≤ 63 }
    ensures { result ≡ (128 + r) * 0x0101_0101_0101_0101 }
{
    BOUNDS[r as usize]
}

/// How many of the eight bytes of `sums` are at most `r`.
///
/// # Conditions
/// Each of the bytes is at most 64, and `r` is at most 63.
#[inline(always)]
pub fn bytes_at_most(sums: u64, r: u8) -> u8
    requires small { All (λ s. s ≤ 64) (to_le_bytes w64 sums) }
    requires below { r ≤ 63 }
    ensures { result ≡ count_by (λ s. nat_le s r) (to_le_bytes w64 sums) }
{
    let kept = bounds(r) - sums;
    (kept & HIGHEST_OF_EACH_BYTE).count_ones() as u8
}

/// What is left of `rank` at each byte of `n`: byte k is 128 more than the rank, less the 1 bits in the bytes before
/// it.
#[inline(always)]
fn ranks_left(n: u64, rank: u8) -> u64
    requires { rank ≤ 63 }
    ensures { to_le_bytes w64 result
        ≡ map (λ k. 128 + rank - ones_before (low_digits 64 n) (8 * k)) (range_with_len 0 8) }
{
    // The compiler makes the shift part of the product of `byte_sums`.
    bounds(rank) - (byte_sums(n) << 8)
}

/// The position of the 1 bit of `byte` with `rank` 1 bits before it.
#[inline(always)]
fn select_in_byte(byte: u8, rank: u8) -> u8
    requires { rank < ones_before (low_digits 8 byte) 8 }
    ensures { Picks (low_digits 8 byte) true rank result }
{
    PLACES[byte as usize * 8 + rank as usize]
}

/// The position of the 1 bit of `n` with `rank` 1 bits before it. For a 0 bit, pass `!n`.
///
/// # Conditions
/// `n` has more than `rank` 1 bits.
/// # Source
/// Vigna, "Broadword Implementation of Rank/Select Queries" (WEA 2008), here with one product: one difference with it
/// says for each byte whether no more than `rank` 1 bits stand before it, and what these leave of the rank. A table of
/// 2 KiB has the position in the last of these bytes.
#[inline(always)]
pub fn select64(n: u64, rank: u8) -> u8
    requires { rank < ones_before (low_digits 64 n) 64 }
    ensures inside { result < 64 }
    ensures picked { Picks (low_digits 64 n) true rank result }
{
    let ranks = ranks_left(n, rank);
    let position = 8 * (bytes_at_most(byte_sums(n) << 8, rank) - 1);
    let left = ((ranks >> position) & 0x3F) as u8;
    position + select_in_byte(((n >> position) & 0xFF) as u8, left)
}
