//! How densely to sample, for a share of items.
ghost use Rattle.std.specs.Prelude.{◌≡◌, ◌+◌, ◌*◌, ◌^◌, ◌≤◌};
ghost use Rattle.bitm_strategies.specs.Density.{optimal_log};

/// The logarithm of how many items one sample is to stand for, where `n` of `len` bits are items: 7 to `max_result`.
///
/// Samples then take about the same share of memory whatever share of the bits is of the kind: with `max_result` M
/// there is no more than one sample for each 2^(M+1) / 3 bits, beside one for each upper block.
///
/// # Conditions
/// `max_result` is 7 to 31.
#[inline]
pub fn optimal_combined_sampling(n: usize, len: usize, max_result: u8) -> u8
    requires low { 7 ≤ max_result }
    requires high { max_result ≤ 31 }
    ensures value { result ≡ optimal_log n len max_result }
    ensures low { 7 ≤ result }
    ensures high { result ≤ max_result }
    ensures bound { n ≤ len → n * 2 ^ (max_result + 1) ≤ 3 * len * 2 ^ result }
{
    if 4 * n as u128 >= 3 * len as u128 {
        return max_result;
    }
    let rarer = n.min(len - n);
    if rarer == 0 {
        return 7;
    }
    max_result
        .saturating_sub((len / rarer).ilog2() as u8)
        .max(7)
}
