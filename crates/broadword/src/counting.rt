//! How many bits of words are 1, and how many are 0.
ghost use Rattle.std.specs.Prelude.{◌≡◌, ◌≤◌, count_ones};
ghost use Rattle.std.specs.Int.{count_zeros, w64};
ghost use Rattle.bit_lists.specs.Bits.{bits_of, IsShort};
ghost use Rattle.bit_lists.specs.Count.{ones_of, zeros_of};

#[inline(always)]
fn ones_in(word: &u64) -> usize
    ensures value { result ≡ count_ones word.now }
    ensures bound { result ≤ 64 }
{
    word.count_ones() as usize
}

#[inline(always)]
fn zeros_in(word: &u64) -> usize
    ensures value { result ≡ count_zeros w64 word.now }
    ensures bound { result ≤ 64 }
{
    word.count_zeros() as usize
}

/// How many bits are 1.
///
/// # Conditions
/// There are fewer than 2^58 words.
#[inline]
pub fn count_bit_ones(words: &[u64]) -> usize
    requires { IsShort words.now }
    ensures { result ≡ ones_of (bits_of words.now) }
{
    words.iter().map(ones_in).sum()
}

/// How many bits are 0.
///
/// # Conditions
/// There are fewer than 2^58 words.
#[inline]
pub fn count_bit_zeros(words: &[u64]) -> usize
    requires { IsShort words.now }
    ensures { result ≡ zeros_of (bits_of words.now) }
{
    words.iter().map(zeros_in).sum()
}
