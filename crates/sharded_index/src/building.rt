//! Prefix counts, made of the numbers of each shard.
ghost use Rattle.std.specs.Prelude.{◌≡◌, ◌+◌, ◌<◌, ◌^◌, ◌↔◌, false, IsTrue, SomeIff, length, sum};
ghost use Rattle.sharded_index.specs.Joined.{IsPrefixSums};

/// The sum of all numbers; `None` exactly where it is 2^64 or more.
fn sum_of(numbers: &[u64]) -> Option<u64>
    ensures { SomeIff result (sum numbers.now < 2 ^ 64) (sum numbers.now) }
{
    let mut sum = 0u64;
    for number in numbers {
        sum = sum.checked_add(*number)?;
    }
    Some(sum)
}

/// Writes the sum of the numbers before each number, and at the end the sum of all, which fits.
fn write_sums(numbers: &[u64], out: &mut [u64])
    requires room { length out.old ≡ length numbers.now + 1 }
    requires fits { sum numbers.now < 2 ^ 64 }
    ensures { IsPrefixSums numbers.now out.new }
{
    let mut sum = 0;
    out[0] = 0;
    for at in 0..numbers.len() {
        sum += numbers[at];
        out[at + 1] = sum;
    }
}

/// Writes the sum of the numbers before each number, and at the end the sum of all. Answers false exactly where there
/// is not room for one more than numbers, or their sum is 2^64 or more, and nothing is written then.
pub fn prefix_sums(numbers: &[u64], out: &mut [u64]) -> bool
    ensures room { IsTrue result ↔ (length out.old ≡ length numbers.now + 1) × (sum numbers.now < 2 ^ 64) }
    ensures sums { IsTrue result → IsPrefixSums numbers.now out.new }
    ensures kept { result ≡ false → out.new ≡ out.old }
{
    if out.len() != numbers.len() + 1 {
        return false;
    }
    match sum_of(numbers) {
        Some(_) => {
            write_sums(numbers, out);
            true
        }
        None => false,
    }
}

/// Whether a number is the sum of two others.
#[inline(always)]
fn is_sum(sum: u64, before: u64, number: u64) -> bool
    ensures { IsTrue result ↔ (sum ≡ before + number) }
{
    sum >= before && sum - before == number
}

/// Whether numbers are the prefix sums of others.
pub fn are_prefix_sums(numbers: &[u64], sums: &[u64]) -> bool
    ensures { IsTrue result ↔ IsPrefixSums numbers.now sums.now }
{
    if sums.len() != numbers.len() + 1 || sums[0] != 0 {
        return false;
    }
    for at in 0..numbers.len() {
        if !is_sum(sums[at + 1], sums[at], numbers[at]) {
            return false;
        }
    }
    true
}
