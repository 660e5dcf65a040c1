//! Where lists of numbers stop ascending, and where they pass a bound.
ghost use Rattle.std.specs.Prelude.{◌≡◌, ◌≢◌, ℕ};
ghost use Rattle.bit_lists.specs.First.{IsFirst};
ghost use Rattle.elias_fano_view.specs.Order.{IsAboveAt, IsFallAt};

use bitm_abi::report_option;
use elias_fano_view::{first_above, first_fall};

/// The index of the first number that is less than the number before it or, if `strictly`, equal to it.
#[unsafe(no_mangle)]
pub extern "C" fn bitm_numbers_unsorted(numbers: &[u64], strictly: bool, out: &mut usize) -> u32
    ensures fall { result ≡ 0 → IsFirst (IsFallAt numbers.now strictly) out.new }
    ensures none { result ≢ 0 → (i : ℕ) → ¬ (IsFallAt numbers.now strictly i) }
    ensures kept { result ≢ 0 → (result ≡ 1) × (out.new ≡ out.old) }
{
    report_option(first_fall(numbers, strictly), out)
}

/// The index of the first number above `most`.
#[unsafe(no_mangle)]
pub extern "C" fn bitm_numbers_above(numbers: &[u64], most: u64, out: &mut usize) -> u32
    ensures above { result ≡ 0 → IsFirst (IsAboveAt numbers.now most) out.new }
    ensures none { result ≢ 0 → (i : ℕ) → ¬ (IsAboveAt numbers.now most i) }
    ensures kept { result ≢ 0 → (result ≡ 1) × (out.new ≡ out.old) }
{
    report_option(first_above(numbers, most), out)
}
