//! Where lists of numbers stop ascending, and where they pass a bound.
ghost use Rattle.bit_lists.specs.First.{MatchesFirst};
ghost use Rattle.elias_fano_view.specs.Order.{IsAboveAt, IsFallAt};

/// The index of the first number that is less than the number before it or, if `strictly`, equal to it.
///
/// # Cost
/// Reads each number up to there at most twice (evident from the code).
///
/// ```
/// first_fall(&[2, 5, 5, 3], false);   // Some(3): 3 is less than 5
/// first_fall(&[2, 5, 5, 3], true);    // Some(2)
/// ```
pub fn first_fall(numbers: &[u64], strictly: bool) -> Option<usize>
    ensures { MatchesFirst (IsFallAt numbers.now strictly) result }
{
    for i in 1..numbers.len() {
        if numbers[i] < numbers[i - 1] || (strictly && numbers[i] == numbers[i - 1]) {
            return Some(i);
        }
    }
    None
}

/// The index of the first number above `most`.
///
/// # Cost
/// Reads each number up to there once (evident from the code).
///
/// ```
/// first_above(&[2, 5, 5, 3], 4);   // Some(1)
/// ```
pub fn first_above(numbers: &[u64], most: u64) -> Option<usize>
    ensures { MatchesFirst (IsAboveAt numbers.now most) result }
{
    for i in 0..numbers.len() {
        if numbers[i] > most {
            return Some(i);
        }
    }
    None
}
