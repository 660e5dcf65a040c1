//! Monotone integer sequences (Elias-Fano) over borrowed memory, such as a mapped file: nothing is allocated or copied,
//! and no call has a condition on what the memory holds.
//!
//! The parts are the same as in `elias_fano`, word by word: the low bits of each number, the words of the high bits,
//! and the two tables of these words; hints of these words may be added, by which a selection reads only a few of them.
//! With the parts that `build` wrote the answers are right for the numbers. If the parts are stale or hostile, every
//! call still terminates within its read bound.
//!
//! ```
//! let numbers = [2u64, 3, 5, 7, 11, 13, 24];
//! let sizes = Sizes::of(7, 24);                       // Some(..): the lengths of the parts
//! let width = build(&numbers, &mut low, &mut words, &mut upper, &mut lower);    // Ok(1)
//! let Some(borrowed) = TablesView::over(&words, &upper, &lower) else { return };
//! let Some(primes) = SequenceView::over(7, 1, &low, borrowed) else { return };
//! primes.check();             // true: these are the parts of a sequence
//! primes.get(4);              // Found(11)
//! primes.first_at_least(8);   // Found(4)
//! primes.first_at_least(25);  // Absent
//! ```
#![tactic(auto)]

// What is in each file:
// - `bucket`: the successor of a value from the ends of its bucket
// - `checking`: whether parts are those of a sequence
// - `error`: why numbers were refused
// - `filling`: the parts, written into the caller's memory
// - `lists`: lists of queries
// - `order`: where lists of numbers stop ascending, and where they pass a bound
// - `rising`: whether the low bits of neighbours rise
// - `sequence`: a sequence whose parts are borrowed
// - `sizes`: the lengths of the parts
mod bucket;
mod checking;
mod error;
mod filling;
mod lists;
mod order;
mod rising;
mod sequence;
mod sizes;

pub use bitm_tables::answer::Answer;
pub use elias_fano::{total_first_at_least_on, total_item_on};
pub use error::BuildError;
pub use filling::build;
pub use lists::ListAnswer;
pub use order::{first_above, first_fall};
pub use sequence::SequenceView;
pub use sizes::Sizes;
