//! Borrowed words with the two tables of an index, which may hold anything: built, checked, and queried by rank and
//! selection, with samples or without. Nothing is allocated or copied.
//!
//! With the tables of the words the answers are plain counting. If the tables are stale or hostile, every call still
//! terminates within its read bound, a rank is at most its index, and any position that is returned is in the words and
//! holds the requested bit. `bitm_view` cuts the bits at a length that is no multiple of 64.
#![tactic(auto)]

// What is in each file:
// - `checking`: whether tables are those of the words
// - `clearing`: clearing words and bits
// - `filling`: the two tables, written in one pass over the words
// - `guessed`: the entry of a rank by interpolation between two samples
// - `view`: borrowed words and tables
// - `lists`: lists of selections in all the words
// - `nearest`: the nearest bit on either side of a position
// - `positions`: the positions of 1 bits
// - `ranked`: rank over any tables
// - `sample_checks`: whether samples are those of the tables
// - `sampled`: selection from samples over any tables
// - `sampled_many`: selections from samples, side by side
// - `samples`: borrowed samples
// - `sampling`: samples, written from the tables
mod checking;
mod clearing;
mod filling;
mod guessed;
mod lists;
mod nearest;
mod positions;
mod ranked;
mod sample_checks;
mod sampled;
mod sampled_many;
mod samples;
mod sampling;
mod view;

pub use clearing::{clear, clear_from};
pub use filling::build;
pub use guessed::ByGuess;
pub use lists::select_list_on;
pub use nearest::{only_before, only_from};
pub use positions::ones_from;
pub use ranked::ranked_on;
pub use sampled::sampled_select_on;
pub use samples::{SamplesView, samples_len};
pub use view::{TablesView, is_one, lower_len, upper_len};
