//! Rank and select over borrowed words and tables, such as a mapped file: nothing is allocated or copied, and no call
//! has a condition on what the tables hold.
//!
//! With the tables of the words the answers are plain counting. If the tables are stale or hostile, every call still
//! terminates within its read bound, a rank is at most its index, and any position that is returned is in the words and
//! holds the requested bit.
//!
//! ```
//! let (mut upper, mut lower) = ([0], [0; 2]);         // upper_len(40) and lower_len(40) entries
//! let ones = build(&words, &mut upper, &mut lower);   // Some(..) of 40 words
//! let Some(borrowed) = TablesView::over(&words, &upper, &lower) else { return };
//! borrowed.select::<1>(17);                               // Found(position), Absent or Wrong
//!
//! let (mut numbers, mut starts) = ([0; 20], [0]);     // samples_len(40, 7) and upper_len(40) numbers
//! let Some(used) = borrowed.build_samples::<1>(7, &mut numbers, &mut starts) else { return };
//! let samples = SamplesView { samples: &numbers[..used], starts: &starts, log2: 7 };
//! borrowed.sampled_select::<1>(&samples, 17);             // the same answers, by fewer reads
//! ```
#![tactic(auto)]

// What is in each file, over the tables of `tables_view`:
// - `block`: words, tables and samples of an index, built in one call
// - `view`: an index over borrowed memory, and its queries
// - `bits`: bits with their index in a block of memory, such as a mapped file
pub mod bits;
mod block;
mod view;

pub use bitm_select::search::selected::{NO_ANSWER, WRONG_TABLES};
pub use bitm_select::search::selecting::{ByTables, total_select_on};
pub use bitm_tables::answer::Answer;
pub use bitm_tables::ranking::total_rank_on;
pub use block::{build_block, has_block_room};
pub use tables_view::{
    ByGuess, SamplesView, TablesView, build, clear, clear_from, lower_len, ones_from, ranked_on,
    sampled_select_on, samples_len, upper_len,
};
pub use view::IndexView;
