//! The levels of a wavelet matrix: a sequence of numbers as one bit of each number after another.
//!
//! At level 0 stands the highest bit of each number. Before the next level the numbers are partitioned by that bit,
//! those with a 0 first, each kind in its order. Here are the definitions of levels, of their tables and of what each
//! query answers, and what writes levels; `levels_view` has the queries, over words and tables that may hold anything.
#![tactic(auto)]

// What is in each file:
// - `digits`: the bits of a number
// - `numbers`: numbers of 64 or 32 bits, of which levels are written
// - `writing`: how a level is partitioned for the next
// - `lists`: lists of numbers
mod digits;
pub mod lists;
mod numbers;
mod writing;

pub use digits::{all_fit, digit_of, fits, known_for, without_lowest};
pub use numbers::LevelNumber;
pub use writing::{make_levels, quarters_unless, write_level_of, write_levels, write_levels_of};
