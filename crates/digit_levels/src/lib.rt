//! A wavelet matrix of four ways: the levels of a list of numbers by digits of two bits, in the caller's memory, which
//! may hold anything.
//!
//! At level 0 stands the highest digit of each number. Before the next level the numbers are sorted by that digit,
//! those with the same one in their order. `DigitLevels` answers about the numbers; each level takes one line and one
//! number of a table for a step.
//!
//! ```
//! let Some(levels) = DigitLevels::over(6, 3, &lines, &tables, &lesser) else { .. };
//! let mut probe = levels.probe();
//! levels.get_on(&mut probe, 4);       // Found(5), Absent or Wrong
//! levels.rank_on(&mut probe, 1, 4);   // Found(2), Absent or Wrong
//! ```
#![tactic(auto)]

// What is in each file:
// - `building`: the levels of numbers, written
// - `levels`: the levels in memory that may hold anything
// - `queries`: a number by its index, and a number's ranks
// - `selecting`: the indices of a number
// - `source`: the lines and the table of one level, whose reads are counted
// - `stepping`: the step from one level to the next
pub mod building;
pub mod levels;
mod queries;
mod selecting;
pub mod source;
mod stepping;

pub use bitm_tables::answer;
