//! Digits 0 to 3 in lines of eight words, with the counts before the middle of each line, and a table of four counts
//! for each 256 lines: rank of a digit reads one line and one number of the table.
#![tactic(auto)]

// What is in each file:
// - `building`: lines and table, written from a list of numbers
// - `checking`: whether lines and table hold the counts of the digits
// - `counting`: the counts of a line, and the numbers of the table
// - `laws`: laws of the definitions
// - `line`: one line: its digits, and a count among them by masks
// - `ranking`: the digit at a position, and rank of a digit
// - `selecting`: selection of a digit by the counts
// - `sizes`: how many words lines and table take
// - `source`: sources of lines and a table, whose reads are counted
pub mod building;
pub mod checking;
pub mod counting;
pub mod laws;
pub mod line;
pub mod ranking;
pub mod selecting;
pub mod sizes;
pub mod source;

pub use bitm_tables::answer;
