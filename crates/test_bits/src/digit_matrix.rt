//! Tests of levels of digits: levels worked out by hand, each query beside plain counting over the numbers, and memory
//! that holds anything.
// What is in each file:
// - `by_hand`: the words of a short list
// - `kept`: lists of numbers, their levels, and each query of these
// - `walks`: each query of each index and number beside a walk over the numbers
// - `wild`: levels in memory that holds anything
#[cfg(test)]
mod by_hand;
#[cfg(test)]
mod kept;
#[cfg(test)]
mod walks;
#[cfg(test)]
mod wild;
