//! Bit vectors that end inside a word, by value: words, and how many of their bits count. What lies after these bits is
//! neither an answer nor changed.
// What is in each file:
// - `comparing`: whether a bit vector has bits of one kind wherever another has 1 bits
// - `copying`: copies of ranges of bits
// - `counting`: the number of 1 bits or 0 bits among the first bits of words
// - `equality`: comparisons of ranges of bits
// - `filling`: numbers that are all set to one value
// - `listed`: bits at a list of positions that are all set to one value
// - `nearest`: the nearest 1 bit or 0 bit of a position
// - `numbers`: reads of numbers
// - `numbers_mut`: writes of numbers
// - `positions`: the positions of 1 bits or 0 bits, written into the caller's memory
mod comparing;
mod copying;
mod counting;
mod equality;
mod filling;
mod listed;
mod nearest;
mod numbers;
mod numbers_mut;
mod positions;

pub use comparing::has_where;
pub use copying::copy_range;
pub use counting::{count_in, count_range_in};
pub use equality::is_equal_range;
pub use filling::fill_fragments_in;
pub use listed::set_listed_in;
pub use nearest::{next_in, previous_in};
pub use numbers::{fragment_in, number_in};
pub use numbers_mut::{set_fragment_in, set_number_in, swap_fragments_in, xor_number_in};
pub use positions::positions_in;
