//! Code of a user of the library, proved: short files to copy from, each with a head that says what the file shows.
//!
//! | To do | File |
//! |---|---|
//! | build an index over your words and query it | `readme` |
//! | write bits of an array, a boxed slice, a vector, and read them; append words | `writing` |
//! | make words in code that is generic over the vector, or piece by piece | `owned` |
//! | iterate over the positions of 1 bits, or over bits, in a `for` | `iterating` |
//! | add to a set of numbers, and combine several, word by word | `sets` |
//! | clear bits in a loop, and keep a set of numbers | `sieve` |
//! | relate rank and selection in code that is generic over the index | `inverse` |
//! | intersect two lists of rising numbers | `inverted` |
//! | find the numbers of a range, and know what is read | `between` |
//! | number the members of a set densely, and find a member by its number | `dense` |
//! | keep values by the numbers of a perfect hash | `numbered` |
//! | find them over levels that came from elsewhere and may be wrong | `numbered_borrowed` |
//! | store several bit vectors in one, under one index | `stretches` |
//! | test a condition and then call | `asking` |
//! | test a bit and rank it, in code that is generic over the index or the source | `bits_and_ranks` |
//! | find the run of 1 bits around a position, and a member of a range | `neighbours` |
//! | run many queries at once | `many` |
//! | take the median of a range | `median` |
//! | go up and down a tree | `family` |
//! | know what a call reads | `counted` |
//! | rank and select over your own tables | `source` |
//! | query tables that came with the words and may be wrong | `borrowed` |
//! | index your own array by ranks of such tables | `ranked` |
//! | query the parts of a sequence that came from elsewhere and may be wrong | `borrowed_sequence` |
//! | select from samples that may be stale | `sampled` |
//! | select over a source or by an index in one body, and in a way of your own | `selection` |
//! | select by your own strategy | `strategies` |
//! | sample by your own density | `density` |
#![tactic(auto)]

pub mod asking;
pub mod between;
pub mod bits_and_ranks;
pub mod borrowed;
pub mod borrowed_sequence;
pub mod counted;
pub mod dense;
pub mod density;
pub mod family;
pub mod inverse;
pub mod inverted;
pub mod iterating;
pub mod many;
pub mod median;
pub mod neighbours;
pub mod numbered;
pub mod numbered_borrowed;
pub mod owned;
pub mod ranked;
pub mod readme;
pub mod sampled;
pub mod selection;
pub mod sets;
pub mod sieve;
pub mod source;
pub mod strategies;
pub mod stretches;
pub mod writing;
