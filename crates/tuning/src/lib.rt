//! The limits that depend on the machine: from which size on a call takes another way, and how many queries go side by
//! side. Another value gives the same answers within the same reads, or the check refuses it; what changes is the time.
//!
//! Beside each stands what was measured, and when in November 2026: always on the virtual machine of
//! `docs/PERFORMANCE.md` (four processors of an Intel Xeon at 2.5 GHz, Cascade Lake, L2 1 MiB per core, an L3 of
//! 36 MiB that other guests used too), built for x86-64-v2. Rows of `docs/plots/forms.csv` have the forms that were
//! compared. The numbers that a clause's bound on reads rests on, such as how far a search looks around a guess, stand
//! with the code.
//!
//! ```
//! if words.len() <= WORDS_AT_HAND {
//!     // no branch that could be mispredicted
//! } else {
//!     // fewer instructions, so that more queries wait for memory together
//! }
//! ```
#![tactic(auto)]

/// Up to this number of words, 2 MiB, a rank counts all words of a basic block, without a branch on where the count
/// ends; above, it tests before each word.
///
/// Measured on the 26th in a loop, by hand: at 2^20 bits halves of a basic block took 7.3 ns and masks 8.5; at 2^25
/// tests took 24 ns, halves 30 and masks 42.
pub const WORDS_AT_HAND: usize = 1 << 18;

/// Up to this number of words, 4 MiB, a selection counts all words of a basic block, without a branch on which of them
/// has the bit; above, it goes from word to word, from the nearer end where it knows both.
///
/// Measured by the 25th: up to 4 MiB seven counts took 0.80 (samples) and 0.92 (binary search) of the time of a loop;
/// with samples, at 2^28 bits, seven counts took 1.40 of the original's time where the loop took 0.96 to 1.20.
pub const WORDS_IN_CACHE: usize = 1 << 19;

/// Up to this number of words, 2 MiB, a read of up to 64 bits shifts two words side by side; above, it first tests
/// whether the bits cross into a second word.
///
/// Measured on the 25th, 13 bits: at 2^20 bits two words took 0.46 to 0.52 of the original's time, a test 0.95 to 1.10;
/// from 2^26 to 2^28 bits two words took 1.06 to 1.15.
pub const WORDS_READ_IN_PAIRS: usize = 1 << 18;

/// Up to this number of words, 256 KiB, the ranks of a list are counted one after another; above, in groups.
///
/// Measured on the 26th: groups are faster from 2^22 bits on. By hand at 2^20 bits, one after another took 8.6 ns a
/// rank and groups 9.5; at 2^28, in huge pages, lists took 40.4 ns a rank before there were groups, and 27.3 in them.
pub const WORDS_NEAR: usize = 1 << 15;

/// The number of ranks in a group, whose reads are all started before the first count: more than the cache misses that
/// a processor has in flight at once.
///
/// Measured on the 26th in huge pages: groups of 32 took 27.3 ns a rank at 2^28 bits and 33.2 at 2^30, a loop of single
/// calls 42.3 and 49.0.
pub const RANKS_SIDE_BY_SIDE: usize = 32;

/// The fewest ranks of a list that form a group: with fewer, setting up a group costs more than it saves.
///
/// Chosen on the 26th; the figures were not kept.
pub const FEWEST_RANKS: usize = 16;

/// The number of selections that go side by side: more than the cache misses that a processor has in flight at once.
/// Contracts name the number, 16.
///
/// Measured by the 25th: at 2^28 bits, each search of a list by itself took 1.2 of the time of 16 together.
pub const SELECTIONS_SIDE_BY_SIDE: usize = 16;

/// Where the bits lie evenly, a selection takes a guess in place of at least this many halvings of the entries of an
/// upper block: 2^5 entries.
///
/// Measured on the 28th: at 2^20 bits (2^9 entries) 39.4 ns for 58.5 by halvings alone; where bits do not lie evenly,
/// the guess costs 4 ns. With fewer entries halving is as fast.
pub const FEWEST_HALVINGS_TO_GUESS: u32 = 5;

/// Up to this number of entries, 64 KiB, a search of an upper block where the bits do not lie evenly is binary alone;
/// above, it narrows the entries by a guess.
///
/// Measured on the 22nd, with a limit of 2^12: even at 2^20 bits (2^9 entries); at 2^24, 153 ns for 144 before (ones),
/// 108 for 131 (zeros); at 2^28, 262 for 363 and 252 for 376. Moved to 2^13 on the 26th; the figures were not kept.
pub const FEW_ENTRIES: usize = 1 << 13;

/// The fewest entries of an upper block in which the selections of a list begin at a guess; with fewer, binary search
/// alone is as fast.
///
/// Measured on the 23rd: from 2^9 to 2^18 entries, a list took 0.34 to 0.43 of the time of single selections.
pub const FEWEST_ENTRIES_TO_GUESS: usize = 1 << 9;

/// With fewer entries than this between two samples, a single selection goes from its guess entry by entry: most
/// guesses are right, and the processor predicts the entry before it has read it. With more, it halves a window.
///
/// Measured on the 26th: steps and a window took 41 and 48 ns where half of the bits are 1, and 52 and 48 where one
/// in a hundred is.
pub const ENTRIES_TO_STEP: usize = 16;

/// With this number of entries or more between two samples, a guess between them is wrong too often to pay.
///
/// Chosen on the 26th; the figures were not kept.
pub const ENTRIES_TOO_FAR: usize = 512;

/// The number of look-ups of a perfect hash that go from level to level together: with fewer, the last levels would
/// leave too few to wait together. Contracts name the number, 256.
///
/// Chosen on the 24th; the figures were not kept.
pub const LOOK_UPS_SIDE_BY_SIDE: usize = 256;
