//! Strategies as a user of the library writes them, for ones and for zeros.
pub mod guarded;
pub mod listed;
pub mod scan;
