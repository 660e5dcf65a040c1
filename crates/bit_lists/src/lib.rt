//! Lists of bits: what bits, counts, positions and numbers in them are, and what that means for one another. No code
//! runs.
#![tactic(auto)]

pub mod laws;
