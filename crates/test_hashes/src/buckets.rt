//! Hashes that are built of pseudo-random keys, and look-ups over parts that may hold anything.
#[cfg(test)]
mod hashes;
