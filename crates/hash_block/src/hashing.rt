//! How the numbers of a dictionary are hashed.
ghost use Rattle.hash_block.specs.Dictionary.{hashed};

use perfect_hash::levels::KeyHash;

/// Hashes a number by its sum with a seed, modulo 2^64: no two numbers have one hash, and a dictionary needs no other
/// mixing, since each level spreads the hash by a number of its own.
///
/// ```
/// Added { seed: 7 }.hash(&5);   // 12
/// ```
#[derive(Clone, Copy, Debug)]
pub struct Added {
    /// What is added to each number.
    pub seed: u64,
}

impl KeyHash<u64> for Added {
    ghost hash = { hashed };

    #[inline(always)]
    fn hash(&self, key: &u64) -> u64 {
        key.wrapping_add(self.seed)
    }
}
