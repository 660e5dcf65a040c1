//! What a user gives: a hash of a key; and hashes that serve.
ghost use Rattle.std.specs.Prelude.{◌≡◌, ℕ, fold};
ghost use Rattle.perfect_hash.specs.Hashing.{seeded, seeded_bytes};

use std::hash::{FoldHasher, Hash, Hasher};

/// A hash of keys. Its only law is that it is a function of the hasher and the key: what a perfect hash answers is
/// proved whatever it does. A bad one costs bits, or ends in `KeysCollide`.
pub trait KeyHash<K> {
    /// The hash of a key.
    ghost hash: { Self → K → ℕ };

    /// The hash of a key: 64 bits; each bit should depend on all of the key. Two keys of one hash collide.
    fn hash(&self, key: &K) -> u64
        ensures { result ≡ hash self.now key.now };
}

/// Hashes any key that has std's `Hash`, as integers, `&str` and tuples, by std's fast hasher over the seed and the
/// key. Where keys collide, another seed may give them different hashes. An attacker who knows the seed can make keys
/// that collide.
#[derive(Clone, Copy, Debug)]
pub struct Seeded {
    /// What is hashed before each key.
    pub seed: u64,
}

impl<K: Hash> KeyHash<K> for Seeded {
    ghost hash = { λ s key. seeded s.seed (K.hash_input key) };

    #[inline(always)]
    fn hash(&self, key: &K) -> u64 {
        let mut state = FoldHasher::default();
        state.write_u64(self.seed);
        key.hash(&mut state);
        state.finish()
    }
}

/// Hashes slices of bytes as `Seeded` does, but all bytes of a key at once, which `Seeded` hashes one by one.
#[derive(Clone, Copy, Debug)]
pub struct SeededBytes {
    /// What is hashed before each key.
    pub seed: u64,
}

impl<'a> KeyHash<&'a [u8]> for SeededBytes {
    ghost hash = { λ s key. seeded_bytes s.seed key.now };

    #[inline(always)]
    fn hash(&self, key: &&'a [u8]) -> u64 {
        let mut state = FoldHasher::default();
        state.write_u64(self.seed);
        state.write(*key);
        state.finish()
    }
}
