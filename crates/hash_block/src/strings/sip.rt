//! SipHash-1-3, by which strings are hashed: its state, a word at a time.
ghost use Rattle.std.specs.Prelude.{◌≡◌};
ghost use Rattle.hash_block.specs.SipHash.{finished, keyed, round, with_word};

/// The state of SipHash.
#[derive(Clone, Copy)]
pub(crate) struct Sip {
    v0: u64,
    v1: u64,
    v2: u64,
    v3: u64,
}

impl Sip {
    /// The state that the key of two numbers begins with.
    #[inline(always)]
    pub(crate) fn keyed(k0: u64, k1: u64) -> Sip
        ensures { result ≡ keyed k0 k1 }
    {
        Sip {
            v0: k0 ^ 0x736f_6d65_7073_6575,
            v1: k1 ^ 0x646f_7261_6e64_6f6d,
            v2: k0 ^ 0x6c79_6765_6e65_7261,
            v3: k1 ^ 0x7465_6462_7974_6573,
        }
    }

    /// The state after a round.
    #[inline(always)]
    #[tactic(auto, unfolding(crate::specs::SipHash::round))]
    fn round(self) -> Sip
        ensures { result ≡ round self }
    {
        let a0 = self.v0.wrapping_add(self.v1);
        let a2 = self.v2.wrapping_add(self.v3);
        let a1 = self.v1.rotate_left(13) ^ a0;
        let a3 = self.v3.rotate_left(16) ^ a2;
        let b0 = a0.rotate_left(32).wrapping_add(a3);
        let b2 = a2.wrapping_add(a1);
        Sip {
            v0: b0,
            v1: a1.rotate_left(17) ^ b2,
            v2: b2.rotate_left(32),
            v3: a3.rotate_left(21) ^ b0,
        }
    }

    /// The state after one more word.
    #[inline(always)]
    #[tactic(auto, unfolding(crate::specs::SipHash::with_word))]
    pub(crate) fn with_word(self, word: u64) -> Sip
        ensures { result ≡ with_word self word }
    {
        let Sip { v0, v1, v2, v3 } = self;
        let next = Sip {
            v0,
            v1,
            v2,
            v3: v3 ^ word,
        }
        .round();
        Sip {
            v0: next.v0 ^ word,
            v1: next.v1,
            v2: next.v2,
            v3: next.v3,
        }
    }

    /// The hash of the words so far.
    #[inline(always)]
    #[tactic(auto, unfolding(crate::specs::SipHash::finished))]
    pub(crate) fn finish(self) -> u64
        ensures { result ≡ finished self }
    {
        let Sip { v0, v1, v2, v3 } = self;
        let last = Sip {
            v0,
            v1,
            v2: v2 ^ 0xff,
            v3,
        }
        .round()
        .round()
        .round();
        last.v0 ^ last.v1 ^ last.v2 ^ last.v3
    }
}
