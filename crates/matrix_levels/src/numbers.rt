//! The numbers of a level while levels are written: of 64 bits, or of 32 where these are enough.
ghost use Rattle.std.specs.Prelude.{◌≡◌, ◌<◌, ◌^◌, ℕ};

/// A number of a level, as a machine keeps it.
pub trait LevelNumber: Copy {
    /// The number.
    ghost number_of: { Self → ℕ };

    /// The number, in 64 bits.
    fn number(self) -> u64
        ensures { result ≡ number_of self };
}

impl LevelNumber for u64 {
    ghost number_of = { λ s. s };

    #[inline(always)]
    fn number(self) -> u64 {
        self
    }
}

impl LevelNumber for u32 {
    ghost number_of = { λ s. s };

    #[inline(always)]
    fn number(self) -> u64 {
        self as u64
    }
}
