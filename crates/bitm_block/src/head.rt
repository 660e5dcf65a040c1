//! The numbers of a header.

/// The numbers of a header that its kind gives a meaning (`docs/FORMAT.md`); a kind that has none for one of them
/// writes 0.
///
/// ```
/// Head { kind: 7, len: 4, width: 0, ones_log2: 0, zeros_log2: 0, a: 0, b: 0, c: 0 };   // a tree of four nodes
/// ```
#[derive(Clone, Copy, Debug, PartialEq, Eq)]
pub struct Head {
    /// Which structure the block holds.
    pub kind: u64,
    /// How many items the structure has.
    pub len: u64,
    /// How many bits an item has.
    pub width: u64,
    /// The logarithm of the samples of 1 bits.
    pub ones_log2: u64,
    /// The logarithm of the samples of 0 bits.
    pub zeros_log2: u64,
    /// A number of the kind.
    pub a: u64,
    /// A number of the kind.
    pub b: u64,
    /// A number of the kind.
    pub c: u64,
}
