//! Contents, numbers and queries that are drawn.
ghost use Rattle.std.specs.Prelude.{◌<◌};

use std::alloc::{AllocError, Global};

/// How the 1 bits of a bit vector lie.
#[derive(Clone, Copy)]
pub(crate) enum Kind {
    /// One bit in 64, drawn.
    Sparse,
    /// One in two, drawn.
    Even,
    /// Seven in eight, drawn.
    Dense,
    /// All in the last sixteenth.
    End,
    /// 1 bits and 0 bits by turns, 2^16 words of each.
    Blocks,
    /// Ever more of them, drawn.
    Ramp,
}

/// The kinds by their names.
const KINDS: [(&str, Kind); 6] = [
    ("sparse", Kind::Sparse),
    ("even", Kind::Even),
    ("dense", Kind::Dense),
    ("end", Kind::End),
    ("blocks", Kind::Blocks),
    ("ramp", Kind::Ramp),
];

impl Kind {
    /// The kind of this name.
    pub(crate) fn named(name: &str) -> Option<Kind> {
        for (of, kind) in KINDS {
            if of == name {
                return Some(kind);
            }
        }
        None
    }
}

/// The next number of a sequence that looks random.
pub(crate) fn draw(state: &mut u64) -> u64 {
    let mut n = *state;
    n ^= n.wrapping_mul(1 << 13);
    n ^= n >> 7;
    n ^= n.wrapping_mul(1 << 17);
    *state = n;
    n.wrapping_mul(0x2545_F491_4F6C_DD1D)
}

/// Word `at` of a bit vector of `len` words.
fn word(kind: Kind, at: usize, len: usize, state: &mut u64) -> u64 {
    let (a, b, c) = (draw(state), draw(state), draw(state));
    match kind {
        Kind::Sparse => 1 << (a % 64),
        Kind::Even => a,
        Kind::Dense => a | b | c,
        Kind::End => { if at / 15 >= len / 16 { u64::MAX } else { 0 } }
        Kind::Blocks => { if at / 65536 % 2 == 1 { u64::MAX } else { 0 } }
        Kind::Ramp => {
            let mask = if draw(state) as usize % len.max(1) < at {
                u64::MAX
            } else {
                a & b
            };
            mask & (a | c)
        }
    }
}

/// A bit vector of `len` words.
pub(crate) fn content(alloc: Global, kind: Kind, len: usize) -> Result<Vec<u64>, AllocError> {
    let mut state = 88_172_645_463_325_252;
    let mut words = Vec::with_capacity(alloc, len)?;
    for at in 0..len {
        words.push(word(kind, at, len, &mut state))?;
    }
    Ok(words)
}

/// Numbers below a limit, drawn evenly.
pub(crate) fn queries(alloc: Global, limit: usize) -> Result<Vec<usize>, AllocError> {
    let mut state = 2_463_534_242_088_117;
    let mut drawn = Vec::with_capacity(alloc, 1 << 17)?;
    for _ in 0..1 << 17 {
        drawn.push((draw(&mut state) % limit.max(1) as u64) as usize)?;
    }
    Ok(drawn)
}
