//! The kinds of blocks that hold the numbers of a text.
ghost use Rattle.std.specs.Prelude.{◌≡◌};
ghost use Rattle.program_files.specs.Kind.{kind_named, number_kind_in, order_of};

use std::fmt;

/// A kind of block that holds the numbers of a text.
#[derive(Clone, Copy, Debug, PartialEq, Eq)]
pub enum Kind {
    /// Bits with their index.
    Bits,
    /// A monotone sequence.
    Sequence,
    /// Bits with few 1 bits.
    Sparse,
    /// Numbers that are queried by value.
    Matrix,
    /// A tree.
    Tree,
}

impl fmt::Display for Kind {
    ghost use Rattle.std.specs.Prelude.{Some};
    ghost use Rattle.program_files.specs.Kind.{number_kind_text};

    ghost output = { λ k. Some (number_kind_text k) };

    fn fmt<W: fmt::Write>(&self, f: &mut fmt::Formatter<W>) -> fmt::Result {
        match self {
            Kind::Bits => write!(f, "bits"),
            Kind::Sequence => write!(f, "sequence"),
            Kind::Sparse => write!(f, "sparse"),
            Kind::Matrix => write!(f, "matrix"),
            Kind::Tree => write!(f, "tree"),
        }
    }
}

/// The kind of this name, if there is one.
pub(crate) fn kind_named(name: &str) -> Option<Kind>
    ensures { result ≡ kind_named name.now }
{
    if name == "bits" {
        Some(Kind::Bits)
    } else if name == "sequence" {
        Some(Kind::Sequence)
    } else if name == "sparse" {
        Some(Kind::Sparse)
    } else if name == "matrix" {
        Some(Kind::Matrix)
    } else if name == "tree" {
        Some(Kind::Tree)
    } else {
        None
    }
}

/// The kind that a block says it is of; `None` where it says that it is of another kind than these.
///
/// ```
/// kind_in(block.as_slice());   // Some(Kind::Tree) where the second word is 7
/// ```
pub fn kind_in(block: &[u64]) -> Option<Kind>
    ensures { result ≡ number_kind_in block.now }
{
    if block.len() < 2 {
        return None;
    }
    match block[1] {
        2 => Some(Kind::Bits),
        3 => Some(Kind::Sequence),
        4 => Some(Kind::Sparse),
        6 => Some(Kind::Matrix),
        7 => Some(Kind::Tree),
        _ => None,
    }
}

impl Kind {
    /// Whether the numbers of a text have an order, and if so whether no two of them may be the same.
    pub(crate) fn order(self) -> Option<bool>
        ensures { result ≡ order_of self }
    {
        match self {
            Kind::Sequence => Some(false),
            Kind::Sparse => Some(true),
            _ => None,
        }
    }
}
