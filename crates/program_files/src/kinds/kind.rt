//! The kinds of blocks.
ghost use Rattle.std.specs.Prelude.{◌≡◌};
ghost use Rattle.program_files.specs.KindsKind.{hash_kind_in, kind_in, other_kind_in};

use std::fmt;

/// A kind of block.
#[derive(Clone, Copy)]
pub(crate) enum Kind {
    /// A kind whose blocks hold the numbers of a text.
    Numbers(crate::blocks::Kind),
    /// A perfect hash.
    Hash,
    /// A perfect hash with a seed for each word.
    SeededHash,
    /// A perfect hash with its keys: a dictionary of numbers.
    Dictionary,
    /// The index of a text.
    Text,
    /// A trie.
    Trie,
    /// Strings, each with a number.
    Strings,
}

impl fmt::Display for Kind {
    ghost use Rattle.std.specs.Prelude.{Some};
    ghost use Rattle.program_files.specs.KindsKind.{kind_text};

    ghost output = { λ k. Some (kind_text k) };

    fn fmt<W: fmt::Write>(&self, f: &mut fmt::Formatter<W>) -> fmt::Result {
        match self {
            Kind::Numbers(kind) => write!(f, "{kind}"),
            Kind::Hash => write!(f, "hash"),
            Kind::SeededHash => write!(f, "hash with seeds"),
            Kind::Dictionary => write!(f, "dictionary"),
            Kind::Text => write!(f, "text"),
            Kind::Trie => write!(f, "trie"),
            Kind::Strings => write!(f, "strings"),
        }
    }
}

/// The kind that a block says it is of, if there is such a kind.
pub(crate) fn kind_in(block: &[u64]) -> Option<Kind>
    ensures { result ≡ kind_in block.now }
{
    match crate::blocks::kind_in(block) {
        Some(kind) => Some(Kind::Numbers(kind)),
        None => other_kind_in(block),
    }
}

/// The kind that a block says it is of, if there is such a kind and its blocks do not hold the numbers of a text.
fn other_kind_in(block: &[u64]) -> Option<Kind>
    ensures { result ≡ other_kind_in block.now }
{
    if block.len() < 2 {
        return None;
    }
    match block[1] {
        5 => Some(hash_kind_in(block)),
        8 => Some(Kind::Text),
        9 => Some(Kind::Trie),
        10 => Some(Kind::Strings),
        12 => Some(Kind::Strings),
        _ => None,
    }
}

/// Which perfect hash the sections of a block belong to: one with seeds has the seeds before its sizes, and a
/// dictionary has its keys after them.
fn hash_kind_in(block: &[u64]) -> Kind
    ensures { result ≡ hash_kind_in block.now }
{
    if block.len() < 33 || block[11] < 5 {
        Kind::Hash
    } else if block[28] == 15 {
        Kind::SeededHash
    } else if block[32] == 5 {
        Kind::Dictionary
    } else {
        Kind::Hash
    }
}
