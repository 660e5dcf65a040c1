//! Why a block was not extended.

use std::error::Error;
use std::fmt;

/// Why a block was not extended: the first reason that holds, in this order. The words to write to are as they were.
#[derive(Clone, Copy, Debug, PartialEq, Eq)]
pub enum ExtendError {
    /// The words are no block (`bitm_block::Block::open` says why).
    NotABlock,
    /// There are 16 sections already, the section has 2^58 items or more, or the block would have 2^60 words or more.
    TooLarge,
    /// The words of the section are more or fewer than its items take.
    WrongWords,
    /// The words to write to are more or fewer than the block takes.
    WrongLength,
    /// Some section of the block is not as it was written.
    NotVerified,
}

impl fmt::Display for ExtendError {
    ghost use Rattle.std.specs.Prelude.{Some};
    ghost use Rattle.block_sections.specs.Error.{extend_error_text};

    ghost output = { λ e. Some (extend_error_text e) };

    fn fmt<W: fmt::Write>(&self, f: &mut fmt::Formatter<W>) -> fmt::Result {
        match self {
            ExtendError::NotABlock => write!(f, "not a block"),
            ExtendError::TooLarge => write!(f, "too many sections or items"),
            ExtendError::WrongWords => write!(f, "not as many words as the items take"),
            ExtendError::WrongLength => write!(f, "not as long as the block"),
            ExtendError::NotVerified => write!(f, "a section is not as it was written"),
        }
    }
}

impl Error for ExtendError {}
