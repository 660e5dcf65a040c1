//! Why words are no block, and why none was written.

use std::error::Error;
use std::fmt;

/// Why words were not opened: the first reason that holds, in this order.
#[derive(Clone, Copy, Debug, PartialEq, Eq)]
pub enum OpenError {
    /// There are fewer than 16 words, the length of a header.
    TooShort,
    /// The first word does not have the letters `bitmtab`, lowest byte first.
    NotABlock,
    /// The version of the format is neither 3 nor 4.
    OtherVersion,
    /// The checksum of the header is wrong.
    WrongHeader,
    /// The header, which is as it was written, has a feature that this version does not have.
    UnknownFeature,
    /// The words are more or fewer than the header says.
    WrongLength,
    /// The directory has another checksum, or more than 16 sections, or they do not stand one after another up to the
    /// end of the block.
    WrongDirectory,
}

impl fmt::Display for OpenError {
    ghost use Rattle.std.specs.Prelude.{Some};
    ghost use Rattle.bitm_block.specs.Error.{open_error_text};

    ghost output = { λ e. Some (open_error_text e) };

    fn fmt<W: fmt::Write>(&self, f: &mut fmt::Formatter<W>) -> fmt::Result {
        match self {
            OpenError::TooShort => write!(f, "fewer words than a header has"),
            OpenError::NotABlock => write!(f, "not a block"),
            OpenError::OtherVersion => write!(f, "a block of another version"),
            OpenError::WrongHeader => write!(f, "the header is damaged"),
            OpenError::UnknownFeature => write!(f, "a feature of a later version"),
            OpenError::WrongLength => write!(f, "not as long as the header says"),
            OpenError::WrongDirectory => write!(f, "the directory is wrong"),
        }
    }
}

impl Error for OpenError {}

/// Why no block was written; the words are as they were.
#[derive(Clone, Copy, Debug, PartialEq, Eq)]
pub enum WriteError {
    /// There are more than 16 sections, one of them has 2^58 items or more, or the block would have 2^60 words or more.
    TooLarge,
    /// The words are more or fewer than the block takes.
    WrongLength,
}

impl fmt::Display for WriteError {
    ghost use Rattle.std.specs.Prelude.{Some};
    ghost use Rattle.bitm_block.specs.Error.{write_error_text};

    ghost output = { λ e. Some (write_error_text e) };

    fn fmt<W: fmt::Write>(&self, f: &mut fmt::Formatter<W>) -> fmt::Result {
        match self {
            WriteError::TooLarge => write!(f, "too many sections or items"),
            WriteError::WrongLength => write!(f, "not as long as the block"),
        }
    }
}

impl Error for WriteError {}
