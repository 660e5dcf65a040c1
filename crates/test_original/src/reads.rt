//! Reads of words: the kinds `bits`, `raw`, `find`, `rfind` and `trail`.
ghost use Rattle.bitm.specs.Bits.{IsShort};

use crate::content::State;
use crate::fault::Fault;
use crate::found::{Found, wide};
use crate::text;
use crate::text::Base;
use bitm::BitAccess;

/// A read of words.
#[derive(Clone, Copy)]
pub enum Read {
    /// The number that stands in a range.
    Bits,
    /// What an unmasked read of a range gives.
    Raw,
    /// The first 1 bit from a position on.
    First,
    /// The last 1 bit up to a position.
    Last,
}

/// The last one up to `start`, where there is one.
fn last_one(words: &[u64], start: usize) -> Result<usize, Fault>
    requires { IsShort words.now }
{
    match words.find_bit_one(0) {
        Some(first) if first <= start && start < 64 * words.len() => {
            Ok(words.rfind_bit_one_unchecked(start))
        }
        _ => Err(Fault::Condition),
    }
}

/// What a read of a range gives.
fn number_in(words: &[u64], range: &str, is_masked: bool) -> Result<Option<u64>, Fault> {
    let (begin, len) = text::parts(range, ",")?;
    let begin = text::position(begin)?;
    if is_masked {
        Ok(words.try_get_bits(begin, text::width(len, 63)?))
    } else {
        Ok(words.try_get_bits_unmasked(begin, text::width(len, 64)?))
    }
}

/// What a read gives for an argument.
fn answer(words: &[u64], read: Read, argument: &str) -> Result<Option<u64>, Fault>
    requires { IsShort words.now }
{
    match read {
        Read::Bits => number_in(words, argument, true),
        Read::Raw => number_in(words, argument, false),
        Read::First => Ok(wide(words.find_bit_one(text::position(argument)?))),
        Read::Last => Ok(wide(Some(last_one(words, text::position(argument)?)?))),
    }
}

/// Compares what reads give for the arguments of pairs.
pub fn compare<'a>(
    state: &State<'a>,
    line: &'a str,
    read: Read,
    base: Base,
    found: &mut Found<'a>,
) -> Result<(), Fault> {
    let (words, pairs) = state.content(line)?;
    for pair in pairs.split_ascii_whitespace() {
        let (argument, theirs) = text::parts(pair, ":")?;
        let ours = answer(words, read, argument)?;
        found.compare(argument, base, ours, theirs)?;
    }
    Ok(())
}

/// Compares the number of zeros before the first one.
pub fn trail<'a>(state: &State<'a>, line: &'a str, found: &mut Found<'a>) -> Result<(), Fault> {
    let (words, theirs) = state.content(line)?;
    let ours = words.trailing_zero_bits() as u64;
    found.compare(line, Base::Decimal, Some(ours), theirs)
}
