//! Writes of ranges and fragments: the kinds `set`, `xor`, `init` and `swap`.
ghost use Rattle.std.specs.Prelude.{◌≤◌, IfOk};
ghost use Rattle.bitm.specs.Bits.{IsShort};

use crate::conditions::{fits, is_clear, is_fragment_in_range, is_in_range};
use crate::content::State;
use crate::fault::Fault;
use crate::found::{Found, List};
use crate::text;
use crate::text::Base;
use bitm::{BitAccessMut, BitVec};
use std::alloc::Global;
use std::boxed::BoxedSlice;

/// A write of words.
#[derive(Clone, Copy)]
pub enum Change {
    Set,
    Xor,
    Swap,
}

/// The first bit, the width and the number that a line writes, with a width of at most `most`.
fn read_arguments(text: &str, most: u8) -> Result<(usize, u8, u64), Fault>
    ensures { IfOk result (λ arguments. arguments.1 ≤ most) }
{
    let (begin, rest) = text::first_word(text);
    let (len, number) = text::first_word(rest);
    let (begin, len) = (text::position(begin)?, text::width(len, most)?);
    Ok((begin, len, text::number(number, Base::Hexadecimal)?))
}

/// Writes a number.
fn set(words: &mut [u64], arguments: &str) -> Result<(), Fault>
    requires { IsShort words.now }
{
    let (begin, len, number) = read_arguments(arguments, 63)?;
    if !is_in_range(&*words, begin, len) || !fits(number, len) {
        return Err(Fault::Condition);
    }
    let mut borrowed = words;
    borrowed.set_bits(begin, number, len);
    Ok(())
}

/// Negates bits.
fn xor(words: &mut [u64], arguments: &str) -> Result<(), Fault>
    requires { IsShort words.now }
{
    let (begin, len, number) = read_arguments(arguments, 64)?;
    if !is_in_range(&*words, begin, len) {
        return Err(Fault::Condition);
    }
    let mut borrowed = words;
    borrowed.xor_bits(begin, number, len);
    Ok(())
}

/// Has two fragments change places.
fn swap(words: &mut [u64], arguments: &str) -> Result<(), Fault>
    requires { IsShort words.now }
{
    let (i, rest) = text::first_word(arguments);
    let (j, len) = text::first_word(rest);
    let (i, j, len) = (
        text::position(i)?,
        text::position(j)?,
        text::width(len, 63)?,
    );
    if !is_fragment_in_range(&*words, i, len) || !is_fragment_in_range(&*words, j, len) {
        return Err(Fault::Condition);
    }
    let mut borrowed = words;
    borrowed.swap_fragments(i, j, len);
    Ok(())
}

/// Compares the words after a write to a copy of them.
pub fn compare<'a>(
    alloc: Global,
    state: &State<'a>,
    line: &'a str,
    change: Change,
    found: &mut Found<'a>,
) -> Result<(), Fault> {
    let (text, theirs) = text::parts(line, " /")?;
    let (words, arguments) = state.content(text)?;
    let mut ours = Vec::from_slice(alloc, words)?;
    match change {
        Change::Set => set(ours.as_mut_slice(), arguments)?,
        Change::Xor => xor(ours.as_mut_slice(), arguments)?,
        Change::Swap => swap(ours.as_mut_slice(), arguments)?,
    }
    found.compare_list(
        alloc,
        text,
        Base::Hexadecimal,
        List::Words(ours.as_slice()),
        theirs,
    )
}

/// As many zero words as a text writes words.
fn zeros(alloc: Global, theirs: &str) -> Result<BoxedSlice<u64, Global>, Fault> {
    let count = text::list(alloc, theirs, Base::Hexadecimal)?.len();
    Ok(BoxedSlice::with_zeroed_64bit_segments(alloc, count)?)
}

/// Writes a number to bits that are zeros.
fn init_zeros(words: &mut [u64], arguments: &str) -> Result<(), Fault> {
    let (begin, len, number) = read_arguments(arguments, 64)?;
    let is_short = words.len() < 1 << 58;
    if !is_short || !is_in_range(&*words, begin, len) || !fits(number, len) {
        return Err(Fault::Condition);
    }
    if !is_clear(&*words, begin, len) {
        return Err(Fault::Condition);
    }
    let mut borrowed = words;
    borrowed.init_bits(begin, number, len);
    Ok(())
}

/// Compares the words after a number was written to zero words.
pub fn init<'a>(alloc: Global, line: &'a str, found: &mut Found<'a>) -> Result<(), Fault> {
    let (call, theirs) = text::parts(line, " /")?;
    let mut ours = zeros(alloc, theirs)?;
    init_zeros(ours.as_mut_slice(), call)?;
    found.compare_list(
        alloc,
        call,
        Base::Hexadecimal,
        List::Words(ours.as_slice()),
        theirs,
    )
}
